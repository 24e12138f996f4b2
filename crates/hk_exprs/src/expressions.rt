//! The expressions that tokens say.

ghost use Rattle.std.specs.Prelude.{◌≡◌, ◌++◌, All, Err, IfOk, IfSome, IsNone};
ghost use Rattle.std.specs.Result.{result_map_both};
ghost use Rattle.hk_text.specs.Texts.{texts_of};
ghost use Rattle.hk_terms.specs.CondTexts.{CondText, cond_texts, IsCondText};
ghost use Rattle.hk_terms.specs.Names as names;
ghost use Rattle.hk_terms.specs.NumTexts.{NumText, num_texts, IsNumText};
ghost use Rattle.hk_terms.specs.Outcomes.{IsFew, IsNumOf};
ghost use Rattle.hk_exprs.specs.Reads.{IsPairOf, ReadsCond, ReadsNum, ReadsPair, ReadsSet};
ghost use Rattle.hk_text.specs.Tokens.{IsTokenIn};
ghost use Rattle.hk_terms.specs.SetTexts.{SetText, set_texts, IsSetText};

use crate::operands::Tree;
use crate::resolving::{as_cond, as_num, as_set};
use crate::running::{run_to_one, run_to_two};
use hk_spec::{Cond, NumExpr, SetExpr};
use hk_terms::{Flaw, Names};
use hk_text::Token;
use std::alloc::{AllocError, Global};

/// The condition that the tokens say, where they say one.
pub fn read_cond(
    alloc: Global,
    line: &[u8],
    tokens: &[Token],
    names: &Names<'_>,
) -> Result<Option<Result<Cond, Flaw>>, AllocError>
    requires tokens { All (IsTokenIn line.now) tokens.now }
    requires few { IsFew names.now }
    ensures some { IfOk result (λ read. IfSome read (ReadsCond names.now (texts_of line.now tokens.now))) }
    ensures none { IfOk result (λ read. IsNone read → (text : CondText) → IsCondText text → texts_of line.now tokens.now ≡ cond_texts text → ⊥) }
{
    let Some(operand) = run_to_one(alloc, line, tokens, names)? else {
        return Ok(None);
    };
    match as_cond(operand) {
        None => Ok(None),
        Some(made) => Ok(Some(root_of(made))),
    }
}

/// The expression of a number that the tokens say, where they say one.
pub fn read_num(
    alloc: Global,
    line: &[u8],
    tokens: &[Token],
    names: &Names<'_>,
) -> Result<Option<Result<NumExpr, Flaw>>, AllocError>
    requires tokens { All (IsTokenIn line.now) tokens.now }
    requires few { IsFew names.now }
    ensures some { IfOk result (λ read. IfSome read (ReadsNum names.now (texts_of line.now tokens.now))) }
    ensures none { IfOk result (λ read. IsNone read → (text : NumText) → IsNumText text → texts_of line.now tokens.now ≡ num_texts text → ⊥) }
{
    let Some(operand) = run_to_one(alloc, line, tokens, names)? else {
        return Ok(None);
    };
    match as_num(names, operand) {
        None => Ok(None),
        Some(made) => Ok(Some(root_of(made))),
    }
}

/// The two expressions of numbers that the tokens say, side by side, where they say two.
pub fn read_pair(
    alloc: Global,
    line: &[u8],
    tokens: &[Token],
    names: &Names<'_>,
) -> Result<Option<Result<(NumExpr, NumExpr), Flaw>>, AllocError>
    requires tokens { All (IsTokenIn line.now) tokens.now }
    requires few { IsFew names.now }
    ensures some { IfOk result (λ read. IfSome read (ReadsPair names.now (texts_of line.now tokens.now))) }
    ensures none { IfOk result (λ read. IsNone read → (low high : NumText) → IsNumText low → IsNumText high → texts_of line.now tokens.now ≡ num_texts low ++ num_texts high → ⊥) }
{
    let Some((low, high)) = run_to_two(alloc, line, tokens, names)? else {
        return Ok(None);
    };
    let Some(low) = as_num(names, low) else {
        drop(high);
        return Ok(None);
    };
    let Some(high) = as_num(names, high) else {
        drop(low);
        return Ok(None);
    };
    Ok(Some(both_of(root_of(low), root_of(high))))
}

/// The expression of a set that the tokens say, where they say one.
pub fn read_set(
    alloc: Global,
    line: &[u8],
    tokens: &[Token],
    names: &Names<'_>,
) -> Result<Option<Result<SetExpr, Flaw>>, AllocError>
    requires tokens { All (IsTokenIn line.now) tokens.now }
    requires few { IsFew names.now }
    ensures some { IfOk result (λ read. IfSome read (ReadsSet names.now (texts_of line.now tokens.now))) }
    ensures none { IfOk result (λ read. IsNone read → (text : SetText) → IsSetText text → texts_of line.now tokens.now ≡ set_texts text → ⊥) }
{
    let Some(operand) = run_to_one(alloc, line, tokens, names)? else {
        return Ok(None);
    };
    match as_set(names, operand) {
        None => Ok(None),
        Some(made) => Ok(Some(root_of(made))),
    }
}

/// The expression, or what is wrong with it.
fn root_of<T: Drop>(made: Result<Tree<T>, Flaw>) -> Result<T, Flaw>
    ensures { result ≡ result_map_both (λ tree. tree.root) (λ flaw. flaw) made }
{
    let Tree { root, depth: _ } = made?;
    Ok(root)
}

/// Both expressions, or what is wrong with one of them.
fn both_of(
    low: Result<NumExpr, Flaw>,
    high: Result<NumExpr, Flaw>,
) -> Result<(NumExpr, NumExpr), Flaw>
    ensures { (names : names.Names) (a b : NumText) → IsNumOf names a low → IsNumOf names b high → IsPairOf names a b result }
{
    match low {
        Err(flaw) => Err(first_flaw(flaw, high)),
        Ok(low) => match high {
            Err(flaw) => {
                drop(low);
                Err(flaw)
            }
            Ok(high) => Ok((low, high)),
        },
    }
}

/// What is wrong with two expressions of which the first has this flaw: first a name, then a limit.
fn first_flaw(flaw: Flaw, high: Result<NumExpr, Flaw>) -> Flaw
    ensures { (names : names.Names) (a b : NumText) → IsNumOf names a (Err flaw) → IsNumOf names b high → IsPairOf names a b (Err result) }
{
    match flaw {
        Flaw::Name => {
            drop(high);
            Flaw::Name
        }
        Flaw::Limit => match high {
            Err(Flaw::Name) => Flaw::Name,
            Err(Flaw::Limit) => Flaw::Limit,
            Ok(high) => {
                drop(high);
                Flaw::Limit
            }
        },
    }
}
