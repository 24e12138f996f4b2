//! The tokens of an expression, taken one by one.

ghost use Rattle.std.specs.Prelude.{◌≡◌, ◌∷◌, ◌<◌, ◌≤◌, List as Seq, ℕ, Ok, false, true, length, All, IfOk, IfSome, IsNone, codes};
ghost use Rattle.hk_text.specs.Texts.{texts_of};
ghost use Rattle.hk_terms.specs.Atoms.{IsBitsOf, ReadsAtom};
ghost use Rattle.hk_exprs.specs.inside.Machines as machine;
ghost use Rattle.hk_terms.specs.Names as names;
ghost use Rattle.hk_terms.specs.Names.{NamesNum, num_depth};
ghost use Rattle.hk_terms.specs.NumTexts as nums;
ghost use Rattle.hk_terms.specs.Outcomes.{IsFew, IsNumOf};
ghost use Rattle.hk_text.specs.Tokens.{IsTokenIn};
ghost use Rattle.hk_terms.specs.SetTexts as sets;
ghost use Rattle.hk_exprs.specs.inside.Standing.{AreKept, IsKept, IsKeptFrame, IsMadeNum, IsMadeSet};

use crate::frames::Frame;
use crate::operands::{MadeNum, MadeSet, Operand};
use crate::placing::{closed, place, received};
use crate::resolving::{leaf, num_literal};
use hk_base::List;
use hk_spec::{NumExpr, SetExpr};
use hk_terms::{Atom, Flaw, Mark, Names, atom_of, high_named, item_named, low_named, mark_of};
use hk_text::{Token, after_text, number_of, text_of};
use std::alloc::{AllocError, Global};

/// A parenthesis is opened.
fn opened<'a>(inner: Frame<'a>, outer: &mut List<Frame<'a>>) -> Result<Frame<'a>, AllocError>
    ensures { IfOk result (λ next. (names : names.Names) (f : machine.Frame) (frames : Seq machine.Frame) → IsKeptFrame names f inner.entry → AreKept names frames outer.old → IsKeptFrame names machine.Empty next × AreKept names (f ∷ frames) outer.new) }
{
    outer.push(inner)?;
    Ok(Frame::Empty)
}

/// A parenthesis is closed.
#[tactic(none)]
fn shut<'a>(
    alloc: Global,
    names: &Names<'_>,
    inner: Frame<'a>,
    outer: &mut List<Frame<'a>>,
) -> Result<Option<Frame<'a>>, AllocError>
    requires few { IsFew names.now }
    requires kept { (f : machine.Frame) × IsKeptFrame names.now f inner }
    ensures some { IfOk result (λ read. IfSome read (λ next. (f : machine.Frame) (frames : Seq machine.Frame) (texts rest : Seq (Seq ℕ)) → IsKeptFrame names.now f inner.entry → AreKept names.now frames outer.old → texts ≡ codes ")" ∷ rest
        → (n : machine.Frame) × (nexts : Seq machine.Frame) × machine.Step (f ∷ frames) texts (n ∷ nexts) rest × IsKeptFrame names.now n next × AreKept names.now nexts outer.new)) }
    ensures none { IfOk result (λ read. IsNone read → (f : machine.Frame) (frames : Seq machine.Frame) (texts rest : Seq (Seq ℕ)) → IsKeptFrame names.now f inner.entry → AreKept names.now frames outer.old → texts ≡ codes ")" ∷ rest
        → (after : Seq machine.Frame) (left : Seq (Seq ℕ)) → machine.Step (f ∷ frames) texts after left → ⊥) }
{
    let Some(frame) = outer.pop() else {
        drop(inner);
        return Ok(None);
    };
    match closed(alloc, names, inner) {
        Ok(Some(content)) => received(alloc, names, frame, content),
        Ok(None) => {
            drop(frame);
            Ok(None)
        }
        Err(error) => {
            drop(frame);
            Err(error)
        }
    }
}

/// The mark that the tokens begin with, and the tokens after it.
fn mark_then<'t>(line: &[u8], tokens: &'t [Token]) -> Option<(Mark, &'t [Token])>
    requires { All (IsTokenIn line.now) tokens.now }
    ensures some { IfSome result (λ found. texts_of line.now tokens.now ≡ machine.mark_text found.0 ∷ texts_of line.now found.1.now) }
    ensures tokens { IfSome result (λ found. All (IsTokenIn line.now) found.1.now) }
    ensures shorter { IfSome result (λ found. length found.1.now < length tokens.now) }
    ensures none { IsNone result → machine.BeginsMark (texts_of line.now tokens.now) → ⊥ }
{
    let (token, rest) = tokens.split_first()?;
    let mark = mark_of(text_of(line, *token))?;
    Some((mark, rest))
}

/// What is made of a number without parts, or of a word that stands for none.
fn num_made(found: Option<NumExpr>) -> MadeNum
    ensures { (names : names.Names) (text : nums.NumText) → num_depth text ≡ 1 → IfSome found (λ e. IsNumOf names text (Ok e)) → (IsNone found → NamesNum names text → ⊥) → IsMadeNum names text result }
{
    match found {
        None => Err(Flaw::Name),
        Some(root) => Ok(leaf(root)),
    }
}

/// What is made of numbers in braces.
fn values_made(bits: Result<u128, Flaw>) -> MadeSet
    ensures { (names : names.Names) (numbers : Seq (Seq ℕ)) → IsBitsOf numbers bits → IsMadeSet names (sets.Values numbers) result }
{
    match bits {
        Err(flaw) => Err(flaw),
        Ok(bits) => Ok(leaf(SetExpr::Lit(bits))),
    }
}

/// The operand that an atom stands for.
#[tactic(none)]
fn operand_of<'a>(names: &Names<'_>, atom: Atom<'a>) -> Operand<'a>
    requires few { IsFew names.now }
    requires read { (texts : Seq (Seq ℕ)) × (rest : Seq (Seq ℕ)) × ReadsAtom texts atom rest }
    ensures { (texts rest : Seq (Seq ℕ)) → ReadsAtom texts atom.entry rest → (x : machine.Operand) × machine.AtomThen texts x rest × IsKept names.now x result }
{
    match atom {
        Atom::Word(word) => Operand::Word(word),
        Atom::Number(digits) => Operand::Num(num_literal(false, digits)),
        Atom::Item(word) => Operand::Num(num_made(item_named(names, word))),
        Atom::Low(word) => Operand::Num(num_made(low_named(names, word))),
        Atom::High(word) => Operand::Num(num_made(high_named(names, word))),
        Atom::One => Operand::Set(Ok(leaf(SetExpr::One))),
        Atom::Values(made) => Operand::Set(values_made(made)),
    }
}

/// The frame with the operand that the tokens begin with, and the tokens after it, where they begin
/// with no parenthesis, no `-` and no mark that is awaited.
#[tactic(none)]
fn step_atom<'a, 't>(
    line: &'a [u8],
    tokens: &'t [Token],
    names: &Names<'_>,
    frame: Frame<'a>,
) -> Option<(Frame<'a>, &'t [Token])>
    requires tokens { All (IsTokenIn line.now) tokens.now }
    requires few { IsFew names.now }
    requires opens { (rest : Seq (Seq ℕ)) → texts_of line.now tokens.now ≡ codes "(" ∷ rest → ⊥ }
    requires closes { (rest : Seq (Seq ℕ)) → texts_of line.now tokens.now ≡ codes ")" ∷ rest → ⊥ }
    requires minus { (rest : Seq (Seq ℕ)) → texts_of line.now tokens.now ≡ codes "-" ∷ rest → ⊥ }
    requires awaits { (f : machine.Frame) → IsKeptFrame names.now f frame → machine.awaits_mark f ≡ true → machine.BeginsMark (texts_of line.now tokens.now) → ⊥ }
    ensures some { IfSome result (λ found. (f : machine.Frame) (frames : Seq machine.Frame) → IsKeptFrame names.now f frame.entry
        → (n : machine.Frame) × machine.Step (f ∷ frames) (texts_of line.now tokens.now) (n ∷ frames) (texts_of line.now found.1.now) × IsKeptFrame names.now n found.0) }
    ensures tokens { IfSome result (λ found. All (IsTokenIn line.now) found.1.now) }
    ensures shorter { IfSome result (λ found. length found.1.now < length tokens.now) }
    ensures none { IsNone result → (f : machine.Frame) (frames : Seq machine.Frame) → IsKeptFrame names.now f frame.entry
        → (after : Seq machine.Frame) (rest : Seq (Seq ℕ)) → machine.Step (f ∷ frames) (texts_of line.now tokens.now) after rest → ⊥ }
{
    let Some((atom, rest)) = atom_of(line, tokens) else {
        drop(frame);
        return None;
    };
    match place(frame, operand_of(names, atom)) {
        None => None,
        Some(next) => Some((next, rest)),
    }
}

/// `-` where nothing was taken.
fn turned<'a>(frame: Frame<'a>) -> Option<Frame<'a>>
    ensures some { IfSome result (λ next. (names : names.Names) (f : machine.Frame) → IsKeptFrame names f frame.entry → (f ≡ machine.Empty) × IsKeptFrame names machine.Turned next) }
    ensures none { IsNone result → (names : names.Names) → IsKeptFrame names machine.Empty frame.entry → ⊥ }
{
    match frame {
        Frame::Empty => Some(Frame::Turned),
        other => {
            drop(other);
            None
        }
    }
}

/// The frame with `-`, and with the number after it where these tokens begin with one, and the
/// tokens after that.
#[tactic(none)]
fn step_minus<'a, 't>(
    line: &'a [u8],
    tokens: &'t [Token],
    frame: Frame<'a>,
) -> Option<(Frame<'a>, &'t [Token])>
    requires tokens { All (IsTokenIn line.now) tokens.now }
    ensures some { IfSome result (λ found. (names : names.Names) (f : machine.Frame) (frames : Seq machine.Frame) → IsKeptFrame names f frame.entry → machine.awaits_mark f ≡ false
        → (n : machine.Frame) × machine.Step (f ∷ frames) (codes "-" ∷ texts_of line.now tokens.now) (n ∷ frames) (texts_of line.now found.1.now) × IsKeptFrame names n found.0) }
    ensures tokens { IfSome result (λ found. All (IsTokenIn line.now) found.1.now) }
    ensures shorter { IfSome result (λ found. length found.1.now ≤ length tokens.now) }
    ensures none { IsNone result → (names : names.Names) (f : machine.Frame) (frames : Seq machine.Frame) → IsKeptFrame names f frame.entry → machine.awaits_mark f ≡ false
        → (after : Seq machine.Frame) (rest : Seq (Seq ℕ)) → machine.Step (f ∷ frames) (codes "-" ∷ texts_of line.now tokens.now) after rest → ⊥ }
{
    let Some((digits, rest)) = number_of(line, tokens) else {
        return match turned(frame) {
            None => None,
            Some(next) => Some((next, tokens)),
        };
    };
    match place(frame, Operand::Signed(digits)) {
        None => None,
        Some(next) => Some((next, rest)),
    }
}

/// The frame after a token that is no parenthesis, after one operand or elsewhere.
#[tactic(none)]
fn step_one<'a, 't>(
    line: &'a [u8],
    tokens: &'t [Token],
    names: &Names<'_>,
    operand: Operand<'a>,
) -> Option<(Frame<'a>, &'t [Token])>
    requires tokens { All (IsTokenIn line.now) tokens.now }
    requires few { IsFew names.now }
    requires opens { (rest : Seq (Seq ℕ)) → texts_of line.now tokens.now ≡ codes "(" ∷ rest → ⊥ }
    requires closes { (rest : Seq (Seq ℕ)) → texts_of line.now tokens.now ≡ codes ")" ∷ rest → ⊥ }
    ensures some { IfSome result (λ found. (x : machine.Operand) (frames : Seq machine.Frame) → IsKept names.now x operand.entry
        → (n : machine.Frame) × machine.Step (machine.One x ∷ frames) (texts_of line.now tokens.now) (n ∷ frames) (texts_of line.now found.1.now) × IsKeptFrame names.now n found.0) }
    ensures tokens { IfSome result (λ found. All (IsTokenIn line.now) found.1.now) }
    ensures shorter { IfSome result (λ found. length found.1.now < length tokens.now) }
    ensures none { IsNone result → (x : machine.Operand) (frames : Seq machine.Frame) → IsKept names.now x operand.entry
        → (after : Seq machine.Frame) (rest : Seq (Seq ℕ)) → machine.Step (machine.One x ∷ frames) (texts_of line.now tokens.now) after rest → ⊥ }
{
    match mark_then(line, tokens) {
        Some((mark, rest)) => Some((Frame::After(operand, mark), rest)),
        None => step_atom(line, tokens, names, Frame::One(operand)),
    }
}

/// The frame after a token that is no parenthesis, where no mark is awaited.
#[tactic(none)]
fn step_other<'a, 't>(
    line: &'a [u8],
    tokens: &'t [Token],
    names: &Names<'_>,
    frame: Frame<'a>,
) -> Option<(Frame<'a>, &'t [Token])>
    requires tokens { All (IsTokenIn line.now) tokens.now }
    requires few { IsFew names.now }
    requires opens { (rest : Seq (Seq ℕ)) → texts_of line.now tokens.now ≡ codes "(" ∷ rest → ⊥ }
    requires closes { (rest : Seq (Seq ℕ)) → texts_of line.now tokens.now ≡ codes ")" ∷ rest → ⊥ }
    requires awaits { (f : machine.Frame) → IsKeptFrame names.now f frame → machine.awaits_mark f ≡ false }
    ensures some { IfSome result (λ found. (f : machine.Frame) (frames : Seq machine.Frame) → IsKeptFrame names.now f frame.entry
        → (n : machine.Frame) × machine.Step (f ∷ frames) (texts_of line.now tokens.now) (n ∷ frames) (texts_of line.now found.1.now) × IsKeptFrame names.now n found.0) }
    ensures tokens { IfSome result (λ found. All (IsTokenIn line.now) found.1.now) }
    ensures shorter { IfSome result (λ found. length found.1.now < length tokens.now) }
    ensures none { IsNone result → (f : machine.Frame) (frames : Seq machine.Frame) → IsKeptFrame names.now f frame.entry
        → (after : Seq machine.Frame) (rest : Seq (Seq ℕ)) → machine.Step (f ∷ frames) (texts_of line.now tokens.now) after rest → ⊥ }
{
    match after_text(line, tokens, b"-") {
        Some(after) => step_minus(line, after, frame),
        None => step_atom(line, tokens, names, frame),
    }
}

/// The frame after a token that is no parenthesis, and the tokens after it.
#[tactic(none)]
fn step_within<'a, 't>(
    line: &'a [u8],
    tokens: &'t [Token],
    names: &Names<'_>,
    frame: Frame<'a>,
) -> Option<(Frame<'a>, &'t [Token])>
    requires tokens { All (IsTokenIn line.now) tokens.now }
    requires few { IsFew names.now }
    requires opens { (rest : Seq (Seq ℕ)) → texts_of line.now tokens.now ≡ codes "(" ∷ rest → ⊥ }
    requires closes { (rest : Seq (Seq ℕ)) → texts_of line.now tokens.now ≡ codes ")" ∷ rest → ⊥ }
    ensures some { IfSome result (λ found. (f : machine.Frame) (frames : Seq machine.Frame) → IsKeptFrame names.now f frame.entry
        → (n : machine.Frame) × machine.Step (f ∷ frames) (texts_of line.now tokens.now) (n ∷ frames) (texts_of line.now found.1.now) × IsKeptFrame names.now n found.0) }
    ensures tokens { IfSome result (λ found. All (IsTokenIn line.now) found.1.now) }
    ensures shorter { IfSome result (λ found. length found.1.now < length tokens.now) }
    ensures none { IsNone result → (f : machine.Frame) (frames : Seq machine.Frame) → IsKeptFrame names.now f frame.entry
        → (after : Seq machine.Frame) (rest : Seq (Seq ℕ)) → machine.Step (f ∷ frames) (texts_of line.now tokens.now) after rest → ⊥ }
{
    match frame {
        Frame::One(operand) => step_one(line, tokens, names, operand),
        other => step_other(line, tokens, names, other),
    }
}

/// The frames after the next tokens are taken, and the tokens after these.
#[tactic(none)]
pub fn step<'a, 't>(
    alloc: Global,
    line: &'a [u8],
    tokens: &'t [Token],
    names: &Names<'_>,
    inner: Frame<'a>,
    outer: &mut List<Frame<'a>>,
) -> Result<Option<(Frame<'a>, &'t [Token])>, AllocError>
    requires tokens { All (IsTokenIn line.now) tokens.now }
    requires few { IsFew names.now }
    requires kept { (f : machine.Frame) × (frames : Seq machine.Frame) × IsKeptFrame names.now f inner × AreKept names.now frames outer.old }
    ensures some { IfOk result (λ read. IfSome read (λ found. (f : machine.Frame) (frames : Seq machine.Frame) → IsKeptFrame names.now f inner.entry → AreKept names.now frames outer.old
        → (next : machine.Frame) × (nexts : Seq machine.Frame) × machine.Step (f ∷ frames) (texts_of line.now tokens.now) (next ∷ nexts) (texts_of line.now found.1.now) × IsKeptFrame names.now next found.0 × AreKept names.now nexts outer.new)) }
    ensures tokens { IfOk result (λ read. IfSome read (λ found. All (IsTokenIn line.now) found.1.now)) }
    ensures shorter { IfOk result (λ read. IfSome read (λ found. length found.1.now < length tokens.now)) }
    ensures none { IfOk result (λ read. IsNone read → (f : machine.Frame) (frames : Seq machine.Frame) → IsKeptFrame names.now f inner.entry → AreKept names.now frames outer.old
        → (after : Seq machine.Frame) (rest : Seq (Seq ℕ)) → machine.Step (f ∷ frames) (texts_of line.now tokens.now) after rest → ⊥) }
{
    if let Some(rest) = after_text(line, tokens, b"(") {
        let next = opened(inner, outer)?;
        return Ok(Some((next, rest)));
    }
    if let Some(rest) = after_text(line, tokens, b")") {
        return match shut(alloc, names, inner, outer)? {
            None => Ok(None),
            Some(next) => Ok(Some((next, rest))),
        };
    }
    Ok(step_within(line, tokens, names, inner))
}
