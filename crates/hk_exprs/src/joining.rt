//! Operands with a mark between them, and operands after a word.

ghost use Rattle.std.specs.Prelude.{◌≡◌, true, false, Option, IfOk};
ghost use Rattle.hk_terms.specs.CondTexts as conds;
ghost use Rattle.hk_exprs.specs.inside.Machines as machine;
ghost use Rattle.hk_exprs.specs.inside.Making.{set_operation, num_operation, comparison, asks_both};
ghost use Rattle.hk_terms.specs.Names as names;
ghost use Rattle.hk_terms.specs.NumTexts as nums;
ghost use Rattle.hk_terms.specs.Outcomes.{IsFew};
ghost use Rattle.hk_terms.specs.SetTexts as sets;
ghost use Rattle.hk_exprs.specs.inside.Standing.{BothOrNone, IsKept, IsMadeNum, IsTextOf, the_word};

use crate::making::{
    ask_member, ask_subset, choose_num, compare, count, join_conds, join_nums, join_sets,
};
use crate::operands::{MadeNum, Operand};
use crate::resolving::{as_cond, as_num, as_set, is_text};
use hk_terms::{Mark, Names};
use std::alloc::{AllocError, Global};

/// Two sets with a mark between them.
fn sets_between<'a>(
    alloc: Global,
    names: &Names<'_>,
    a: Operand<'a>,
    mark: Mark,
    b: Operand<'a>,
) -> Result<Option<Operand<'a>>, AllocError>
    requires few { IsFew names.now }
    ensures { IfOk result (λ made. (x y : machine.Operand) → IsKept names.now x a.entry → IsKept names.now y b.entry →
        BothOrNone (IsKept names.now) (machine.both (λ p q. machine.Set (sets.Joined (set_operation mark) p q)) (machine.as_set x) (machine.as_set y)) made) }
{
    let Some(a) = as_set(names, a) else {
        drop(b);
        return Ok(None);
    };
    let Some(b) = as_set(names, b) else {
        drop(a);
        return Ok(None);
    };
    Ok(Some(Operand::Set(join_sets(alloc, a, mark, b)?)))
}

/// Two numbers with a mark between them.
fn nums_between<'a>(
    alloc: Global,
    names: &Names<'_>,
    a: Operand<'a>,
    mark: Mark,
    b: Operand<'a>,
) -> Result<Option<Operand<'a>>, AllocError>
    requires few { IsFew names.now }
    requires kept { ((x : machine.Operand) × IsKept names.now x a) × ((y : machine.Operand) × IsKept names.now y b) }
    ensures { IfOk result (λ made. (x y : machine.Operand) → IsKept names.now x a.entry → IsKept names.now y b.entry →
        BothOrNone (IsKept names.now) (machine.both (λ p q. machine.Num (nums.Joined (num_operation mark) p q)) (machine.as_num x) (machine.as_num y)) made) }
{
    let Some(a) = as_num(names, a) else {
        drop(b);
        return Ok(None);
    };
    let Some(b) = as_num(names, b) else {
        drop(a);
        return Ok(None);
    };
    Ok(Some(Operand::Num(join_nums(alloc, a, mark, b)?)))
}

/// Two numbers that a mark compares.
fn nums_compared<'a>(
    alloc: Global,
    names: &Names<'_>,
    a: Operand<'a>,
    mark: Mark,
    b: Operand<'a>,
) -> Result<Option<Operand<'a>>, AllocError>
    requires few { IsFew names.now }
    requires kept { ((x : machine.Operand) × IsKept names.now x a) × ((y : machine.Operand) × IsKept names.now y b) }
    ensures { IfOk result (λ made. (x y : machine.Operand) → IsKept names.now x a.entry → IsKept names.now y b.entry →
        BothOrNone (IsKept names.now) (machine.both (λ p q. machine.Cond (conds.Compared (comparison mark) p q)) (machine.as_num x) (machine.as_num y)) made) }
{
    let Some(a) = as_num(names, a) else {
        drop(b);
        return Ok(None);
    };
    let Some(b) = as_num(names, b) else {
        drop(a);
        return Ok(None);
    };
    Ok(Some(Operand::Cond(compare(alloc, a, mark, b)?)))
}

/// A set that is within another.
fn subset_between<'a>(
    alloc: Global,
    names: &Names<'_>,
    a: Operand<'a>,
    b: Operand<'a>,
) -> Result<Option<Operand<'a>>, AllocError>
    requires few { IsFew names.now }
    ensures { IfOk result (λ made. (x y : machine.Operand) → IsKept names.now x a.entry → IsKept names.now y b.entry →
        BothOrNone (IsKept names.now) (machine.both (λ p q. machine.Cond (conds.Subset p q)) (machine.as_set x) (machine.as_set y)) made) }
{
    let Some(a) = as_set(names, a) else {
        drop(b);
        return Ok(None);
    };
    let Some(b) = as_set(names, b) else {
        drop(a);
        return Ok(None);
    };
    Ok(Some(Operand::Cond(ask_subset(alloc, a, b)?)))
}

/// Two conditions with a mark between them.
fn conds_between<'a>(
    alloc: Global,
    a: Operand<'a>,
    mark: Mark,
    b: Operand<'a>,
) -> Result<Option<Operand<'a>>, AllocError>
    ensures { IfOk result (λ made. (names : names.Names) (x y : machine.Operand) → IsKept names x a.entry → IsKept names y b.entry →
        BothOrNone (IsKept names) (machine.both (λ p q. machine.Cond (conds.Joined (asks_both mark) p q)) (machine.as_cond x) (machine.as_cond y)) made) }
{
    let Some(a) = as_cond(a) else {
        drop(b);
        return Ok(None);
    };
    let Some(b) = as_cond(b) else {
        drop(a);
        return Ok(None);
    };
    Ok(Some(Operand::Cond(join_conds(alloc, a, mark, b)?)))
}

/// The word that the operand is.
pub fn word_of<'a>(operand: Operand<'a>) -> Option<&'a [u8]>
    ensures { (names : names.Names) (x : machine.Operand) → IsKept names x operand.entry → BothOrNone IsTextOf (the_word x) result }
{
    match operand {
        Operand::Word(word) => Some(word),
        Operand::Signed(_digits) => None,
        Operand::Num(num) => {
            drop(num);
            None
        }
        Operand::Set(set) => {
            drop(set);
            None
        }
        Operand::Cond(cond) => {
            drop(cond);
            None
        }
    }
}

/// The value is in a set, or not.
fn member_of<'a>(
    alloc: Global,
    names: &Names<'_>,
    inside: bool,
    a: Operand<'a>,
    b: Operand<'a>,
) -> Result<Option<Operand<'a>>, AllocError>
    requires few { IsFew names.now }
    ensures { IfOk result (λ made. (x y : machine.Operand) → IsKept names.now x a.entry → IsKept names.now y b.entry →
        BothOrNone (IsKept names.now) (machine.member inside x (machine.as_set y)) made) }
{
    let Some(set) = as_set(names, b) else {
        drop(a);
        return Ok(None);
    };
    let Some(word) = word_of(a) else {
        drop(set);
        return Ok(None);
    };
    if !is_text(word, b"v") {
        drop(set);
        return Ok(None);
    }
    Ok(Some(Operand::Cond(ask_member(alloc, inside, set)?)))
}

/// Two operands with a mark between them.
pub fn joined<'a>(
    alloc: Global,
    names: &Names<'_>,
    a: Operand<'a>,
    mark: Mark,
    b: Operand<'a>,
) -> Result<Option<Operand<'a>>, AllocError>
    requires few { IsFew names.now }
    requires kept { ((x : machine.Operand) × IsKept names.now x a) × ((y : machine.Operand) × IsKept names.now y b) }
    ensures { IfOk result (λ made. (x y : machine.Operand) → IsKept names.now x a.entry → IsKept names.now y b.entry →
        BothOrNone (IsKept names.now) (machine.joined x mark y) made) }
{
    match mark {
        Mark::Union | Mark::Common | Mark::Without => sets_between(alloc, names, a, mark, b),
        Mark::Plus | Mark::Minus | Mark::Times => nums_between(alloc, names, a, mark, b),
        Mark::AtMost | Mark::Below | Mark::AtLeast | Mark::Above | Mark::Equal => {
            nums_compared(alloc, names, a, mark, b)
        }
        Mark::In => member_of(alloc, names, true, a, b),
        Mark::NotIn => member_of(alloc, names, false, a, b),
        Mark::Sub => subset_between(alloc, names, a, b),
        Mark::And | Mark::Or => conds_between(alloc, a, mark, b),
        Mark::Comma => {
            drop((a, b));
            Ok(None)
        }
    }
}

/// A word and one operand in parentheses after it: the number of values of a set.
pub fn counted<'a>(
    alloc: Global,
    names: &Names<'_>,
    word: Operand<'a>,
    set: Operand<'a>,
) -> Result<Option<Operand<'a>>, AllocError>
    requires few { IsFew names.now }
    ensures { IfOk result (λ made. (x y : machine.Operand) → IsKept names.now x word.entry → IsKept names.now y set.entry →
        BothOrNone (IsKept names.now) (machine.applied x (machine.Single y)) made) }
{
    let Some(set) = as_set(names, set) else {
        drop(word);
        return Ok(None);
    };
    let Some(word) = word_of(word) else {
        drop(set);
        return Ok(None);
    };
    if !is_text(word, b"card") {
        drop(set);
        return Ok(None);
    }
    Ok(Some(Operand::Num(count(alloc, set)?)))
}

/// A word and two numbers in parentheses after it: the less or the greater of them.
pub fn chosen<'a>(
    alloc: Global,
    word: Operand<'a>,
    a: MadeNum,
    b: MadeNum,
) -> Result<Option<Operand<'a>>, AllocError>
    ensures { IfOk result (λ made. (names : names.Names) (x : machine.Operand) (p q : nums.NumText) → IsKept names x word.entry → IsMadeNum names p a → IsMadeNum names q b →
        BothOrNone (IsKept names) (machine.applied x (machine.Couple p q)) made) }
{
    let Some(word) = word_of(word) else {
        drop((a, b));
        return Ok(None);
    };
    if is_text(word, b"min") {
        return Ok(Some(Operand::Num(choose_num(alloc, false, a, b)?)));
    }
    if is_text(word, b"max") {
        return Ok(Some(Operand::Num(choose_num(alloc, true, a, b)?)));
    }
    drop((a, b));
    Ok(None)
}
