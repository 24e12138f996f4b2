//! What an operand is as a number, as a set, as a condition.

ghost use Rattle.std.specs.Prelude.{◌≡◌, ℕ, bytes_eq};
ghost use Rattle.hk_text.specs.Numbers.{IsNumber};
ghost use Rattle.hk_exprs.specs.inside.Machines as machine;
ghost use Rattle.hk_terms.specs.Names as names;
ghost use Rattle.hk_terms.specs.NumTexts as nums;
ghost use Rattle.hk_terms.specs.Outcomes.{IsFew};
ghost use Rattle.hk_terms.specs.SetTexts as sets;
ghost use Rattle.hk_exprs.specs.inside.Standing.{BothOrNone, IsMadeCond, IsMadeNum, IsMadeSet, IsKept};

use crate::operands::{MadeCond, MadeNum, MadeSet, Operand, Tree};
use hk_spec::Cond;
use hk_terms::{Flaw, Names, literal, num_named, set_named};

/// Whether a word is this text.
pub fn is_text(word: &[u8], text: &[u8]) -> bool
    ensures { result ≡ bytes_eq word.now text.now }
{
    word == text
}

/// A tree without parts.
pub fn leaf<T: Drop>(root: T) -> Tree<T>
    ensures { result ≡ record { root = root; depth = 1 } }
{
    Tree { root, depth: 1 }
}

/// The number that a word stands for.
fn num_word(names: &Names<'_>, word: &[u8]) -> MadeNum
    requires few { IsFew names.now }
    ensures { IsMadeNum names.now (nums.Named word.now) result }
{
    match num_named(names, word) {
        None => Err(Flaw::Name),
        Some(root) => Ok(leaf(root)),
    }
}

/// The operand as a number.
pub fn as_num(names: &Names<'_>, operand: Operand<'_>) -> Option<MadeNum>
    requires few { IsFew names.now }
    requires kept { (x : machine.Operand) × IsKept names.now x operand }
    ensures { (x : machine.Operand) → IsKept names.now x operand.entry → BothOrNone (IsMadeNum names.now) (machine.as_num x) result }
{
    match operand {
        Operand::Word(word) => Some(num_word(names, word)),
        Operand::Signed(digits) => signed(digits),
        Operand::Num(made) => Some(made),
        Operand::Set(set) => {
            drop(set);
            None
        }
        Operand::Cond(cond) => {
            drop(cond);
            None
        }
    }
}

/// The number with `-` in front of its digits, but for 0.
fn signed(digits: &[u8]) -> Option<MadeNum>
    requires { (n : ℕ) × IsNumber digits.now n }
    ensures { (names : names.Names) → BothOrNone (IsMadeNum names) (machine.as_num (machine.Signed digits.now)) result }
{
    if is_text(digits, b"0") {
        return None;
    }
    Some(num_literal(true, digits))
}

/// The number with these digits, and with `-` in front or without.
pub fn num_literal(negative: bool, digits: &[u8]) -> MadeNum
    requires { nums.IsSigned negative digits.now }
    ensures { (names : names.Names) → IsMadeNum names (nums.Number negative digits.now) result }
{
    match literal(negative, digits) {
        Err(flaw) => Err(flaw),
        Ok(root) => Ok(leaf(root)),
    }
}

/// The set that a word stands for.
fn set_word(names: &Names<'_>, word: &[u8]) -> MadeSet
    requires few { IsFew names.now }
    ensures { IsMadeSet names.now (sets.Named word.now) result }
{
    match set_named(names, word) {
        None => Err(Flaw::Name),
        Some(root) => Ok(leaf(root)),
    }
}

/// The operand as a set.
pub fn as_set(names: &Names<'_>, operand: Operand<'_>) -> Option<MadeSet>
    requires few { IsFew names.now }
    ensures { (x : machine.Operand) → IsKept names.now x operand.entry → BothOrNone (IsMadeSet names.now) (machine.as_set x) result }
{
    match operand {
        Operand::Word(word) => Some(set_word(names, word)),
        Operand::Set(made) => Some(made),
        Operand::Signed(_digits) => None,
        Operand::Num(num) => {
            drop(num);
            None
        }
        Operand::Cond(cond) => {
            drop(cond);
            None
        }
    }
}

/// The truth that a word is.
fn cond_word(word: &[u8]) -> Option<MadeCond>
    ensures { (names : names.Names) → BothOrNone (IsMadeCond names) (machine.as_cond (machine.Word word.now)) result }
{
    if is_text(word, b"true") {
        return Some(Ok(leaf(Cond::Always)));
    }
    if is_text(word, b"false") {
        return Some(Ok(leaf(Cond::Never)));
    }
    None
}

/// The operand as a condition.
pub fn as_cond(operand: Operand<'_>) -> Option<MadeCond>
    ensures { (names : names.Names) (x : machine.Operand) → IsKept names x operand.entry → BothOrNone (IsMadeCond names) (machine.as_cond x) result }
{
    match operand {
        Operand::Word(word) => cond_word(word),
        Operand::Cond(made) => Some(made),
        Operand::Signed(_digits) => None,
        Operand::Num(num) => {
            drop(num);
            None
        }
        Operand::Set(set) => {
            drop(set);
            None
        }
    }
}
