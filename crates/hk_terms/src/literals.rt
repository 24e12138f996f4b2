//! Numbers as they are written.

ghost use Rattle.std.specs.Prelude.{◌<◌, ◌≤◌, ◌+◌, ◌^◌, ◌↔◌, ℕ, IsTrue, IfSome, IsNone};
ghost use Rattle.hk_text.specs.Numbers.{IsNumber};
ghost use Rattle.hk_terms.specs.Names.{Names, WritesUpTo};
ghost use Rattle.hk_terms.specs.NumTexts.{Number, IsSigned};
ghost use Rattle.hk_terms.specs.Outcomes.{IsNumOf};

use crate::flaws::Flaw;
use hk_spec::NumExpr;
use hk_text::number_up_to;

/// The greatest number that an expression may write.
pub const GREATEST: u64 = 1_000_000_000_000;

/// The number with these digits, and with `-` in front or without.
pub fn literal(negative: bool, digits: &[u8]) -> Result<NumExpr, Flaw>
    requires { IsSigned negative digits.now }
    ensures { (names : Names) → IsNumOf names (Number negative digits.now) result }
{
    match value_within(digits, GREATEST) {
        None => Err(Flaw::Limit),
        Some(value) if negative => Ok(NumExpr::Lit(-(value as i64))),
        Some(value) => Ok(NumExpr::Lit(value as i64)),
    }
}

/// The number with these digits, where it isn't greater than `most`.
pub fn value_within(digits: &[u8], most: u64) -> Option<u64>
    requires number { (n : ℕ) × IsNumber digits.now n }
    requires room { most + 1 < 2 ^ 64 }
    ensures some { IfSome result (λ value. IsNumber digits.now value) }
    ensures small { IfSome result (λ value. value ≤ most) }
    ensures none { IsNone result → WritesUpTo most digits.now → ⊥ }
{
    let value = number_up_to(digits, most + 1)?;
    if value > most {
        return None;
    }
    Some(value)
}

/// Whether the first number is less than the second. Both may have any length.
pub fn is_below(a: &[u8], b: &[u8]) -> bool
    ensures { (m n : ℕ) → IsNumber a.now m → IsNumber b.now n → (IsTrue result ↔ m < n) }
{
    if a.len() != b.len() {
        return a.len() < b.len();
    }
    a < b
}
