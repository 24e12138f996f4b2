//! Numbers in braces.

ghost use Rattle.std.specs.Prelude.{◌≡◌, ◌<◌, ◌∷◌, ◌++◌, List as Seq, ℕ, length, All, IfSome, IsNone, codes};
ghost use Rattle.hk_text.specs.Numbers.{IsNumber};
ghost use Rattle.hk_text.specs.Texts.{texts_of};
ghost use Rattle.hk_terms.specs.Atoms.{ReadsValues};
ghost use Rattle.hk_terms.specs.inside.Forms.{with_number};
ghost use Rattle.hk_text.specs.Tokens.{IsTokenIn};
ghost use Rattle.hk_terms.specs.SetTexts.{AreRisingNumbers, listed};

use crate::flaws::Flaw;
use crate::literals::{is_below, value_within};
use hk_text::{Token, after_text, number_of};

/// The greatest value of a set.
const GREATEST: u64 = 127;

/// The set of the numbers that stand after an opening brace, or a flaw where one passes its limit,
/// and the tokens after the closing brace.
pub fn values_of<'t>(line: &[u8], tokens: &'t [Token]) -> Option<(Result<u128, Flaw>, &'t [Token])>
    requires { All (IsTokenIn line.now) tokens.now }
    ensures some { IfSome result (λ found. ReadsValues (codes "{" ∷ texts_of line.now tokens.now) found.0 (texts_of line.now found.1.now)) }
    ensures tokens { IfSome result (λ found. All (IsTokenIn line.now) found.1.now) }
    ensures shorter { IfSome result (λ found. length found.1.now < length tokens.now) }
    ensures none { IsNone result → (numbers rest : Seq (Seq ℕ)) → texts_of line.now tokens.now ≡ listed numbers ++ (codes "}" ∷ rest) → AreRisingNumbers numbers → ⊥ }
{
    if let Some(rest) = after_text(line, tokens, b"}") {
        return Some((Ok(0), rest));
    }
    let (first, after) = number_of(line, tokens)?;
    let mut last = first;
    let mut made = with_digits(Ok(0), first);
    let mut left = after;
    'numbers: loop {
        if let Some(rest) = after_text(line, left, b"}") {
            return Some((made, rest));
        }
        let after = after_text(line, left, b",")?;
        let (next, after) = number_of(line, after)?;
        if !is_below(last, next) {
            return None;
        }
        last = next;
        made = with_digits(made, next);
        left = after;
    }
}

/// The set with the number that these digits write, or a flaw where it passes its limit.
fn with_digits(made: Result<u128, Flaw>, digits: &[u8]) -> Result<u128, Flaw>
    requires { (n : ℕ) × IsNumber digits.now n }
    ensures { (n : ℕ) → IsNumber digits.now n → result ≡ with_number made n }
{
    let set = made?;
    match value_within(digits, GREATEST) {
        None => Err(Flaw::Limit),
        Some(value) => Ok(set | 1 << value),
    }
}
