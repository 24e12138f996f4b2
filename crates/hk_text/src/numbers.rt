//! Numbers in decimal: read from a text, and written.

ghost use Rattle.std.specs.Prelude.{◌≡◌, ◌≤◌, ◌<◌, ◌^◌, ◌++◌, ℕ, drop, length, IfSome, IsNone, IsTrue, ◌↔◌, OnOk, OnErr};
ghost use Rattle.std.specs.Fmt.{decimal, signed_decimal};
ghost use Rattle.hk_text.specs.Numbers.{IsNumber, IsNumberUpTo, IsPlain};

use hk_base::Bytes;
use std::alloc::AllocError;

/// A sign and the digits of any `u64` fit into as many bytes.
const LONGEST: usize = 21;

/// The number that the text writes, or `most` where it is greater. None where the text is no number,
/// or one with a needless zero. A number may have any length.
pub fn number_up_to(text: &[u8], most: u64) -> Option<u64>
    ensures some { IfSome result (IsNumberUpTo text.now most) }
    ensures none { IsNone result → (n : ℕ) → IsNumber text.now n → ⊥ }
{
    if !is_plain(text) {
        return None;
    }
    let mut value = 0u64;
    for digit in text {
        if !digit.is_ascii_digit() {
            return None;
        }
        value = value
            .saturating_mul(10)
            .saturating_add(u64::from(*digit - b'0'))
            .min(most);
    }
    Some(value)
}

/// Whether the text has a byte, and no `0` in front of another.
fn is_plain(text: &[u8]) -> bool
    ensures { IsTrue result ↔ IsPlain text.now }
{
    match text {
        [] => false,
        [b'0', _, ..] => false,
        _ => true,
    }
}

/// Appends a number in decimal, with `-` in front of a negative one. Without memory for it the list
/// stays as it was.
pub fn push_number(out: &mut Bytes, n: i64) -> Result<(), AllocError>
    ensures ok { OnOk result (out.new ≡ out.old ++ signed_decimal n) }
    ensures err { OnErr result (out.new ≡ out.old) }
{
    let mut text = [0u8; LONGEST];
    let start = write_number(n, &mut text);
    out.push_all(&text[start..])?;
    Ok(())
}

/// Appends a number without a sign in decimal. Without memory for it the list stays as it was.
pub fn push_unsigned(out: &mut Bytes, n: u64) -> Result<(), AllocError>
    ensures ok { OnOk result (out.new ≡ out.old ++ decimal n) }
    ensures err { OnErr result (out.new ≡ out.old) }
{
    let mut text = [0u8; LONGEST];
    let start = write_digits(n, &mut text);
    out.push_all(&text[start..])?;
    Ok(())
}

/// Writes a number up to the end of the text, and answers where it begins.
fn write_number(n: i64, text: &mut [u8]) -> usize
    requires { length text.old ≡ LONGEST }
    ensures within { result < LONGEST }
    ensures written { drop result text.new ≡ signed_decimal n }
{
    let start = write_digits(n.unsigned_abs(), text);
    if n >= 0 {
        return start;
    }
    text[start - 1] = b'-';
    start - 1
}

/// Writes the digits of a number up to the end of the text, and answers where they begin.
fn write_digits(n: u64, text: &mut [u8]) -> usize
    requires { length text.old ≡ LONGEST }
    ensures room { 0 < result }
    ensures within { result < LONGEST }
    ensures written { drop result text.new ≡ decimal n }
{
    let mut left = n;
    let mut start = text.len() - 1;
    while left >= 10 {
        text[start] = b'0' + (left % 10) as u8;
        left /= 10;
        start -= 1;
    }
    text[start] = b'0' + left as u8;
    start
}
