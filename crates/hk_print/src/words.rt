//! Words, numbers and sets, each after a space.
ghost use Rattle.std.specs.Prelude.{◌≡◌, ◌++◌, codes, OnOk, OnErr};
ghost use Rattle.hk_base.specs.Lists.{AppendsFront};
ghost use Rattle.hk_text.specs.Sets.{members, values_text};
ghost use Rattle.hk_print.specs.Pieces.{around, piece, spaced, signed_pieces, literal_pieces};

use hk_base::Bytes;
use hk_text::{push_unsigned, push_values};
use std::alloc::AllocError;

/// Appends a word after a space.
pub fn print_word(out: &mut Bytes, word: &[u8]) -> Result<(), AllocError>
    ensures ok { OnOk result (out.new ≡ out.old ++ spaced (piece word.now)) }
    ensures err { OnErr result (AppendsFront out.old out.new (spaced (piece word.now))) }
{
    out.push(b' ')?;
    out.push_all(word)
}

/// Appends a number, of which the sign is a word of its own.
pub fn print_number(out: &mut Bytes, n: i64) -> Result<(), AllocError>
    ensures ok { OnOk result (out.new ≡ out.old ++ spaced (signed_pieces n)) }
    ensures err { OnErr result (AppendsFront out.old out.new (spaced (signed_pieces n))) }
{
    if n >= 0 {
        out.push(b' ')?;
        return push_unsigned(out, n.unsigned_abs());
    }
    out.push_all(b" - ")?;
    push_unsigned(out, n.unsigned_abs())
}

/// Appends a set in braces.
pub fn print_literal(out: &mut Bytes, set: u128) -> Result<(), AllocError>
    ensures ok { OnOk result (out.new ≡ out.old ++ spaced (literal_pieces set)) }
    ensures err { OnErr result (AppendsFront out.old out.new (spaced (literal_pieces set))) }
{
    print_values(out, set)
}

/// Appends the values of a set in braces.
fn print_values(out: &mut Bytes, set: u128) -> Result<(), AllocError>
    ensures ok { OnOk result (out.new ≡ out.old ++ around (codes " {") (values_text (codes " ") (codes " ,") (members set)) (codes " }")) }
    ensures err { OnErr result (AppendsFront out.old out.new (around (codes " {") (values_text (codes " ") (codes " ,") (members set)) (codes " }"))) }
{
    out.push_all(b" {")?;
    push_values(out, set, b" ", b" ,")?;
    out.push_all(b" }")
}
