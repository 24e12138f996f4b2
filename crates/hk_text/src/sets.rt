//! Sets of values as texts.

ghost use Rattle.std.specs.Prelude.{◌≡◌, ◌++◌, ◌==◌, ◌<◌, [], cond, OnOk, OnErr};
ghost use Rattle.std.specs.Fmt.{decimal};
ghost use Rattle.std.specs.Int.{bit_at};
ghost use Rattle.hk_base.specs.Lists.{AppendsFront};
ghost use Rattle.hk_text.specs.Sets.{members, set_text, values_text};

use crate::numbers::push_unsigned;
use hk_base::Bytes;
use std::alloc::AllocError;

/// Appends a set of values as in `{0,3}`, where bit `v` stands for the value `v`. Without memory a
/// front of that text was appended.
pub fn push_set(out: &mut Bytes, bits: u128) -> Result<(), AllocError>
    ensures ok { OnOk result (out.new ≡ out.old ++ set_text bits) }
    ensures err { OnErr result (AppendsFront out.old out.new (set_text bits)) }
{
    out.push_all(b"{")?;
    push_values(out, bits, b"", b",")?;
    out.push_all(b"}")
}

/// Appends the values of a set in ascending order, each after `lead`, with `between` between two.
/// Without memory a front of that text was appended.
pub fn push_values(
    out: &mut Bytes,
    bits: u128,
    lead: &[u8],
    between: &[u8],
) -> Result<(), AllocError>
    ensures ok { OnOk result (out.new ≡ out.old ++ values_text lead.now between.now (members bits)) }
    ensures err { OnErr result (AppendsFront out.old out.new (values_text lead.now between.now (members bits))) }
{
    let mut first = true;
    for value in 0..128u8 {
        if !has(bits, value) {
            continue;
        }
        push_value(out, value, lead, between, first)?;
        first = false;
    }
    Ok(())
}

fn push_value(
    out: &mut Bytes,
    value: u8,
    lead: &[u8],
    between: &[u8],
    first: bool,
) -> Result<(), AllocError>
    ensures ok { OnOk result (out.new ≡ out.old ++ (cond first [] between.now ++ (lead.now ++ decimal value))) }
    ensures err { OnErr result (AppendsFront out.old out.new (cond first [] between.now ++ (lead.now ++ decimal value))) }
{
    if first {
        return push_led(out, value, lead);
    }
    out.push_all(between)?;
    push_led(out, value, lead)
}

fn push_led(out: &mut Bytes, value: u8, lead: &[u8]) -> Result<(), AllocError>
    ensures ok { OnOk result (out.new ≡ out.old ++ (lead.now ++ decimal value)) }
    ensures err { OnErr result (AppendsFront out.old out.new (lead.now ++ decimal value)) }
{
    out.push_all(lead)?;
    push_unsigned(out, u64::from(value))
}

fn has(bits: u128, value: u8) -> bool
    requires { value < 128 }
    ensures { result ≡ (bit_at bits value == 1) }
{
    (bits >> value) & 1 == 1
}
