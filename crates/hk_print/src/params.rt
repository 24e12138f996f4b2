//! Prints the parameters of a specification.
ghost use Rattle.std.specs.Prelude.{◌≡◌, ◌++◌, codes, OnOk, OnErr};
ghost use Rattle.hk_base.specs.Lists.{AppendsFront};
ghost use Rattle.hk_print.specs.Printed.{comma_params, param_pieces, param_word, params_pieces};
ghost use Rattle.hk_print.specs.Pieces.{piece, spaced};

use crate::words::print_word;
use hk_base::Bytes;
use hk_spec::{Param, ParamKind};
use std::alloc::AllocError;

/// Appends parameters in parentheses.
pub fn print_params(out: &mut Bytes, params: &[Param]) -> Result<(), AllocError>
    ensures ok { OnOk result (out.new ≡ out.old ++ spaced (params_pieces params.now)) }
    ensures err { OnErr result (AppendsFront out.old out.new (spaced (params_pieces params.now))) }
{
    match params.split_first() {
        None => out.push_all(b" ()"),
        Some((first, more)) => print_some_params(out, first, more),
    }
}

fn print_some_params(out: &mut Bytes, first: &Param, more: &[Param]) -> Result<(), AllocError>
    ensures ok { OnOk result (out.new ≡ out.old ++ (codes " (" ++ (spaced (param_pieces first.now) ++ (spaced (comma_params more.now) ++ codes " )")))) }
    ensures err { OnErr result (AppendsFront out.old out.new (codes " (" ++ (spaced (param_pieces first.now) ++ (spaced (comma_params more.now) ++ codes " )")))) }
{
    out.push_all(b" (")?;
    print_param(out, first)?;
    print_more_params(out, more)?;
    out.push_all(b" )")
}

/// Appends parameters, each after a comma.
fn print_more_params(out: &mut Bytes, params: &[Param]) -> Result<(), AllocError>
    ensures ok { OnOk result (out.new ≡ out.old ++ spaced (comma_params params.now)) }
    ensures err { OnErr result (AppendsFront out.old out.new (spaced (comma_params params.now))) }
{
    for param in params {
        print_next_param(out, param)?;
    }
    Ok(())
}

fn print_next_param(out: &mut Bytes, param: &Param) -> Result<(), AllocError>
    ensures ok { OnOk result (out.new ≡ out.old ++ spaced (piece (codes ",") ++ param_pieces param.now)) }
    ensures err { OnErr result (AppendsFront out.old out.new (spaced (piece (codes ",") ++ param_pieces param.now))) }
{
    out.push_all(b" ,")?;
    print_param(out, param)
}

fn print_param(out: &mut Bytes, param: &Param) -> Result<(), AllocError>
    ensures ok { OnOk result (out.new ≡ out.old ++ spaced (param_pieces param.now)) }
    ensures err { OnErr result (AppendsFront out.old out.new (spaced (param_pieces param.now))) }
{
    print_word(out, param_word(param.kind))?;
    print_word(out, param.name.as_slice())
}

/// The word for a kind of parameters.
fn param_word(kind: ParamKind) -> &'static [u8]
    ensures { result.now ≡ param_word kind }
{
    match kind {
        ParamKind::Num => b"num",
        ParamKind::Set => b"set",
        ParamKind::List => b"list",
    }
}
