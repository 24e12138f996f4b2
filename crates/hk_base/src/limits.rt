//! How great numbers may be.
ghost use Rattle.std.specs.Prelude.{◌≡◌};
ghost use Rattle.hk_base.specs.Limits.{number_limit};

/// The limit of the numbers of states, expressions and bounds: each lies in `-LIM..LIM`.
pub const LIM: i64 = 1_000_000_000_000;

/// A law: the constant is the limit that the definitions write out.
pub fn limit_is_as_defined()
    ensures { LIM ≡ number_limit }
{}
