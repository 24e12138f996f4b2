//! Numbers within the limit.
ghost use Rattle.std.specs.Prelude.{◌≡◌};
ghost use Rattle.hk_kinds.specs.Limits.{clamped};

pub use hk_base::LIM;

/// The number in `-LIM..LIM` that is nearest to `n`.
pub fn clamp(n: i128) -> i64
    ensures { result ≡ clamped n }
{
    let most = i128::from(LIM);
    n.min(most).max(-most) as i64
}
