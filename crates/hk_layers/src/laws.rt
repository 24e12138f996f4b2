//! A law of the rows that steps lead to, which the contract of this function states. The function does
//! nothing.
ghost use Rattle.std.specs.Prelude.{ℕ, ◌<◌, min};
ghost use Rattle.hk_layers.specs.Layers.{row_for};
ghost use Rattle.hk_layers.specs.Shares.{IsReached};

/// Each step of a layer leads to a row of the next one that is there, and each row there has a step
/// that leads to it: there are as many rows as steps, but at most the width.
pub fn steps_share_the_rows()
    ensures within { (width count place : ℕ) → 0 < width → place < count → row_for width count place < min count width }
    ensures reached { (width count row : ℕ) → 0 < width → row < min count width → IsReached width count row }
{}
