//! The law that each line is read in one way.

ghost use Rattle.std.specs.Prelude.{◌≡◌, ◌⊎◌, ℕ, List};
ghost use Rattle.hk_text.specs.declared.tokenizer.Token.{Token};
ghost use Rattle.hk_text.specs.Tokens.{AreTokensOf, IsBadByte};

/// The law that makes the answer of `tokens` the only one: each line has tokens or a first bad byte,
/// at most one list of tokens and one such byte, and not both.
pub fn one_reading()
    ensures each { (line : List ℕ) →
        ((found : List Token) × AreTokensOf line found) ⊎ ((column : ℕ) × (byte : ℕ) × IsBadByte line column byte) }
    ensures tokens { (line : List ℕ) (found others : List Token) →
        AreTokensOf line found → AreTokensOf line others → found ≡ others }
    ensures bad_byte { (line : List ℕ) (column byte another other : ℕ) →
        IsBadByte line column byte → IsBadByte line another other → (column ≡ another) × (byte ≡ other) }
    ensures apart { (line : List ℕ) (found : List Token) (column byte : ℕ) →
        AreTokensOf line found → IsBadByte line column byte → ⊥ }
{}
