//! Laws of the definitions: a text has one outcome, and spells a valid problem.

ghost use Rattle.std.specs.Prelude.{◌≡◌, ◌⊎◌, ℕ, List};
ghost use Rattle.hk_draft.specs.declared.kinds.RefusalKind.{RefusalKind};
ghost use Rattle.hk_group.specs.Problems.{PlainProblem, IsValid};
ghost use Rattle.hk_model.specs.Models.{Spells};
ghost use Rattle.hk_model.specs.Refused.{IsRefusal};

/// The law that makes the answer about a model the only one: its bytes spell a problem or have a
/// refusal, and not both, and there is one problem and one refusal at most.
pub fn one_outcome()
    ensures some { (bytes : List ℕ)
        → ((p : PlainProblem) × Spells bytes p)
        ⊎ ((line : ℕ) × (kind : RefusalKind) × IsRefusal bytes line kind) }
    ensures problem { (bytes : List ℕ) (p q : PlainProblem) → Spells bytes p → Spells bytes q → p ≡ q }
    ensures refusal { (bytes : List ℕ) (line other : ℕ) (kind another : RefusalKind)
        → IsRefusal bytes line kind → IsRefusal bytes other another
        → (line ≡ other) × (kind ≡ another) }
    ensures apart { (bytes : List ℕ) (p : PlainProblem) (line : ℕ) (kind : RefusalKind)
        → Spells bytes p → IsRefusal bytes line kind → ⊥ }
{}

/// The law that bytes which spell a problem spell a valid one.
pub fn valid()
    ensures { (bytes : List ℕ) (p : PlainProblem) → Spells bytes p → IsValid p }
{}
