//! Laws on the texts of specifications.

ghost use Rattle.std.specs.Prelude.{◌≡◌, ◌≢◌, ◌⊎◌, List, ℕ, map};
ghost use Rattle.hk_spec.specs.Specifications.{Specification, IsSpecification, IsWithoutBest};
ghost use Rattle.hk_print.specs.Printed.{spec_text, spec_lines};
ghost use Rattle.hk_print.specs.Pieces.{tokens_of};
ghost use Rattle.hk_parse.specs.SpecTexts.{AreTextsOf, IsSpecFault, WritesSpec};
ghost use Rattle.hk_parse.specs.declared.faults.SpecFault.{SpecFault};
ghost use Rattle.hk_text.specs.Lines.{lines};

/// The law that a text which writes a specification has, line by line, the tokens of its printed
/// text: only spaces, comments and lines without tokens may differ.
pub fn read_is_printed()
    ensures { (bytes : List ℕ) (s : Specification) → WritesSpec bytes s
        → AreTextsOf (lines bytes) (map tokens_of (spec_lines s)) }
{}

/// The law of printing and reading: the printed text of a specification whose test doesn't use the
/// bound on the cost writes this specification.
pub fn printed_is_read()
    ensures { (s : Specification) → IsSpecification s
        → IsWithoutBest s
        → WritesSpec (spec_text s) s }
{}

/// The law that makes the answer of `read_spec` the only one, want of memory left aside: each text
/// writes a specification or has a fault, and not both, and there is one specification and one fault
/// at most. So a printed specification whose test doesn't use the bound on the cost is read as this
/// very specification, unless memory is wanting.
pub fn one_specification()
    ensures each { (bytes : List ℕ) → ((s : Specification) × WritesSpec bytes s)
        ⊎ ((fault : SpecFault) × (fault ≢ SpecFault.Memory) × IsSpecFault bytes fault) }
    ensures written { (bytes : List ℕ) (s t : Specification) → WritesSpec bytes s → WritesSpec bytes t → s ≡ t }
    ensures apart { (bytes : List ℕ) (s : Specification) (fault : SpecFault) → WritesSpec bytes s → IsSpecFault bytes fault → fault ≡ SpecFault.Memory }
    ensures fault { (bytes : List ℕ) (f g : SpecFault) → f ≢ SpecFault.Memory → g ≢ SpecFault.Memory → IsSpecFault bytes f → IsSpecFault bytes g → f ≡ g }
{}
