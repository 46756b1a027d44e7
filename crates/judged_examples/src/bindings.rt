//! Required bindings.

ghost use Rattle.std.specs.Prelude.{◌≡◌, ◌||◌, true, false, codes};
ghost use Rattle.std.specs.FinSet as set;
ghost use Rattle.fhir_json.specs.Tree.{item, no_items, object, no_members};
ghost use Rattle.fhir_codes.specs.Concepts.{Concepts, concept};
ghost use Rattle.fhir_facets.specs.Bindings.{binding_holds};
ghost use Rattle.fhir_facets.specs.Unread.{Meaning};
ghost use Rattle.fhir_facets.specs.Example.{plain, valueless, coding, concept_of, known};
ghost use Rattle.judged_examples.specs.Bindings.{codeless, texted};

/// A value that names no concept meets no required binding to a known set (FHIR R4, Terminologies, required: the concept shall be
/// from the value set): a Coding without a code (`no_code`) or without anything (`nothing`), a CodeableConcept with a text alone
/// (`no_coding`), with no coding in its array (`empty`), and with one that has no code (`of_no_code`). One that has a code is enough
/// beside it (`beside`), and a primitive without a value is passed over (`passed_over`).
pub fn values_of_no_concept()
    ensures no_code { (m : Meaning) (s : Concepts) → binding_holds m (known s) (plain (codes "Coding") codeless) ≡ false }
    ensures nothing { (m : Meaning) (s : Concepts) → binding_holds m (known s) (plain (codes "Coding") (object no_members)) ≡ false }
    ensures no_coding { (m : Meaning) (s : Concepts) → binding_holds m (known s) (plain (codes "CodeableConcept") texted) ≡ false }
    ensures empty { (m : Meaning) (s : Concepts) → binding_holds m (known s) (plain (codes "CodeableConcept") (concept_of no_items)) ≡ false }
    ensures of_no_code { (m : Meaning) (s : Concepts) → binding_holds m (known s)
        (plain (codes "CodeableConcept") (concept_of (item codeless no_items))) ≡ false }
    ensures beside { (m : Meaning) (s : Concepts) → binding_holds m (known s)
        (plain (codes "CodeableConcept") (concept_of (item codeless (item (coding (codes "a")) no_items))))
        ≡ (set.contains s (concept (codes "urn:s") (codes "a")) || false) }
    ensures passed_over { (m : Meaning) (s : Concepts) → binding_holds m (known s) (valueless (codes "code")) ≡ true }
{}
