//! What `%resource` is.

ghost use Rattle.std.specs.Prelude.{◌≡◌, true, false, Some, IsTrue, codes};
ghost use Rattle.fhir_nodes.specs.Types.{names_resource};
ghost use Rattle.fhir_schema.specs.Schemas.{SchemaValue};
ghost use Rattle.fhir_instance.specs.Items.{Item, type_of};
ghost use Rattle.fhir_conformance.specs.Conformance.{Interpretation, nearest_to};
ghost use Rattle.judged_examples.specs.Contained.{judged_of_note, judged_of_text};

/// The nearest resource to an item of a resource's type is the item itself, also within another resource (`itself`); that to any other
/// item is the nearest around it (`around`).
pub fn nearest_resources()
    ensures itself { (s : SchemaValue) (around x : Item) → IsTrue (names_resource s.definitions (type_of x)) → nearest_to s around x ≡ x }
    ensures around { (s : SchemaValue) (around x : Item) → names_resource s.definitions (type_of x) ≡ false → nearest_to s around x ≡ around }
{}

/// At a contained resource `%resource` is that resource (`note`), and not the one that contains it (`box_of_note`), which FHIR R4 calls
/// `%rootResource` (FHIRPath, variables); and so it is below the contained resource (`text`, `box_of_text`). The box has a title, and
/// the note in it a text.
pub fn contained_resources()
    ensures note { (meaning : Interpretation) → judged_of_note meaning (codes "%resource.text.exists()") ≡ Some true }
    ensures box_of_note { (meaning : Interpretation) → judged_of_note meaning (codes "%resource.title.exists()") ≡ Some false }
    ensures text { (meaning : Interpretation) → judged_of_text meaning (codes "%resource.text.exists()") ≡ Some true }
    ensures box_of_text { (meaning : Interpretation) → judged_of_text meaning (codes "%resource.title.exists()") ≡ Some false }
{}
