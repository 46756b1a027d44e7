//! The parts of a resource (FHIR R4, JSON representation of resources).

ghost use Rattle.fhir_json.specs.Tree.{Tree};
ghost use Rattle.fhir_json.specs.Sound.{IsSound};
ghost use Rattle.fhir_schema.specs.Schemas.{SchemaValue};
ghost use Rattle.fhir_instance.specs.Items.{Item};
ghost use Rattle.fhir_instance.specs.Typing.{Types};
ghost use Rattle.fhir_contradictions.specs.Parts.{IsPartOf};
ghost use Rattle.fhir_contradictions.specs.Contradictions.{IsSoundValue};

/// The value of each part of a resource is sound, where the resource's tree is, as each that is read: no object has a name twice, numbers are
/// numbers, and texts are UTF-8.
pub fn sound_parts()
    ensures { (s : SchemaValue) (t : Tree) (x y : Item) → IsSound t → Types s t x → IsPartOf x y → IsSoundValue y }
{}
