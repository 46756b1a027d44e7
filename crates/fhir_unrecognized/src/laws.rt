//! Definitions whose members are misspelt.

ghost use Rattle.std.specs.Prelude.{◌≡◌, [], true};
ghost use Rattle.std.specs.List.{list_all};
ghost use Rattle.fhir_json.specs.Bytes.{is_empty};
ghost use Rattle.fhir_unrecognized.specs.Unrecognized.{unrecognized_in};
ghost use Rattle.fhir_unrecognized.specs.Examples.{misspelt_structure, told_of_structure, misspelt_value_set, told_of_value_set, misspelt_code_system, told_of_code_system, right_definitions};

/// A member whose name R4 doesn't have is told with its place, whatever stands in it: as `mni` and `bindings` in an element, `rule` in a
/// slicing, `differentail` in a StructureDefinition (`structure`), `filters` in an include (`value_set`), and `dispaly` in a concept
/// within another (`code_system`).
pub fn misspelt_members()
    ensures structure { unrecognized_in misspelt_structure ≡ told_of_structure }
    ensures value_set { unrecognized_in misspelt_value_set ≡ told_of_value_set }
    ensures code_system { unrecognized_in misspelt_code_system ≡ told_of_code_system }
{}

/// Of definitions whose members are all right nothing is told: so of the companions of primitives, of the forms of choices, of comments,
/// and of what other parts contain; nor of another resource.
pub fn right_members()
    ensures { list_all (λ t. is_empty (unrecognized_in t)) right_definitions ≡ true }
{}
