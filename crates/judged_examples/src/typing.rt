//! What is no item.

ghost use Rattle.std.specs.Prelude.{◌≡◌, true, None, codes};
ghost use Rattle.fhir_json.specs.Tree.{array, no_items};
ghost use Rattle.fhir_json.specs.Tree.{item as one_more};
ghost use Rattle.fhir_instance.specs.Typing.{resource};
ghost use Rattle.fhir_instance.specs.TypingExample.{schema, person_of, alias};
ghost use Rattle.judged_examples.specs.Typing.{is_typed, empty, given, one_text, two_texts, one_companion, two_companions};

/// An object is never empty (FHIR R4, JSON, objects are never empty): not as a complex value (`complex`), nor as one in an array
/// (`in_array`), nor as the companion of a primitive (`companion`). The same value with a child is typed (`filled`).
pub fn empty_objects()
    ensures complex { resource schema (person_of (codes "alias") empty) ≡ None }
    ensures in_array { resource schema (person_of (codes "name") (array (one_more empty no_items))) ≡ None }
    ensures companion { resource schema (person_of (codes "_valueCode") empty) ≡ None }
    ensures filled { is_typed (person_of (codes "alias") alias) ≡ true }
{}

/// The values of a primitive element that repeats and their companions are as many (FHIR R4, JSON, representation of primitive
/// elements: the second array is matched to the first place by place, `as_many`): neither more companions than values nor fewer
/// (`more`, `fewer`).
pub fn companions_in_number()
    ensures as_many { is_typed (given two_texts two_companions) ≡ true }
    ensures more { resource schema (given one_text two_companions) ≡ None }
    ensures fewer { resource schema (given two_texts one_companion) ≡ None }
{}
