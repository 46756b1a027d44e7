//! Elements that say too little.

ghost use Rattle.std.specs.Prelude.{◌≡◌, None, Some, codes};
ghost use Rattle.fhir_json.specs.Tree.{no_members};
ghost use Rattle.fhir_elements.specs.declared.reason.Reason.TheVariants.{WrongField};
ghost use Rattle.judged_examples.specs.Usable.{many, without_max, without_min, coded, of_none, as_b, root_alone, with_element};

/// An element of a snapshot says how many items there may be, and below the root of which types they are, or whose content they have
/// (FHIR R4, StructureDefinition, sdf-3; ElementDefinition, type and contentReference). One that says so can be used (`whole`, `content`). A
/// definition can't that has an element without `max` (`no_max`), without `min` (`no_min`), or without types and a reference to another's
/// content (`no_types`, `empty_types`).
pub fn whole_elements()
    ensures whole { with_element (many (codes "A.c") coded) ≡ None }
    ensures content { with_element (many (codes "A.c") as_b) ≡ None }
    ensures no_max { with_element (without_max (codes "A.c") coded) ≡ Some WrongField }
    ensures no_min { with_element (without_min (codes "A.c") coded) ≡ Some WrongField }
    ensures no_types { with_element (many (codes "A.c") no_members) ≡ Some WrongField }
    ensures empty_types { with_element (many (codes "A.c") of_none) ≡ Some WrongField }
{}

/// The root needs no types (`untyped`), and says how many items there may be all the same (`no_max`, `no_min`).
pub fn whole_roots()
    ensures untyped { root_alone (many (codes "A") no_members) ≡ None }
    ensures no_max { root_alone (without_max (codes "A") no_members) ≡ Some WrongField }
    ensures no_min { root_alone (without_min (codes "A") no_members) ≡ Some WrongField }
{}
