//! The definitions of typing at work.

ghost use Rattle.std.specs.Prelude.{◌≡◌, None};
ghost use Rattle.fhir_instance.specs.Typing.{Types, resource};
ghost use Rattle.fhir_instance.specs.TypingExample.{schema, person, person_item, both_null, one_short, no_array, empty_array, unwanted_array};
ghost use Rattle.fhir_instance.specs.TypingExample.{unknown, of_the_type, not_a_code, with_value, of_abstract, empty_id, number_id, modified, wrong_beside, null_value, named_element, named_companion};

/// Which item a resource is whose type has complex elements and a choice, and what has no item. The item's children stand in
/// the order of the type, whatever the order of the members, and each form of the choice is one (`typed`). A given name without a
/// value is one too, by its companion. `resourceType` is an element but in a resource; an element with children of its own is
/// typed by these; and the profile of this type in the package, which allows one name, has no say. No item have: null beside null,
/// companions that are fewer than the values, one value where an array must stand, an array that is empty, or stands where one
/// value must, a property that the type or the element doesn't have, a text that is no code, a companion with a value, a
/// resource of an abstract type, an id that is empty or a number, a companion with modifier extensions, a text that is no code beside a
/// companion, null beside a companion where one value must stand, and a `resourceType` in an object that is no resource.
pub fn typing_example()
    ensures typed { Types schema person person_item }
    ensures both_null { resource schema both_null ≡ None }
    ensures one_short { resource schema one_short ≡ None }
    ensures no_array { resource schema no_array ≡ None }
    ensures empty_array { resource schema empty_array ≡ None }
    ensures unwanted_array { resource schema unwanted_array ≡ None }
    ensures unknown { resource schema unknown ≡ None }
    ensures of_the_type { resource schema of_the_type ≡ None }
    ensures not_a_code { resource schema not_a_code ≡ None }
    ensures with_value { resource schema with_value ≡ None }
    ensures of_abstract { resource schema of_abstract ≡ None }
    ensures empty_id { resource schema empty_id ≡ None }
    ensures number_id { resource schema number_id ≡ None }
    ensures modified { resource schema modified ≡ None }
    ensures wrong_beside { resource schema wrong_beside ≡ None }
    ensures null_value { resource schema null_value ≡ None }
    ensures named_element { resource schema named_element ≡ None }
    ensures named_companion { resource schema named_companion ≡ None }
{}
