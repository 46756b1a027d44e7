//! Items of slices (FHIR R4, Profiling, slicing; ElementDefinition, slicing).

ghost use Rattle.std.specs.Prelude.{◌≡◌, ◌↔◌, List, [], Some, IsTrue};
ghost use Rattle.std.specs.List.{Contains};
ghost use Rattle.fhir_json.specs.Tree.{Text, Tree};
ghost use Rattle.fhir_matching.specs.Equality.{equal};
ghost use Rattle.fhir_matching.specs.Fitting.{fits};
ghost use Rattle.fhir_nodes.specs.declared.node.NodeRef.{NodeRef};
ghost use Rattle.fhir_nodes.specs.Slots.{Slot};
ghost use Rattle.fhir_forms.specs.Criteria.{fixed, pattern, present, absent, typed, Criterion};
ghost use Rattle.fhir_schema.specs.Schemas.{SchemaValue, slices};
ghost use Rattle.fhir_schema.specs.Covers.{covers};
ghost use Rattle.fhir_instance.specs.Items.{Item, type_of, json_of};
ghost use Rattle.fhir_slicing.specs.Belonging.{items_at, is_found, belongs, is_in, is_apart, is_sliced};
ghost use Rattle.conformance_laws.specs.Paths.{Leads};

/// An item belongs to a slice exactly where each of its discriminators finds what it looks for at the end of its path (`belonging`). It is
/// apart exactly where all slices to which it belongs have one name (`apart`), and sliced where it belongs to some (`some`).
pub fn items_of_slices()
    ensures belonging { (s : SchemaValue) (cs : List Criterion) (x : Item) → IsTrue (belongs s cs x)
        ↔ ((c : Criterion) → Contains cs c → IsTrue (is_found s c.sought (items_at c.names x))) }
    ensures apart { (s : SchemaValue) (n : NodeRef) (x : Item) → IsTrue (is_apart s n x)
        ↔ ((one other : Slot) → Contains (slices s n) one → Contains (slices s n) other
        → IsTrue (is_in s n x one) → IsTrue (is_in s n x other) → one.name ≡ other.name) }
    ensures some { (s : SchemaValue) (n : NodeRef) (x : Item) → IsTrue (is_sliced s n x)
        ↔ ((slice : Slot) × (Contains (slices s n) slice) × IsTrue (is_in s n x slice)) }
{}

/// What discriminators look for among the items at the end of a path: by a value one that is equal to it (`fixed_value`), by a pattern one
/// that fits it (`fitting`), by existence any (`present_one`) or none (`none`), and by types one that some of them covers (`of_type`).
pub fn sought_items()
    ensures fixed_value { (s : SchemaValue) (value : Tree) (xs : List Item) → IsTrue (is_found s (fixed value) xs)
        ↔ ((x : Item) × (json : Tree) × (Contains xs x) × (json_of x ≡ Some json) × IsTrue (equal value json)) }
    ensures fitting { (s : SchemaValue) (p : Tree) (xs : List Item) → IsTrue (is_found s (pattern p) xs)
        ↔ ((x : Item) × (json : Tree) × (Contains xs x) × (json_of x ≡ Some json) × IsTrue (fits json p)) }
    ensures present_one { (s : SchemaValue) (xs : List Item) → IsTrue (is_found s present xs) ↔ ((x : Item) × Contains xs x) }
    ensures none { (s : SchemaValue) (xs : List Item) → IsTrue (is_found s absent xs) ↔ (xs ≡ []) }
    ensures of_type { (s : SchemaValue) (types : List Text) (xs : List Item) → IsTrue (is_found s (typed types) xs)
        ↔ ((x : Item) × (type : Text) × (Contains xs x) × (Contains types type) × IsTrue (covers s type (type_of x))) }
{}

/// At the end of a path stand exactly the items to which its names lead from child to child; a choice is named without `[x]`.
pub fn items_on_paths()
    ensures { (names : List Text) (x y : Item) → Contains (items_at names x) y ↔ Leads names x y }
{}
