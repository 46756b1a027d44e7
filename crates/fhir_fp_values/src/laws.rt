//! Laws: what the definitions say.

ghost use Rattle.std.specs.Prelude.{◌≡◌, ◌↔◌, map, true, None, Some, Option};
ghost use Rattle.fhir_json.specs.Tree.{Text, Tree};
ghost use Rattle.fhir_instance.specs.Items.{Item, item, Kids};
ghost use Rattle.fhir_fp_values.specs.Values.{item_value};
ghost use Rattle.fhir_fp_values.specs.Equality.{items_named, in_turn, equal};

/// Whether items are equal hangs on their children of each name alone, and not on the order in which their types list the
/// names (FHIRPath N1, section 6.1): so of the one on the left (`left`), and of the other (`right`). Two that say nothing, of one
/// type, are equal exactly where their children of each name are, one after another (`by_name`).
pub fn equality_by_name()
    ensures left { (type : Text) (json : Option Tree) (ks ls : Kids) (y : Item)
        → ((n : Text) → items_named n ks ≡ items_named n ls) → equal (item type json ks) y ≡ equal (item type json ls) y }
    ensures right { (x : Item) (type : Text) (json : Option Tree) (ks ls : Kids)
        → ((n : Text) → items_named n ks ≡ items_named n ls) → equal x (item type json ks) ≡ equal x (item type json ls) }
    ensures by_name { (type : Text) (json other : Option Tree) (ks ls : Kids)
        → item_value (item type json ks) ≡ None → item_value (item type other ls) ≡ None
        → (equal (item type json ks) (item type other ls) ≡ Some true)
        ↔ ((n : Text) → in_turn (map equal (items_named n ks)) (items_named n ls) ≡ Some true) }
{}
