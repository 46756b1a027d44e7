//! Laws of what is reached.

ghost use Rattle.std.specs.Prelude.{◌≡◌, List, true, false};
ghost use Rattle.std.specs.List.{list_any};
ghost use Rattle.fhir_json.specs.Tree.{Text};
ghost use Rattle.fhir_package.specs.Definitions.{Definitions};
ghost use Rattle.fhir_package.specs.Packing.{Definition};
ghost use Rattle.fhir_package.specs.Changing.{put_in, put_each, without};
ghost use Rattle.fhir_reach.specs.Keys.{KeyValue, has_key, same_keys};
ghost use Rattle.fhir_reach.specs.Reach.{IsReach, restrict, put_keys, all_put_keys, removed_keys};
ghost use Rattle.fhir_reach.specs.Search.{reached};

/// What is reached is the least closed set (`least`), of which there is one (`one_set`). Where two packages have one restriction to what
/// one of them reaches, they reach the same keys (`one_reach`), and so the same definitions.
pub fn frame()
    ensures least { (p : Definitions) (start : List KeyValue) → IsReach p start (reached p start) }
    ensures one_set { (p : Definitions) (start keys others : List KeyValue) → IsReach p start keys → IsReach p start others
        → (k : KeyValue) → has_key keys k ≡ has_key others k }
    ensures one_reach { (p other : Definitions) (start : List KeyValue) → restrict p (reached p start) ≡ restrict other (reached p start)
        → reached other start ≡ reached p start }
{}

/// Lists of the same keys, in whatever order and however often each, have the same keys (`tests`), and stand for the same definitions
/// (`restrictions`). A list has the keys of itself (`itself`).
pub fn same_sets()
    ensures itself { (keys : List KeyValue) → same_keys keys keys ≡ true }
    ensures tests { (keys others : List KeyValue) → same_keys keys others ≡ true → (k : KeyValue) → has_key keys k ≡ has_key others k }
    ensures restrictions { (p : Definitions) (keys others : List KeyValue) → same_keys keys others ≡ true → restrict p keys ≡ restrict p others }
{}

/// A definition that is put in, a list of them, or the definitions of a url that are taken out, change neither what is reached nor the
/// definitions that are, where none of their keys is reached.
pub fn changes_elsewhere()
    ensures put_same { (d : Definition) (p : Definitions) (keys : List KeyValue) → list_any (has_key keys) (put_keys d p) ≡ false
        → restrict (put_in d p) keys ≡ restrict p keys }
    ensures put_reach { (d : Definition) (p : Definitions) (start : List KeyValue) → list_any (has_key (reached p start)) (put_keys d p) ≡ false
        → reached (put_in d p) start ≡ reached p start }
    ensures all_put_same { (ds : List Definition) (p : Definitions) (keys : List KeyValue) → list_any (has_key keys) (all_put_keys ds p) ≡ false
        → restrict (put_each ds p) keys ≡ restrict p keys }
    ensures all_put_reach { (ds : List Definition) (p : Definitions) (start : List KeyValue) → list_any (has_key (reached p start)) (all_put_keys ds p) ≡ false
        → reached (put_each ds p) start ≡ reached p start }
    ensures removed_same { (url : Text) (p : Definitions) (keys : List KeyValue) → list_any (has_key keys) (removed_keys url p) ≡ false
        → restrict (without url p) keys ≡ restrict p keys }
    ensures removed_reach { (url : Text) (p : Definitions) (start : List KeyValue) → list_any (has_key (reached p start)) (removed_keys url p) ≡ false
        → reached (without url p) start ≡ reached p start }
{
    frame();
}
