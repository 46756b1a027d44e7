//! Laws: what the findings of a package say of it, what is selected, and what is told once.

ghost use Rattle.std.specs.Prelude.{◌≡◌, ℕ, List, [], Some, None, true, count_by, length, nat_lt, if◌then◌else◌};
ghost use Rattle.std.specs.List.{list_all, sum_by};
ghost use Rattle.fhir_json.specs.Tree.{Text, Tree};
ghost use Rattle.fhir_package.specs.declared.kind.Kind.{Kind as KindOf};
ghost use Rattle.fhir_package.specs.Definitions.{Definitions, at_url};
ghost use Rattle.fhir_package.specs.Surveying.{Surveyed};
ghost use Rattle.fhir_reach.specs.Keys.{KeyValue, has_key};
ghost use Rattle.fhir_reach.specs.Reach.{keys_of};
ghost use Rattle.fhir_schema.specs.Schemas.{SchemaValue, schema_of};
ghost use Rattle.fhir_findings.specs.Clean.{AreUsable, AreSelectedUsable};
ghost use Rattle.fhir_findings.specs.Carrying.{Carrier as CarrierValue, text_of};
ghost use Rattle.fhir_findings.specs.Finding.{all_unusable, selected_unusable};
ghost use Rattle.fhir_findings.specs.Firsts.{have_one_text, has_text_of};
ghost use Rattle.fhir_findings.specs.Once.{told_once};
ghost use Rattle.fhir_findings.specs.Selecting.{SelectionValue, is_own, selection_of, is_selected, keys_named};

use fhir_reach::frame;

/// No definition of a package is listed exactly where no url leads to one that can't be used.
pub fn all_usable()
    ensures usable { (survey : Surveyed) → all_unusable (schema_of survey.definitions) survey ≡ []
        → AreUsable (schema_of survey.definitions) }
    ensures listed { (survey : Surveyed) → AreUsable (schema_of survey.definitions)
        → all_unusable (schema_of survey.definitions) survey ≡ [] }
{}

/// No definition that is selected is listed exactly where no url that is selected leads to one that can't be used.
pub fn selected_usable()
    ensures usable { (selection : SelectionValue) (survey : Surveyed) → selected_unusable selection (schema_of survey.definitions) survey ≡ []
        → AreSelectedUsable selection survey.definitions }
    ensures listed { (selection : SelectionValue) (survey : Surveyed) → AreSelectedUsable selection survey.definitions
        → selected_unusable selection (schema_of survey.definitions) survey ≡ [] }
{}

/// Where all definitions are selected, each that can't be used is found.
pub fn all_selected()
    ensures { (s : SchemaValue) (survey : Surveyed) → selected_unusable None s survey ≡ all_unusable s survey }
{}

/// A definition whose url begins with one of the prefixes is selected (`own`). What a selected definition names and the package has is
/// selected too (`named`).
pub fn selections()
    ensures own { (prefixes : List Text) (p : Definitions) (kind : KindOf) (url : Text) (t : Tree) → at_url kind url p ≡ Some t
        → is_own prefixes url ≡ true → is_selected (selection_of prefixes p) p kind url ≡ true }
    ensures named { (prefixes : List Text) (p : Definitions) (kind : KindOf) (url : Text) (t : Tree) → at_url kind url p ≡ Some t
        → is_selected (selection_of prefixes p) p kind url ≡ true
        → (k : KeyValue) → has_key (keys_named kind t) k ≡ true
        → (kind_named : KindOf) (named : Text) (u : Tree) → at_url kind_named named p ≡ Some u → has_key (keys_of kind_named named u) k ≡ true
        → is_selected (selection_of prefixes p) p kind_named named ≡ true }
{
    frame();
}

/// Of some carriers a text is told by one that is told, if one of them has it, and else by none (`one`). The counts together are the
/// number of carriers (`total`), and none is 0 (`some`).
pub fn tellings()
    ensures one { (carriers : List CarrierValue) (carrier : CarrierValue)
        → count_by (λ t. have_one_text text_of carrier t.first) (told_once text_of carriers)
        ≡ (if has_text_of text_of carriers carrier then 1 else 0) }
    ensures total { (carriers : List CarrierValue) → sum_by (λ t. t.count) (told_once text_of carriers) ≡ length carriers }
    ensures some { (carriers : List CarrierValue) → list_all (λ t. nat_lt 0 t.count) (told_once text_of carriers) ≡ true }
{}
