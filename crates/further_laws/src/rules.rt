//! Texts of unread rules, by which a user vouches for them.

ghost use Rattle.std.specs.Prelude.{◌≡◌};
ghost use Rattle.fhir_json.specs.Tree.{Text};
ghost use Rattle.fhir_facets.specs.Unread.{Unread, unread_text, target, profile, binding, expression, constraint};

/// A text is that of one unread rule at most, so that who vouches for one by its text vouches for no other. Of bounds this isn't said.
pub fn texts_of_rules()
    ensures targets { (rule : Unread) (canonical : Text) → unread_text rule ≡ unread_text (target canonical) → rule ≡ target canonical }
    ensures profiles { (rule : Unread) (canonical : Text) → unread_text rule ≡ unread_text (profile canonical) → rule ≡ profile canonical }
    ensures bindings { (rule : Unread) (canonical : Text) → unread_text rule ≡ unread_text (binding canonical) → rule ≡ binding canonical }
    ensures expressions { (rule : Unread) (text : Text) → unread_text rule ≡ unread_text (expression text) → rule ≡ expression text }
    ensures constraints { (rule : Unread) (key : Text) → unread_text rule ≡ unread_text (constraint key) → rule ≡ constraint key }
{}
