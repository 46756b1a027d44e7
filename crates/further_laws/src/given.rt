//! What a user vouches for.

ghost use Rattle.std.specs.Prelude.{◌≡◌, ◌↔◌, ◌++◌, List, [], false, IsTrue, codes};
ghost use Rattle.std.specs.List.{list_any, Contains};
ghost use Rattle.std.specs.Str.{bytes_eq};
ghost use Rattle.fhir_json.specs.Tree.{Text, Tree};
ghost use Rattle.fhir_schema.specs.Schemas.{SchemaValue, concepts_at};
ghost use Rattle.fhir_facets.specs.Bindings.{lies_within, IsFair};
ghost use Rattle.fhir_facets.specs.Unread.{as_given, meaning_of};
ghost use Rattle.fhir_conformance.specs.Conformance.{as_read, constant, Conforms};
ghost use Rattle.fhir_cert_check.specs.Inclusion.{Includes};
ghost use Rattle.fhir_commands.specs.declared.reply.Standing.{Standing};
ghost use Rattle.fhir_commands.specs.declared.reply.Standing.TheVariants as standings;
ghost use Rattle.fhir_replies.specs.Judging.{IsJudged, IsJudgedAsGiven};

use fhir_conformance::given_texts;
use fhir_facets::given_rules;
use fhir_json::one_tree;

/// Where each resource that conforms to a profile conforms to another, as a certificate shows, that is so too of what conforms where a
/// user vouches for unread rules by their texts (`includes`); as long as these texts are fair: with that of a required binding there is
/// that of each to a larger value set (`fair`). Where they vouch for nothing, a resource conforms where it does though no unread rule
/// holds (`nothing`).
pub fn given_inclusion()
    ensures includes { (s : SchemaValue) (derived base : Text) (texts : List Text) → Includes s derived base
        → IsFair s (meaning_of texts as_given) → (t : Tree)
        → Conforms s (as_read texts as_given) derived t → Conforms s (as_read texts as_given) base t }
    ensures fair { (s : SchemaValue) (texts : List Text) → IsFair s (meaning_of texts as_given)
        ↔ ((own base : Text) → IsTrue (lies_within (concepts_at s own) (concepts_at s base))
        → Contains texts (codes "binding " ++ own) → Contains texts (codes "binding " ++ base)) }
    ensures nothing { (s : SchemaValue) (profile : Text) (t : Tree)
        → Conforms s (as_read [] as_given) profile t ↔ Conforms s (constant false) profile t }
{
    given_rules();
}

/// How a resource stands where a user vouches for unread rules by their texts. Where it conforms without, it conforms (`conforms`), and it
/// violates exactly where it violates without (`violates`, `violated`). Where it conforms with some of the texts, it does with more
/// (`more`). Without any text it stands as it does without (`nothing`).
pub fn standings_as_given()
    ensures conforms { (s : SchemaValue) (texts : List Text) (profile bytes : Text) (standing : Standing) (outcome other : Tree)
        → IsJudged s profile bytes standings.Conforms outcome → IsJudgedAsGiven s texts profile bytes standing other
        → standing ≡ standings.Conforms }
    ensures more { (s : SchemaValue) (some more : List Text) (profile bytes : Text) (standing : Standing) (outcome other : Tree)
        → ((t : Text) → IsTrue (list_any (bytes_eq t) some) → IsTrue (list_any (bytes_eq t) more))
        → IsJudgedAsGiven s some profile bytes standings.Conforms outcome → IsJudgedAsGiven s more profile bytes standing other
        → standing ≡ standings.Conforms }
    ensures violates { (s : SchemaValue) (texts : List Text) (profile bytes : Text) (standing : Standing) (outcome other : Tree)
        → IsJudged s profile bytes standings.Violates outcome → IsJudgedAsGiven s texts profile bytes standing other
        → standing ≡ standings.Violates }
    ensures violated { (s : SchemaValue) (texts : List Text) (profile bytes : Text) (standing : Standing) (outcome other : Tree)
        → IsJudgedAsGiven s texts profile bytes standings.Violates outcome → IsJudged s profile bytes standing other
        → standing ≡ standings.Violates }
    ensures nothing { (s : SchemaValue) (profile bytes : Text) (standing given : Standing) (outcome other : Tree)
        → IsJudged s profile bytes standing outcome → IsJudgedAsGiven s [] profile bytes given other
        → given ≡ standing }
{
    one_tree();
    given_texts();
}
