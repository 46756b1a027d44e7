//! Definitions that are put in by a list, and urls that are taken out.

ghost use Rattle.std.specs.Prelude.{◌≡◌, List, ◌∷◌, ◌++◌, true, Some, None};
ghost use Rattle.fhir_json.specs.Tree.{Text, Tree};
ghost use Rattle.fhir_package.specs.declared.kind.Kind.{Kind};
ghost use Rattle.fhir_package.specs.Definitions.{Definitions, at_url};
ghost use Rattle.fhir_package.specs.Packing.{Definition};
ghost use Rattle.fhir_package.specs.Changing.{sound_definition, is_same};
ghost use Rattle.fhir_commands.specs.Commands.{put, remove};
ghost use Rattle.fhir_commands.specs.declared.reply.PutAnswer.TheVariants as puts;
ghost use Rattle.fhir_registry.specs.Session.{definitions_of, put_answer, after};

use fhir_package::changes;

/// A list of definitions takes effect whole, or not at all. Where it is done, each of its trees is a definition, and is found at its kind and
/// url (`found`). Where it isn't, nothing is changed (`refused`); so it is where one of its trees is no definition, wherever that stands
/// (`bad`), or where two of its definitions are of one kind and url (`twice`).
pub fn lists_take_effect_whole()
    ensures found { (front back : List Tree) (t : Tree) (d : Definition) (p : Definitions) → sound_definition t ≡ Some d
        → put_answer (definitions_of (front ++ t ∷ back)) ≡ puts.Done
        → at_url d.kind d.url (after (put (front ++ t ∷ back)) p) ≡ Some d.tree }
    ensures refused { (ts : List Tree) (p : Definitions) → (put_answer (definitions_of ts) ≡ puts.Done → ⊥) → after (put ts) p ≡ p }
    ensures bad { (front back : List Tree) (t : Tree) → sound_definition t ≡ None
        → put_answer (definitions_of (front ++ t ∷ back)) ≡ puts.NoDefinition }
    ensures twice { (front between back : List Tree) (t u : Tree) (d e : Definition) → sound_definition t ≡ Some d → sound_definition u ≡ Some e
        → is_same d e ≡ true → put_answer (definitions_of (front ++ t ∷ (between ++ u ∷ back))) ≡ puts.Done → ⊥ }
{
    changes();
}

/// A url that is taken out has no definition of any kind.
pub fn removed_urls()
    ensures { (url : Text) (p : Definitions) (kind : Kind) → at_url kind url (after (remove url) p) ≡ None }
{
    changes();
}
