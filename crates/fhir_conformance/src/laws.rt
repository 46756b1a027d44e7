//! Laws: what the definitions say of one another.

ghost use Rattle.std.specs.Prelude.{◌≡◌, List, [], ◌∷◌, Bool, true, false, IsTrue, codes};
ghost use Rattle.std.specs.List.{Contains, list_all};
ghost use Rattle.fhir_json.specs.Tree.{Text, Tree, no_members};
ghost use Rattle.fhir_elements.specs.TypeEntry.{TypeEntry};
ghost use Rattle.fhir_nodes.specs.declared.node.NodeRef.{NodeRef};
ghost use Rattle.fhir_schema.specs.Schemas.{SchemaValue};
ghost use Rattle.fhir_instance.specs.Items.{Item, Place};
ghost use Rattle.fhir_facets.specs.Unread.{Unread, Meaning, as_given, is_given};
ghost use Rattle.fhir_conformance.specs.Asks.{ElementRuleName, root_asks};
ghost use Rattle.fhir_conformance.specs.Conformance.{Interpretation, constant, as_read, Around, outermost, rule_holds, entry_allows, ask_holds, conforms, IsFairEverywhere, Conforms};
ghost use Rattle.fhir_conformance.specs.Meeting.{Met, targets_unread, rule_unread, unread_at};
ghost use Rattle.fhir_conformance.specs.Example.{schema, bare, noted, unknown};
ghost use Rattle.fhir_conformance.specs.Recipes.{recipes, untitled, of_steps};
ghost use Rattle.fhir_conformance.specs.Recipes.{titled as titled_recipe};
ghost use Rattle.fhir_conformance.specs.Questions.{questions, identified, texted, nested, nested_resources};
ghost use Rattle.fhir_conformance.specs.Letters.{letters, given, title, from, answering, coded, counted, memo, one_name, three_names};

use fhir_schema::roots_are_roots;

/// Where unread rules mean more, no less conforms.
pub fn positive()
    ensures items { (s : SchemaValue) (less more : Interpretation)
        → ((u : Unread) (o : Item) (p : Place) → IsTrue (less u o p) → IsTrue (more u o p))
        → (around : Around) (x : Item) (n : NodeRef)
        → IsTrue (conforms s less around x n) → IsTrue (conforms s more around x n) }
    ensures resources { (s : SchemaValue) (less more : Interpretation)
        → ((u : Unread) (o : Item) (p : Place) → IsTrue (less u o p) → IsTrue (more u o p))
        → (profile : Text) (t : Tree) → Conforms s less profile t → Conforms s more profile t }
{
    roots_are_roots();
}

/// A rule of a node hangs on the unread rules that it carries alone, and so do the code and the targets of a type entry: where a
/// meaning says of these no less than another, what holds by that one holds by it.
pub fn hangs_on_carried()
    ensures rules { (s : SchemaValue) (less more : Meaning) (resource x : Item) (rule : ElementRuleName) (n : NodeRef)
        → ((u : Unread) → Contains (rule_unread s x rule n) u → IsTrue (less u) → IsTrue (more u))
        → IsTrue (rule_holds s less resource x rule n) → IsTrue (rule_holds s more resource x rule n) }
    ensures entries { (s : SchemaValue) (less more : Meaning) (x : Item) (e : TypeEntry)
        → ((u : Unread) → Contains (targets_unread s e) u → IsTrue (less u) → IsTrue (more u))
        → IsTrue (entry_allows s less x e) → IsTrue (entry_allows s more x e) }
{}

/// Meanings by which each unread rule holds everywhere, or none does anywhere, are fair.
pub fn fair_meanings()
    ensures { (s : SchemaValue) (b : Bool) → IsFairEverywhere s (constant b) }
{}

/// Where no pair of node and item that is met carries an unread rule, all meanings agree.
pub fn meanings_agree()
    ensures { (s : SchemaValue) (x : Item) (n : NodeRef)
        → ((place : Place) (r y : Item) (m : NodeRef) → Met s x n place r y m → unread_at s y m ≡ [])
        → (one other : Interpretation)
        → conforms s one (outermost x) x n ≡ conforms s other (outermost x) x n }
{
    roots_are_roots();
}

/// Where a user vouches for more unread rules, no less conforms. Where they vouch for others that no pair of node and item that is
/// met carries, all is as it was.
pub fn given_texts()
    ensures more { (s : SchemaValue) (texts others : List Text)
        → ((u : Unread) → IsTrue (is_given texts u) → IsTrue (is_given others u)) → (profile : Text) (t : Tree)
        → Conforms s (as_read texts as_given) profile t → Conforms s (as_read others as_given) profile t }
    ensures others { (s : SchemaValue) (x : Item) (n : NodeRef) (texts others : List Text)
        → ((place : Place) (r y : Item) (m : NodeRef) → Met s x n place r y m
        → (u : Unread) → Contains (unread_at s y m) u → is_given texts u ≡ is_given others u)
        → conforms s (as_read texts as_given) (outermost x) x n ≡ conforms s (as_read others as_given) (outermost x) x n }
{
    roots_are_roots();
    positive();
}

/// A root asks for no root, no types and no profile: whether all that it asks holds doesn't hang on which roots the item conforms to.
pub fn roots_ask_no_root()
    ensures { (s : SchemaValue) (meaning : Meaning) (resource x : Item) (kids : List (NodeRef → Bool))
        → (some others : NodeRef → Bool) (r : NodeRef)
        → list_all (ask_holds s meaning resource x kids some) (root_asks s x r)
        ≡ list_all (ask_holds s meaning resource x kids others) (root_asks s x r) }
{}

/// The definitions at work, on a resource that may have a note, and profiles of it. One with a note conforms to a profile
/// that asks for one. One without a note conforms to its type's own definition, and not to that profile. One with a
/// property that the type doesn't have doesn't conform to the type's definition. `resourceType` is no element: a resource
/// doesn't conform to a profile that asks for such an element.
pub fn example()
    ensures noted { (meaning : Interpretation) → Conforms schema meaning (codes "urn:noted") noted }
    ensures own { (meaning : Interpretation) → Conforms schema meaning (codes "urn:Thing") bare }
    ensures bare { (meaning : Interpretation) → ¬ Conforms schema meaning (codes "urn:noted") bare }
    ensures named { (meaning : Interpretation) → ¬ Conforms schema meaning (codes "urn:named") bare }
    ensures unknown { (meaning : Interpretation) → ¬ Conforms schema meaning (codes "urn:Thing") unknown }
{}

/// The definitions at work on letters, whose sender has one given name or two, and perhaps a title. The definition of letters
/// says less of the names than that of their type, which is asked all the same: a sender with one name conforms (`own`), without
/// one (`nameless`) and with three (`many`) not. A profile that asks for a title is asked of the sender itself (`titled`,
/// `untitled`). A letter may answer a letter (`answer`), and what the rule of a profile that isn't there says (`other`, `open`). Its
/// kind is a code of a value set that isn't there, and so hangs on what that rule says (`kind`, `open_kind`); its mood is only
/// preferred to be one, and any conforms (`mood`).
pub fn letters_example()
    ensures own { (meaning : Interpretation) → Conforms letters meaning (codes "urn:Letter") (from (given one_name no_members)) }
    ensures nameless { (meaning : Interpretation) → ¬ Conforms letters meaning (codes "urn:Letter") (from title) }
    ensures many { (meaning : Interpretation) → ¬ Conforms letters meaning (codes "urn:Letter") (from (given three_names no_members)) }
    ensures titled { (meaning : Interpretation) → Conforms letters meaning (codes "urn:titled") (from (given one_name title)) }
    ensures untitled { (meaning : Interpretation) → ¬ Conforms letters meaning (codes "urn:titled") (from (given one_name no_members)) }
    ensures answer { (meaning : Interpretation) → Conforms letters meaning (codes "urn:Letter") (answering (codes "Letter/1")) }
    ensures other { ¬ Conforms letters (constant false) (codes "urn:Letter") (answering (codes "Person/1")) }
    ensures open { Conforms letters (constant true) (codes "urn:Letter") (answering (codes "Person/1")) }
    ensures kind { ¬ Conforms letters (constant false) (codes "urn:Letter") (coded (codes "kind") (codes "c")) }
    ensures open_kind { Conforms letters (constant true) (codes "urn:Letter") (coded (codes "kind") (codes "c")) }
    ensures mood { (meaning : Interpretation) → Conforms letters meaning (codes "urn:Letter") (coded (codes "mood") (codes "c")) }
{}

/// The same letters, where a user vouches for rules by their texts: for the unread target (`target`), for the unread binding (`kind`),
/// for one by the front of its text alone (`front`), and for one that is no rule of these definitions (`strange`).
pub fn given_example()
    ensures target { Conforms letters (as_read (codes "target urn:other" ∷ []) as_given) (codes "urn:Letter") (answering (codes "Person/1")) }
    ensures kind { Conforms letters (as_read (codes "binding urn:set" ∷ []) as_given) (codes "urn:Letter") (coded (codes "kind") (codes "c")) }
    ensures front { ¬ Conforms letters (as_read (codes "binding urn:se" ∷ []) as_given) (codes "urn:Letter") (coded (codes "kind") (codes "c")) }
    ensures strange { ¬ Conforms letters (as_read (codes "binding urn:sets" ∷ []) as_given) (codes "urn:Letter") (coded (codes "kind") (codes "c")) }
{}

/// The definitions at work on letters with one value. A greeting fits the pattern `dear` (`greeting`, `rude`), the language is the
/// fixed `en` (`language`, `foreign`), a farewell has at most three characters (`farewell`, `wordy`), there is a page at least
/// (`pages`, `empty`) and at most nine copies (`copies`, `crowd`). What isn't a letter doesn't conform to their definition (`memo`).
pub fn values_example()
    ensures greeting { (meaning : Interpretation) → Conforms letters meaning (codes "urn:Letter") (coded (codes "greeting") (codes "dear")) }
    ensures rude { (meaning : Interpretation) → ¬ Conforms letters meaning (codes "urn:Letter") (coded (codes "greeting") (codes "you")) }
    ensures language { (meaning : Interpretation) → Conforms letters meaning (codes "urn:Letter") (coded (codes "language") (codes "en")) }
    ensures foreign { (meaning : Interpretation) → ¬ Conforms letters meaning (codes "urn:Letter") (coded (codes "language") (codes "fr")) }
    ensures farewell { (meaning : Interpretation) → Conforms letters meaning (codes "urn:Letter") (coded (codes "farewell") (codes "bye")) }
    ensures wordy { (meaning : Interpretation) → ¬ Conforms letters meaning (codes "urn:Letter") (coded (codes "farewell") (codes "adieu")) }
    ensures pages { (meaning : Interpretation) → Conforms letters meaning (codes "urn:Letter") (counted (codes "pages") (codes "1")) }
    ensures empty { (meaning : Interpretation) → ¬ Conforms letters meaning (codes "urn:Letter") (counted (codes "pages") (codes "0")) }
    ensures copies { (meaning : Interpretation) → Conforms letters meaning (codes "urn:Letter") (counted (codes "copies") (codes "9")) }
    ensures crowd { (meaning : Interpretation) → ¬ Conforms letters meaning (codes "urn:Letter") (counted (codes "copies") (codes "10")) }
    ensures memo { (meaning : Interpretation) → ¬ Conforms letters meaning (codes "urn:Letter") memo }
{}

/// The definitions at work on what is recursive: questionnaires whose items have items, as an item refers to the items of the
/// questionnaire for its content, and which may contain questionnaires. Each item has to have an id, at any depth (`nested`,
/// `nameless`), also in a questionnaire in a questionnaire in a questionnaire (`contained`, `nameless_within`).
pub fn questions_example()
    ensures nested { (meaning : Interpretation) → Conforms questions meaning (codes "urn:Questionnaire") (nested (identified no_members)) }
    ensures nameless { (meaning : Interpretation) → ¬ Conforms questions meaning (codes "urn:Questionnaire") (nested texted) }
    ensures contained { (meaning : Interpretation)
        → Conforms questions meaning (codes "urn:Questionnaire") (nested_resources (identified no_members)) }
    ensures nameless_within { (meaning : Interpretation)
        → ¬ Conforms questions meaning (codes "urn:Questionnaire") (nested_resources texted) }
{}

/// The definitions at work on constraints. A recipe with a title conforms to a profile whose one error is true, though its warning
/// isn't (`titled`), and one without doesn't (`untitled`). Of two errors both have to be true (`both`). What an expression that isn't read
/// says is open (`unread`, `unread_holds`). At the title `%context` is the title and `%resource` the recipe (`context`).
pub fn constraints_example()
    ensures titled { (meaning : Interpretation) → Conforms recipes meaning (codes "urn:titled") titled_recipe }
    ensures untitled { (meaning : Interpretation) → ¬ Conforms recipes meaning (codes "urn:titled") untitled }
    ensures both { (meaning : Interpretation) → ¬ Conforms recipes meaning (codes "urn:both") titled_recipe }
    ensures unread { ¬ Conforms recipes (constant false) (codes "urn:unread") titled_recipe }
    ensures unread_holds { Conforms recipes (constant true) (codes "urn:unread") titled_recipe }
    ensures context { (meaning : Interpretation) → Conforms recipes meaning (codes "urn:context") titled_recipe }
{}

/// The definitions at work on slices of a recipe's steps. Where they are closed each step is in one (`sliced`, `in_none`), and else
/// needn't be (`open`). There is a step to boil (`too_few`), and one alone (`too_many`). A step of a slice conforms to the slice's element
/// (`long`), and is in no other slice (`in_two`).
pub fn slices_example()
    ensures sliced { (meaning : Interpretation) → Conforms recipes meaning (codes "urn:closed") (of_steps (codes "boil" ∷ codes "fry" ∷ [])) }
    ensures in_none { (meaning : Interpretation) → ¬ Conforms recipes meaning (codes "urn:closed") (of_steps (codes "boil" ∷ codes "bake" ∷ [])) }
    ensures open { (meaning : Interpretation) → Conforms recipes meaning (codes "urn:open") (of_steps (codes "boil" ∷ codes "bake" ∷ [])) }
    ensures too_few { (meaning : Interpretation) → ¬ Conforms recipes meaning (codes "urn:open") (of_steps (codes "fry" ∷ [])) }
    ensures too_many { (meaning : Interpretation) → ¬ Conforms recipes meaning (codes "urn:open") (of_steps (codes "boil" ∷ codes "boil" ∷ [])) }
    ensures long { (meaning : Interpretation) → ¬ Conforms recipes meaning (codes "urn:open") (of_steps (codes "boil" ∷ codes "salt" ∷ [])) }
    ensures in_two { (meaning : Interpretation) → ¬ Conforms recipes meaning (codes "urn:doubly") (of_steps (codes "boil" ∷ [])) }
{}
