//! Laws: what the list of unread rules has.

ghost use Rattle.std.specs.Prelude.{◌≡◌, ◌↔◌, ◌⊎◌, ◌&&◌, ◌+◌, ◌++◌, ℕ, List, [], true, false, filter, count_by, Option, None, Some, if◌then◌else◌, All, IsUtf8, codes};
ghost use Rattle.std.specs.List.{list_any, slice_get, Contains};
ghost use Rattle.std.specs.Char.{is_control};
ghost use Rattle.std.specs.Fmt.{decimal};
ghost use Rattle.std.specs.Str.{bytes_eq, chars};
ghost use Rattle.std.specs.Str.Lines.{lines};
ghost use Rattle.fhir_json.specs.Tree.{Text, Tree};
ghost use Rattle.fhir_json.specs.Fields.{text_in, text_at, items_in};
ghost use Rattle.fhir_json.specs.Reading.{text_behind_mark};
ghost use Rattle.fhir_json.specs.Strings.{IsText};
ghost use Rattle.fhir_package.specs.Definitions.{Definitions};
ghost use Rattle.fhir_package.specs.Surveying.{Surveyed};
ghost use Rattle.fhir_schema.specs.Schemas.{SchemaValue};
ghost use Rattle.fhir_vouching.specs.Given.{is_comment, given_lines};
ghost use Rattle.fhir_facets.specs.Unread.{Unread, Reading, constraint, is_given, meaning_of, unread_text};
ghost use Rattle.fhir_findings.specs.Carrying.{Carrier, rule, carried_text, text_of, all_carriers};
ghost use Rattle.fhir_findings.specs.Firsts.{have_one_text};
ghost use Rattle.fhir_findings.specs.Selecting.{SelectionValue};
ghost use Rattle.fhir_findings.specs.Sentences.{elements_in, sentence_for};
ghost use Rattle.fhir_lines.specs.Lines.{escaped};
ghost use Rattle.fhir_unread.specs.Given.{texts_given, AreSame, unknown_lines, notes};
ghost use Rattle.fhir_unread.specs.Listing.{heading, inside, listing, saying_text, sayings_for, sentence_shown};
ghost use Rattle.fhir_unread.specs.Sayings.{Saying};
ghost use Rattle.fhir_unread.specs.Standing.{IsListed};
ghost use Rattle.fhir_unread.specs.Unread.{is_rule, given_text, unread_texts};

/// A text is among those of the unread rules exactly where some element carries a rule with it.
pub fn unread_once()
    ensures { (selection : SelectionValue) (s : SchemaValue) (survey : Surveyed) (t : Text)
        → list_any (bytes_eq t) (unread_texts selection s survey)
        ≡ list_any (λ c. is_rule c && bytes_eq t (given_text c)) (all_carriers selection s survey) }
{}

/// Who gives a whole list, as it is written, vouches for a rule exactly where a selected element carries what is printed as that rule (`given`).
/// No line of the list of all definitions is told of (`told`). The texts are UTF-8.
pub fn list_vouches()
    ensures given { (selection : SelectionValue) (s : SchemaValue) (survey : Surveyed) (u : Unread)
        → All IsUtf8 (unread_texts selection s survey)
        → is_given (texts_given (listing selection s survey)) u
        ≡ list_any (λ c. bytes_eq (carried_text (rule u)) (text_of c)) (all_carriers selection s survey) }
    ensures told { (name : Text) (s : SchemaValue) (survey : Surveyed) → All IsUtf8 (unread_texts None s survey)
        → notes name (unread_texts None s survey) (listing None s survey) ≡ [] }
{}

/// Each sentence that a constraint without an expression says, in the snapshot of a definition or in its differential, is among those that are listed
/// of the rule which has the key of that constraint.
pub fn sentences_listed()
    ensures snapshot { (p : Definitions) (url : Text) (t element c : Tree) (human : Text) → Contains p.structure_definitions (url, t)
        → Contains (elements_in (codes "snapshot") t) element → Contains (items_in (codes "constraint") element) c
        → text_in (codes "expression") c ≡ None → text_in (codes "human") c ≡ Some human
        → list_any (λ y. bytes_eq human y.human) (sayings_for p (Some (constraint (text_at (codes "key") c)))) ≡ true }
    ensures differential { (p : Definitions) (url : Text) (t element c : Tree) (human : Text) → Contains p.structure_definitions (url, t)
        → Contains (elements_in (codes "differential") t) element → Contains (items_in (codes "constraint") element) c
        → text_in (codes "expression") c ≡ None → text_in (codes "human") c ≡ Some human
        → list_any (λ y. bytes_eq human y.human) (sayings_for p (Some (constraint (text_at (codes "key") c)))) ≡ true }
{}

/// Each rule that a selected element carries stands in the list. Behind a comment that says what is said of such an element and ends with their number,
/// and behind comments alone, a line gives its text; what is said under its key stands between.
pub fn rules_listed()
    ensures { (selection : SelectionValue) (s : SchemaValue) (survey : Surveyed) (c : Carrier) (u : Unread)
        → Contains (all_carriers selection s survey) c → c.carried ≡ rule u
        → IsListed survey.definitions (listing selection s survey) (unread_text u) (count_by (have_one_text text_of c) (all_carriers selection s survey))
        (sayings_for survey.definitions (Some u)) }
{}

/// A file gives a text exactly where some line, which is no comment, is the inside of a JSON string that is the text (`given`). Two files that give
/// the same texts mean the same (`meaning`).
pub fn lines_give()
    ensures given { (bytes text : Text) → (list_any (bytes_eq text) (texts_given bytes) ≡ true)
        ↔ ((line : Text) × Contains (lines (text_behind_mark bytes)) line × (is_comment line ≡ false) × IsText line text) }
    ensures meaning { (some others : List Text) → AreSame some others → (reading : Reading) (u : Unread)
        → meaning_of some reading u ≡ meaning_of others reading u }
{}

/// A line of a file is told of exactly where it is no comment and gives none of the texts (`unknown`), by the name of the file, with its control
/// characters escaped, and its number (`noted`).
pub fn lines_told()
    ensures unknown { (texts : List Text) (bytes : Text) (number : ℕ) → Contains (unknown_lines texts (given_lines bytes)) (number + 1)
        ↔ ((line : Text) × (slice_get (lines (text_behind_mark bytes)) number ≡ Some line) × (is_comment line ≡ false)
        × ((text : Text) → IsText line text → list_any (bytes_eq text) texts ≡ false)) }
    ensures noted { (name bytes : Text) (texts : List Text) (number : ℕ) → Contains (unknown_lines texts (given_lines bytes)) number
        → (before rest : Text) × (notes name texts bytes ≡ before ++ (escaped name ++ codes ":" ++ decimal number ++ codes ":" ++ rest)) }
{}

/// What is said of a rule begins with the key of its constraint (`key`), has its sentence (`sentence`), and says where the package lacks the
/// definition that is named (`lacks`). A sentence under a key stands behind the url and the id of its element (`saying`).
pub fn headings_tell()
    ensures key { (c : Carrier) (sentence : Option Text) (key : Text) (count : ℕ) → c.key ≡ Some key
        → (rest : Text) × (heading c sentence count ≡ key ++ rest) }
    ensures sentence { (c : Carrier) (sentence : Text) (count : ℕ)
        → (before rest : Text) × (heading c (Some sentence) count ≡ before ++ (sentence ++ rest)) }
    ensures lacks { (c : Carrier) (sentence : Option Text) (count : ℕ) → c.lacks ≡ true
        → (before rest : Text) × (heading c sentence count ≡ before ++ (codes "the package lacks it" ++ rest)) }
    ensures saying { (y : Saying) → (between : Text) × (saying_text y ≡ y.url ++ codes "#" ++ y.id ++ between ++ y.human) }
{}

/// The sentence that the package has for a rule is told with it: where the rule is no constraint without an expression as what is said of it, and else
/// among what is said under its key.
pub fn sentences_told()
    ensures { (p : Definitions) (c : Carrier) (u : Unread) (human : Text) → c.carried ≡ rule u → sentence_for p c ≡ Some human
        → (sentence_shown p c (Some u) ≡ Some human) ⊎ (list_any (λ y. bytes_eq human y.human) (sayings_for p (Some u)) ≡ true) }
{}

/// A rule is given once by the texts of the list, if a selected element carries what is printed as that rule, and else not.
pub fn rules_once()
    ensures { (selection : SelectionValue) (s : SchemaValue) (survey : Surveyed) (u : Unread)
        → count_by (bytes_eq (unread_text u)) (unread_texts selection s survey)
        ≡ (if list_any (λ c. bytes_eq (carried_text (rule u)) (text_of c)) (all_carriers selection s survey) then 1 else 0) }
{}

/// The inside of a text is that of a JSON string with the text (`text`), and has no control character (`clean`).
pub fn insides_shown()
    ensures text { (text : Text) → IsUtf8 text → IsText (inside text) text }
    ensures clean { (text : Text) → IsUtf8 text → filter is_control (chars (inside text)) ≡ [] }
{}
