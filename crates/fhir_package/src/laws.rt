//! Laws: what the definitions say of a folder and its package.

ghost use Rattle.std.specs.Prelude.{◌≡◌, ◌≢◌, ◌≤◌, ◌↔◌, ℕ, List, [], ◌∷◌, ◌++◌, map, filter, slice_get, Ok, Err, None, Some, false, All, Contains, IsTrue, codes};
ghost use Rattle.std.specs.List.{IsDistinct, flat_map};
ghost use Rattle.std.specs.List.Sorted.{IsStrictlySortedBy};
ghost use Rattle.std.specs.Cmp.Lexicographic.{slice_cmp};
ghost use Rattle.std.specs.Ordering.{nat_cmp};
ghost use Rattle.std.specs.Map.{keys_of};
ghost use Rattle.std.specs.Str.{bytes_eq};
ghost use Rattle.fhir_json.specs.Tree.{Text, Tree};
ghost use Rattle.fhir_json.specs.Grammar.{Reads};
ghost use Rattle.fhir_json.specs.Fields.{items_in};
ghost use Rattle.fhir_json.specs.Sound.{IsSound, depth, max_depth};
ghost use Rattle.fhir_matching.specs.Equality.{equal};
ghost use Rattle.fhir_package.specs.declared.kind.Kind.{Kind};
ghost use Rattle.fhir_package.specs.Definitions.{Definitions, of_kind, at_url};
ghost use Rattle.fhir_package.specs.Folder.{Files};
ghost use Rattle.fhir_package.specs.Packing.{Definition, not_json, clash, is_bundle, definitions_in, is_json_name, json_names, json_files, bytes_at, pack};
ghost use Rattle.fhir_package.specs.Changing.{sound_definition, put_in, put_each, without, has, with_tree, AreSound, EachOnce};
ghost use Rattle.fhir_package.specs.ReadFiles.{ReadFiles, IsFrom, unreadable_names, given, all_given, pack_given};
ghost use Rattle.fhir_package.specs.Surveying.{unreadable, is_unreadable, survey, refusal, packed_by};
ghost use Rattle.fhir_package.specs.Found.{IsInFolder, Clashes, itself, in_resource};

use fhir_json::reading_agrees;
use fhir_matching::equivalence;

/// A file that is refused is there, its name ends in `.json`, and its bytes are no text of any tree. Of a folder that
/// is a package each such file is the text of a tree, and the trees of the package are sound.
pub fn packing()
    ensures refused { (files : Files) (name : Text) → pack files ≡ Err (not_json name)
        → Contains (keys_of files) name × IsTrue (is_json_name name)
        × ((t : Tree) → ¬ Reads (bytes_at files name) t) }
    ensures packed { (files : Files) (p : Definitions) (name : Text) → pack files ≡ Ok p
        → Contains (keys_of files) name → IsTrue (is_json_name name)
        → (t : Tree) × Reads (bytes_at files name) t }
    ensures sound { (files : Files) (p : Definitions) (kind : Kind) → pack files ≡ Ok p
        → All (λ e. IsSound e.1) (of_kind kind p) }
{
    reading_agrees();
}

/// A package has the definitions that stand in the folder's files and no others: at the kind and url of each is one
/// that equals it, whatever is at a url stands in a file, and no url comes twice in a kind. Of a folder that is refused
/// for a url, two definitions of one kind and that url stand in files and aren't equal.
pub fn packages()
    ensures all { (files : Files) (p : Definitions) (d : Definition) → pack files ≡ Ok p
        → IsInFolder files d
        → (t : Tree) × (at_url d.kind d.url p ≡ Some t) × IsTrue (equal t d.tree) }
    ensures only { (files : Files) (p : Definitions) (kind : Kind) (url : Text) (t : Tree)
        → pack files ≡ Ok p → at_url kind url p ≡ Some t
        → IsInFolder files (record { kind = kind; url = url; tree = t }) }
    ensures distinct { (files : Files) (p : Definitions) (kind : Kind) → pack files ≡ Ok p
        → IsDistinct bytes_eq (keys_of (of_kind kind p)) }
    ensures clashes { (files : Files) (url : Text) → pack files ≡ Err (clash url)
        → Clashes files url }
{
    reading_agrees();
    equivalence();
}

/// In a package of files each tree is the sound definition of its kind and url, and no url comes twice in a kind. It stays so
/// where a sound definition is put in or takes the place of another, where several are put in, and where a url is taken out.
/// What is put in is then at its kind and url, in the place of the one that was there or else behind the others of its kind; a
/// url that is taken out has no definition. Of other urls and kinds nothing changes.
pub fn changes()
    ensures packed { (files : Files) (p : Definitions) → pack files ≡ Ok p → AreSound p × EachOnce p }
    ensures put_sound { (d : Definition) (p : Definitions) → sound_definition d.tree ≡ Some d → AreSound p → AreSound (put_in d p) }
    ensures put_once { (d : Definition) (p : Definitions) → EachOnce p → EachOnce (put_in d p) }
    ensures each_sound { (ds : List Definition) (p : Definitions) → All (λ d. sound_definition d.tree ≡ Some d) ds → AreSound p
        → AreSound (put_each ds p) }
    ensures each_once { (ds : List Definition) (p : Definitions) → EachOnce p → EachOnce (put_each ds p) }
    ensures put { (d : Definition) (p : Definitions) → at_url d.kind d.url (put_in d p) ≡ Some d.tree }
    ensures put_other_url { (d : Definition) (p : Definitions) (url : Text) → url ≢ d.url
        → at_url d.kind url (put_in d p) ≡ at_url d.kind url p }
    ensures put_other_kind { (d : Definition) (p : Definitions) (kind : Kind) → kind ≢ d.kind
        → of_kind kind (put_in d p) ≡ of_kind kind p }
    ensures put_in_place { (d : Definition) (p : Definitions) → IsTrue (has d.kind d.url p)
        → keys_of (of_kind d.kind (put_in d p)) ≡ keys_of (of_kind d.kind p) }
    ensures put_behind { (d : Definition) (p : Definitions) → at_url d.kind d.url p ≡ None
        → of_kind d.kind (put_in d p) ≡ of_kind d.kind p ++ (d.url, d.tree) ∷ [] }
    ensures removed_sound { (url : Text) (p : Definitions) → AreSound p → AreSound (without url p) }
    ensures removed_once { (url : Text) (p : Definitions) → EachOnce p → EachOnce (without url p) }
    ensures removed { (url : Text) (p : Definitions) (kind : Kind) → at_url kind url (without url p) ≡ None }
    ensures removed_other_url { (url : Text) (p : Definitions) (kind : Kind) (other : Text) → other ≢ url
        → at_url kind other (without url p) ≡ at_url kind other p }
    ensures replaced_sound { (d : Definition) (place : ℕ) (p : Definitions) → sound_definition d.tree ≡ Some d
        → slice_get (keys_of (of_kind d.kind p)) place ≡ Some d.url → AreSound p → AreSound (with_tree d.kind place d.tree p) }
    ensures replaced_once { (kind : Kind) (place : ℕ) (t : Tree) (p : Definitions) → EachOnce p
        → EachOnce (with_tree kind place t p) }
{
    reading_agrees();
    packages();
}

/// Files of which a survey finds nothing wrong are the package that it has, and all others are refused for its first fault. Where
/// the device didn't give each of them, the survey has a fault for each that it didn't give, in their order; the first of these
/// is then the refusal, and the survey says nothing of a package.
pub fn surveys()
    ensures packed { (files : ReadFiles) → packed_by (survey files) ≡ pack_given files }
    ensures unreadable { (files : ReadFiles) → filter is_unreadable (survey files).faults ≡ map unreadable (unreadable_names files) }
    ensures first { (files : ReadFiles) (name : Text) (names : List Text) → unreadable_names files ≡ name ∷ names
        → refusal (survey files) ≡ Some (unreadable name) }
{}

/// Files were all given exactly where none of them is unread. Read from a folder, they are then its JSON files.
pub fn given_files()
    ensures given { (files : Files) → all_given (given files) ≡ Some files }
    ensures only { (read : ReadFiles) (files : Files) → all_given read ≡ Some files → read ≡ given files }
    ensures missing { (read : ReadFiles) → (all_given read ≡ None) ↔ (unreadable_names read ≢ []) }
    ensures of_folder { (folder : Files) (read : ReadFiles) (files : Files) → keys_of read ≡ json_names (keys_of folder)
        → All (IsFrom folder) read → all_given read ≡ Some files → files ≡ json_files folder }
{}

/// The names of the files that are read rise by their bytes, and they are those of the folder that end in `.json`.
pub fn ordered_names()
    ensures rising { (names : List Text) → IsStrictlySortedBy (slice_cmp nat_cmp) (json_names names) }
    ensures same { (names : List Text) (n : Text) → Contains (json_names names) n
        ↔ (Contains names n × IsTrue (is_json_name n)) }
{}

/// A Bundle of no more than `max_depth` levels, as each is that is read from bytes, holds what the resources of its
/// entries hold, in order. A tree that is no Bundle holds the definition that it is, if it is one, and nothing else.
pub fn bundles()
    ensures bundle { (t : Tree) → depth t ≤ max_depth → IsTrue (is_bundle t)
        → definitions_in t ≡ flat_map in_resource (items_in (codes "entry") t) }
    ensures other { (t : Tree) → is_bundle t ≡ false → definitions_in t ≡ itself t }
{}
