//! Laws: what the definitions say of what is gathered and of the files in which it is written.

ghost use Rattle.std.specs.Prelude.{◌≡◌, None, Some, Ok, Err, ◌⊎◌, ◌+◌, ◌<◌, ◌≤◌, ◌^◌, All, List, [], ◌∷◌, ◌++◌, length, map, filter, find, if◌then◌else◌, Contains};
ghost use Rattle.std.specs.Option.{option_map};
ghost use Rattle.std.specs.List.Sorted.{IsStrictlySortedBy};
ghost use Rattle.std.specs.Cmp.Lexicographic.{slice_cmp};
ghost use Rattle.std.specs.Ordering.{nat_cmp};
ghost use Rattle.std.specs.Map.{keys_of};
ghost use Rattle.fhir_json.specs.Tree.{Text};
ghost use Rattle.fhir_package.specs.declared.kind.Kind.{Kind};
ghost use Rattle.fhir_package.specs.Definitions.{of_kind, at_url};
ghost use Rattle.fhir_package.specs.Packing.{pack};
ghost use Rattle.fhir_gather.specs.Gathering.{Taken, Dropped, Folders, FileAt, all_taken, is_of_kind, is_of, is_among, kept, dropped, dropped_for, package_of};
ghost use Rattle.fhir_gather.specs.Reading.{ReadFolders, first_unread, folders_with_bytes, unreadable, or_refusal, gather, gathered_of};
ghost use Rattle.fhir_gather.specs.Written.{written};
ghost use Rattle.fhir_gather.specs.Found.{IsDropped, IsFileName, entry_of, given_folders};

use fhir_json::{reading_agrees, sound_trees};
use fhir_package::bundles;

/// Folders that were read whole are gathered as all definitions in them. A first file that was not given is refused before any that is
/// no JSON; and where no file is missing, the folders were read whole.
pub fn gathers()
    ensures given { (folders : Folders) → gather (given_folders folders) ≡ or_refusal (gathered_of (all_taken folders)) }
    ensures unread { (read : ReadFolders) (file : FileAt) → first_unread read ≡ Some file → gather read ≡ Err (unreadable file) }
    ensures whole { (read : ReadFolders) → first_unread read ≡ None → read ≡ given_folders (folders_with_bytes read) }
{}

/// Of each kind and url the package of what is kept has the first definition of all, in the order of taking: one more definition
/// is kept, behind the others, unless one of its kind and url was taken before it.
pub fn first_kept()
    ensures first { (ts : List Taken) (kind : Kind) (url : Text) → at_url kind url (package_of (kept ts))
        ≡ option_map (λ t. t.definition.tree) (find (is_of kind url) ts) }
    ensures in_order { (ts : List Taken) (kind : Kind) → of_kind kind (package_of (kept ts))
        ≡ map entry_of (filter (is_of_kind kind) (kept ts)) }
    ensures none { kept [] ≡ [] }
    ensures one_more { (ts : List Taken) (t : Taken) → kept (ts ++ t ∷ [])
        ≡ (if is_among ts t then kept ts else kept ts ++ t ∷ []) }
{}

/// Each definition is kept or dropped. One is kept of those that are taken, and one is dropped since one of its kind and url is
/// kept; what is told of it tells of these two.
pub fn each_somewhere()
    ensures count { (ts : List Taken) → length (kept ts) + length (dropped ts) ≡ length ts }
    ensures only { (ts : List Taken) (t : Taken) → Contains (kept ts) t → Contains ts t }
    ensures somewhere { (ts : List Taken) (t : Taken) → Contains ts t → Contains (kept ts) t ⊎ ((first : Taken) × IsDropped ts first t) }
    ensures told { (ts : List Taken) (d : Dropped) → Contains (dropped ts) d
        → (first second : Taken) × IsDropped ts first second × (d ≡ dropped_for first second) }
{}

/// The names of the files rise by their bytes, so that no two are the same. Each is the name of a JSON file that any folder can have,
/// and none is longer than 255 bytes.
pub fn file_names()
    ensures rising { (ts : List Taken) → IsStrictlySortedBy (slice_cmp nat_cmp) (keys_of (written ts)) }
    ensures plain { (ts : List Taken) → All IsFileName (keys_of (written ts)) }
    ensures short { (ts : List Taken) → length ts < 10 ^ 79 → All (λ name. length name ≤ 255) (keys_of (written ts)) }
{}

/// The files in which the definitions are written that are kept of folders, all of them JSON, are their package. So whoever loads them
/// finds of each kind and url the first definition that stands in the folders.
pub fn loads()
    ensures { (folders : Folders) (ts : List Taken) → all_taken folders ≡ Ok ts
        → pack (written (kept ts)) ≡ Ok (package_of (kept ts)) }
{
    reading_agrees();
    sound_trees();
    bundles();
}
