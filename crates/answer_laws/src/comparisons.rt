//! Comparisons of two versions of a package (docs/USAGE.md, A new version).

ghost use Rattle.std.specs.Prelude.{◌≡◌, ℕ, ◌+◌, ◌++◌, ◌&&◌, List, Bool, not, Some, IsTrue, nat_eq, codes, slice_get};
ghost use Rattle.fhir_json.specs.Tree.{Text, Tree};
ghost use Rattle.fhir_package.specs.Definitions.{Definitions};
ghost use Rattle.fhir_schema.specs.Schemas.{schema_of};
ghost use Rattle.fhir_cert_check.specs.Inclusion.{Includes};
ghost use Rattle.fhir_words.specs.declared.request.Audience.{Audience};
ghost use Rattle.fhir_words.specs.declared.request.Audience.TheVariants.{Readers, Writers};
ghost use Rattle.fhir_alike.specs.Profiles.{is_profile};
ghost use Rattle.fhir_compare.specs.declared.verdict.Change.TheVariants.{Same, Narrows, Widens};
ghost use Rattle.fhir_compare.specs.declared.verdict.Compared.{Compared};
ghost use Rattle.fhir_compare.specs.Comparing.{Said, WaysValue, both, change_by, change_of, IsVerdict};
ghost use Rattle.fhir_compare_lines.specs.Counting.{counts_of, counts_text};
ghost use Rattle.fhir_compare_lines.specs.Parts.{change_part, part_of};
ghost use Rattle.fhir_compare_engine.specs.Answering.{part_status};
ghost use Rattle.answer_laws.specs.Parts.{is_major, is_minor, one_asks, part_said};

/// Each url is counted once: the counts behind the first sum up to it (`all`). The last line says each under its name (`shown`).
pub fn counts_of_comparisons()
    ensures all { (told : List Compared)
        → (counts_of told).same + (counts_of told).narrow + (counts_of told).widen + (counts_of told).neither + (counts_of told).unusable
        + (counts_of told).only_in_old + (counts_of told).only_in_new ≡ (counts_of told).profiles }
    ensures shown { counts_text (record { profiles = 28; same = 1; narrow = 2; widen = 3; neither = 4; unusable = 5; only_in_old = 6; only_in_new = 7 })
        ≡ codes "profiles: 28, same: 1, narrow: 2, widen: 3, neither: 4, can't be used: 5, only in OLD: 6, only in NEW: 7" }
{}

/// What is told of a profile of both packages: where it narrows, each resource that conforms to NEW's conforms to OLD's (`narrows`), where it widens
/// the other way round (`widens`), and where it is the same both (`same_new`, `same_old`). OLD's stands behind the mark.
pub fn changes_of_profiles()
    ensures narrows { (old made : Definitions) (mark : Text) (place : ℕ) (e : Text × Tree) (w : WaysValue)
        → slice_get old.structure_definitions place ≡ Some e → IsTrue (is_profile e.1) → IsVerdict old made mark place e (both w)
        → change_of w ≡ Narrows → Includes (schema_of made) e.0 (mark ++ e.0) }
    ensures widens { (old made : Definitions) (mark : Text) (place : ℕ) (e : Text × Tree) (w : WaysValue)
        → slice_get old.structure_definitions place ≡ Some e → IsTrue (is_profile e.1) → IsVerdict old made mark place e (both w)
        → change_of w ≡ Widens → Includes (schema_of made) (mark ++ e.0) e.0 }
    ensures same_new { (old made : Definitions) (mark : Text) (place : ℕ) (e : Text × Tree) (w : WaysValue)
        → slice_get old.structure_definitions place ≡ Some e → IsTrue (is_profile e.1) → IsVerdict old made mark place e (both w)
        → change_of w ≡ Same → Includes (schema_of made) e.0 (mark ++ e.0) }
    ensures same_old { (old made : Definitions) (mark : Text) (place : ℕ) (e : Text × Tree) (w : WaysValue)
        → slice_get old.structure_definitions place ≡ Some e → IsTrue (is_profile e.1) → IsVerdict old made mark place e (both w)
        → change_of w ≡ Same → Includes (schema_of made) (mark ++ e.0) e.0 }
{}

/// Which part of a version has to change. Who reads what conforms is broken exactly where NEW's isn't shown to narrow OLD's (`readers`), and who writes it
/// exactly where OLD's isn't shown to narrow NEW's (`writers`). For both the least part is that the profile is the same (`least`). The whole has the worst
/// part that one of the profiles asks for (`whole`), and the status is 1 exactly where one asks for a major one (`status`).
pub fn parts_of_versions()
    ensures readers { (new_in_old old_in_new : Bool) → is_major (change_part Readers (change_by new_in_old old_in_new)) ≡ not new_in_old }
    ensures writers { (new_in_old old_in_new : Bool) → is_major (change_part Writers (change_by new_in_old old_in_new)) ≡ not old_in_new }
    ensures least { (audience : Audience) (new_in_old old_in_new : Bool)
        → (not (is_major (change_part audience (change_by new_in_old old_in_new))) && not (is_minor (change_part audience (change_by new_in_old old_in_new))))
        ≡ (new_in_old && old_in_new) }
    ensures whole { (audience : Audience) (said : List Said) → part_of audience said ≡ part_said audience said }
    ensures status { (audience : Audience) (said : List Said) → nat_eq (part_status (part_of audience said)) 1 ≡ one_asks is_major audience said }
{}
