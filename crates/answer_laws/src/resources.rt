//! What the status of `validate` and of `validate-given` says of a resource (docs/USAGE.md, What it answers).

ghost use Rattle.std.specs.Prelude.{◌≡◌, ◌∷◌, ◌++◌, List, Option, Some, IsSome, true, false, codes};
ghost use Rattle.fhir_json.specs.Tree.{Text, Tree};
ghost use Rattle.fhir_json.specs.Compact.{compact};
ghost use Rattle.fhir_json.specs.Grammar.{Reads};
ghost use Rattle.fhir_schema.specs.Schemas.{root};
ghost use Rattle.fhir_facets.specs.Unread.{as_given};
ghost use Rattle.fhir_conformance.specs.Conformance.{Conforms, Interpretation, constant, as_read};
ghost use Rattle.fhir_validator.specs.Verdicts.{AreGiven};
ghost use Rattle.fhir_replies.specs.Outcomes.{IsOutcome};
ghost use Rattle.fhir_replies.specs.Standing.{NeverConforms};
ghost use Rattle.fhir_unread.specs.Given.{texts_given, AreSame};
ghost use Rattle.fhir_words.specs.Requests.{derive, validate, validate_given};
ghost use Rattle.fhir_answers.specs.Replying.{ReplyValue, status_of, out_of, is_told};
ghost use Rattle.fhir_answers.specs.Session.{SessionValue, schema_in};
ghost use Rattle.answer_laws.specs.Answers.{Replies};
ghost use Rattle.answer_laws.specs.Manual.{severity};

use fhir_cert_check::certificates_include;
use fhir_conformance::fair_meanings;
use fhir_json::one_tree;

/// What `validate` says of the bytes of a resource by its status: 0 that it conforms, whatever the unread rules mean (`conforms`); 1 that it doesn't, whatever
/// they mean (`violates`); 2 that this hangs on them: it doesn't where none holds, and can't fail to where each holds (`open`); and 3 that the bytes are no
/// JSON, or that no profile of the url can be used (`fault`).
pub fn resources_by_status()
    ensures conforms { (s : SessionValue) (folder profile name bytes : Text) (files : List (Option Text)) (reply : ReplyValue)
        → Replies (validate folder profile name) s (Some bytes ∷ files) reply → status_of reply ≡ 0
        → (t : Tree) × Reads bytes t × ((meaning : Interpretation) → Conforms (schema_in s) meaning profile t) }
    ensures violates { (s : SessionValue) (folder profile name bytes : Text) (files : List (Option Text)) (reply : ReplyValue)
        → Replies (validate folder profile name) s (Some bytes ∷ files) reply → status_of reply ≡ 1
        → NeverConforms (schema_in s) profile bytes }
    ensures open { (s : SessionValue) (folder profile name bytes : Text) (files : List (Option Text)) (reply : ReplyValue)
        → Replies (validate folder profile name) s (Some bytes ∷ files) reply → status_of reply ≡ 2
        → (t : Tree) × Reads bytes t × (¬ Conforms (schema_in s) (constant false) profile t) × (¬ ¬ Conforms (schema_in s) (constant true) profile t) }
    ensures fault { (s : SessionValue) (folder profile name bytes : Text) (files : List (Option Text)) (reply : ReplyValue)
        → Replies (validate folder profile name) s (Some bytes ∷ files) reply → status_of reply ≡ 3
        → (t : Tree) → Reads bytes t → IsSome (root (schema_in s) profile) → ⊥ }
{}

/// The same of `validate-given`, by the texts that the lines of a file give: 0 says that the resource conforms where the given rules hold (`conforms`), 1 that
/// it doesn't, whatever the unread rules mean (`violates`), and 2 that it doesn't where the given ones alone hold, and can't fail to where each holds (`open`).
pub fn given_by_status()
    ensures conforms { (s : SessionValue) (folder profile name bytes given lines : Text) (files : List (Option Text)) (reply : ReplyValue)
        → Replies (validate_given folder profile name given) s (Some bytes ∷ Some lines ∷ files) reply
        → status_of reply ≡ 0 → (texts : List Text) × AreSame texts (texts_given lines)
        × (t : Tree) × Reads bytes t × ((meaning : Interpretation) → AreGiven texts meaning → Conforms (schema_in s) meaning profile t) }
    ensures violates { (s : SessionValue) (folder profile name bytes given lines : Text) (files : List (Option Text)) (reply : ReplyValue)
        → Replies (validate_given folder profile name given) s (Some bytes ∷ Some lines ∷ files) reply
        → status_of reply ≡ 1 → NeverConforms (schema_in s) profile bytes }
    ensures open { (s : SessionValue) (folder profile name bytes given lines : Text) (files : List (Option Text)) (reply : ReplyValue)
        → Replies (validate_given folder profile name given) s (Some bytes ∷ Some lines ∷ files) reply
        → status_of reply ≡ 2 → (texts : List Text) × AreSame texts (texts_given lines)
        × (t : Tree) × Reads bytes t × (¬ Conforms (schema_in s) (as_read texts as_given) profile t)
        × (¬ ¬ Conforms (schema_in s) (constant true) profile t) }
{}

/// The outcome that is written says the same as the status: its issues inform at 0, are errors at 1, warn at 2, and are fatal at 3 (FHIR R4,
/// OperationOutcome, issue.severity), of `validate` (`plain`) and of `validate-given`, unless the file of texts isn't UTF-8 (`given`).
pub fn outcomes_by_status()
    ensures plain { (s : SessionValue) (folder profile name bytes : Text) (files : List (Option Text)) (reply : ReplyValue)
        → Replies (validate folder profile name) s (Some bytes ∷ files) reply
        → (outcome : Tree) × (out_of reply ≡ compact outcome ++ codes "\n") × IsOutcome (severity (status_of reply)) outcome }
    ensures given { (s : SessionValue) (folder profile name bytes given lines : Text) (files : List (Option Text)) (reply : ReplyValue)
        → Replies (validate_given folder profile name given) s (Some bytes ∷ Some lines ∷ files) reply
        → is_told reply ≡ false
        → (outcome : Tree) × (out_of reply ≡ compact outcome ++ codes "\n") × IsOutcome (severity (status_of reply)) outcome }
{}

/// Where `derive` has status 0 of a profile and its base, each resource of which `validate` has status 0 by the profile has status 0 by the base too.
pub fn narrower_profiles_agree()
    ensures { (s : SessionValue) (folder derived base name bytes : Text) (files more others : List (Option Text)) (made one other : ReplyValue)
        → Replies (derive folder derived base) s files made → status_of made ≡ 0
        → Replies (validate folder derived name) s (Some bytes ∷ more) one → status_of one ≡ 0
        → Replies (validate folder base name) s (Some bytes ∷ others) other → status_of other ≡ 0 }
{
    certificates_include();
    fair_meanings();
    one_tree();
}
