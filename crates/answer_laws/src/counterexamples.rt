//! What a counterexample shows: that the profile allows more than its base (docs/USAGE.md, When the answer is no).

ghost use Rattle.std.specs.Prelude.{◌≡◌, ◌∷◌, List, Option, Some};
ghost use Rattle.fhir_json.specs.Tree.{Text};
ghost use Rattle.fhir_schema.specs.Schemas.{SchemaValue};
ghost use Rattle.fhir_certificate.specs.Certificate.{CertificateValue};
ghost use Rattle.fhir_certificate.specs.declared.pair.Pair.{Pair};
ghost use Rattle.fhir_cert_check.specs.Checking.{IsCertificate};
ghost use Rattle.fhir_cert_check.specs.Inclusion.{Includes};
ghost use Rattle.fhir_cert_check.specs.Rule.{RuleName};
ghost use Rattle.fhir_counter.specs.Shows.{Shows, ShowsAsGiven, ShowsBy};
ghost use Rattle.fhir_audit.specs.Verdicts.{IsVerdict, narrows, does_not_narrow};
ghost use Rattle.fhir_words.specs.Requests.{counter, validate};
ghost use Rattle.fhir_answers.specs.Replying.{ReplyValue, status_of, out_of};
ghost use Rattle.fhir_answers.specs.Session.{SessionValue};
ghost use Rattle.answer_laws.specs.Answers.{Replies};

use fhir_cert_check::certificates_include;
use fhir_conformance::fair_meanings;
use fhir_json::one_tree;

/// A counterexample refutes that what conforms to the derived profile conforms to its base, as a right certificate promises it (`refutes`), also one that is
/// found where a user vouches for unread rules (`given`). So no certificate of the two is right (`certificates`).
pub fn counterexamples_refute()
    ensures refutes { (s : SchemaValue) (derived base bytes : Text) → Shows s derived base bytes → Includes s derived base → ⊥ }
    ensures given { (s : SchemaValue) (texts : List Text) (derived base bytes : Text)
        → ShowsAsGiven s texts derived base bytes → Includes s derived base → ⊥ }
    ensures certificates { (given : Option (List Text)) (s : SchemaValue) (c : CertificateValue) (bytes : Text)
        → ShowsBy given s c.derived c.base bytes → IsCertificate s c → ⊥ }
{
    fair_meanings();
    certificates_include();
}

/// What an audit tells of a profile: where it narrows its base, what conforms to it conforms to its base (`narrows`), and where it does not narrow, that
/// isn't so (`does_not_narrow`).
pub fn audited_counterexamples()
    ensures narrows { (given : Option (List Text)) (s : SchemaValue) (url base : Text) (c : CertificateValue)
        → IsVerdict given s url (Some base) (narrows c) → Includes s url base }
    ensures does_not_narrow { (given : Option (List Text)) (s : SchemaValue) (url base resource : Text) (pair : Pair) (rule : RuleName)
        → IsVerdict given s url (Some base) (does_not_narrow pair rule resource) → Includes s url base → ⊥ }
{
    fair_meanings();
}

/// What `counter` prints with status 1 is judged as it says, where it stands in a file: `validate` has status 0 by the derived profile (`derived`), and 1 by
/// the base (`base`).
pub fn shown_resources_are_judged_so()
    ensures derived { (s : SessionValue) (folder derived base name : Text) (files others : List (Option Text)) (shown reply : ReplyValue)
        → Replies (counter folder derived base) s files shown → status_of shown ≡ 1
        → Replies (validate folder derived name) s (Some (out_of shown) ∷ others) reply → status_of reply ≡ 0 }
    ensures base { (s : SessionValue) (folder derived base name : Text) (files others : List (Option Text)) (shown reply : ReplyValue)
        → Replies (counter folder derived base) s files shown → status_of shown ≡ 1
        → Replies (validate folder base name) s (Some (out_of shown) ∷ others) reply → status_of reply ≡ 1 }
{
    one_tree();
}
