//! What the statuses of `derive`, `counter`, `certify` and `check` say (docs/USAGE.md, What it answers).

ghost use Rattle.std.specs.Prelude.{◌≡◌, ◌↔◌, ◌∷◌, ◌++◌, [], List, Option, None, Some, Ok, Err, IsTrue, codes};
ghost use Rattle.fhir_json.specs.Tree.{Text};
ghost use Rattle.fhir_certificate.specs.declared.fault.CertFault.{CertFault};
ghost use Rattle.fhir_certificate.specs.declared.pair.Pair.{Pair};
ghost use Rattle.fhir_certificate.specs.Reading.{reading};
ghost use Rattle.fhir_cert_check.specs.Checking.{answer_of};
ghost use Rattle.fhir_cert_check.specs.Inclusion.{Includes};
ghost use Rattle.fhir_cert_check.specs.Rule.{RuleName};
ghost use Rattle.fhir_derive_check.specs.Reaching.{HasCertificate};
ghost use Rattle.fhir_findings.specs.Finding.{selected_unusable};
ghost use Rattle.fhir_words.specs.declared.request.Manner.{Manner};
ghost use Rattle.fhir_words.specs.Requests.{certify, derive, counter, check};
ghost use Rattle.fhir_counter.specs.Shows.{Shows, is_on_line};
ghost use Rattle.fhir_answers.specs.Answering.{IsReply, answer_by};
ghost use Rattle.fhir_answers.specs.Replying.{ReplyValue, status_of, out_of};
ghost use Rattle.fhir_answers.specs.Session.{SessionValue, schema_in};
ghost use Rattle.answer_laws.specs.Answers.{Replies};

use fhir_conformance::fair_meanings;

/// What `derive` says of two profiles by its status: 0 that a right certificate exists (`derived`), and 1 that none does (`none`). What `certify` says of the
/// bytes of a file: 0 that nothing is wrong with the certificate (`right`), 1 that a pair of it fails a rule (`wrong`), and 3 that it can't be read (`unread`).
pub fn certificates_by_status()
    ensures derived { (s : SessionValue) (folder derived base : Text) (files : List (Option Text)) (reply : ReplyValue)
        → Replies (derive folder derived base) s files reply → status_of reply ≡ 0 → HasCertificate (schema_in s) derived base }
    ensures none { (s : SessionValue) (folder derived base : Text) (files : List (Option Text)) (reply : ReplyValue)
        → Replies (derive folder derived base) s files reply → status_of reply ≡ 1 → HasCertificate (schema_in s) derived base → ⊥ }
    ensures right { (s : SessionValue) (folder name bytes : Text) (files : List (Option Text)) (reply : ReplyValue)
        → Replies (certify folder name) s (Some bytes ∷ files) reply
        → (status_of reply ≡ 0) ↔ (answer_of (reading (schema_in s) bytes) (schema_in s) ≡ Ok None) }
    ensures wrong { (s : SessionValue) (folder name bytes : Text) (files : List (Option Text)) (reply : ReplyValue)
        → Replies (certify folder name) s (Some bytes ∷ files) reply → status_of reply ≡ 1
        → (failing : Pair × RuleName) × (answer_of (reading (schema_in s) bytes) (schema_in s) ≡ Ok (Some failing)) }
    ensures unread { (s : SessionValue) (folder name bytes : Text) (files : List (Option Text)) (reply : ReplyValue)
        → Replies (certify folder name) s (Some bytes ∷ files) reply → status_of reply ≡ 3
        → (fault : CertFault) × (answer_of (reading (schema_in s) bytes) (schema_in s) ≡ Err fault) }
{}

/// What `counter` says of two profiles by its status: 0 that a right certificate exists, which is said exactly where `derive` has status 0 (`certificate`,
/// `agrees`); 1 that a resource conforms to the derived profile and not to its base, which stands on standard output (`shown`) and is one line of it (`line`), so
/// that the one doesn't narrow the other (`refuted`); and 2 that no certificate exists (`none`).
pub fn counterexamples_by_status()
    ensures certificate { (s : SessionValue) (folder derived base : Text) (files : List (Option Text)) (reply : ReplyValue)
        → Replies (counter folder derived base) s files reply → status_of reply ≡ 0 → HasCertificate (schema_in s) derived base }
    ensures agrees { (s : SessionValue) (folder derived base : Text) (files : List (Option Text)) (one other : ReplyValue)
        → Replies (derive folder derived base) s files one → Replies (counter folder derived base) s files other
        → (status_of one ≡ 0) ↔ (status_of other ≡ 0) }
    ensures shown { (s : SessionValue) (folder derived base : Text) (files : List (Option Text)) (reply : ReplyValue)
        → Replies (counter folder derived base) s files reply → status_of reply ≡ 1
        → (resource : Text) × (out_of reply ≡ resource ++ codes "\n") × Shows (schema_in s) derived base resource }
    ensures line { (s : SessionValue) (folder derived base : Text) (files : List (Option Text)) (reply : ReplyValue)
        → Replies (counter folder derived base) s files reply → status_of reply ≡ 1
        → (line : Text) × (out_of reply ≡ line ++ codes "\n") × IsTrue (is_on_line line) }
    ensures refuted { (s : SessionValue) (folder derived base : Text) (files : List (Option Text)) (reply : ReplyValue)
        → Replies (counter folder derived base) s files reply → status_of reply ≡ 1 → Includes (schema_in s) derived base → ⊥ }
    ensures none { (s : SessionValue) (folder derived base : Text) (files : List (Option Text)) (reply : ReplyValue)
        → Replies (counter folder derived base) s files reply → status_of reply ≡ 2 → HasCertificate (schema_in s) derived base → ⊥ }
{
    fair_meanings();
}

/// `check` of a whole folder has status 0 exactly where no file of it is at fault and each definition can be used.
pub fn reports_by_status()
    ensures { (s : SessionValue) (folder : Text) (manner : Manner) (files : List (Option Text)) (reply : ReplyValue)
        → IsReply (answer_by (check folder None [] manner) s files) reply
        → (status_of reply ≡ 0) ↔ ((s.survey.faults ≡ []) × (selected_unusable None (schema_in s) s.survey ≡ [])) }
{}
