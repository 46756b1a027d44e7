//! What one command says of a certificate that another one printed, and of a folder with it (docs/CERTIFICATES.md).

ghost use Rattle.std.specs.Prelude.{◌≡◌, ◌↔◌, ◌∷◌, [], List, Option, None, Some, Ok};
ghost use Rattle.fhir_json.specs.Tree.{Text};
ghost use Rattle.fhir_package.specs.Folder.{Files};
ghost use Rattle.fhir_certificate.specs.Certificate.{CertificateValue};
ghost use Rattle.fhir_certificate.specs.Reading.{reading};
ghost use Rattle.fhir_findings.specs.Finding.{selected_unusable};
ghost use Rattle.fhir_words.specs.declared.request.Manner.{Manner};
ghost use Rattle.fhir_words.specs.Requests.{certify, check, derive, migrate};
ghost use Rattle.fhir_answers.specs.Answering.{IsReply, answer_by};
ghost use Rattle.fhir_answers.specs.Replying.{ReplyValue, status_of, out_of};
ghost use Rattle.fhir_answers.specs.Session.{SessionValue, schema_in};
ghost use Rattle.answer_laws.specs.Answers.{Replies};
ghost use Rattle.answer_laws.specs.Folders.{IsSessionIn, IsRight, IsFoundRight};

use fhir_cert_check::{asked_are_nodes, migrated_alike};
use fhir_certificate::written_back_in_packages;
use fhir_package::{changes, given_files, surveys};
use fhir_schema::least_closed;
use snapshot_laws::completed_packages;

/// Where `check` of a whole folder has status 0, each of its definitions brings what snapshots are made of: a snapshot of elements, or else a differential
/// of elements with different ids.
pub fn checked_folders_are_right()
    ensures { (folder : Files) (s : SessionValue) (named : Text) (manner : Manner) (files : List (Option Text)) (reply : ReplyValue)
        → IsSessionIn folder s → IsReply (answer_by (check named None [] manner) s files) reply → status_of reply ≡ 0 → IsRight folder }
{
    least_closed();
}

/// `check` of a whole folder and a certificate has status 0 exactly where no file of the folder is at fault, each definition can be used, and `certify` has status 0
/// of the certificate.
pub fn checks_agree_with_certify()
    ensures { (s : SessionValue) (named name bytes : Text) (manner : Manner) (files others : List (Option Text)) (reply other : ReplyValue)
        → IsReply (answer_by (check named (Some name) [] manner) s (Some bytes ∷ files)) reply
        → Replies (certify named name) s (Some bytes ∷ others) other
        → (status_of reply ≡ 0)
        ↔ ((s.survey.faults ≡ []) × (selected_unusable None (schema_in s) s.survey ≡ []) × (status_of other ≡ 0)) }
{}

/// What `derive` prints with status 0 is the text of a certificate, which `certify` finds right in the same folder, as long as the certificate has no more
/// pairs than a text may have. That holds where each definition of the folder brings what snapshots are made of, as where `check` of the whole
/// folder has status 0.
pub fn derived_certificates_are_right()
    ensures { (folder : Files) (s : SessionValue) (named derived base : Text) (files : List (Option Text)) (reply : ReplyValue)
        → IsSessionIn folder s → IsRight folder → Replies (derive named derived base) s files reply → status_of reply ≡ 0
        → IsFoundRight s (out_of reply) }
{
    asked_are_nodes();
    written_back_in_packages();
    changes();
    given_files();
    surveys();
    completed_packages();
}

/// Where `certify` finds a certificate right, `derive` has status 0 of its two profiles: so whoever made it, `derive` makes one too.
pub fn right_certificates_are_derived()
    ensures { (s : SessionValue) (named name bytes : Text) (c : CertificateValue) (files others : List (Option Text)) (one other : ReplyValue)
        → Replies (certify named name) s (Some bytes ∷ files) one → status_of one ≡ 0 → reading (schema_in s) bytes ≡ Ok c
        → Replies (derive named c.derived c.base) s others other → status_of other ≡ 0 }
{}

/// What `migrate` prints with status 0 is judged as the certificate is that it was made of: `certify` has the same status of both, in such a folder.
pub fn migrated_certificates_are_judged_alike()
    ensures { (folder : Files) (s : SessionValue) (named old new bytes : Text) (files more others : List (Option Text))
        (made one other : ReplyValue) → IsSessionIn folder s → IsRight folder
        → Replies (migrate named old) s (Some bytes ∷ files) made → status_of made ≡ 0
        → Replies (certify named old) s (Some bytes ∷ more) one → Replies (certify named new) s (Some (out_of made) ∷ others) other
        → status_of one ≡ status_of other }
{
    migrated_alike();
    changes();
    given_files();
    surveys();
    completed_packages();
}
