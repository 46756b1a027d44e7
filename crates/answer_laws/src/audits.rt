//! Audits of a package (docs/USAGE.md, A release).

ghost use Rattle.std.specs.Prelude.{◌≡◌, ◌+◌, List, Option, Some, nat_eq, codes};
ghost use Rattle.fhir_json.specs.Tree.{Text};
ghost use Rattle.fhir_audit.specs.Auditing.{are_narrowing};
ghost use Rattle.fhir_audit.specs.Views.{all_audited};
ghost use Rattle.fhir_audit.specs.Verdicts.{VerdictValue, is_narrowing, IsVerdict};
ghost use Rattle.fhir_audit.specs.declared.verdict.Audited.{Audited};
ghost use Rattle.fhir_audit_words.specs.Counting.{counts_of};
ghost use Rattle.fhir_audit_lines.specs.Counting.{counts_text};
ghost use Rattle.fhir_words.specs.Requests.{derive};
ghost use Rattle.fhir_answers.specs.Replying.{ReplyValue, status_of};
ghost use Rattle.fhir_answers.specs.Session.{SessionValue, schema_in};
ghost use Rattle.answer_laws.specs.Answers.{Replies};

/// Each profile is counted once: those that narrow their bases, that don't, of which it isn't shown, that can't be used and that have no base sum up to
/// all (`all`). The last line says each under its name (`shown`).
pub fn counts_of_audits()
    ensures all { (told : List (Audited))
        → (counts_of told).narrow + (counts_of told).do_not + (counts_of told).not_shown + (counts_of told).unusable + (counts_of told).without_base
        ≡ (counts_of told).profiles }
    ensures shown { counts_text (record { profiles = 15; narrow = 1; do_not = 2; not_shown = 3; unusable = 4; without_base = 5 })
        ≡ codes "profiles: 15, narrow: 1, do not: 2, not shown: 3, can't be used: 4, without a base: 5" }
{}

/// All narrow, as status 0 promises, exactly where as many narrow as there are profiles.
pub fn statuses_of_audits()
    ensures { (told : List (Audited)) → are_narrowing (all_audited told) ≡ nat_eq (counts_of told).narrow (counts_of told).profiles }
{}

/// What an audit tells of a profile whose base is there: that it narrows that base exactly where `derive` has status 0 of the two.
pub fn audits_agree_with_derive()
    ensures { (given : Option (List Text)) (s : SessionValue) (folder url base : Text) (verdict : VerdictValue) (files : List (Option Text))
        (reply : ReplyValue) → IsVerdict given (schema_in s) url (Some base) verdict → Replies (derive folder url base) s files reply
        → is_narrowing verdict ≡ nat_eq (status_of reply) 0 }
{}
