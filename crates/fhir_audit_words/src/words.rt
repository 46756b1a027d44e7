//! A verdict in a few words.

ghost use Rattle.std.specs.Prelude.{◌≡◌};
ghost use Rattle.fhir_audit.specs.Views.{verdict_seen};
ghost use Rattle.fhir_audit_words.specs.Words.{verdict_word};

use fhir_audit::Verdict;

/// A verdict in a few words.
pub fn verdict_word(verdict: &Verdict<'_>) -> &'static str
    ensures { result.now ≡ verdict_word (verdict_seen verdict.now) }
{
    match verdict {
        Verdict::Narrows(_) => "narrows",
        Verdict::DoesNotNarrow { .. } => "does not narrow",
        Verdict::IsNotShown { .. } => "isn't shown to narrow",
        Verdict::CannotBeUsed(_) => "can't be used",
        Verdict::HasNoBase => "rests on a base that isn't here",
    }
}
