//! How many profiles there are of each verdict.

ghost use Rattle.std.specs.Prelude.{◌≡◌};
ghost use Rattle.fhir_audit.specs.Verdicts.{is_narrowing};
ghost use Rattle.fhir_audit.specs.Views.{verdict_seen};
ghost use Rattle.fhir_audit_words.specs.Counting.{is_refuted, is_undecided, is_unusable, is_without_base, with_verdict, counts_of};

use fhir_audit::{Audited, Verdict};

/// How many profiles there are, and of how many each verdict is told.
#[derive(Clone, Copy)]
pub struct Counts {
    /// All of them.
    pub profiles: usize,
    /// Those that narrow their bases.
    pub narrow: usize,
    /// Those that don't, which a resource shows.
    pub do_not: usize,
    /// Those that aren't shown to.
    pub not_shown: usize,
    /// Those that can't be used.
    pub unusable: usize,
    /// Those whose base isn't there.
    pub without_base: usize,
}

fn is_narrowing(audited: &Audited<'_>) -> bool
    ensures { result ≡ is_narrowing (verdict_seen audited.now.verdict) }
{
    matches!(audited.verdict, Verdict::Narrows(_))
}

fn is_refuted(audited: &Audited<'_>) -> bool
    ensures { result ≡ is_refuted (verdict_seen audited.now.verdict) }
{
    matches!(audited.verdict, Verdict::DoesNotNarrow { .. })
}

fn is_undecided(audited: &Audited<'_>) -> bool
    ensures { result ≡ is_undecided (verdict_seen audited.now.verdict) }
{
    matches!(audited.verdict, Verdict::IsNotShown { .. })
}

fn is_unusable(audited: &Audited<'_>) -> bool
    ensures { result ≡ is_unusable (verdict_seen audited.now.verdict) }
{
    matches!(audited.verdict, Verdict::CannotBeUsed(_))
}

fn is_without_base(audited: &Audited<'_>) -> bool
    ensures { result ≡ is_without_base (verdict_seen audited.now.verdict) }
{
    matches!(audited.verdict, Verdict::HasNoBase)
}

fn narrow(audited: &[Audited<'_>]) -> usize
    ensures { result ≡ with_verdict is_narrowing audited.now }
{
    audited.iter().filter(|one| is_narrowing(*one)).count()
}

fn refuted(audited: &[Audited<'_>]) -> usize
    ensures { result ≡ with_verdict is_refuted audited.now }
{
    audited.iter().filter(|one| is_refuted(*one)).count()
}

fn undecided(audited: &[Audited<'_>]) -> usize
    ensures { result ≡ with_verdict is_undecided audited.now }
{
    audited.iter().filter(|one| is_undecided(*one)).count()
}

fn unusable(audited: &[Audited<'_>]) -> usize
    ensures { result ≡ with_verdict is_unusable audited.now }
{
    audited.iter().filter(|one| is_unusable(*one)).count()
}

fn without_base(audited: &[Audited<'_>]) -> usize
    ensures { result ≡ with_verdict is_without_base audited.now }
{
    audited.iter().filter(|one| is_without_base(*one)).count()
}

/// Of how many profiles each verdict is told.
pub fn counts_of(audited: &[Audited<'_>]) -> Counts
    ensures { result ≡ counts_of audited.now }
{
    Counts {
        profiles: audited.len(),
        narrow: narrow(audited),
        do_not: refuted(audited),
        not_shown: undecided(audited),
        unusable: unusable(audited),
        without_base: without_base(audited),
    }
}
