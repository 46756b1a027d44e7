//! How many profiles there are of each verdict.

ghost use Rattle.std.specs.Prelude.{◌≡◌, IfOk, string_bytes};
ghost use Rattle.fhir_compare.specs.Views.{verdict_seen};
ghost use Rattle.fhir_compare_lines.specs.Counting.{same_change, is_changed_so, is_unusable, is_in_old_alone, is_in_new_alone, with_verdict, counts_of, counts_text};

use fhir_compare::{Change, Compared, Verdict};
use fhir_lines::push_counted;
use std::alloc::{AllocError, Global};

/// How many profiles there are of each verdict.
#[derive(Clone, Copy, Debug, PartialEq, Eq)]
pub struct Counts {
    /// Of all.
    pub profiles: usize,
    /// That are the same.
    pub same: usize,
    /// That are narrower in NEW.
    pub narrow: usize,
    /// That are wider in NEW.
    pub widen: usize,
    /// Of which neither is shown.
    pub neither: usize,
    /// That can't be used in one of the packages.
    pub unusable: usize,
    /// That OLD alone has.
    pub only_in_old: usize,
    /// That NEW alone has.
    pub only_in_new: usize,
}

fn same_change(one: Change, other: Change) -> bool
    ensures { result ≡ same_change one other }
{
    match (one, other) {
        (Change::Same, Change::Same)
        | (Change::Narrows, Change::Narrows)
        | (Change::Widens, Change::Widens)
        | (Change::Neither, Change::Neither) => true,
        _ => false,
    }
}

fn is_changed_so(change: Change, one: &Compared<'_>) -> bool
    ensures { result ≡ is_changed_so change (verdict_seen one.now.verdict) }
{
    match &one.verdict {
        Verdict::Both(ways) => same_change(change, ways.change()),
        Verdict::CannotBeUsed { .. } | Verdict::OnlyInOld | Verdict::OnlyInNew => false,
    }
}

fn is_unusable(one: &Compared<'_>) -> bool
    ensures { result ≡ is_unusable (verdict_seen one.now.verdict) }
{
    matches!(one.verdict, Verdict::CannotBeUsed { .. })
}

fn is_in_old_alone(one: &Compared<'_>) -> bool
    ensures { result ≡ is_in_old_alone (verdict_seen one.now.verdict) }
{
    matches!(one.verdict, Verdict::OnlyInOld)
}

fn is_in_new_alone(one: &Compared<'_>) -> bool
    ensures { result ≡ is_in_new_alone (verdict_seen one.now.verdict) }
{
    matches!(one.verdict, Verdict::OnlyInNew)
}

fn changed_so(change: Change, compared: &[Compared<'_>]) -> usize
    ensures { result ≡ with_verdict (is_changed_so change) compared.now }
{
    compared
        .iter()
        .filter(|one| is_changed_so(change, *one))
        .count()
}

fn unusable(compared: &[Compared<'_>]) -> usize
    ensures { result ≡ with_verdict is_unusable compared.now }
{
    compared.iter().filter(|one| is_unusable(*one)).count()
}

fn in_old_alone(compared: &[Compared<'_>]) -> usize
    ensures { result ≡ with_verdict is_in_old_alone compared.now }
{
    compared.iter().filter(|one| is_in_old_alone(*one)).count()
}

fn in_new_alone(compared: &[Compared<'_>]) -> usize
    ensures { result ≡ with_verdict is_in_new_alone compared.now }
{
    compared.iter().filter(|one| is_in_new_alone(*one)).count()
}

/// How many profiles there are of each verdict.
pub fn counts_of(compared: &[Compared<'_>]) -> Counts
    ensures { result ≡ counts_of compared.now }
{
    Counts {
        profiles: compared.len(),
        same: changed_so(Change::Same, compared),
        narrow: changed_so(Change::Narrows, compared),
        widen: changed_so(Change::Widens, compared),
        neither: changed_so(Change::Neither, compared),
        unusable: unusable(compared),
        only_in_old: in_old_alone(compared),
        only_in_new: in_new_alone(compared),
    }
}

/// The counts in a line, without the part of a version behind them.
pub(crate) fn counts_text(alloc: Global, counts: Counts) -> Result<String, AllocError>
    ensures { IfOk result (λ text. string_bytes text ≡ counts_text counts) }
{
    let mut text = String::new(alloc);
    push_counted(alloc, "profiles: ", counts.profiles, &mut text)?;
    push_counted(alloc, ", same: ", counts.same, &mut text)?;
    push_counted(alloc, ", narrow: ", counts.narrow, &mut text)?;
    push_counted(alloc, ", widen: ", counts.widen, &mut text)?;
    push_counted(alloc, ", neither: ", counts.neither, &mut text)?;
    push_counted(alloc, ", can't be used: ", counts.unusable, &mut text)?;
    push_counted(alloc, ", only in OLD: ", counts.only_in_old, &mut text)?;
    push_counted(alloc, ", only in NEW: ", counts.only_in_new, &mut text)?;
    Ok(text)
}
