//! The part of a version that has to change.

ghost use Rattle.std.specs.Prelude.{◌≡◌};
ghost use Rattle.fhir_compare.specs.Views.{verdict_seen, all_said};
ghost use Rattle.fhir_compare_lines.specs.Parts.{change_part, unusable_part, verdict_part, worse, part_of, part_word};

use fhir_compare::{Change, Compared, Verdict};
use fhir_words::Audience;

/// The part of a version that has to change.
#[derive(Clone, Copy, Debug, PartialEq, Eq)]
pub enum Part {
    /// None has to.
    None,
    /// The second one.
    Minor,
    /// The first one.
    Major,
}

impl Part {
    /// Its name.
    pub fn text(self) -> &'static str
        ensures { result.now ≡ part_word self }
    {
        match self {
            Part::None => "none",
            Part::Minor => "minor",
            Part::Major => "major",
        }
    }
}

// Readers are broken where more conforms than before, writers where less does.
fn change_part(audience: Audience, change: Change) -> Part
    ensures { result ≡ change_part audience change }
{
    match (audience, change) {
        (_, Change::Same) => Part::None,
        (_, Change::Neither) => Part::Major,
        (Audience::Readers, Change::Widens) => Part::Major,
        (Audience::Readers, Change::Narrows) => Part::Minor,
        (Audience::Writers, Change::Narrows) => Part::Major,
        (Audience::Writers, Change::Widens) => Part::Minor,
    }
}

// What can't be used in NEW breaks both.
fn unusable_part(in_new: bool) -> Part
    ensures { result ≡ unusable_part in_new }
{
    if in_new { Part::Major } else { Part::Minor }
}

fn part_of_one(audience: Audience, verdict: &Verdict<'_>) -> Part
    ensures { result ≡ verdict_part audience (verdict_seen verdict.now) }
{
    match verdict {
        Verdict::Both(ways) => change_part(audience, ways.change()),
        Verdict::CannotBeUsed { in_new, .. } => unusable_part(*in_new),
        Verdict::OnlyInOld => Part::Major,
        Verdict::OnlyInNew => Part::Minor,
    }
}

fn worse(left: Part, right: Part) -> Part
    ensures { result ≡ worse left right }
{
    match (left, right) {
        (Part::Major, _) | (_, Part::Major) => Part::Major,
        (Part::Minor, _) | (_, Part::Minor) => Part::Minor,
        (Part::None, Part::None) => Part::None,
    }
}

/// The part that has to change: the first where something breaks those who are asked about, the second where something else has changed.
pub fn part_of(audience: Audience, compared: &[Compared<'_>]) -> Part
    ensures { result ≡ part_of audience (all_said compared.now) }
{
    let mut part = Part::None;
    for one in compared {
        part = worse(part, part_of_one(audience, &one.verdict));
    }
    part
}
