//! How much of a package there is, and how much of it can be used.

ghost use Rattle.std.specs.Prelude.{◌≡◌, ◌-◌, Some, count_by, is_none, is_some};
ghost use Rattle.std.specs.Map.{keys_of};
ghost use Rattle.fhir_schema.specs.Schemas.{concepts_at};
ghost use Rattle.fhir_schema.specs.Settling.{reason_at};
ghost use Rattle.fhir_findings.specs.Counting.{counts, counts_text};

use fhir_package::{Kind, Package, Survey};
use fhir_schema::Schema;
use std::fmt;

/// How many definitions of a package can be used, and how many of its value sets are read. `Display` prints the counts.
#[derive(Clone, Copy, Debug, PartialEq, Eq)]
pub struct Counts {
    /// The files.
    pub files: usize,
    /// The definitions.
    pub definitions: usize,
    /// Those that can be used.
    pub usable: usize,
    /// The value sets.
    pub value_sets: usize,
    /// Those that are read.
    pub read: usize,
}

impl Counts {
    /// How many definitions can't be used.
    pub fn unusable(&self) -> usize
        ensures { result ≡ self.now.definitions - self.now.usable }
    {
        self.definitions.saturating_sub(self.usable)
    }

    /// How many value sets aren't read.
    pub fn unread(&self) -> usize
        ensures { result ≡ self.now.value_sets - self.now.read }
    {
        self.value_sets.saturating_sub(self.read)
    }
}

fn usable_of(schema: &Schema) -> usize
    ensures { result ≡ count_by (λ d. is_none (reason_at schema.now.reasons d.place)) schema.now.definitions }
{
    schema
        .definitions()
        .iter()
        .filter(|definition| schema.reason(definition.place()).is_none())
        .count()
}

fn read_of(package: &Package<'_>, schema: &Schema) -> usize
    ensures { result ≡ count_by (λ url. is_some (concepts_at schema.now url)) (keys_of «package».now.value_sets) }
{
    package
        .names(Kind::ValueSet)
        .filter(|url| schema.concepts(url).is_some())
        .count()
}

/// The counts of the package of a survey of so many files, by its schema.
pub fn counts_of(files: usize, survey: &Survey<'_>, schema: &Schema) -> Counts
    ensures { result ≡ counts files survey.now schema.now }
{
    let package = survey.package();
    Counts {
        files,
        definitions: schema.definitions().len(),
        usable: usable_of(schema),
        value_sets: package.len(Kind::ValueSet),
        read: read_of(package, schema),
    }
}

impl fmt::Display for Counts {
    ghost output = { λ c. Some (counts_text c) };

    fn fmt<W: fmt::Write>(&self, f: &mut fmt::Formatter<W>) -> fmt::Result {
        write!(
            f,
            "files: {}, definitions: {}, usable: {}, unusable: {}, value sets read: {}, unread: {}",
            self.files,
            self.definitions,
            self.usable,
            self.unusable(),
            self.read,
            self.unread()
        )
    }
}
