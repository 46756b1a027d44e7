//! What an include has, before it is joined with others.

ghost use Rattle.std.specs.Prelude.{◌≡◌, List, map};
ghost use Rattle.fhir_codes.specs.Concepts.{Concepts, union_of};
ghost use Rattle.fhir_codes.specs.Tables.{table_at, in_tables, SameSets};
ghost use Rattle.fhir_codes.specs.Including.{included, are_of_one};

use crate::concept_set::ConceptSet;
use std::cmp::Ordering;

/// The concepts of an include.
#[derive(Drop)]
pub(crate) enum Included {
    /// Those that are in all tables of these numbers.
    Shared(Vec<usize>),
    /// A set of its own.
    Own(ConceptSet),
}

/// The same numbers in order, each once.
pub(crate) fn distinct_numbers(mut numbers: Vec<usize>) -> Vec<usize>
    ensures { (tables : List Concepts) → SameSets (map (table_at tables) numbers.items) (map (table_at tables) result.items) }
{
    numbers.sort_unstable();
    numbers.dedup();
    numbers
}

impl Included {
    /// The concepts that are in all tables of these numbers.
    pub(crate) fn in_all(numbers: Vec<usize>) -> Included
        ensures { (tables : List Concepts) → included tables result ≡ in_tables tables numbers.items }
    {
        Included::Shared(distinct_numbers(numbers))
    }

    // An order in which those of the same tables stand together.
    fn cmp_with(&self, other: &Included) -> Ordering {
        match (self, other) {
            (Included::Shared(a), Included::Shared(b)) => a.as_slice().cmp(b.as_slice()),
            (Included::Shared(_), Included::Own(_)) => Ordering::Less,
            (Included::Own(_), Included::Shared(_)) => Ordering::Greater,
            (Included::Own(_), Included::Own(_)) => Ordering::Equal,
        }
    }

    fn is_of_one(&self, other: &Included) -> bool
        ensures { result ≡ are_of_one self.now other.now }
    {
        match (self, other) {
            (Included::Shared(a), Included::Shared(b)) => a.as_slice() == b.as_slice(),
            _ => false,
        }
    }
}

/// The same includes in some order, without those that are of the same tables as another.
pub(crate) fn distinct(mut parts: Vec<Included>) -> Vec<Included>
    ensures { (tables : List Concepts) → SameSets (map (included tables) parts.items) (map (included tables) result.items) }
{
    parts.sort_unstable_by(|x, y| x.cmp_with(y));
    parts.dedup_by(|x, y| x.is_of_one(y));
    parts
}
