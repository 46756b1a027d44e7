//! What a value set is found to mean.

ghost use Rattle.std.specs.Prelude.{◌≡◌, false};
ghost use Rattle.std.specs.Option.{option_map_or};
ghost use Rattle.std.specs.FinSet as set;
ghost use Rattle.fhir_codes.specs.Concepts.{concept, has_code};
ghost use Rattle.fhir_codes.specs.Views.{code_set_seen};

use crate::concept_set::ConceptSet;

/// What a value set is found to mean.
#[derive(Drop)]
pub enum CodeSet {
    /// Its concepts.
    Enumerated(ConceptSet),
    /// They can't be read.
    Unread,
}

impl CodeSet {
    /// Whether the set has the concept of a code in a system. An unread one has none.
    pub fn contains(&self, system: &str, code: &str) -> bool
        ensures { result ≡ option_map_or (λ s. set.contains s (concept system.now code.now)) (code_set_seen self.now) false }
    {
        match self {
            CodeSet::Enumerated(concepts) => concepts.contains(system, code),
            CodeSet::Unread => false,
        }
    }

    /// Whether the set has a concept of that code in any system. An unread one has none.
    pub fn contains_code(&self, code: &str) -> bool
        ensures { result ≡ option_map_or (has_code code.now) (code_set_seen self.now) false }
    {
        match self {
            CodeSet::Enumerated(concepts) => concepts.contains_code(code),
            CodeSet::Unread => false,
        }
    }
}

/// Whether each concept of the first is one of the second. No unread one is within another, and none within it.
pub fn subset(a: &CodeSet, b: &CodeSet) -> bool
    ensures { result ≡ option_map_or (λ s. option_map_or (set.is_subset s) (code_set_seen b.now) false) (code_set_seen a.now) false }
{
    match (a, b) {
        (CodeSet::Enumerated(a), CodeSet::Enumerated(b)) => a.is_subset(b),
        _ => false,
    }
}
