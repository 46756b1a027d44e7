//! Rules that are broken.

use fhir_elements::Max;
use std::fmt;

/// A rule that an item breaks (FHIR R4, ElementDefinition and StructureDefinition). `Display` prints what it asks for, as an
/// OperationOutcome says it.
#[derive(Clone, Copy, Debug)]
pub enum BrokenRule<'s> {
    /// The item is of that type, or of one that rests on it.
    RootType(&'s str),
    /// The item is of one of the element's types, refers to one of that type's targets, and conforms to one of its profiles.
    Types,
    /// The item is the fixed value.
    Fixed,
    /// The item fits the pattern.
    Pattern,
    /// The item lies within the bounds.
    Range,
    /// The text has so many characters at most.
    Length,
    /// The item's codes are in that value set.
    Binding(&'s str),
    /// There are so many items of a name at least.
    TooFew {
        /// How many there must be.
        min: u32,
        /// How many there are.
        found: usize,
    },
    /// There are so many items of a name at most.
    TooMany {
        /// How many there may be.
        max: Option<Max>,
        /// How many there are.
        found: usize,
    },
    /// No item is in two slices of those names.
    InSlices(&'s str, &'s str),
    /// Each item is in one of the slices.
    InNoSlice,
    /// No item in the slice of the first name stands behind one in the slice of the second.
    After(&'s str, &'s str),
    /// No item in the slice of that name stands behind one that is in none of the slices.
    AfterRest(&'s str),
    /// The expression of the constraint with that key is true.
    Constraint(&'s str),
}

fn write_most<W: fmt::Write>(
    f: &mut fmt::Formatter<W>,
    max: Option<Max>,
    found: usize,
) -> fmt::Result {
    match max {
        Some(Max::UpTo(most)) => write!(f, "max {most}, found {found}"),
        _ => write!(f, "max *, found {found}"),
    }
}

impl fmt::Display for BrokenRule<'_> {
    fn fmt<W: fmt::Write>(&self, f: &mut fmt::Formatter<W>) -> fmt::Result {
        match *self {
            BrokenRule::RootType(code) => write!(f, "type {code} expected"),
            BrokenRule::Types => f.write_str("no type entry holds"),
            BrokenRule::Fixed => f.write_str("fixed"),
            BrokenRule::Pattern => f.write_str("pattern"),
            BrokenRule::Range => f.write_str("range"),
            BrokenRule::Length => f.write_str("length"),
            BrokenRule::Binding(canonical) => write!(f, "binding {canonical}"),
            BrokenRule::TooFew { min, found } => write!(f, "min {min}, found {found}"),
            BrokenRule::TooMany { max, found } => write_most(f, max, found),
            BrokenRule::InSlices(one, other) => write!(f, "in slices {one} and {other}"),
            BrokenRule::InNoSlice => f.write_str("in no slice"),
            BrokenRule::After(own, other) => write!(f, "slice {own} after {other}"),
            BrokenRule::AfterRest(own) => write!(f, "slice {own} after the rest"),
            BrokenRule::Constraint(key) => write!(f, "invariant {key}"),
        }
    }
}
