//! Questions.

use fhir_plain::Plain;
use fhir_schema::Schema;
use fhir_vouching::Vouching;
use fhir_words::Format;

/// What becomes of a profile that a resource claims to conform to, and that isn't there, or can't be used.
#[derive(Clone, Copy, Debug, PartialEq, Eq)]
pub enum Unknown {
    /// It is a fault of the resource.
    Faults,
    /// It is a warning in the outcome of the resource's own type.
    Warnings,
}

/// By which profiles a resource is judged.
#[derive(Clone, Copy, Debug, PartialEq, Eq)]
pub enum Profiles<'q> {
    /// By the one at this url.
    At(&'q str),
    /// By its type's own definition, and by those that it claims to conform to.
    Own(Unknown),
}

/// What is asked of each resource, and how it is told.
#[derive(Clone, Copy)]
pub struct Question<'q, 'p> {
    /// The definitions.
    pub schema: &'q Schema,
    /// By which profiles a resource is judged.
    pub profiles: Profiles<'q>,
    /// The unread rules that a user vouches for, if one does.
    pub given: Option<&'q Vouching>,
    /// What says in plain words what is wrong, where that is wanted.
    pub plain: Option<&'q Plain<'p>>,
    /// How it is told.
    pub format: Format,
    /// Whether it isn't told that a resource conforms.
    pub only_bad: bool,
}
