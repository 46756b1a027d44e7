//! Where an expression is evaluated.

use fhir_instance::Typed;
use fhir_schema::Schema;

/// Where an expression is evaluated.
#[derive(Clone, Copy)]
pub struct Env<'e, 'a, 'j> {
    /// The types, and which derive from which.
    pub schema: &'e Schema,
    /// What `%resource` is.
    pub resource: &'e Typed<'a, 'j>,
    /// What `%context` is.
    pub context: &'e Typed<'a, 'j>,
}
