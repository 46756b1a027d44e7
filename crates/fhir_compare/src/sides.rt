//! What is compared.

use fhir_package::Package;
use fhir_schema::Schema;

/// What is compared: OLD, and what was made of NEW and of it.
#[derive(Clone, Copy)]
pub struct Comparison<'s, 'o, 'n> {
    /// OLD, completed.
    pub old: &'s Package<'o>,
    /// Its schema.
    pub old_schema: &'s Schema,
    /// NEW's definitions with OLD's profiles beside them.
    pub new: &'s Package<'n>,
    /// Their schema.
    pub schema: &'s Schema,
    /// The mark behind which OLD's profiles stand there.
    pub mark: &'s str,
}
