//! What is told about.

use fhir_package::Survey;
use fhir_report::LackingTable;
use fhir_schema::Schema;

/// One of the two packages.
#[derive(Clone, Copy)]
pub struct Side<'s, 'f> {
    /// What was found of its files.
    pub survey: &'s Survey<'f>,
    /// Why definitions of it have no snapshot.
    pub lacking: &'s LackingTable,
    /// Its schema; of NEW that of its definitions with OLD's profiles beside them.
    pub schema: &'s Schema,
}

/// Both packages.
#[derive(Clone, Copy)]
pub struct Sources<'s, 'o, 'n> {
    /// OLD.
    pub old: Side<'s, 'o>,
    /// NEW.
    pub new: Side<'s, 'n>,
    /// The mark behind which OLD's profiles stand beside NEW's definitions.
    pub mark: &'s str,
    /// How many types differ.
    pub types: usize,
}
