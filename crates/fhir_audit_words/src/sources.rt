//! What an audit is told of.

use fhir_package::Survey;
use fhir_report::LackingTable;
use fhir_schema::Schema;

/// What an audit is told of: the files of a folder with their package, its schema, and why definitions of it have no snapshot.
#[derive(Clone, Copy)]
pub struct Sources<'s, 'f> {
    /// The files and their package.
    pub survey: &'s Survey<'f>,
    /// Its schema.
    pub schema: &'s Schema,
    /// Why definitions have no snapshot.
    pub lacking: &'s LackingTable,
}
