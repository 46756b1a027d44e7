//! The engine of `audit`: from words to what is told of each profile of a package, with a page, and the certificates in a new folder.
//!
//! The contracts to read first are those of [`audit_folder`] and of `audit` of `fhir_audit`.
#![tactic(auto)]

mod asked;
mod certificate_files;
mod directory;
mod meter;
mod new_file;
mod outputs;
mod running;

pub use asked::{Asked, NamedBytes};
pub use directory::{Opened, audit_directory};
pub use meter::ProfileMeter;
pub use new_file::{NewFile, PageFile};
pub use outputs::{Named, Outputs};
pub use running::audit_folder;
