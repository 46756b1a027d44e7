//! What is noted of archives: folders that a published FHIR package was unpacked to, each with its `package.json`.
//!
//! ```
//! /// Whether there is nothing to note of archives: each has a name, and what it depends on is among them.
//! pub fn are_complete(alloc: Global, archives: &[PackageJson<'_, '_>]) -> Result<bool, NoMemory>
//!     ensures { IfOk result (λ yes. IsTrue yes ↔ (notes (map archive_seen archives.now) ≡ [])) }
//! {
//!     Ok(fhir_archives::notes(alloc, archives)?.is_empty())
//! }
//! ```
//!
//! The contracts to read first are that of [`notes`], and the law [`telling`], which says what the notes mean for the archives. What
//! they are stands in `specs/Archives.antt`.
#![tactic(auto)]

mod archive;
mod laws;
mod noting;
mod table;

pub use archive::PackageJson;
pub use laws::telling;
pub use noting::{Found, Note, notes};
