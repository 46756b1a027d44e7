//! What is wrong with the files of a folder and with its definitions, and what of them isn't judged.
//!
//! ```
//! /// Whether nothing is wrong with files, and each of their definitions that is selected can be used.
//! pub fn are_usable<'r>(
//!     alloc: Global,
//!     survey: &'r Survey<'r>,
//!     schema: &'r Schema,
//!     selection: &Selection,
//! ) -> Result<bool, NoMemory>
//!     ensures { IfOk result (λ all. IsTrue all
//!         → (survey.now.faults ≡ []) × (selected_unusable selection.now schema.now survey.now ≡ [])) }
//! {
//!     let found = fhir_findings::findings(alloc, survey, schema, selection)?;
//!     Ok(!fhir_findings::has_faults(&found))
//! }
//! ```
//!
//! The contract to read first is that of [`findings`]: a fault of a file is found exactly where its survey has it, and a
//! definition that can't be used exactly where the schema says so (`all_unusable` in `specs/Finding.antt`). What isn't judged, of
//! each element, is what [`carriers`] lists (`all_carriers` in `specs/Carrying.antt`), and [`told_once`] tells each of it once.
#![tactic(auto)]

mod carrier;
mod carrying;
mod collecting;
mod counting;
mod finding;
mod held;
mod laws;
mod once;
mod saying;
mod selection;
mod unread;

pub use carrier::{Carried, Carrier};
pub use carrying::carriers;
pub use collecting::findings;
pub use counting::{Counts, counts_of};
pub use finding::{Finding, Unusable, has_faults};
pub use laws::{all_selected, all_usable, selected_usable, selections, tellings};
pub use once::{Told, told_once};
pub use saying::sentences;
pub use selection::{SelectFault, Selection};
