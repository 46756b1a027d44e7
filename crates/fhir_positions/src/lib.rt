//! Where places of a resource stand in its text: a verdict and a misfit name a place, and a person wants its line and column.
//!
//! ```
//! /// Where a patient's names and birth date begin in the bytes of the patient: each at one of the values that the bytes spell.
//! pub fn patient_positions(
//!     alloc: Global,
//!     schema: &Schema,
//!     bytes: &[u8],
//! ) -> Result<Vec<Position>, NoMemory>
//!     ensures { IfOk result (λ all. (t : Tree) → Reads bytes.now t → All (IsOfValue bytes.now t) all.items) }
//! {
//!     fhir_positions::positions_of(alloc, schema, bytes, &["Patient.name", "Patient.birthDate"])
//! }
//! ```
//!
//! The contract to read is that of [`positions_of`]: there is a position for each place, it is one of the text, and if the text
//! is JSON, it is where one of its values begins. Which value that is stands in no contract.
#![tactic(auto)]

mod nearest;
mod positions;
mod values;
mod walk;
mod wanted;

pub use positions::positions_of;
