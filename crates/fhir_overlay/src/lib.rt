//! One element of a definition laid over another, as a profile's differential is laid over what it inherits (FHIR R4,
//! Profiling, snapshots); and elements written as JSON.
//!
//! ```
//! /// The element that `over` makes of one that it is laid over.
//! pub fn inherited(alloc: Global, over: &ElementDef, under: &ElementDef) -> Result<ElementDef, NoMemory>
//!     ensures { IfOk result (λ e. e ≡ laid_over over.now under.now) }
//! {
//!     let under = copied(alloc, under)?;
//!     let laid = laid_over(alloc, over, under)?;
//!     Ok(ElementDef::new(laid))
//! }
//! ```
//!
//! Read first the contract of `laid_over`, whose words stand in `specs/Overlay.antt`, and that of `element_json`, whose
//! words stand in `specs/Json.antt`. Then read `written_back`: what is written is read again, where `specs/Writable.antt`
//! says that it can be; and `of_elements` and `laid_elements`: an element that was read can be written, and so can one
//! that is laid over another.
#![tactic(auto)]

mod completed;
mod constraints;
mod copying;
mod laws;
mod members;
mod overlay;
mod owning;
mod parts;
mod writing;

pub use completed::{elements_json, with_snapshot};
pub use copying::copied;
pub use laws::{constraints_stay, laid_elements, of_elements, sound_elements, written_back};
pub use overlay::{as_slice, bounds_fit, laid_over};
pub use writing::element_json;
