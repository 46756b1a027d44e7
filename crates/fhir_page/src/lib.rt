//! The page of an audit: one file of HTML that stands alone.
//!
//! ```
//! /// The page of an audit of all profiles of a package.
//! pub fn page_of_all(alloc: Global, sources: Sources<'_, '_>) -> Result<Vec<u8>, NoMemory>
//!     ensures { IfOk result (λ bytes. (n : Node) × (bytes.items ≡ document n)) }
//! {
//!     let audited = audit(alloc, sources.survey, sources.schema, &[], None, &mut Unwatched)?;
//!     fhir_page::page(alloc, sources.survey, sources.schema, sources.lacking, &audited)
//! }
//! ```
//!
//! The contract to read first is that of [`page`]: what it makes is a tree of elements and texts, written as `fhir_markup` writes each.
//! So no text of a package can be anything but a text in it.
#![tactic(auto)]

mod counterexample;
mod counts;
mod failing;
mod making;
mod profiles;
mod verdicts;

pub use making::page;
