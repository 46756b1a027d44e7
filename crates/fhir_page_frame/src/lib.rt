//! Pieces that pages are made of, and what stands around the content of a page.
//!
//! ```
//! /// A page that says a text.
//! pub fn saying(alloc: Global, text: &str) -> Result<Element, AllocError>
//!     ensures { IfOk result (λ page. IsPageOf (codes "A text") (saying Main [] text.now) (element_node page)) }
//! {
//!     let main = Element::of_text(alloc, Tag::Main, text)?;
//!     fhir_page_frame::page_of(alloc, "A text", main)
//! }
//! ```
//!
//! The contract to read first is that of [`page_of`].
#![tactic(auto)]

mod frame;
mod pieces;
mod style;

pub use frame::page_of;
pub use pieces::{json_text, push_term, scrolled, short_name, worded};
