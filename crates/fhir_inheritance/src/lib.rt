//! What the elements of a snapshot inherit (FHIR R4, Profiling, snapshots): what each definition of a package brings, and what
//! each element is, as the questions that it asks of other elements.
//!
//! ```
//! /// Whether the definition of a url brings a snapshot.
//! pub fn is_complete(alloc: Global, package: &Package<'_>, url: &str) -> Result<bool, NoMemory>
//!     ensures { IfOk result (λ complete. complete ≡ option_map_or (λ s. s.written) (source_at «package».now url.now) false) }
//! {
//!     let sources = Sources::of(alloc, package)?;
//!     match sources.get(url) {
//!         Some(source) => Ok(source.is_written()),
//!         None => Ok(false),
//!     }
//! }
//! ```
//!
//! Read first `specs/Sources.antt`, which says what a definition brings, and `specs/Inheriting.antt`: what an element is, by the
//! other elements that it asks for, in the words of `fhir_asking`. The questions are names of elements among those of all
//! definitions (`specs/Keys.antt`), so bases, types and content targets of other definitions are asked as one's own. `Sources`
//! is who asks, and `fhir_asking`'s `settle` finds what an element is.
#![tactic(auto)]

mod elements;
mod groups;
mod inheriting;
mod keys;
mod laying;
mod named;
mod node;
mod sources;
mod texts;

pub use elements::Elements;
pub use keys::{child_id, key};
pub use named::Named;
pub use node::NodeDef;
pub use sources::{SourceDef, Sources, brings_snapshot, is_constraint, trees_in};
