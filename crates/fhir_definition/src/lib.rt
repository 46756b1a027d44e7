//! StructureDefinitions by themselves: what each says, and what is wrong with it whatever the others are.
//!
//! ```
//! /// The place of the root among the elements of the definition that a tree is.
//! pub fn root_of(alloc: Global, url: &str, tree: &Json<'_>) -> Result<Option<usize>, NoMemory>
//!     ensures { Gives (λ root. root) result (root_place (definition_of 0 url.now (tree_of tree.now)).elements) }
//! {
//!     let definition = Definition::of(alloc, 0, url, tree)?;
//!     Ok(definition.root())
//! }
//! ```
//!
//! The contract to read first is that of [`Definition::of`].
#![tactic(auto)]

mod blames;
mod bounds;
mod by_id;
mod children;
mod contained;
mod definition;
mod elements;
mod head;
mod kind;
mod laws;
mod snapshot;

pub use bounds::bound_type;
pub use by_id::{is_root, up_of};
pub use children::{empty_lists, put_at};
pub use definition::Definition;
pub use elements::element_trees;
pub use head::is_type_definition;
pub use kind::TypeKind;
pub use laws::children_and_slices;
