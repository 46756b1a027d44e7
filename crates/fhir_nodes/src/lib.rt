//! The nodes of a package's definitions: what they say of their own elements, whether they can be used or not. A node is found by
//! its place; what stands below it, what it refers to for its content, and the expressions of its constraints are worked out
//! once.
//!
//! ```
//! /// How many names the children of a node may have, by the definitions of a package.
//! pub fn names_below(alloc: Global, from: &Package, node: NodeRef) -> Result<usize, NoMemory>
//!     ensures { IfOk result (λ n. n ≡ length (slots_at (definitions_from 0 from.now.structure_definitions) node)) }
//! {
//!     let table = Table::of(alloc, from)?;
//!     let nodes = Nodes::slots_of(alloc, &table)?;
//!     Ok(nodes.slots(node).len())
//! }
//! ```
//!
//! The contracts to read first are those of [`Table::of`] and [`Nodes::slots_of`].
#![tactic(auto)]

mod canonicals;
mod contents;
mod expressions;
mod kinds;
mod node;
mod nodes;
mod readings;
mod slot_list;
mod slots;
mod table;

pub use canonicals::canonical_place;
pub use contents::{child_holder, content_target, elements_in, holder, target, typing_entries};
pub use expressions::Expressions;
pub use kinds::{is_resource, is_system, names_resource, primitive_of, root_of_code, type_of_code};
pub use node::NodeRef;
pub use nodes::Nodes;
pub use slot_list::SlotList;
pub use slots::Slot;
pub use table::Table;
