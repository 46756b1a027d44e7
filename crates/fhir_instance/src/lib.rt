//! Items of resources: which item a JSON value is.
//!
//! A value is typed by the type definitions of a schema, which say under which properties an object's elements stand and
//! what each holds. Its item is the finite tree of typed values that FHIRPath and profiles speak of.
//!
//! ```
//! /// Whether a JSON value is a patient, or why it is no resource at all.
//! pub fn is_patient(alloc: Global, schema: &Schema, json: &Json<'_>) -> Result<bool, Misfit>
//!     ensures { IfOk result (λ b. (x : Item) × Types schema.now (tree_of json.now) x
//!         × (b ≡ bytes_eq (type_of x) (codes "Patient"))) }
//! {
//!     let item = type_resource(alloc, schema, json)?;
//!     Ok(item.code() == "Patient")
//! }
//! ```
//!
//! The contract to read first is that of [`type_resource`]: a value has the item that it answers, and where it answers a
//! misfit it has none. `specs/Items.antt` has items, and `specs/Typing.antt` which item a tree is; the contract of
//! [`typing_example`] shows the definitions at work on one small package, and that of [`accounts_for_each_property`] says
//! what typing comes to. A function whose proof needs a law calls it, which does nothing.
#![tactic(auto)]

mod children;
mod examples;
mod found;
mod laws;
mod leaves;
mod misfit;
mod near;
mod pairs;
mod placing;
mod resource;
mod role;
mod spelled;
mod typed;

pub use examples::typing_example;
pub use laws::{accounts_for_each_property, one_item};
pub use misfit::{Misfit, MisfitKind};
pub use resource::type_resource;
pub use typed::{Kid, Typed};
