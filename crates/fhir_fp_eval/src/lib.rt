//! What expressions of FHIRPath give (FHIRPath N1), and of which items they are true, as constraints ask (FHIR R4,
//! ElementDefinition, constraint.expression).
//!
//! ```
//! /// Whether an expression is true of a resource as a whole.
//! pub fn is_true_of<'e, 'a, 'j>(
//!     alloc: Global,
//!     expr: &Expr,
//!     schema: &'e Schema,
//!     resource: &'e Typed<'a, 'j>,
//! ) -> Result<bool, NoMemory>
//!     ensures { Gives (λ b. b) result (is_true (record {
//!       schema = schema.now;
//!       resource = item_of resource.now;
//!       context = item_of resource.now;
//!     }) (expression_of expr.now) (item_of resource.now)) }
//! {
//!     let env = Env {
//!         schema,
//!         resource,
//!         context: resource,
//!     };
//!     holds(alloc, expr, &env, resource)
//! }
//! ```
//!
//! Read first the contract of [`eval`]: it gives what the word `den` of `specs/Meaning.antt` says, line by line of the forms of an
//! expression. Then read the laws [`faults_pass`], [`criteria`] and [`truth_tables`]: nothing is cut short, `where` keeps the values
//! of which its criteria are true, and truths are those of Kleene.
#![tactic(auto)]

mod comparing;
mod env;
mod evaluation;
mod laws;
mod lists;
mod literals;
mod operators;
mod paths;
mod quick;
mod sets;
mod step;
mod truths;
mod words;
mod worked;

pub use env::Env;
pub use evaluation::{eval, holds};
pub use fhir_fp_values::{EvalFault, Value};
pub use laws::{
    contains_is_in, criteria, faults_pass, order_of_quantities, paths_by_type, true_expressions,
    truth_tables, type_tests,
};
pub use worked::{equality_example, order_example, paths_example};
