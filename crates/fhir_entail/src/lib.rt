//! What constraints that are true entail, by their expressions' form alone: no item is looked at.
//!
//! ```
//! /// Whether one expression that is true makes another true.
//! pub fn one_entails(known: &Expr, expression: &Expr) -> bool
//!     ensures { result ≡ entails (expression_of known.now ∷ []) (expression_of expression.now) }
//! {
//!     entails(&[known], expression)
//! }
//! ```
//!
//! Read the contracts of [`entails`] and of the law [`entailed_is_true`] first. What is entailed stands in
//! `specs/Entailment.antt`, and which expressions can't fault in `specs/Total.antt`. [`Known`] answers the same of expressions that
//! are asked about often: it numbers them, so that none is compared with each other one.
#![tactic(auto)]

mod entailing;
mod known;
mod laws;
mod numbers;
mod sameness;
mod totality;

pub use entailing::entails;
pub use known::Known;
pub use laws::{entailed_is_true, listed_is_entailed, same_is_equal, total_has_result};
pub use sameness::same_expression;
pub use totality::total;
