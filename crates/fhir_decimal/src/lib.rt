//! Decimals of FHIR (R4, Data Types, decimal), as their texts, and the order of their values.
//!
//! ```
//! /// Whether two texts are decimals of one value, as `0.010` and `1e-2` are.
//! pub fn have_one_value(left: &str, right: &str) -> bool
//!     ensures { IsTrue result → (p : Parts) × (q : Parts) × IsDecimal left.now p × IsDecimal right.now q
//!         × IsTrue (is_same_value (value_of p) (value_of q)) }
//! {
//!     match (Decimal::of(left), Decimal::of(right)) {
//!         (Some(left), Some(right)) => left.eq_value(&right),
//!         _ => false,
//!     }
//! }
//! ```
//!
//! Read first the contract of `Decimal::cmp`: the order is that of the values which `specs/Value.antt` gives the parts of a
//! text; and then that of `Decimal::of`, which gives a text its parts by the grammar.
#![tactic(auto)]

mod counts;
mod decimal;
mod laws;
mod number;
mod reading;
mod rows;

pub use decimal::Decimal;
pub use laws::{equality_of_values, grammar, order_of_values, texts_of_one_value};
pub use number::Number;
