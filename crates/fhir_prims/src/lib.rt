//! The primitive types of FHIR (R4, Data Types), the JSON values that each allows, and the order of dates and times.
//!
//! ```
//! /// Whether a JSON value is one of the primitive type of a code, as `"2024-02-29"` is of `date`.
//! pub fn is_value_of(code: &str, value: &Json<'_>) -> bool
//!     ensures { result ≡ option_map_or (λ prim. lexical prim (tree_of value.now)) (prim_of code.now) false }
//! {
//!     match PrimType::of(code) {
//!         Some(prim) => lexical(prim, value),
//!         None => false,
//!     }
//! }
//! ```
//!
//! Read first the contract of `lexical`: it answers its word of `specs/Values.antt`, which names the word of each type. For
//! dates and times read that of `moments_as_written`: what is read from a text is what is written in it.
#![tactic(auto)]

mod blanks;
mod bytes;
mod calendar;
mod cut;
mod laws;
mod moment;
mod moments;
mod names;
mod numbers;
mod prim;
mod shapes;
mod texts;
mod utc;
mod values;

pub use laws::{
    decimal_numbers, empty_values, moments_as_written, moments_in_time, moments_without_order,
    order_of_moments, texts_of_moments, whole_numbers,
};
pub use moment::{Moment, cmp_moment};
pub use prim::PrimType;
pub use texts::is_uri;
pub use values::lexical;
