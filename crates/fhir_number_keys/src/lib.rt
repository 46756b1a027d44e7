//! Keys of numbers: texts that numbers of one value have in common, and no others, so that a number is found among many by its value.
//!
//! ```
//! /// The key of a count. That of 20 is the key of `20.0` and of `2e1` too.
//! pub fn key_of_count(alloc: Global, count: usize) -> Result<String, AllocError>
//!     ensures { IfOk result (λ key. string_bytes key ≡ key_of (count_value count)) }
//! {
//!     let mut key = String::new(alloc);
//!     push_number_key(alloc, &mut key, &Number::Count(count))?;
//!     Ok(key)
//! }
//! ```
//!
//! Read first the law [`keys_of_values`], and then the contract of [`push_number_key`].
#![tactic(auto)]

mod digits;
mod keys;
mod laws;

pub use keys::push_number_key;
pub use laws::keys_of_values;
