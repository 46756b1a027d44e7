//! Texts that a user vouches for: a set of them that is searched without memory, and the file that gives them.
//!
//! ```
//! /// Whether what a thing spells is one of these texts.
//! pub fn is_given<T: Spelled>(texts: Vec<String>, thing: &T) -> bool
//!     ensures { result ≡ list_any (bytes_eq (T.spelled thing.now)) (map string_bytes texts.items) }
//! {
//!     Vouching::of(texts).contains(thing)
//! }
//! ```
//!
//! Read first the contracts of [`Vouching`]: a set is its texts, and a thing is in it where the text that it spells is one of
//! them. A thing says by [`Spelled`] which text that is, and need not write it out: with a [`Progress`] it compares its pieces,
//! one after the other, as `contains_word_and_tree` shows. What is to be read of the file is the contract of [`read_given`],
//! whose words stand in `specs/Given.antt`; `strings_agree` and `lines_end` say what two of them mean.
#![tactic(auto)]

mod compact;
mod given;
mod laws;
mod progress;
mod spelled;
mod vouching;
mod worked;

pub use given::{GivenFault, GivenLine, read_given};
pub use laws::{lines_end, strings_agree};
pub use progress::Progress;
pub use spelled::Spelled;
pub use vouching::Vouching;
pub use worked::{contains_word_and_tree, example_file};
