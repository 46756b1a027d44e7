//! The unread rules of a package as a list that a user reviews, and what the user vouches for by such a list.
//!
//! ```
//! /// The list of the unread rules of all definitions, by the survey of their files and their schema.
//! pub fn list_all(
//!     alloc: Global,
//!     survey: &Survey<'_>,
//!     schema: &Schema,
//! ) -> Result<String, NoMemory>
//!     ensures { IfOk result (λ t. map (λ l. l.1) (given_lines (string_bytes t))
//!         ≡ map (λ text. Some text) (unread_texts None schema.now survey.now)) }
//! {
//!     fhir_unread::unread_listing(alloc, survey, schema, &Selection::all())
//! }
//! ```
//!
//! The contracts to read first are those of [`unread_listing`] and [`vouch`]: the list that the first writes gives just the texts of the unread
//! rules, each once, and the second reads what a user has kept of it. The list stands in `specs/Listing.antt`, and what a file of texts gives in
//! `specs/Given.antt`.
#![tactic(auto)]

mod inside;
mod laws;
mod listing;
mod saying;
mod telling;
mod vouching;

pub use laws::{
    headings_tell, insides_shown, lines_give, lines_told, list_vouches, rules_listed, rules_once,
    sentences_listed, sentences_told, unread_once,
};
pub use listing::unread_listing;
pub use vouching::{Given, vouch};
