//! Things that are known by asking for other things: what a thing is hangs on others, those hang on others again, and
//! some may hang on themselves. Whoever has such things says of each name what it asks for (`Asks`); `settle` then makes
//! a name known, and all that it asks for, without recursion, and finds out where a name needs itself.
//!
//! ```
//! /// Whether a name has an answer; if not, it needs itself.
//! pub fn has_answer<S: Asks>(alloc: Global, asks: &S, name: &str) -> Result<bool, NoMemory>
//!     ensures { IfOk result (λ done. OnFalse done (NeedsItself (S.asking asks.now) name.now)) }
//! {
//!     let mut table = fhir_asking::Table::new(alloc);
//!     settle(alloc, asks, &mut table, name)
//! }
//! ```
//!
//! Read first the contract of `settle`, whose words stand in `specs/Asking.antt`: `answer` says what a name's answer is
//! by chains of questions of a bounded length, `Has` that some bound gives it, and `NeedsItself` that none gives any.
//! Then read `answers_come_of_answers` and `one_answer`: the answers are those that come of the answers asked for, and
//! no name has two.
#![tactic(auto)]

mod laws;
mod questions;
mod settling;
mod table;
mod waiting;

pub use laws::{
    answers_come_of_answers, answers_or_needs_itself, example, one_answer, tables_hold,
};
pub use questions::{Asks, Step};
pub use settling::settle;
pub use table::Table;
