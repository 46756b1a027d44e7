//! Lines of a report: what was found, where, and how it is written.
//!
//! ```
//! /// A line on a file, as a text.
//! pub fn line_on(alloc: Global, file: &str, text: String) -> Result<String, NoMemory>
//!     ensures { Gives string_bytes result (file.now ++ codes ": " ++ string_bytes text) }
//! {
//!     Line::of_file(file, None, text).to_text(alloc)
//! }
//! ```
//!
//! The contracts to read first are those of [`Line::to_text`] and [`push_row`]. How lines are written stands in `specs/Lines.antt`; the law
//! [`rows_are_lines`] says that no text from a file puts in a line of its own.
#![tactic(auto)]

mod laws;
mod line;
mod members;
mod writing;

pub use laws::{escaped_texts, rows_are_lines};
pub use line::{Details, FaultNumber, Line, reason_text};
pub use members::{
    Members, object_text, put_all, put_count, put_owned, put_text, put_text_if, put_value,
};
pub use writing::{
    push_counted, push_escaped, push_json, push_row, push_rows, push_text_row, push_texts,
    text_rows,
};
