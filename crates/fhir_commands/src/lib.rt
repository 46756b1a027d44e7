//! The commands of a session and its replies, and the lines on which both are written: one JSON object each.
//!
//! ```
//! /// Whether the bytes of a line are a command.
//! pub fn is_command(alloc: Global, line: &[u8]) -> Result<bool, NoMemory>
//!     ensures { IfOk result (λ is_one. is_one ≡ is_some (line_command line.now)) }
//! {
//!     let command = Command::of_line(alloc, line)?;
//!     Ok(command.is_some())
//! }
//! ```
//!
//! The contracts to read first are those of [`Command::of_line`] and [`Reply::line`]. How a command is written stands in
//! `specs/Commands.antt`, and how a reply is in `specs/Replies.antt`.
#![tactic(auto)]

mod command;
mod line;
mod question;
mod reply;

pub use command::Command;
pub use line::{LINE_FAULT, Line, MEMORY_FAULT, fixed_lines};
pub use question::{Question, equal_questions};
pub use reply::{DeriveAnswer, PutAnswer, RemoveAnswer, Reply, Standing};
