//! Expressions of FHIRPath N1, as far as they are read here: paths, the operators but arithmetic and `&`, and a part of the
//! functions (`docs/DEFINITIONS.md` says which).
//!
//! ```
//! /// Whether a text is an expression that is read here.
//! pub fn is_expression(alloc: Global, text: &str) -> Result<bool, NoMemory>
//!     ensures { Gives (λ b. b) result (is_some (expression_in text.now)) }
//! {
//!     match parse(alloc, text)? {
//!         Parsed::Read(_) => Ok(true),
//!         Parsed::Unread => Ok(false),
//!     }
//! }
//! ```
//!
//! The contract to read first is that of [`parse`]: its clauses `found` and `only` say that an expression is read exactly where
//! the text is written for it (`IsWritten` in `specs/Tokens.antt`). The law [`examples`] shows what some texts are.
#![tactic(auto)]

mod expr;
mod laws;
mod lexer;
mod literal;
mod parsing;
mod reader;
mod token;
mod words;
mod worked;

pub use expr::{Expr, Filter, Function, Operator, TypeTest};
pub use laws::{grammar, one_reading, one_spelling, strings};
pub use parsing::{Parsed, parse};
pub use worked::examples;
