//! Pages: a tree of elements and texts, and its one writer, which escapes each text.
//!
//! ```
//! /// A page that says a text, whatever that text has in it.
//! pub fn saying(alloc: Global, text: &str) -> Result<String, NoMemory>
//!     ensures { Gives string_bytes result (document (element Tag.Main [] (also (words text.now) none))) }
//! {
//!     let mut main = Element::new(alloc, Tag::Main);
//!     main.push_text(alloc, text)?;
//!     document(alloc, &main)
//! }
//! ```
//!
//! The contract to read first is that of [`document`]. How a page is written stands in `specs/Markup.antt`; the law [`texts_stay_texts`]
//! says that no text puts in a tag, or ends a value. An address leads to a place of the page by its number, and no name of an element or
//! of an attribute is one that runs or loads anything.
#![tactic(auto)]

mod laws;
mod markup;
mod names;
mod writing;

pub use laws::{texts_are_read, texts_stay_texts};
pub use markup::{Attribute, Element, Markup};
pub use names::{AttributeName, Part, Tag};
pub use writing::document;
