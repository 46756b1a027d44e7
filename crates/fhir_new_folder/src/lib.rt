//! A folder that is made whole or not at all: over memory, and over a file system.
//!
//! ```
//! /// Whether a folder of one file is made. Where it isn't, what stands under its name is as before.
//! pub fn is_made<N: NewFolder>(folder: &mut N, name: &str, bytes: &[u8]) -> bool
//!     ensures { N.whole folder.new ≡ (if result then Some ((name.now, bytes.now) ∷ []) else N.whole folder.old) }
//! {
//!     if folder.begin().is_err() {
//!         return false;
//!     }
//!     if folder.write(name, bytes).is_ok() && folder.finish().is_ok() {
//!         return true;
//!     }
//!     let _ = folder.abandon();
//!     false
//! }
//! ```
//!
//! The contract to read first is that of [`NewFolder`]. What it says of a [`NewDirectory`] is a record of what that did, and no clause
//! holds the record to the file system: each call of `src/directory.rt` is to be read. `Record::new` and `Record::note` are proved by
//! hand, since they set what no memory holds; no other code may set it.
#![tactic(auto)]

mod directory;
mod memory;
mod new_folder;
mod record;

pub use directory::NewDirectory;
pub use memory::MemoryNewFolder;
pub use new_folder::{BeginFault, NewFolder, WriteFault};
