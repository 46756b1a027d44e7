//! The engine of the program: from words, the files of a folder and the bytes of others to a status and what is written.
//!
//! ```
//! /// Answers what is asked, and gives the status.
//! pub fn status_of<R: Files + AllocGlobal + Clone + Drop, W: Write, E: Write>(
//!     rt: &R,
//!     asked: Result<Invocation<'_>, WordsFault>,
//!     out: &mut W,
//!     err: &mut E,
//! ) -> Status
//!     ensures { result ≡ Status.Yes → (asked : Result InvocationValue WordsFault)
//!         × (folder : Files) × (files : List (Option Text)) × Promise asked folder files }
//! {
//!     let Opened {
//!         asked,
//!         folder,
//!         files,
//!     } = open_asked(rt, asked, &mut Silent);
//!     run(rt.alloc(), &asked, folder, &files, &mut Silent, out, err)
//! }
//! ```
//!
//! The contracts to read first are those of [`run`] and [`serve_folder`]. What is answered stands in `specs/Answering.antt`
//! (`RepliesFor`), what status 0 promises in `specs/Promising.antt` (`Promise`), and what serving is in `specs/Serving.antt`.
#![tactic(auto)]

mod directory;
mod engine;
mod gathering;
mod laws;
mod meter;
mod refusal;
mod serving;
mod status_line;

pub use directory::{
    Opened, Wanted, bytes_at, bytes_if_named, directory_at, open_asked, paths_at, serve_directory,
    serve_directory_given,
};
pub use engine::{end_with, files_of, is_written, run, write_reply};
pub use gathering::{gather_directories, gather_folders};
pub use laws::verdicts_agree;
pub use meter::Meter;
pub use refusal::{Refusal, fault_told};
pub use serving::{serve_folder, serve_folder_given, vouched};
pub use status_line::StatusLine;
