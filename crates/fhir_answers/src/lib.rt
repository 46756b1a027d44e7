//! What is answered to a request, of the files of a folder and the bytes of others.
//!
//! ```
//! /// What is answered to a request, by files that were read.
//! pub fn reply_to(
//!     alloc: Global,
//!     read: &FolderFiles,
//!     request: &Request<'_>,
//!     files: &[Option<Vec<u8>>],
//! ) -> Result<Reply, NoMemory>
//!     ensures { IfOk result (λ r. (s : SessionValue) × IsSessionOf read.now s
//!         × IsReply (answer_by (request_seen request.now) s (files_seen files.now)) (reply_seen r)) }
//! {
//!     let session = Session::of(alloc, read, &mut Silent)?;
//!     session.answer(alloc, request, files)
//! }
//! ```
//!
//! The contract to read first is that of [`Session::answer`]. What is answered stands in `specs/Answering.antt` (`answer_by`), and what
//! status 0 promises in `specs/Promising.antt` (`SessionPromise`).
#![tactic(auto)]

mod answering;
mod counter_reply;
mod derive_reply;
mod given;
mod laws;
mod migrate_reply;
mod reply;
mod session;
mod wrong_reply;

pub use given::{NamedFile, profile_refusal};
pub use laws::{fault_text_is_a_line, wrong_text_is_a_line};
pub use reply::{Reply, Status, fault_reply, fault_text, unreadable_reply};
pub use session::{Session, refused_reply};
