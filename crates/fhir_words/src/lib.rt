//! The words of the command line: what they ask for.
//!
//! ```
//! /// The folder that is asked about, if words ask for an answer to a request.
//! pub fn folder_asked<'w>(alloc: Global, words: &'w [String]) -> Result<Option<&'w str>, WordsFault>
//!     ensures { (q : RequestValue) → plain_task (map string_bytes words.now) ≡ Some (answer (request q))
//!         → IfOk result (λ folder. text_seen folder ≡ Some (folder_of q)) }
//! {
//!     match task_of(alloc, words)? {
//!         Task::Answer(Invocation::Request(request)) => Ok(Some(request.folder())),
//!         _ => Ok(None),
//!     }
//! }
//! ```
//!
//! The contract to read first is that of [`task_of`]. What words without options ask for stands in `specs/Words.antt` (`plain_task`).
#![tactic(auto)]

mod bulk;
mod options;
mod plain;
mod reading;
mod release;
mod request;
mod version;

pub use reading::task_of;
pub use request::{
    Audience, AuditRequest, BulkRequest, CompareRequest, Detail, Format, GatherRequest, Invocation,
    Manner, Request, Task, WordsFault,
};
pub use version::VERSION;
