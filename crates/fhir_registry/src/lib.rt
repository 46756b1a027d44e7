//! Definitions that commands change and ask about: each reply is the one that the definitions give as they stand. Replies are kept, so that a
//! question which is asked again is answered at once, and none is kept that a change may have made wrong.
//!
//! ```
//! /// The reply to a command about a package.
//! pub fn reply_to(
//!     alloc: Global,
//!     package: Package<'_>,
//!     command: Command<'_>,
//! ) -> Result<Reply, NoMemory>
//!     ensures { IfOk result (λ r. IsReply «package».entry (command_seen command.entry) (reply_seen r)) }
//! {
//!     match Registry::new(alloc, package) {
//!         Ok(mut registry) => registry.apply(alloc, command),
//!         Err(_) => Err(NoMemory),
//!     }
//! }
//! ```
//!
//! The contract to read first is that of [`Registry::apply`]. What commands leave and what replies are right stands in
//! `specs/Session.antt`, and what is kept in `specs/Keeping.antt`.
#![tactic(auto)]

mod answering;
mod asking;
mod forgetting;
mod kept;
mod laws;
mod registry;
mod replies;
mod schemas;
mod shared;
mod written;

pub use laws::same_replies;
pub use registry::Registry;
