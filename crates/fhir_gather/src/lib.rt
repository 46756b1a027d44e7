//! The definitions of several folders, of each kind and url the first, and the files in which they are written into a new folder.
//!
//! ```
//! /// Gathers folders into a new one, and says how many definitions are left out, since one of their kind and url comes before them. The
//! /// new folder loads, and has of each kind and url the first definition that stands in the folders; or it isn't made.
//! pub fn count_left_out<F: Folder + Drop, N: NewFolder>(
//!     alloc: Global,
//!     folders: Vec<NamedFolder<F>>,
//!     out: &mut N,
//! ) -> Result<usize, GatherFault>
//!     ensures loads { OnOk result (LoadsFirst (folders_of F.files folders.items) (N.whole out.new)) }
//!     ensures nothing { OnErr result (N.whole out.new ≡ N.whole out.old) }
//! {
//!     let gathered = gather(alloc, folders, out, &mut Silent)?;
//!     match out.finish() {
//!         Ok(()) => Ok(gathered.dropped.len()),
//!         Err(_) => Err(GatherFault::Unwritten { name: None }),
//!     }
//! }
//! ```
//!
//! The contract to read first is that of [`gather`]. Which definitions are kept stands in `specs/Gathering.antt` (`gathered`), and which
//! files are written in `specs/Written.antt` (`written`); the laws [`first_kept`] and [`loads`] say what they mean for who loads them.
#![tactic(auto)]

mod dropped;
mod fault;
mod gathered;
mod gathering;
mod kept;
mod laws;
mod named_folder;
mod naming;
mod package_trees;
mod places;
mod read_folder;
mod whole;

pub use dropped::{DroppedOne, Origin};
pub use fault::GatherFault;
pub use gathered::Gathered;
pub use gathering::Gathering;
pub use kept::Kept;
pub use laws::{each_somewhere, file_names, first_kept, gathers, loads};
pub use named_folder::NamedFolder;
pub use naming::kind_word;
pub use package_trees::{PackageTree, trees_of_packages};
pub use read_folder::ReadFolder;
pub use whole::gather;
