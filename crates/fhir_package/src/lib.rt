//! Packages: the definitions of a folder of FHIR R4 files.
//!
//! ```
//! /// How many profiles and types a folder has, or why it is no package.
//! pub fn count_of<F: Folder>(alloc: Global, folder: &mut F) -> Result<usize, LoadFault>
//!     ensures { IfOk result (λ n. (p : Definitions) × (pack (F.files folder.old) ≡ Ok p) × (n ≡ length p.structure_definitions)) }
//! {
//!     let package = load(alloc, folder)?;
//!     Ok(package.len(Kind::StructureDefinition))
//! }
//! ```
//!
//! The contracts to read first are those of [`load`] and [`Survey::of`]. Which package files are stands in `specs/Packing.antt`
//! (`pack_files`), and what is wrong with files in `specs/Surveying.antt` (`survey`); the laws [`packages`] and [`packing`] say
//! what the first means for the files, and [`surveys`] that a survey finds the package.
#![tactic(auto)]

mod canonical;
mod definitions;
mod fault;
mod folder;
mod folder_files;
mod kind;
mod laws;
mod loading;
mod memory;
mod package;
mod parts;
mod progress;
mod survey;
mod twice;
mod url_map;

pub use canonical::has_version;
pub use definitions::{Definition, definitions_in};
pub use fault::LoadFault;
pub use folder::{Folder, FolderFault};
pub use folder_files::{FolderFile, FolderFiles, is_json_name};
pub use kind::Kind;
pub use laws::{bundles, changes, given_files, ordered_names, packages, packing, surveys};
pub use loading::load;
pub use memory::MemoryFolder;
pub use package::{Names, Package};
pub use progress::{Progress, Silent, Stage};
pub use survey::{Clash, FileFault, NotJson, Survey};
pub use twice::has_twice;
