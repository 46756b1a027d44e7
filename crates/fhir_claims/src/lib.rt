//! Which profiles a resource is judged by where a user names none: its type's own definition, and each profile that it claims
//! (FHIR R4, Resource, meta.profile).
//!
//! The contract to read first is that of [`claims_of`]. Which profiles these are stands in `specs/Claims.antt`.
#![tactic(auto)]

mod claims;
mod laws;
mod once;
mod urls;

pub use claims::{Claims, claims_of};
pub use laws::{claims_are_judged, loaded_claims_are_known};
pub use urls::resource_url;
