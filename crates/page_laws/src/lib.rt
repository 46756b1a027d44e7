//! A law of what a page of `fhir_markup` is. Nothing stands on it, so it costs no other crate's proof.
#![tactic(auto)]

mod hiding;

pub use hiding::nothing_hides;
