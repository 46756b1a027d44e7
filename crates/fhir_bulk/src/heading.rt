//! How the rows on inputs begin.

ghost use Rattle.std.specs.Prelude.{◌≡◌, ◌++◌, map, IfOk, OnOk, string_bytes};
ghost use Rattle.fhir_bulk.specs.Rows.{heading};
ghost use Rattle.fhir_bulk.specs.Running.{heading_seen, headings_from};

use crate::rows::heading_of;
use fhir_inputs::{Inputs, Kind};
use fhir_json::NoMemory;
use fhir_words::Format;
use std::alloc::Global;

/// How the rows on an input begin, and what it holds.
#[derive(Drop)]
pub(crate) struct Heading {
    pub(crate) text: String,
    pub(crate) kind: Kind,
}

/// Those of inputs of these names. The one refusal is want of memory.
pub(crate) fn headings_of<I: Inputs>(
    alloc: Global,
    format: Format,
    names: &[&str],
    inputs: &I,
) -> Result<Vec<Heading>, NoMemory>
    ensures { IfOk result (λ all. map heading_seen all.items ≡ headings_from 0 format (map (λ n. n.now) names.now) (I.inputs inputs.now)) }
{
    let mut headings = Vec::with_capacity(alloc, names.len())?;
    for place in 0..names.len() {
        let text = heading_of(alloc, format, names[place])?;
        let kind = inputs.kind(place);
        headings.push(Heading { text, kind })?;
    }
    Ok(headings)
}
