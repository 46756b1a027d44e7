//! What is wrong with a resource, in plain words.

use crate::invariants::invariant_saying;
use crate::misfits::misfit_words;
use crate::sayings::Sayings;
use crate::unusable::unusable_words;
use fhir_json::{Json, NoMemory};
use fhir_package::Survey;
use fhir_report::LackingTable;
use fhir_schema::Schema;
use std::alloc::{AllocError, Global};
use std::collections::BTreeMap;

/// What tells in plain words what is wrong with resources.
#[derive(Drop)]
pub struct Plain<'p> {
    schema: &'p Schema,
    sayings: Sayings<'p>,
    // Why definitions can't be used, by their urls.
    unusable: BTreeMap<&'p str, String>,
}

impl<'p> Plain<'p> {
    /// That of the package of a survey, by its schema and by what snapshots it lacks. It takes time near linear in the package's
    /// size. The one refusal is want of memory.
    pub fn new<'f: 'p>(
        alloc: Global,
        schema: &'p Schema,
        survey: &'p Survey<'f>,
        lacking: &'p LackingTable,
    ) -> Result<Plain<'p>, NoMemory> {
        let sayings = Sayings::of(alloc, survey.package())?;
        let unusable = unusable_words(alloc, survey, schema, lacking)?;
        Ok(Plain {
            schema,
            sayings,
            unusable,
        })
    }

    fn invariant_words(&self, alloc: Global, text: &str) -> Result<String, AllocError> {
        let saying = invariant_saying(self.schema, &self.sayings, text);
        String::from_str(alloc, saying.unwrap_or(""))
    }

    // Those on `URL REASON`.
    fn unusable_words(&self, alloc: Global, text: &str) -> Result<String, AllocError> {
        match text.rsplit_once(' ') {
            Some((url, _reason)) => match self.unusable.get(url) {
                Some(words) => String::from_str(alloc, words.as_str()),
                None => Ok(String::new(alloc)),
            },
            None => Ok(String::new(alloc)),
        }
    }

    /// The words on an issue of an OperationOutcome (FHIR R4, OperationOutcome.issue) with these diagnostics, at this place of a
    /// resource, which is empty where the issue has none. They are empty where there is no more to say, and where a choice on the
    /// way to the place has objects in two properties, since it isn't known which of them is meant. The one refusal is want of
    /// memory.
    pub fn words(
        &self,
        alloc: Global,
        resource: Option<&Json<'_>>,
        place: &str,
        diagnostics: &str,
    ) -> Result<String, NoMemory> {
        if let Some(text) = diagnostics.strip_prefix("invariant ") {
            return Ok(self.invariant_words(alloc, text)?);
        }
        if let Some(text) = diagnostics.strip_prefix("V2 ") {
            return Ok(self.unusable_words(alloc, text)?);
        }
        match resource {
            Some(resource) => Ok(misfit_words(alloc, self.schema, resource, place, diagnostics)?),
            None => Ok(String::new(alloc)),
        }
    }
}
