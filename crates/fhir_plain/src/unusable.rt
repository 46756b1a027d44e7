//! Why definitions can't be used, in plain words.

use fhir_findings::{Finding, Unusable};
use fhir_json::NoMemory;
use fhir_lines::Line;
use fhir_package::Survey;
use fhir_report::{LackingTable, finding_line};
use fhir_schema::Schema;
use std::alloc::{AllocError, Global};
use std::collections::BTreeMap;

// What a line says, behind the id of its element.
fn said(alloc: Global, line: &Line<'_>) -> Result<String, AllocError> {
    match line.id {
        Some(id) => format!(in alloc; "{id}: {}", line.text),
        None => String::from_str(alloc, line.text.as_str()),
    }
}

// Puts in why the definition at a url can't be used, if it can't.
fn put_words<'s, 'f: 's>(
    alloc: Global,
    survey: &'s Survey<'f>,
    schema: &'s Schema,
    lacking: &'s LackingTable,
    url: &'s str,
    into: &mut BTreeMap<&'s str, String>,
) -> Result<(), NoMemory> {
    let Some(reason) = schema.unusable(url) else {
        return Ok(());
    };
    let finding = Finding::Unusable(Unusable {
        file: "",
        url,
        reason,
    });
    let line = finding_line(alloc, survey, schema, lacking, &finding)?;
    into.insert(url, said(alloc, &line)?)?;
    Ok(())
}

/// Why definitions can't be used, by their urls. Those that can have no words.
pub(crate) fn unusable_words<'s, 'f: 's>(
    alloc: Global,
    survey: &'s Survey<'f>,
    schema: &'s Schema,
    lacking: &'s LackingTable,
) -> Result<BTreeMap<&'s str, String>, NoMemory> {
    let mut words: BTreeMap<&'s str, String> = BTreeMap::new(alloc);
    for definition in schema.definitions() {
        put_words(alloc, survey, schema, lacking, definition.url(), &mut words)?;
    }
    Ok(words)
}
