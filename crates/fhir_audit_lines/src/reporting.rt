//! All that an audit tells.

ghost use Rattle.std.specs.Prelude.{◌≡◌, ◌∷◌, ◌++◌, [], map, option_map, string_bytes, IfOk};
ghost use Rattle.fhir_audit.specs.Views.{audited_seen, all_audited};
ghost use Rattle.fhir_audit_lines.specs.Held.{files_seen, AreOnCertificates};
ghost use Rattle.fhir_audit_lines.specs.Report.{IsTold, AreTold, last_line, IsReport};

use crate::counting::counts_text;
use crate::held_lines::{HeldFile, held_lines};
use crate::texts::text_lines;
use crate::trees::{counts_object, tree_lines};
use fhir_audit::Audited;
use fhir_audit_words::{Sources, counts_of};
use fhir_json::NoMemory;
use fhir_lines::{push_texts, text_rows};
use fhir_schema::Schema;
use fhir_words::Format;
use std::alloc::{AllocError, Global};

// ---- what is told

fn lines_of<'s, 'f: 's>(
    alloc: Global,
    format: Format,
    sources: Sources<'s, 'f>,
    audited: &Audited<'s>,
) -> Result<Vec<String>, NoMemory>
    ensures { IfOk result (λ ls. IsTold format sources.entry.schema.now (audited_seen audited.now) (map string_bytes ls.items)) }
{
    match format {
        Format::Text => text_lines(alloc, sources, audited),
        Format::Json => tree_lines(alloc, sources, audited),
    }
}

fn all_lines<'s, 'f: 's>(
    alloc: Global,
    format: Format,
    sources: Sources<'s, 'f>,
    audited: &[Audited<'s>],
) -> Result<Vec<String>, NoMemory>
    ensures { IfOk result (λ ls. AreTold format sources.entry.schema.now (all_audited audited.now) (map string_bytes ls.items)) }
{
    let mut lines: Vec<String> = Vec::new(alloc);
    for one in audited {
        let own = lines_of(alloc, format, sources, one)?;
        push_texts(own, &mut lines)?;
    }
    Ok(lines)
}

fn last_line(alloc: Global, format: Format, audited: &[Audited<'_>]) -> Result<String, NoMemory>
    ensures { IfOk result (λ line. string_bytes line ≡ last_line format audited.now) }
{
    match format {
        Format::Text => Ok(counts_text(alloc, counts_of(audited))?),
        Format::Json => counts_object(alloc, counts_of(audited)),
    }
}

// The lines on certificates that were made before.
fn lines_held<'h>(
    alloc: Global,
    format: Format,
    schema: &Schema,
    audited: &[Audited<'h>],
    held: Option<&'h [HeldFile<'_>]>,
) -> Result<Vec<String>, NoMemory>
    ensures { IfOk result (λ ls. AreOnCertificates format schema.now (all_audited audited.now) (files_seen (option_map (λ f. f.now) held.entry)) (map string_bytes ls.items)) }
{
    match held {
        Some(files) => held_lines(alloc, format, schema, audited, files),
        None => Ok(Vec::new(alloc)),
    }
}

// Lines, others behind them, and a last one.
fn joined(
    mut lines: Vec<String>,
    others: Vec<String>,
    last: String,
) -> Result<Vec<String>, AllocError>
    ensures { IfOk result (λ ls. map string_bytes ls.items
        ≡ map string_bytes lines.items ++ map string_bytes others.items ++ string_bytes last ∷ []) }
{
    push_texts(others, &mut lines)?;
    lines.push(last)?;
    Ok(lines)
}

/// What an audit tells: the lines on each profile, then those on the certificates that were made before, if there are some, and a last one with
/// counts. The one refusal is want of memory.
pub fn audit_text<'s, 'f: 's>(
    alloc: Global,
    format: Format,
    sources: Sources<'s, 'f>,
    audited: &[Audited<'s>],
    held: Option<&[HeldFile<'_>]>,
) -> Result<String, NoMemory>
    ensures { IfOk result (λ text. IsReport format sources.entry.schema.now audited.now (files_seen (option_map (λ f. f.now) held.entry)) (string_bytes text)) }
{
    let lines = all_lines(alloc, format, sources, audited)?;
    let others = lines_held(alloc, format, sources.schema, audited, held)?;
    let last = last_line(alloc, format, audited)?;
    let all = joined(lines, others, last)?;
    let text = text_rows(alloc, all.as_slice())?;
    Ok(text)
}
