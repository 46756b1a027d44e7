//! From a text to a certificate.

ghost use Rattle.std.specs.Prelude.{◌≡◌, List, [], Err, option_map, IfOk, IfErr, MatchResult, IsTrue};
ghost use Rattle.std.specs.Option.{option_map_or};
ghost use Rattle.fhir_json.specs.Memory.{GivesOr};
ghost use Rattle.fhir_certificate.specs.declared.fault.CertFault.TheVariants as faults;
ghost use Rattle.fhir_certificate.specs.Certificate.{fits};
ghost use Rattle.fhir_certificate.specs.Format.{Line, Written, numbering, Spells};
ghost use Rattle.fhir_certificate.specs.Judging.{are_usable, has_versions, certificate_or_fault, Stands};
ghost use Rattle.fhir_certificate.specs.Faults.{is_no_memory, Means};
ghost use Rattle.fhir_certificate.specs.Reading.{pairs_at, written_of, reading};
ghost use Rattle.fhir_certificate.specs.Heads.{written_with};
ghost use Rattle.fhir_certificate.specs.Lines.{LeadsTo};

use crate::certificate::Certificate;
use crate::fault::CertFault;
use crate::format::{Head, head_of};
use crate::lines::{LinesRead, MAX_PAIRS, read_lines};
use fhir_json::NoMemory;
use fhir_schema::{Schema, named_nodes};
use std::alloc::Global;

fn are_usable(schema: &Schema, head: &Head<'_>) -> bool
    ensures { result ≡ are_usable schema.now (written_with head.now []) }
{
    schema.root(head.derived).is_some()
        && schema.root(head.base).is_some()
        && head.definitions.are_loaded(schema)
}

// The certificate of what the lines say, all of which is known and within the limit.
fn certificate_with(
    alloc: Global,
    head: &Head<'_>,
    so_far: LinesRead,
) -> Result<Certificate, CertFault>
    ensures { MatchResult result (λ c. c ≡ record {
      derived = head.now.derived.now;
      base = head.now.base.now;
      items = so_far.items.items;
      kids = so_far.kids.items;
    })
        (λ fault. fault ≡ faults.NoMemory) }
{
    let derived = String::from_str(alloc, head.derived)?;
    let base = String::from_str(alloc, head.base)?;
    Ok(Certificate {
        derived,
        base,
        items: so_far.items,
        kids: so_far.kids,
    })
}

// Whether the versions that are written are those of the schema's definitions.
fn have_versions(alloc: Global, schema: &Schema, head: &Head<'_>) -> Result<bool, NoMemory>
    ensures { IfOk result (λ are. are ≡ has_versions schema.now (written_with head.now [])) }
{
    head.definitions.have_versions(alloc, schema)
}

fn judge(
    alloc: Global,
    schema: &Schema,
    head: &Head<'_>,
    so_far: LinesRead,
) -> Result<Certificate, CertFault>
    ensures { (lines : List Line) → let w = written_with head.now lines in
        LeadsTo schema.now (are_usable schema.now w) so_far [] lines
        → GivesOr is_no_memory (λ c. c) result (certificate_or_fault schema.now w) }
{
    if !so_far.is_known {
        return Err(CertFault::UnknownNode);
    }
    if so_far.count > MAX_PAIRS {
        return Err(CertFault::TooManyPairs);
    }
    if have_versions(alloc, schema, head)? {
        certificate_with(alloc, head, so_far)
    } else {
        Err(CertFault::OtherVersion)
    }
}

fn read_behind(alloc: Global, schema: &Schema, head: &Head<'_>) -> Result<Certificate, CertFault>
    ensures { GivesOr is_no_memory (λ c. c) result (option_map_or (certificate_or_fault schema.now)
        (option_map (written_with head.now) (pairs_at (numbering head.now.definitions) head.now.pairs.now))
        (Err faults.WrongFormat)) }
{
    let usable = are_usable(schema, head);
    let so_far = read_lines(alloc, schema, usable, &head.definitions, head.pairs)?;
    judge(alloc, schema, head, so_far)
}

fn read_text(alloc: Global, schema: &Schema, text: &str) -> Result<Certificate, CertFault>
    ensures { GivesOr is_no_memory (λ c. c) result (option_map_or (certificate_or_fault schema.now)
        (written_of text.now)
        (Err faults.WrongFormat)) }
{
    match head_of(alloc, text)? {
        Some(head) => read_behind(alloc, schema, &head),
        None => Err(CertFault::WrongFormat),
    }
}

fn read_exactly(alloc: Global, schema: &Schema, bytes: &[u8]) -> Result<Certificate, CertFault>
    ensures { GivesOr is_no_memory (λ c. c) result (reading schema.now bytes.now) }
{
    match str::from_utf8(bytes) {
        Ok(text) => read_text(alloc, schema, text),
        Err(_) => Err(CertFault::WrongFormat),
    }
}

/// The certificate that the bytes are: lines of UTF-8, each ended by a line feed, their fields parted by one tab. A field
/// is any text without a tab and a line feed.
///
/// The first is `fhirprof-certificate 2`. Then come the definitions, each with `def`, its number, its url and its
/// version: the numbers are 0, 1, 2 and so on, no url stands twice, and a version is a JSON string as `fhir_json::write`
/// gives it, or `-` where the definition has none. Then come `derived` and `base`, each with the number of a
/// definition; then pairs, `item` or `kids`, each with the number and the id of two elements; the last is `end`.
///
/// Format 1 is taken too: its first line is `fhirprof-certificate 1`, it has no definitions, and it has a definition's
/// url wherever format 2 has its number.
///
/// The refusals are those of `CertFault`: `WrongFormat` over the whole text, before all others; then `UnknownNode`, then
/// `TooManyPairs`, and then `OtherVersion`. `NoMemory` decides nothing.
pub fn read(alloc: Global, schema: &Schema, bytes: &[u8]) -> Result<Certificate, CertFault>
    // Which certificate or which fault it is.
    ensures exact { GivesOr is_no_memory (λ c. c) result (reading schema.now bytes.now) }
    // What is read is what the bytes spell.
    ensures found { IfOk result (λ c. Stands schema.now bytes.now c) }
    // What the bytes spell is read or refused for what it says.
    ensures only { (w : Written) → Spells bytes.now w → GivesOr is_no_memory (λ c. c) result (certificate_or_fault schema.now w) }
    // What a fault says of the bytes.
    ensures refused { IfErr result (λ fault. Means fault schema.now bytes.now) }
    ensures fits { IfOk result (λ c. IsTrue (fits schema.now c)) }
{
    named_nodes();
    read_exactly(alloc, schema, bytes)
}
