//! From what isn't judged to lines.

ghost use Rattle.std.specs.Prelude.{◌≡◌, Option, None, map, get_or, IfOk};
ghost use Rattle.fhir_json.specs.Tree.{Text};
ghost use Rattle.fhir_json.specs.Views.{text_seen};
ghost use Rattle.fhir_findings.specs.Carrying.{Carrier as CarrierValue, text_of};
ghost use Rattle.fhir_findings.specs.Once.{told_once};
ghost use Rattle.fhir_findings.specs.Views.{carrier_seen, carriers_seen, all_told_seen, firsts_seen, texts_seen};
ghost use Rattle.fhir_lines.specs.Lines.{line_seen, lines_seen};
ghost use Rattle.fhir_report.specs.CarrierLines.{id_shown, carrier_line, said_line, told_line, each_line, carried_lines};

use fhir_findings::{Carrier, Told, sentences, told_once};
use fhir_json::NoMemory;
use fhir_lines::{Details, Line};
use fhir_package::Package;
use fhir_words::Detail;
use std::alloc::Global;

// The id of an element; of a definition none.
fn id_shown(id: &str) -> Option<&str>
    ensures { text_seen result ≡ id_shown id.now }
{
    if id.is_empty() { None } else { Some(id) }
}

// The line of what is carried, by a carrier, with the sentence of a constraint and a count, as far as they are told.
fn carrier_line<'s>(
    alloc: Global,
    carrier: &Carrier<'s>,
    sentence: Option<&'s str>,
    count: Option<usize>,
) -> Result<Line<'s>, NoMemory>
    ensures { IfOk result (λ l. line_seen l ≡ carrier_line (carrier_seen carrier.now) (text_seen sentence.entry) count) }
{
    let mut line = Line::of_file(carrier.file, None, carrier.carried.to_text(alloc)?);
    line.url = Some(carrier.url);
    line.id = id_shown(carrier.id);
    line.details = Details {
        key: carrier.key,
        sentence,
        lacks: carrier.lacks,
        count,
    };
    Ok(line)
}

// At each carrier.
fn each_lines<'s>(alloc: Global, carriers: &[Carrier<'s>]) -> Result<Vec<Line<'s>>, NoMemory>
    ensures { IfOk result (λ ls. lines_seen ls.items ≡ map each_line (carriers_seen carriers.now)) }
{
    let mut lines: Vec<Line<'s>> = Vec::new(alloc);
    for carrier in carriers {
        let line = carrier_line(alloc, carrier, None, None)?;
        lines.push(line)?;
    }
    Ok(lines)
}

fn sentence_at<'s>(sentences: &[Option<&'s str>], place: usize) -> Option<&'s str>
    ensures { text_seen result ≡ get_or (texts_seen sentences.now) place None }
{
    match sentences.get(place) {
        Some(sentence) => *sentence,
        None => None,
    }
}

// What is told once, with the sentences of the constraints among it.
fn told_lines<'s>(
    alloc: Global,
    told: &[Told<'s>],
    sentences: &[Option<&'s str>],
) -> Result<Vec<Line<'s>>, NoMemory>
    ensures { (says : CarrierValue → Option Text) → texts_seen sentences.now ≡ map says (firsts_seen told.now)
        → IfOk result (λ ls. lines_seen ls.items ≡ map (said_line says) (all_told_seen told.now)) }
{
    let mut lines: Vec<Line<'s>> = Vec::new(alloc);
    for (place, one) in told.iter().enumerate() {
        let sentence = sentence_at(sentences, place);
        let line = carrier_line(alloc, &one.first, sentence, Some(one.count))?;
        lines.push(line)?;
    }
    Ok(lines)
}

fn once_lines<'s>(
    alloc: Global,
    package: &'s Package<'_>,
    carriers: &[Carrier<'s>],
) -> Result<Vec<Line<'s>>, NoMemory>
    ensures { IfOk result (λ ls. lines_seen ls.items ≡ map (told_line «package».now) (told_once text_of (carriers_seen carriers.now))) }
{
    let told = told_once(alloc, carriers)?;
    let sentences = sentences(alloc, package, &told)?;
    told_lines(alloc, &told, &sentences)
}

/// The lines on what carriers carry. The one refusal is want of memory.
pub(crate) fn carried_lines<'s>(
    alloc: Global,
    detail: Detail,
    package: &'s Package<'_>,
    carriers: &[Carrier<'s>],
) -> Result<Vec<Line<'s>>, NoMemory>
    ensures { IfOk result (λ ls. lines_seen ls.items ≡ carried_lines detail «package».now (carriers_seen carriers.now)) }
{
    match detail {
        Detail::Once => once_lines(alloc, package, carriers),
        Detail::Each => each_lines(alloc, carriers),
    }
}
