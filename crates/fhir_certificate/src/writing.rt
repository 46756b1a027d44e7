//! From a certificate to its text.

ghost use Rattle.std.specs.Prelude.{◌≡◌, ◌++◌, ◌∷◌, [], map, codes, string_bytes, OnOk};
ghost use Rattle.std.specs.List.{flat_map};
ghost use Rattle.fhir_json.specs.Bytes.{tab};
ghost use Rattle.fhir_json.specs.Memory.{Gives};
ghost use Rattle.fhir_certificate.specs.Numbers.{number_text, url_text};
ghost use Rattle.fhir_certificate.specs.Format.{line_text, pair_text, definitions_text, text_of};
ghost use Rattle.fhir_certificate.specs.Writing.{named, item_line, kids_line, stated, written_by};
ghost use Rattle.fhir_certificate.specs.Numbering.{texts_seen};

use crate::certificate::Certificate;
use crate::numbering::UrlNumbers;
use crate::pair::NodePair;
use crate::versions::version_text;
use fhir_json::NoMemory;
use fhir_schema::{NodeRef, Schema};
use itoa::Buffer;
use std::alloc::{AllocError, Global};

fn put_field(out: &mut String, field: &str) -> Result<(), AllocError>
    ensures { OnOk result (string_bytes out.new ≡ string_bytes out.old ++ tab ∷ field.now) }
{
    out.push('\t')?;
    out.push_str(field)
}

#[tactic(auto, using(crate::proofs::Numbered::number_is))]
fn put_number(out: &mut String, number: usize) -> Result<(), AllocError>
    ensures { OnOk result (string_bytes out.new ≡ string_bytes out.old ++ tab ∷ number_text number) }
{
    let mut buffer = Buffer::new();
    put_field(out, buffer.format(number))
}

// The number of the definition at a url.
fn put_url(out: &mut String, numbers: &UrlNumbers<'_>, url: &str) -> Result<(), AllocError>
    ensures { OnOk result (string_bytes out.new ≡ string_bytes out.old ++ tab ∷ url_text (Some numbers.now) url.now) }
{
    match numbers.number(url) {
        Some(number) => put_number(out, number),
        None => out.push('\t'),
    }
}

fn put_name(
    out: &mut String,
    schema: &Schema,
    numbers: &UrlNumbers<'_>,
    node: NodeRef,
) -> Result<(), AllocError>
    ensures { let name = named schema.now node in
        OnOk result (string_bytes out.new ≡ string_bytes out.old ++ tab ∷ url_text (Some numbers.now) name.url ++ tab ∷ name.id) }
{
    let (url, id) = schema.name(node);
    put_url(out, numbers, url)?;
    put_field(out, id)
}

// The line of the definition that has a number.
fn put_definition(
    alloc: Global,
    out: &mut String,
    schema: &Schema,
    number: usize,
    url: &str,
) -> Result<(), NoMemory>
    ensures { let d = stated schema.now url.now in OnOk result (string_bytes out.new
        ≡ string_bytes out.old ++ line_text (codes "def") (number_text number ∷ d.url ∷ d.version ∷ [])) }
{
    let version = version_text(alloc, schema.version(url))?;
    out.push_str("def")?;
    put_number(out, number)?;
    put_field(out, url)?;
    put_field(out, version.as_str())?;
    Ok(out.push('\n')?)
}

fn put_definitions(
    alloc: Global,
    out: &mut String,
    schema: &Schema,
    urls: &[&str],
) -> Result<(), NoMemory>
    ensures { OnOk result (string_bytes out.new
        ≡ string_bytes out.old ++ definitions_text 0 (map (stated schema.now) (texts_seen urls.now))) }
{
    for (number, url) in urls.iter().enumerate() {
        put_definition(alloc, out, schema, number, url)?;
    }
    Ok(())
}

// A line with the number of one definition.
fn put_profile(
    out: &mut String,
    numbers: &UrlNumbers<'_>,
    word: &str,
    url: &str,
) -> Result<(), AllocError>
    ensures { OnOk result (string_bytes out.new
        ≡ string_bytes out.old ++ line_text word.now (url_text (Some numbers.now) url.now ∷ [])) }
{
    out.push_str(word)?;
    put_url(out, numbers, url)?;
    out.push('\n')
}

fn put_pair(
    out: &mut String,
    schema: &Schema,
    numbers: &UrlNumbers<'_>,
    word: &str,
    pair: NodePair,
) -> Result<(), AllocError>
    ensures { let derived = named schema.now pair.derived in let base = named schema.now pair.base in let ns = Some numbers.now in
        OnOk result (string_bytes out.new ≡ string_bytes out.old
        ++ line_text word.now (url_text ns derived.url ∷ derived.id ∷ url_text ns base.url ∷ base.id ∷ [])) }
{
    out.push_str(word)?;
    put_name(out, schema, numbers, pair.derived)?;
    put_name(out, schema, numbers, pair.base)?;
    out.push('\n')
}

fn put_items(
    out: &mut String,
    schema: &Schema,
    numbers: &UrlNumbers<'_>,
    pairs: &[NodePair],
) -> Result<(), AllocError>
    ensures { OnOk result (string_bytes out.new ≡ string_bytes out.old
        ++ flat_map (pair_text (Some numbers.now)) (map (item_line schema.now) pairs.now)) }
{
    for pair in pairs {
        put_pair(out, schema, numbers, "item", *pair)?;
    }
    Ok(())
}

fn put_kids(
    out: &mut String,
    schema: &Schema,
    numbers: &UrlNumbers<'_>,
    pairs: &[NodePair],
) -> Result<(), AllocError>
    ensures { OnOk result (string_bytes out.new ≡ string_bytes out.old
        ++ flat_map (pair_text (Some numbers.now)) (map (kids_line schema.now) pairs.now)) }
{
    for pair in pairs {
        put_pair(out, schema, numbers, "kids", *pair)?;
    }
    Ok(())
}

/// The text of a certificate, format 2, as `read` takes it: the definitions that it names, in the order in which it does, with
/// the versions that they have in the schema; and its items first and then its kids, in their order, each node by the number of
/// its definition and its id. Where the schema has no such node, its url and its id are empty texts. The one refusal is want of
/// memory.
///
/// `written_back` and `written_back_in_packages` say when it is read as the same certificate.
pub fn write(alloc: Global, schema: &Schema, certificate: &Certificate) -> Result<Vec<u8>, NoMemory>
    ensures { Gives (λ bytes. bytes.items) result (text_of (written_by schema.now certificate.now)) }
{
    let numbers = UrlNumbers::of(alloc, schema, certificate)?;
    let mut out = String::new(alloc);
    out.push_str("fhirprof-certificate 2\n")?;
    put_definitions(alloc, &mut out, schema, numbers.urls())?;
    put_profile(&mut out, &numbers, "derived", &certificate.derived)?;
    put_profile(&mut out, &numbers, "base", &certificate.base)?;
    put_items(&mut out, schema, &numbers, &certificate.items)?;
    put_kids(&mut out, schema, &numbers, &certificate.kids)?;
    out.push_str("end\n")?;
    Ok(out.into_bytes())
}
