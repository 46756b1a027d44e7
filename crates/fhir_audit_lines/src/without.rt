//! Which profiles have no certificate that was made before.

ghost use Rattle.std.specs.Prelude.{◌≡◌, ◌||◌, ◌&&◌, ◌∷◌, ◌++◌, [], List, map, string_bytes, IfOk, OnOk};
ghost use Rattle.std.specs.Str.{bytes_eq};
ghost use Rattle.fhir_json.specs.Tree.{Text};
ghost use Rattle.fhir_words.specs.declared.request.Format.TheVariants.{Text as AsText, Json as AsJson};
ghost use Rattle.fhir_audit.specs.Views.{audited_seen, all_audited};
ghost use Rattle.fhir_audit_lines.specs.Held.{HeldValue, held_seen, without_line, without_lines};
ghost use Rattle.fhir_audit_lines.specs.Urls.{has_urls, AreUrls, has_urls_of, missing_lines};

use crate::held_lines::HeldFile;
use fhir_audit::Audited;
use fhir_json::NoMemory;
use fhir_lines::{object_text, put_text};
use fhir_words::Format;
use std::alloc::{AllocError, Global};
use std::collections::BTreeSet;

// The urls of a derived profile, and of its base.
fn put_urls<'h>(
    urls: &mut BTreeSet<(&'h str, &'h str)>,
    derived: &'h str,
    base: &'h str,
) -> Result<(), AllocError>
    ensures { OnOk result ((d b : Text) → has_urls d b urls.new
        ≡ ((bytes_eq d derived.entry.now && bytes_eq b base.entry.now) || has_urls d b urls.old)) }
{
    urls.insert((derived, base))?;
    Ok(())
}

fn put_file<'h>(
    urls: &mut BTreeSet<(&'h str, &'h str)>,
    file: &'h HeldFile<'_>,
) -> Result<(), AllocError>
    ensures { OnOk result ((held : List HeldValue) → AreUrls held urls.old → AreUrls (held ++ held_seen file.entry.now ∷ []) urls.new) }
{
    match &file.held.profiles {
        Some((derived, base)) => put_urls(urls, derived.as_str(), base.as_str()),
        None => Ok(()),
    }
}

fn urls_of<'h>(
    alloc: Global,
    files: &'h [HeldFile<'_>],
) -> Result<BTreeSet<(&'h str, &'h str)>, AllocError>
    ensures { IfOk result (λ urls. AreUrls (map held_seen files.now) urls) }
{
    let mut urls = BTreeSet::new(alloc);
    for file in files {
        put_file(&mut urls, file)?;
    }
    Ok(urls)
}

fn has_urls<'h>(urls: &BTreeSet<(&'h str, &'h str)>, derived: &'h str, base: &'h str) -> bool
    ensures { result ≡ has_urls derived.now base.now urls.now }
{
    urls.contains(&(derived, base))
}

fn has_urls_of<'h>(urls: &BTreeSet<(&'h str, &'h str)>, audited: &Audited<'h>) -> bool
    ensures { result ≡ has_urls_of urls.now (audited_seen audited.now) }
{
    match audited.base {
        Some(base) => has_urls(urls, audited.url, base),
        None => false,
    }
}

fn without_text(alloc: Global, url: &str) -> Result<String, AllocError>
    ensures { IfOk result (λ line. string_bytes line ≡ without_line AsText url.now) }
{
    format!(in alloc; "{url}: has no certificate")
}

fn without_tree(alloc: Global, url: &str) -> Result<String, NoMemory>
    ensures { IfOk result (λ line. string_bytes line ≡ without_line AsJson url.now) }
{
    let mut members = Vec::new(alloc);
    put_text("url", url, &mut members)?;
    put_text("verdict", "has no certificate", &mut members)?;
    object_text(alloc, members)
}

fn without_line(alloc: Global, format: Format, url: &str) -> Result<String, NoMemory>
    ensures { IfOk result (λ line. string_bytes line ≡ without_line format url.now) }
{
    match format {
        Format::Text => Ok(without_text(alloc, url)?),
        Format::Json => without_tree(alloc, url),
    }
}

// Puts in a line on each profile whose urls aren't among these.
fn push_missing<'h>(
    alloc: Global,
    format: Format,
    urls: &BTreeSet<(&'h str, &'h str)>,
    audited: &[Audited<'h>],
    into: &mut Vec<String>,
) -> Result<(), NoMemory>
    ensures { OnOk result (map string_bytes into.new.items
        ≡ map string_bytes into.old.items ++ missing_lines format urls.now (all_audited audited.now)) }
{
    for one in audited {
        if !has_urls_of(urls, one) {
            into.push(without_line(alloc, format, one.url)?)?;
        }
    }
    Ok(())
}

/// Puts in a line on each profile that has no certificate among these. The one refusal is want of memory.
pub(crate) fn push_without<'h>(
    alloc: Global,
    format: Format,
    audited: &[Audited<'h>],
    files: &'h [HeldFile<'_>],
    into: &mut Vec<String>,
) -> Result<(), NoMemory>
    ensures { OnOk result (map string_bytes into.new.items
        ≡ map string_bytes into.old.items ++ without_lines format (map held_seen files.now) (all_audited audited.now)) }
{
    let urls = urls_of(alloc, files)?;
    push_missing(alloc, format, &urls, audited, into)?;
    Ok(())
}
