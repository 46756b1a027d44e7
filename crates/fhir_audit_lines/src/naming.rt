//! The names of the files of certificates.

ghost use Rattle.std.specs.Prelude.{◌≡◌, ◌+◌, ◌<◌, ◌^◌, ◌++◌, ◌∷◌, [], ℕ, List, map, take, codes, string_bytes, if◌then◌else◌, IfOk, OnOk};
ghost use Rattle.std.specs.BTreeMap.{get_by_text};
ghost use Rattle.std.specs.Option.{unwrap_or};
ghost use Rattle.std.specs.Str.{bytes_eq};
ghost use Rattle.std.specs.Fmt.{decimal};
ghost use Rattle.fhir_audit_lines.specs.Naming.{is_name_byte, name_byte, front_of, file_names};

use fhir_json::NoMemory;
use std::alloc::{AllocError, Global};
use std::collections::BTreeMap;

// How many bytes of a url a name has at most.
const URL_BYTES: usize = 150;

fn is_name_byte(byte: u8) -> bool
    ensures { result ≡ is_name_byte byte }
{
    matches!(byte, b'a'..=b'z' | b'A'..=b'Z' | b'0'..=b'9' | b'-' | b'.' | b'_')
}

// What stands for a byte in a name.
fn name_byte(byte: u8) -> u8
    ensures is { result ≡ name_byte byte }
    ensures ascii { result < 128 }
{
    if is_name_byte(byte) { byte } else { b'_' }
}

// The bytes of a url that a name has something of.
fn first_bytes(url: &str) -> &[u8]
    ensures { result.now ≡ take 150 url.now }
{
    let bytes = url.as_bytes();
    if bytes.len() <= URL_BYTES {
        bytes
    } else {
        &bytes[..URL_BYTES]
    }
}

fn push_byte(byte: u8, into: &mut String) -> Result<(), AllocError>
    ensures { OnOk result (string_bytes into.new ≡ string_bytes into.old ++ name_byte byte ∷ []) }
{
    into.push(name_byte(byte) as char)
}

// What a name has of a url.
fn front_of(alloc: Global, url: &str) -> Result<String, AllocError>
    ensures { IfOk result (λ front. string_bytes front ≡ front_of url.now) }
{
    let mut front = String::new(alloc);
    for byte in first_bytes(url) {
        push_byte(*byte, &mut front)?;
    }
    Ok(front)
}

fn numbered(alloc: Global, front: &str, count: usize) -> Result<String, AllocError>
    ensures { IfOk result (λ name. string_bytes name ≡ front.now ++ codes "~" ++ decimal count) }
{
    format!(in alloc; "{front}~{count}")
}

// How many names there are with a front, this one among them.
fn count_more(fronts: &mut BTreeMap<String, usize>, front: String) -> Result<usize, AllocError>
    requires { (q : List ℕ) → unwrap_or (get_by_text fronts.old q) 0 < 2 ^ 63 }
    ensures count { IfOk result (λ n. n ≡ unwrap_or (get_by_text fronts.old (string_bytes front)) 0 + 1) }
    ensures counted { OnOk result ((q : List ℕ) → unwrap_or (get_by_text fronts.new q) 0
        ≡ unwrap_or (get_by_text fronts.old q) 0 + (if bytes_eq q (string_bytes front) then 1 else 0)) }
{
    let count = fronts.entry(front)?.or_insert(0);
    *count += 1;
    Ok(*count)
}

fn next_name(
    alloc: Global,
    fronts: &mut BTreeMap<String, usize>,
    url: &str,
) -> Result<String, AllocError>
    requires { (q : List ℕ) → unwrap_or (get_by_text fronts.old q) 0 < 2 ^ 63 }
    ensures name { IfOk result (λ name. string_bytes name
        ≡ front_of url.now ++ codes "~" ++ decimal (unwrap_or (get_by_text fronts.old (front_of url.now)) 0 + 1)) }
    ensures counted { OnOk result ((q : List ℕ) → unwrap_or (get_by_text fronts.new q) 0
        ≡ unwrap_or (get_by_text fronts.old q) 0 + (if bytes_eq q (front_of url.now) then 1 else 0)) }
{
    let front = front_of(alloc, url)?;
    let key = front.clone()?;
    let count = count_more(fronts, key)?;
    numbered(alloc, front.as_str(), count)
}

/// The names of files on these urls, in their order: of each at most the first 150 bytes, with `_` for those that are no letter, digit, `-`, `.` or `_`;
/// then `~`, and how many names have begun so, this one among them. No two are equal. The one refusal is want of memory.
pub fn file_names(alloc: Global, urls: &[&str]) -> Result<Vec<String>, NoMemory>
    ensures { IfOk result (λ names. map string_bytes names.items ≡ file_names (map (λ url. url.now) urls.now)) }
{
    let mut fronts: BTreeMap<String, usize> = BTreeMap::new(alloc);
    let mut names: Vec<String> = Vec::new(alloc);
    for url in urls {
        names.push(next_name(alloc, &mut fronts, *url)?)?;
    }
    Ok(names)
}
