//! Words without options that ask for all resources of some inputs.

ghost use Rattle.std.specs.Prelude.{◌≡◌, ◌∷◌, ◌++◌, not, map, string_bytes, option_map, IfOk, OnOk, codes};
ghost use Rattle.std.specs.List.{list_any};
ghost use Rattle.std.specs.Str.{bytes_eq};
ghost use Rattle.fhir_json.specs.Views.{text_seen};
ghost use Rattle.fhir_words.specs.Requests.{validate_all};
ghost use Rattle.fhir_words.specs.Words.{is_flag, named, plain_bulk_of, bulk_task, command_bulk, plain_bulk};
ghost use Rattle.fhir_words.specs.Views.{task_seen};

use crate::plain::is_option;
use crate::request::{BulkRequest, Format, Task};
use std::alloc::{AllocError, Global};

fn is_dash(word: &str) -> bool
    ensures { result ≡ bytes_eq word.now (codes "-") }
{
    word == "-"
}

fn is_flag(word: &str) -> bool
    ensures { result ≡ is_flag word.now }
{
    is_option(word) && !is_dash(word)
}

fn any_flag(words: &[String]) -> bool
    ensures { result ≡ list_any (λ w. is_flag (string_bytes w)) words.now }
{
    words.iter().any(|word| is_flag(word.as_str()))
}

fn has_flag(words: &[String]) -> bool
    ensures { result ≡ list_any is_flag (map string_bytes words.now) }
{
    any_flag(words)
}

/// What a word names; a dash names nothing.
pub(crate) fn named(word: &str) -> Option<&str>
    ensures { text_seen result ≡ named word.now }
{
    if is_dash(word) { None } else { Some(word) }
}

fn push_named<'w>(words: &'w [String], names: &mut Vec<Option<&'w str>>) -> Result<(), AllocError>
    ensures { OnOk result (map text_seen names.new.items ≡ map text_seen names.old.items ++ map named (map string_bytes words.now)) }
{
    for word in words {
        names.push(named(word.as_str()))?;
    }
    Ok(())
}

fn bulk_of<'w>(
    alloc: Global,
    folder: &'w str,
    profile: &'w str,
    first: &'w str,
    others: &'w [String],
) -> Result<Task<'w>, AllocError>
    ensures { IfOk result (λ task. task_seen task ≡ validate_all (plain_bulk_of folder.now profile.now (first.now ∷ map string_bytes others.now))) }
{
    let mut inputs = vec![in alloc; named(first)]?;
    push_named(others, &mut inputs)?;
    Ok(Task::ValidateAll(BulkRequest {
        folder,
        profile: named(profile),
        inputs,
        given: None,
        format: Format::Text,
        only_bad: false,
        skip_unknown: false,
    }))
}

fn are_no_flags(folder: &str, profile: &str, first: &str, others: &[String]) -> bool
    ensures { result ≡ not (list_any is_flag (folder.now ∷ profile.now ∷ first.now ∷ map string_bytes others.now)) }
{
    !is_flag(folder) && !is_flag(profile) && !is_flag(first) && !has_flag(others)
}

fn bulk_task<'w>(
    alloc: Global,
    command: &str,
    folder: &'w str,
    profile: &'w str,
    first: &'w str,
    others: &'w [String],
) -> Result<Option<Task<'w>>, AllocError>
    ensures { IfOk result (λ task. option_map task_seen task
        ≡ bulk_task command.now folder.now profile.now first.now (map string_bytes others.now)) }
{
    if command == "validate-all" && are_no_flags(folder, profile, first, others) {
        Ok(Some(bulk_of(alloc, folder, profile, first, others)?))
    } else {
        Ok(None)
    }
}

fn command_bulk<'w>(
    alloc: Global,
    command: &str,
    words: &'w [String],
) -> Result<Option<Task<'w>>, AllocError>
    ensures { IfOk result (λ task. option_map task_seen task ≡ command_bulk command.now (map string_bytes words.now)) }
{
    match words {
        [folder, profile, first, others @ ..] => bulk_task(
            alloc,
            command,
            folder.as_str(),
            profile.as_str(),
            first.as_str(),
            others,
        ),
        _ => Ok(None),
    }
}

/// That all resources of some inputs are validated, where that is what words ask for as they stand.
pub(crate) fn plain_bulk<'w>(
    alloc: Global,
    words: &'w [String],
) -> Result<Option<Task<'w>>, AllocError>
    ensures { IfOk result (λ task. option_map task_seen task ≡ plain_bulk (map string_bytes words.now)) }
{
    match words {
        [_, command, others @ ..] => command_bulk(alloc, command.as_str(), others),
        _ => Ok(None),
    }
}
