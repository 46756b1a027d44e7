//! Words without options that ask what is asked before a release.

ghost use Rattle.std.specs.Prelude.{◌≡◌, map, string_bytes, option_map};
ghost use Rattle.fhir_words.specs.Words.{audit_task, compare_task, plain_release};
ghost use Rattle.fhir_words.specs.Views.{task_seen};

use crate::plain::{are_plain, is_option};
use crate::request::{Audience, AuditRequest, CompareRequest, Format, Task};
use std::alloc::Global;

fn audit_task<'w>(alloc: Global, command: &str, folder: &'w str) -> Option<Task<'w>>
    ensures { option_map task_seen result ≡ audit_task command.now folder.now }
{
    if command == "audit" && !is_option(folder) {
        Some(Task::Audit(AuditRequest {
            folder,
            prefixes: Vec::new(alloc),
            given: None,
            page: None,
            certificates: None,
            against: None,
            format: Format::Text,
        }))
    } else {
        None
    }
}

fn compare_task<'w>(command: &str, old: &'w str, new: &'w str) -> Option<Task<'w>>
    ensures { option_map task_seen result ≡ compare_task command.now old.now new.now }
{
    if command == "compare" && are_plain(old, new) {
        Some(Task::Compare(CompareRequest {
            old,
            new,
            audience: Audience::Readers,
            format: Format::Text,
        }))
    } else {
        None
    }
}

/// That each profile of a package is told, or that those of two are compared, where that is what words ask for as they stand.
pub(crate) fn plain_release(alloc: Global, words: &[String]) -> Option<Task<'_>>
    ensures { option_map task_seen result ≡ plain_release (map string_bytes words.now) }
{
    match words {
        [_, command, folder] => audit_task(alloc, command.as_str(), folder.as_str()),
        [_, command, old, new] => compare_task(command.as_str(), old.as_str(), new.as_str()),
        _ => None,
    }
}
