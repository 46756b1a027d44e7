//! Words without options, which are read as they stand.

ghost use Rattle.std.specs.Prelude.{◌≡◌, ◌∷◌, ◌++◌, [], not, map, string_bytes, option_map, IfOk, OnOk};
ghost use Rattle.std.specs.List.{list_any};
ghost use Rattle.fhir_words.specs.Requests.{check, answer, gather};
ghost use Rattle.fhir_words.specs.Words.{is_option, are_plain, plain_manner, certify_request, migrate_request, validate_request, validate_given_request, snapshot_request, derive_request, counter_request, counter_given_request, check_request, check_beside, unread_request, unread_of_profile, first_some, command_request, plain_request, plain_invocation, serve_task, serve_given_task, plain_serving, gather_task, plain_gathering, plain_bulk, plain_release, plain_task};
ghost use Rattle.fhir_json.specs.Views.{text_seen};
ghost use Rattle.fhir_words.specs.Views.{texts_seen, request_seen, task_seen};

use crate::bulk::plain_bulk;
use crate::release::plain_release;
use crate::request::{Detail, Format, GatherRequest, Invocation, Manner, Request, Task};
use std::alloc::{AllocError, Global};

/// Whether a word is an option, or a dash.
pub(crate) fn is_option(word: &str) -> bool
    ensures { result ≡ is_option word.now }
{
    word.as_bytes().starts_with(b"-")
}

/// Whether neither word is an option.
pub(crate) fn are_plain(first: &str, second: &str) -> bool
    ensures { result ≡ are_plain first.now second.now }
{
    !is_option(first) && !is_option(second)
}

fn certify_request<'w>(command: &str, first: &'w str, second: &'w str) -> Option<Request<'w>>
    ensures { option_map request_seen result ≡ certify_request command.now first.now second.now }
{
    if command == "certify" && are_plain(first, second) {
        Some(Request::Certify {
            folder: first,
            file: second,
        })
    } else {
        None
    }
}

fn migrate_request<'w>(command: &str, first: &'w str, second: &'w str) -> Option<Request<'w>>
    ensures { option_map request_seen result ≡ migrate_request command.now first.now second.now }
{
    if command == "migrate" && are_plain(first, second) {
        Some(Request::Migrate {
            folder: first,
            file: second,
        })
    } else {
        None
    }
}

fn validate_request<'w>(
    command: &str,
    first: &'w str,
    second: &'w str,
    third: &'w str,
) -> Option<Request<'w>>
    ensures { option_map request_seen result ≡ validate_request command.now first.now second.now third.now }
{
    if command == "validate" && !is_option(first) && are_plain(second, third) {
        Some(Request::Validate {
            folder: first,
            profile: second,
            file: third,
        })
    } else {
        None
    }
}

fn validate_given_request<'w>(
    command: &str,
    folder: &'w str,
    profile: &'w str,
    file: &'w str,
    given: &'w str,
) -> Option<Request<'w>>
    ensures { option_map request_seen result ≡ validate_given_request command.now folder.now profile.now file.now given.now }
{
    if command == "validate-given" && are_plain(folder, profile) && are_plain(file, given) {
        Some(Request::ValidateGiven {
            folder,
            profile,
            file,
            given,
        })
    } else {
        None
    }
}

fn snapshot_request<'w>(command: &str, first: &'w str, second: &'w str) -> Option<Request<'w>>
    ensures { option_map request_seen result ≡ snapshot_request command.now first.now second.now }
{
    if command == "snapshot" && are_plain(first, second) {
        Some(Request::Snapshot {
            folder: first,
            url: second,
        })
    } else {
        None
    }
}

fn derive_request<'w>(
    command: &str,
    first: &'w str,
    second: &'w str,
    third: &'w str,
) -> Option<Request<'w>>
    ensures { option_map request_seen result ≡ derive_request command.now first.now second.now third.now }
{
    if command == "derive" && !is_option(first) && are_plain(second, third) {
        Some(Request::Derive {
            folder: first,
            derived: second,
            base: third,
        })
    } else {
        None
    }
}

fn counter_request<'w>(
    command: &str,
    folder: &'w str,
    first: &'w str,
    second: &'w str,
) -> Option<Request<'w>>
    ensures { option_map request_seen result ≡ counter_request command.now folder.now first.now second.now }
{
    if command == "counter" && !is_option(folder) && are_plain(first, second) {
        Some(Request::Counter {
            folder,
            derived: first,
            base: second,
        })
    } else {
        None
    }
}

fn counter_given_request<'w>(
    command: &str,
    folder: &'w str,
    derived: &'w str,
    base: &'w str,
    texts: &'w str,
) -> Option<Request<'w>>
    ensures { option_map request_seen result ≡ counter_given_request command.now folder.now derived.now base.now texts.now }
{
    if command == "counter-given" && are_plain(folder, derived) && are_plain(base, texts) {
        Some(Request::CounterGiven {
            folder,
            derived,
            base,
            given: texts,
        })
    } else {
        None
    }
}

// The check of a folder, and of a certificate beside it, if there is one.
fn check_of<'w>(alloc: Global, folder: &'w str, certificate: Option<&'w str>) -> Request<'w>
    ensures { request_seen result ≡ check folder.now (text_seen certificate.entry) [] plain_manner }
{
    Request::Check {
        folder,
        certificate,
        prefixes: Vec::new(alloc),
        manner: Manner {
            format: Format::Text,
            detail: Detail::Once,
        },
    }
}

fn check_request<'w>(alloc: Global, command: &str, folder: &'w str) -> Option<Request<'w>>
    ensures { option_map request_seen result ≡ check_request command.now folder.now }
{
    if command == "check" && !is_option(folder) {
        Some(check_of(alloc, folder, None))
    } else {
        None
    }
}

fn check_beside<'w>(
    alloc: Global,
    command: &str,
    folder: &'w str,
    certificate: &'w str,
) -> Option<Request<'w>>
    ensures { option_map request_seen result ≡ check_beside command.now folder.now certificate.now }
{
    if command == "check" && are_plain(folder, certificate) {
        Some(check_of(alloc, folder, Some(certificate)))
    } else {
        None
    }
}

fn unread_request<'w>(command: &str, folder: &'w str) -> Option<Request<'w>>
    ensures { option_map request_seen result ≡ unread_request command.now folder.now }
{
    if command == "unread" && !is_option(folder) {
        Some(Request::Unread {
            folder,
            profile: None,
        })
    } else {
        None
    }
}

fn unread_of_profile<'w>(command: &str, folder: &'w str, profile: &'w str) -> Option<Request<'w>>
    ensures { option_map request_seen result ≡ unread_of_profile command.now folder.now profile.now }
{
    if command == "unread" && are_plain(folder, profile) {
        Some(Request::Unread {
            folder,
            profile: Some(profile),
        })
    } else {
        None
    }
}

fn request_of_one<'w>(alloc: Global, command: &str, first: &'w str) -> Option<Request<'w>>
    ensures { option_map request_seen result ≡ first_some (check_request command.now first.now) (unread_request command.now first.now) }
{
    match check_request(alloc, command, first) {
        Some(request) => Some(request),
        None => unread_request(command, first),
    }
}

fn check_or_unread<'w>(
    alloc: Global,
    command: &str,
    first: &'w str,
    second: &'w str,
) -> Option<Request<'w>>
    ensures { option_map request_seen result
        ≡ first_some (check_beside command.now first.now second.now) (unread_of_profile command.now first.now second.now) }
{
    match check_beside(alloc, command, first, second) {
        Some(request) => Some(request),
        None => unread_of_profile(command, first, second),
    }
}

fn snapshot_or_other<'w>(
    alloc: Global,
    command: &str,
    first: &'w str,
    second: &'w str,
) -> Option<Request<'w>>
    ensures { option_map request_seen result ≡ first_some (snapshot_request command.now first.now second.now)
        (first_some (check_beside command.now first.now second.now) (unread_of_profile command.now first.now second.now)) }
{
    match snapshot_request(command, first, second) {
        Some(request) => Some(request),
        None => check_or_unread(alloc, command, first, second),
    }
}

fn certify_or_migrate<'w>(command: &str, first: &'w str, second: &'w str) -> Option<Request<'w>>
    ensures { option_map request_seen result
        ≡ first_some (certify_request command.now first.now second.now) (migrate_request command.now first.now second.now) }
{
    match certify_request(command, first, second) {
        Some(request) => Some(request),
        None => migrate_request(command, first, second),
    }
}

fn request_of_two<'w>(
    alloc: Global,
    command: &str,
    first: &'w str,
    second: &'w str,
) -> Option<Request<'w>>
    ensures { option_map request_seen result
        ≡ first_some (first_some (certify_request command.now first.now second.now) (migrate_request command.now first.now second.now))
        (first_some (snapshot_request command.now first.now second.now)
        (first_some (check_beside command.now first.now second.now) (unread_of_profile command.now first.now second.now))) }
{
    match certify_or_migrate(command, first, second) {
        Some(request) => Some(request),
        None => snapshot_or_other(alloc, command, first, second),
    }
}

fn derive_or_counter<'w>(
    command: &str,
    first: &'w str,
    second: &'w str,
    third: &'w str,
) -> Option<Request<'w>>
    ensures { option_map request_seen result ≡ first_some (derive_request command.now first.now second.now third.now)
        (counter_request command.now first.now second.now third.now) }
{
    match derive_request(command, first, second, third) {
        Some(request) => Some(request),
        None => counter_request(command, first, second, third),
    }
}

fn request_of_three<'w>(
    command: &str,
    first: &'w str,
    second: &'w str,
    third: &'w str,
) -> Option<Request<'w>>
    ensures { option_map request_seen result ≡ first_some (validate_request command.now first.now second.now third.now)
        (first_some (derive_request command.now first.now second.now third.now)
        (counter_request command.now first.now second.now third.now)) }
{
    match validate_request(command, first, second, third) {
        Some(request) => Some(request),
        None => derive_or_counter(command, first, second, third),
    }
}

fn request_of_four<'w>(
    command: &str,
    first: &'w str,
    second: &'w str,
    third: &'w str,
    fourth: &'w str,
) -> Option<Request<'w>>
    ensures { option_map request_seen result
        ≡ first_some (validate_given_request command.now first.now second.now third.now fourth.now)
        (counter_given_request command.now first.now second.now third.now fourth.now) }
{
    match validate_given_request(command, first, second, third, fourth) {
        Some(request) => Some(request),
        None => counter_given_request(command, first, second, third, fourth),
    }
}

fn command_request<'w>(alloc: Global, command: &str, words: &'w [String]) -> Option<Request<'w>>
    ensures { option_map request_seen result ≡ command_request command.now (map string_bytes words.now) }
{
    match words {
        [first] => request_of_one(alloc, command, first.as_str()),
        [first, second] => request_of_two(alloc, command, first.as_str(), second.as_str()),
        [first, second, third] => {
            request_of_three(command, first.as_str(), second.as_str(), third.as_str())
        }
        [first, second, third, fourth] => request_of_four(
            command,
            first.as_str(),
            second.as_str(),
            third.as_str(),
            fourth.as_str(),
        ),
        _ => None,
    }
}

fn plain_request(alloc: Global, words: &[String]) -> Option<Request<'_>>
    ensures { option_map request_seen result ≡ plain_request (map string_bytes words.now) }
{
    match words {
        [_, command, others @ ..] => command_request(alloc, command.as_str(), others),
        _ => None,
    }
}

fn serve_task<'w>(command: &str, folder: &'w str) -> Option<Task<'w>>
    ensures { option_map task_seen result ≡ serve_task command.now folder.now }
{
    if command == "serve" && !is_option(folder) {
        Some(Task::Serve {
            folder,
            given: None,
        })
    } else {
        None
    }
}

fn serve_given_task<'w>(command: &str, folder: &'w str, file: &'w str) -> Option<Task<'w>>
    ensures { option_map task_seen result ≡ serve_given_task command.now folder.now file.now }
{
    if command == "serve-given" && are_plain(folder, file) {
        Some(Task::Serve {
            folder,
            given: Some(file),
        })
    } else {
        None
    }
}

fn plain_serving(words: &[String]) -> Option<Task<'_>>
    ensures { option_map task_seen result ≡ plain_serving (map string_bytes words.now) }
{
    match words {
        [_, command, folder] => serve_task(command.as_str(), folder.as_str()),
        [_, command, folder, file] => {
            serve_given_task(command.as_str(), folder.as_str(), file.as_str())
        }
        _ => None,
    }
}

fn serving_or_release(alloc: Global, words: &[String]) -> Option<Task<'_>>
    ensures { option_map task_seen result
        ≡ first_some (plain_serving (map string_bytes words.now)) (plain_release (map string_bytes words.now)) }
{
    match plain_serving(words) {
        Some(task) => Some(task),
        None => plain_release(alloc, words),
    }
}

fn request_task(alloc: Global, words: &[String]) -> Option<Task<'_>>
    ensures { option_map task_seen result ≡ first_some (option_map answer (plain_invocation (map string_bytes words.now)))
        (first_some (plain_serving (map string_bytes words.now)) (plain_release (map string_bytes words.now))) }
{
    match plain_request(alloc, words) {
        Some(request) => Some(Task::Answer(Invocation::Request(request))),
        None => serving_or_release(alloc, words),
    }
}

fn any_option(words: &[String]) -> bool
    ensures { result ≡ list_any (λ w. is_option (string_bytes w)) words.now }
{
    words.iter().any(|word| is_option(word.as_str()))
}

fn has_option(words: &[String]) -> bool
    ensures { result ≡ list_any is_option (map string_bytes words.now) }
{
    any_option(words)
}

fn push_texts<'w>(words: &'w [String], texts: &mut Vec<&'w str>) -> Result<(), AllocError>
    ensures { OnOk result (texts_seen texts.new.items ≡ texts_seen texts.old.items ++ map string_bytes words.now) }
{
    for word in words {
        texts.push(word.as_str())?;
    }
    Ok(())
}

fn gathering<'w>(
    alloc: Global,
    out: &'w str,
    first: &'w str,
    others: &'w [String],
) -> Result<Task<'w>, AllocError>
    ensures { IfOk result (λ task. task_seen task ≡ gather out.now (first.now ∷ map string_bytes others.now) Detail.Once) }
{
    let mut folders = vec![in alloc; first]?;
    push_texts(others, &mut folders)?;
    Ok(Task::Gather(GatherRequest {
        out,
        folders,
        detail: Detail::Once,
    }))
}

fn are_folders(out: &str, first: &str, others: &[String]) -> bool
    ensures { result ≡ not (list_any is_option (out.now ∷ first.now ∷ map string_bytes others.now)) }
{
    are_plain(out, first) && !has_option(others)
}

fn gather_task<'w>(
    alloc: Global,
    command: &str,
    out: &'w str,
    first: &'w str,
    others: &'w [String],
) -> Result<Option<Task<'w>>, AllocError>
    ensures { IfOk result (λ task. option_map task_seen task
        ≡ gather_task command.now out.now first.now (map string_bytes others.now)) }
{
    if command == "gather" && are_folders(out, first, others) {
        Ok(Some(gathering(alloc, out, first, others)?))
    } else {
        Ok(None)
    }
}

fn plain_gathering<'w>(alloc: Global, words: &'w [String]) -> Result<Option<Task<'w>>, AllocError>
    ensures { IfOk result (λ task. option_map task_seen task ≡ plain_gathering (map string_bytes words.now)) }
{
    match words {
        [_, command, out, first, others @ ..] => gather_task(
            alloc,
            command.as_str(),
            out.as_str(),
            first.as_str(),
            others,
        ),
        _ => Ok(None),
    }
}

fn bulk_or_request<'w>(alloc: Global, words: &'w [String]) -> Result<Option<Task<'w>>, AllocError>
    ensures { IfOk result (λ task. option_map task_seen task ≡ first_some (plain_bulk (map string_bytes words.now))
        (first_some (option_map answer (plain_invocation (map string_bytes words.now)))
        (first_some (plain_serving (map string_bytes words.now)) (plain_release (map string_bytes words.now))))) }
{
    match plain_bulk(alloc, words)? {
        Some(task) => Ok(Some(task)),
        None => Ok(request_task(alloc, words)),
    }
}

/// What words without options ask for.
pub(crate) fn plain_task<'w>(
    alloc: Global,
    words: &'w [String],
) -> Result<Option<Task<'w>>, AllocError>
    ensures { IfOk result (λ task. option_map task_seen task ≡ plain_task (map string_bytes words.now)) }
{
    match plain_gathering(alloc, words)? {
        Some(task) => Ok(Some(task)),
        None => bulk_or_request(alloc, words),
    }
}
