//! Words with options, which `clap` reads.

ghost use Rattle.std.specs.Prelude.{◌≡◌, ◌↔◌, IfErr};
ghost use Rattle.clap.specs.declared.error.kind.ErrorKind.TheVariants as kind;

use crate::bulk::named;
use crate::request::{
    Audience, AuditRequest, BulkRequest, CompareRequest, Detail, Format, GatherRequest, Invocation,
    Manner, Request, Task, WordsFault,
};
use crate::version::VERSION;
use clap::error::ErrorKind;
use clap::{Arg, ArgAction, ArgMatches, Command};
use std::alloc::{AllocError, Global};

// How a part of a command is given.
#[derive(Clone, Copy)]
enum Kind {
    // It has to be there.
    Required,
    // It may be there.
    Optional,
    // One or more have to be there.
    Several,
    // An option without a word.
    Flag,
    // An option with a word.
    Option,
    // The same, which may stand several times.
    Options,
}

// A part of a command: a word, or an option.
#[derive(Clone, Copy)]
struct Part {
    name: &'static str,
    kind: Kind,
}

fn required(name: &'static str) -> Part {
    Part {
        name,
        kind: Kind::Required,
    }
}

fn optional(name: &'static str) -> Part {
    Part {
        name,
        kind: Kind::Optional,
    }
}

fn several(name: &'static str) -> Part {
    Part {
        name,
        kind: Kind::Several,
    }
}

fn flag(name: &'static str) -> Part {
    Part {
        name,
        kind: Kind::Flag,
    }
}

fn option(name: &'static str) -> Part {
    Part {
        name,
        kind: Kind::Option,
    }
}

fn options(name: &'static str) -> Part {
    Part {
        name,
        kind: Kind::Options,
    }
}

fn argument<'a>(alloc: Global, part: Part) -> Arg<'a> {
    let argument = Arg::new(alloc, part.name);
    match part.kind {
        Kind::Required => argument.required(true),
        Kind::Optional => argument,
        Kind::Several => argument.required(true).num_args(1..),
        Kind::Flag => argument.long(part.name).action(ArgAction::SetTrue),
        Kind::Option => argument.long(part.name),
        Kind::Options => argument.long(part.name).action(ArgAction::Append),
    }
}

// A command with these parts.
fn with<'a>(alloc: Global, name: &'static str, parts: &[Part]) -> Result<Command<'a>, AllocError> {
    let mut command = Command::new(alloc, name);
    for part in parts {
        command = command.arg(argument(alloc, *part))?;
    }
    Ok(command)
}

// A command whose words all have to be there.
fn all_required<'a>(
    alloc: Global,
    name: &'static str,
    words: &[&'static str],
) -> Result<Command<'a>, AllocError> {
    let mut command = Command::new(alloc, name);
    for word in words {
        command = command.arg(argument(alloc, required(*word)))?;
    }
    Ok(command)
}

fn check<'a>(alloc: Global) -> Result<Command<'a>, AllocError> {
    with(
        alloc,
        "check",
        &[
            required("PACKAGE"),
            optional("CERTIFICATE"),
            options("only"),
            flag("each"),
            flag("json"),
        ],
    )
}

fn unread<'a>(alloc: Global) -> Result<Command<'a>, AllocError> {
    with(alloc, "unread", &[required("PACKAGE"), optional("PROFILE")])
}

fn gather<'a>(alloc: Global) -> Result<Command<'a>, AllocError> {
    with(
        alloc,
        "gather",
        &[required("OUT"), several("FOLDER"), flag("each")],
    )
}

fn validate_all<'a>(alloc: Global) -> Result<Command<'a>, AllocError> {
    with(
        alloc,
        "validate-all",
        &[
            required("PACKAGE"),
            required("PROFILE"),
            several("INPUT"),
            option("given"),
            flag("json"),
            flag("only-bad"),
            flag("skip-unknown"),
        ],
    )
}

fn audit<'a>(alloc: Global) -> Result<Command<'a>, AllocError> {
    with(
        alloc,
        "audit",
        &[
            required("PACKAGE"),
            options("only"),
            option("given"),
            option("html"),
            option("certificates"),
            option("against"),
            flag("json"),
        ],
    )
}

fn compare<'a>(alloc: Global) -> Result<Command<'a>, AllocError> {
    with(
        alloc,
        "compare",
        &[
            required("OLD"),
            required("NEW"),
            option("for"),
            flag("json"),
        ],
    )
}

const COMMANDS: [&str; 16] = [
    "certify",
    "migrate",
    "validate",
    "validate-given",
    "snapshot",
    "derive",
    "counter",
    "counter-given",
    "check",
    "unread",
    "serve",
    "serve-given",
    "gather",
    "validate-all",
    "audit",
    "compare",
];

// The command of that name.
fn command<'a>(alloc: Global, name: &'static str) -> Result<Command<'a>, AllocError> {
    match name {
        "certify" | "migrate" => all_required(alloc, name, &["PACKAGE", "CERTIFICATE"]),
        "validate" => all_required(alloc, name, &["PACKAGE", "PROFILE", "RESOURCE"]),
        "validate-given" => all_required(alloc, name, &["PACKAGE", "PROFILE", "RESOURCE", "FILE"]),
        "snapshot" => all_required(alloc, name, &["PACKAGE", "URL"]),
        "derive" | "counter" => all_required(alloc, name, &["PACKAGE", "DERIVED", "BASE"]),
        "counter-given" => all_required(alloc, name, &["PACKAGE", "DERIVED", "BASE", "FILE"]),
        "serve" => all_required(alloc, name, &["PACKAGE"]),
        "serve-given" => all_required(alloc, name, &["PACKAGE", "FILE"]),
        "check" => check(alloc),
        "unread" => unread(alloc),
        "gather" => gather(alloc),
        "validate-all" => validate_all(alloc),
        "audit" => audit(alloc),
        _ => compare(alloc),
    }
}

fn program<'a>(alloc: Global) -> Result<Command<'a>, AllocError> {
    let mut program = Command::new(alloc, "fhirprof")
        .version(VERSION)
        .subcommand_required(true);
    for name in COMMANDS {
        program = program.subcommand(command(alloc, name)?)?;
    }
    Ok(program)
}

// What words ask for that `clap` gives back with an error of a kind.
fn of_error_kind<'w>(kind: ErrorKind) -> Result<Invocation<'w>, WordsFault>
    ensures { IfErr result (λ fault. (fault ≡ WordsFault.NoMemory) ↔ (kind ≡ ErrorKind.OutOfMemory)) }
{
    match kind {
        ErrorKind::DisplayVersion => Ok(Invocation::Version),
        ErrorKind::OutOfMemory => Err(WordsFault::NoMemory),
        _ => Err(WordsFault::Usage),
    }
}

fn word<'a>(matches: &ArgMatches<'a>, id: &str) -> Result<&'a str, WordsFault> {
    matches.get_str(id).ok_or(WordsFault::Usage)
}

/// What words ask for, as `clap` reads them.
pub(crate) fn other_task<'w>(alloc: Global, words: &'w [String]) -> Result<Task<'w>, WordsFault> {
    match program(alloc)?.try_get_matches_from(words) {
        Ok(matches) => task_matched(alloc, &matches),
        Err(error) => Ok(Task::Answer(of_error_kind(error.kind())?)),
    }
}

// The task of the command that stands there.
fn task_matched<'w>(alloc: Global, matches: &ArgMatches<'w>) -> Result<Task<'w>, WordsFault> {
    let Some((name, matches)) = matches.subcommand() else {
        return Err(WordsFault::Usage);
    };
    match name {
        "serve" => serve_matched(matches),
        "serve-given" => serve_given_matched(matches),
        "gather" => gather_matched(alloc, matches),
        "validate-all" => validate_all_matched(alloc, matches),
        "audit" => audit_matched(alloc, matches),
        "compare" => compare_matched(matches),
        _ => Ok(Task::Answer(Invocation::Request(matched(alloc, name, matches)?))),
    }
}

fn matched<'w>(
    alloc: Global,
    name: &str,
    matches: &ArgMatches<'w>,
) -> Result<Request<'w>, WordsFault> {
    match name {
        "certify" => certify_matched(matches),
        "migrate" => migrate_matched(matches),
        "validate" => validate_matched(matches),
        "validate-given" => validate_given_matched(matches),
        "snapshot" => snapshot_matched(matches),
        "derive" => derive_matched(matches),
        "counter" => counter_matched(matches),
        "counter-given" => counter_given_matched(matches),
        "check" => check_matched(alloc, matches),
        "unread" => unread_matched(matches),
        _ => Err(WordsFault::Usage),
    }
}

fn certify_matched<'w>(matches: &ArgMatches<'w>) -> Result<Request<'w>, WordsFault> {
    Ok(Request::Certify {
        folder: word(matches, "PACKAGE")?,
        file: word(matches, "CERTIFICATE")?,
    })
}

fn migrate_matched<'w>(matches: &ArgMatches<'w>) -> Result<Request<'w>, WordsFault> {
    Ok(Request::Migrate {
        folder: word(matches, "PACKAGE")?,
        file: word(matches, "CERTIFICATE")?,
    })
}

fn validate_matched<'w>(matches: &ArgMatches<'w>) -> Result<Request<'w>, WordsFault> {
    Ok(Request::Validate {
        folder: word(matches, "PACKAGE")?,
        profile: word(matches, "PROFILE")?,
        file: word(matches, "RESOURCE")?,
    })
}

fn validate_given_matched<'w>(matches: &ArgMatches<'w>) -> Result<Request<'w>, WordsFault> {
    Ok(Request::ValidateGiven {
        folder: word(matches, "PACKAGE")?,
        profile: word(matches, "PROFILE")?,
        file: word(matches, "RESOURCE")?,
        given: word(matches, "FILE")?,
    })
}

fn snapshot_matched<'w>(matches: &ArgMatches<'w>) -> Result<Request<'w>, WordsFault> {
    Ok(Request::Snapshot {
        folder: word(matches, "PACKAGE")?,
        url: word(matches, "URL")?,
    })
}

fn derive_matched<'w>(matches: &ArgMatches<'w>) -> Result<Request<'w>, WordsFault> {
    Ok(Request::Derive {
        folder: word(matches, "PACKAGE")?,
        derived: word(matches, "DERIVED")?,
        base: word(matches, "BASE")?,
    })
}

fn counter_matched<'w>(matches: &ArgMatches<'w>) -> Result<Request<'w>, WordsFault> {
    Ok(Request::Counter {
        folder: word(matches, "PACKAGE")?,
        derived: word(matches, "DERIVED")?,
        base: word(matches, "BASE")?,
    })
}

fn counter_given_matched<'w>(matches: &ArgMatches<'w>) -> Result<Request<'w>, WordsFault> {
    Ok(Request::CounterGiven {
        folder: word(matches, "PACKAGE")?,
        derived: word(matches, "DERIVED")?,
        base: word(matches, "BASE")?,
        given: word(matches, "FILE")?,
    })
}

// The words of an argument that may stand several times.
fn words_at<'w>(
    alloc: Global,
    matches: &ArgMatches<'w>,
    id: &str,
) -> Result<Vec<&'w str>, AllocError> {
    let mut words = Vec::new(alloc);
    if let Some(given) = matches.get_strs(id) {
        words.extend_from_slice(given)?;
    }
    Ok(words)
}

// The same in memory of their own.
fn owned_at(alloc: Global, matches: &ArgMatches<'_>, id: &str) -> Result<Vec<String>, AllocError> {
    let mut words = Vec::new(alloc);
    for word in words_at(alloc, matches, id)? {
        words.push(String::from_str(alloc, word)?)?;
    }
    Ok(words)
}

fn format_matched(matches: &ArgMatches<'_>) -> Format {
    if matches.get_flag("json") {
        Format::Json
    } else {
        Format::Text
    }
}

fn detail_matched(matches: &ArgMatches<'_>) -> Detail {
    if matches.get_flag("each") {
        Detail::Each
    } else {
        Detail::Once
    }
}

fn check_matched<'w>(alloc: Global, matches: &ArgMatches<'w>) -> Result<Request<'w>, WordsFault> {
    Ok(Request::Check {
        folder: word(matches, "PACKAGE")?,
        certificate: matches.get_str("CERTIFICATE"),
        prefixes: owned_at(alloc, matches, "only")?,
        manner: Manner {
            format: format_matched(matches),
            detail: detail_matched(matches),
        },
    })
}

fn unread_matched<'w>(matches: &ArgMatches<'w>) -> Result<Request<'w>, WordsFault> {
    Ok(Request::Unread {
        folder: word(matches, "PACKAGE")?,
        profile: matches.get_str("PROFILE"),
    })
}

fn serve_matched<'w>(matches: &ArgMatches<'w>) -> Result<Task<'w>, WordsFault> {
    Ok(Task::Serve {
        folder: word(matches, "PACKAGE")?,
        given: None,
    })
}

fn serve_given_matched<'w>(matches: &ArgMatches<'w>) -> Result<Task<'w>, WordsFault> {
    Ok(Task::Serve {
        folder: word(matches, "PACKAGE")?,
        given: Some(word(matches, "FILE")?),
    })
}

fn gather_matched<'w>(alloc: Global, matches: &ArgMatches<'w>) -> Result<Task<'w>, WordsFault> {
    Ok(Task::Gather(GatherRequest {
        out: word(matches, "OUT")?,
        folders: words_at(alloc, matches, "FOLDER")?,
        detail: detail_matched(matches),
    }))
}

// The inputs, of which a dash is standard input.
fn inputs_matched<'w>(
    alloc: Global,
    matches: &ArgMatches<'w>,
) -> Result<Vec<Option<&'w str>>, AllocError> {
    let mut inputs = Vec::new(alloc);
    for word in words_at(alloc, matches, "INPUT")? {
        inputs.push(named(word))?;
    }
    Ok(inputs)
}

fn validate_all_matched<'w>(
    alloc: Global,
    matches: &ArgMatches<'w>,
) -> Result<Task<'w>, WordsFault> {
    Ok(Task::ValidateAll(BulkRequest {
        folder: word(matches, "PACKAGE")?,
        profile: named(word(matches, "PROFILE")?),
        inputs: inputs_matched(alloc, matches)?,
        given: matches.get_str("given"),
        format: format_matched(matches),
        only_bad: matches.get_flag("only-bad"),
        skip_unknown: matches.get_flag("skip-unknown"),
    }))
}

fn audit_matched<'w>(alloc: Global, matches: &ArgMatches<'w>) -> Result<Task<'w>, WordsFault> {
    Ok(Task::Audit(AuditRequest {
        folder: word(matches, "PACKAGE")?,
        prefixes: owned_at(alloc, matches, "only")?,
        given: matches.get_str("given"),
        page: matches.get_str("html"),
        certificates: matches.get_str("certificates"),
        against: matches.get_str("against"),
        format: format_matched(matches),
    }))
}

fn audience_matched(matches: &ArgMatches<'_>) -> Result<Audience, WordsFault> {
    match matches.get_str("for") {
        Some("readers") | None => Ok(Audience::Readers),
        Some("writers") => Ok(Audience::Writers),
        Some(_) => Err(WordsFault::Usage),
    }
}

fn compare_matched<'w>(matches: &ArgMatches<'w>) -> Result<Task<'w>, WordsFault> {
    Ok(Task::Compare(CompareRequest {
        old: word(matches, "OLD")?,
        new: word(matches, "NEW")?,
        audience: audience_matched(matches)?,
        format: format_matched(matches),
    }))
}
