//! What is asked of a package.

ghost use Rattle.std.specs.Prelude.{◌≡◌, List, None, Option, IfOk, IfNone, IsOkAnd, map, option_map};
ghost use Rattle.fhir_json.specs.Tree.{Text};
ghost use Rattle.fhir_answers.specs.Session.{schema_in};
ghost use Rattle.fhir_package.specs.Surveying.{refusal};
ghost use Rattle.fhir_telling.specs.Questions.{question_seen, profile_asked};
ghost use Rattle.fhir_engine.specs.Serving.{file_seen, AreTextsIf};
ghost use Rattle.fhir_bulk_engine.specs.Bulk.{asked_question, CanBeUsed, IsToldOf, IsToldOfSession};
ghost use Rattle.fhir_bulk_engine.specs.Ending.{IsUntouched};

use fhir_answers::{NamedFile, Session, profile_refusal, refused_reply, unreadable_reply};
use fhir_bulk::{RunFault, Tally, Watch, validate_inputs};
use fhir_engine::{Refusal, fault_told, is_written, vouched};
use fhir_inputs::Inputs;
use fhir_json::NoMemory;
use fhir_lines::push_escaped;
use fhir_plain::Plain;
use fhir_telling::{Profiles, Question};
use fhir_unread::Given;
use fhir_vouching::Vouching;
use fhir_words::Format;
use std::alloc::Global;
use std::io::Write;

/// What is asked of each resource, and how it is told.
#[derive(Clone, Copy)]
pub struct Asked<'a> {
    /// By which profiles a resource is judged.
    pub profiles: Profiles<'a>,
    /// The file that gives the texts of unread rules which hold, if one does.
    pub given: Option<NamedFile<'a>>,
    /// How it is told.
    pub format: Format,
    /// Whether it isn't told that a resource conforms.
    pub only_bad: bool,
}

/// The inputs of a run, with their names, and how many files are passed over.
#[derive(Drop)]
pub struct Planned<'p, I> {
    /// The inputs.
    pub inputs: &'p I,
    /// Their names.
    pub names: &'p [&'p str],
    /// How many files are passed over.
    pub passed_over: usize,
}

// Asks a question of all resources of the inputs.
fn run_question<I: Inputs, V: Watch, W: Write>(
    alloc: Global,
    question: Question<'_, '_>,
    planned: Planned<'_, I>,
    watch: &mut V,
    out: &mut W,
) -> Result<Tally, Refusal>
    ensures told { IfOk result (λ tally. IsToldOf (question_seen question.entry) (map (λ n. n.now) planned.entry.names.now)
        (I.inputs planned.entry.inputs.now) planned.entry.passed_over tally (W.contents out.old) (W.contents out.new)) }
    ensures untouched { IsUntouched result out.old out.new }
{
    let Planned {
        inputs,
        names,
        passed_over,
    } = planned;
    match validate_inputs(alloc, question, names, inputs, passed_over, watch, out) {
        Ok(tally) => Ok(tally),
        Err(RunFault::Unwritten) => Err(Refusal::Unwritten),
        Err(RunFault::NoMemory) => Err(Refusal::NoMemory),
    }
}

fn plain_of<'s, 'f: 's>(alloc: Global, session: &'s Session<'f>) -> Result<Plain<'s>, NoMemory> {
    Plain::new(alloc, session.schema(), session.survey(), session.lacking())
}

// Where a user vouches for these rules, if one does, and what is told is told in words, if it is.
fn run_in_words<I: Inputs, V: Watch, W: Write>(
    alloc: Global,
    session: &Session<'_>,
    asked: Asked<'_>,
    given: Option<&Vouching>,
    plain: Option<&Plain<'_>>,
    planned: Planned<'_, I>,
    watch: &mut V,
    out: &mut W,
) -> Result<Tally, Refusal>
    ensures told { IfOk result (λ tally. IsToldOf (asked_question (schema_in session.now) asked.entry (option_map (λ v. v.now) given.entry))
        (map (λ n. n.now) planned.entry.names.now) (I.inputs planned.entry.inputs.now) planned.entry.passed_over tally (W.contents out.old) (W.contents out.new)) }
    ensures untouched { IsUntouched result out.old out.new }
{
    let question = Question {
        schema: session.schema(),
        profiles: asked.profiles,
        given,
        plain,
        format: asked.format,
        only_bad: asked.only_bad,
    };
    run_question(alloc, question, planned, watch, out)
}

// Where a user vouches for these rules, if one does. Texts are told in words.
fn run_vouched<I: Inputs, V: Watch, W: Write>(
    alloc: Global,
    session: &Session<'_>,
    asked: Asked<'_>,
    given: Option<&Vouching>,
    planned: Planned<'_, I>,
    watch: &mut V,
    out: &mut W,
) -> Result<Tally, Refusal>
    ensures told { IfOk result (λ tally. IsToldOf (asked_question (schema_in session.now) asked.entry (option_map (λ v. v.now) given.entry))
        (map (λ n. n.now) planned.entry.names.now) (I.inputs planned.entry.inputs.now) planned.entry.passed_over tally (W.contents out.old) (W.contents out.new)) }
    ensures untouched { IsUntouched result out.old out.new }
{
    match asked.format {
        Format::Text => {
            let plain = plain_of(alloc, session)?;
            run_in_words(
                alloc,
                session,
                asked,
                given,
                Some(&plain),
                planned,
                watch,
                out,
            )
        }
        Format::Json => run_in_words(alloc, session, asked, given, None, planned, watch, out),
    }
}

// Where the file of the texts is read, if one is named.
fn run_given<I: Inputs, V: Watch, W: Write, E: Write>(
    alloc: Global,
    session: &Session<'_>,
    asked: Asked<'_>,
    planned: Planned<'_, I>,
    watch: &mut V,
    out: &mut W,
    err: &mut E,
) -> Result<Tally, Refusal>
    ensures told { IfOk result (λ tally. (texts : Option (List Text)) × AreTextsIf (file_seen asked.entry.given) texts
        × IsToldOf (asked_question (schema_in session.now) asked.entry texts) (map (λ n. n.now) planned.entry.names.now)
        (I.inputs planned.entry.inputs.now) planned.entry.passed_over tally (W.contents out.old) (W.contents out.new)) }
    ensures untouched { IsUntouched result out.old out.new }
{
    let Some(file) = asked.given else {
        return run_vouched(alloc, session, asked, None, planned, watch, out);
    };
    let Given { vouching, notes } = vouched(alloc, session, file)?;
    let _ = is_written(err, notes.as_bytes());
    run_vouched(alloc, session, asked, Some(&vouching), planned, watch, out)
}

// Where the profile can be used, and the inputs are planned; else there is the name of the folder that has none.
fn run_planned<I: Inputs, V: Watch, W: Write, E: Write>(
    alloc: Global,
    session: &Session<'_>,
    asked: Asked<'_>,
    planned: Result<Planned<'_, I>, &str>,
    watch: &mut V,
    out: &mut W,
    err: &mut E,
) -> Result<Tally, Refusal>
    ensures told { IfOk result (λ tally. IsOkAnd planned.entry (λ p. (texts : Option (List Text)) × AreTextsIf (file_seen asked.entry.given) texts
        × IsToldOf (asked_question (schema_in session.now) asked.entry texts) (map (λ n. n.now) p.names.now)
        (I.inputs p.inputs.now) p.passed_over tally (W.contents out.old) (W.contents out.new))) }
    ensures untouched { IsUntouched result out.old out.new }
{
    match planned {
        Ok(planned) => run_given(alloc, session, asked, planned, watch, out, err),
        Err(name) => {
            let reply = unreadable_reply(alloc, name)?;
            Err(Refusal::of_reply(alloc, reply))
        }
    }
}

// What is told of a profile that isn't there or can't be used, with a line in plain words where there is more to say.
fn told_in_words(
    alloc: Global,
    session: &Session<'_>,
    mut told: String,
) -> Result<String, NoMemory> {
    let plain = plain_of(alloc, session)?;
    let words = plain.words(alloc, None, "", told.as_str().trim_end())?;
    if !words.is_empty() {
        push_escaped(words.as_str(), &mut told)?;
        told.push_str("\n")?;
    }
    Ok(told)
}

// Why a profile that is asked for isn't there or can't be used, if that is so.
fn refusal_of(
    alloc: Global,
    session: &Session<'_>,
    profiles: Profiles<'_>,
) -> Result<Option<String>, NoMemory>
    ensures { IfOk result (λ r. IfNone r (CanBeUsed (schema_in session.now) (profile_asked profiles.entry))) }
{
    let Profiles::At(url) = profiles else {
        return Ok(None);
    };
    match profile_refusal(alloc, session.schema(), url)? {
        Some(reply) => Ok(Some(told_in_words(alloc, session, fault_told(alloc, reply))?)),
        None => Ok(None),
    }
}

// Where the files are a package.
fn run_package<I: Inputs, V: Watch, W: Write, E: Write>(
    alloc: Global,
    session: &Session<'_>,
    asked: Asked<'_>,
    planned: Result<Planned<'_, I>, &str>,
    watch: &mut V,
    out: &mut W,
    err: &mut E,
) -> Result<Tally, Refusal>
    requires { refusal session.now.survey ≡ None }
    ensures told { IfOk result (λ tally. IsOkAnd planned.entry (λ p. IsToldOfSession session.now asked.entry (map (λ n. n.now) p.names.now)
        (I.inputs p.inputs.now) p.passed_over tally (W.contents out.old) (W.contents out.new))) }
    ensures untouched { IsUntouched result out.old out.new }
{
    match refusal_of(alloc, session, asked.profiles)? {
        Some(told) => Err(Refusal::Fault(told)),
        None => run_planned(alloc, session, asked, planned, watch, out, err),
    }
}

/// Asks of all resources of inputs how they stand with a profile, or with their own, by the definitions of a session. The one refusal
/// beside these is want of memory.
pub(crate) fn run_session<I: Inputs, V: Watch, W: Write, E: Write>(
    alloc: Global,
    session: &Session<'_>,
    asked: Asked<'_>,
    planned: Result<Planned<'_, I>, &str>,
    watch: &mut V,
    out: &mut W,
    err: &mut E,
) -> Result<Tally, Refusal>
    ensures told { IfOk result (λ tally. IsOkAnd planned.entry (λ p. IsToldOfSession session.now asked.entry (map (λ n. n.now) p.names.now)
        (I.inputs p.inputs.now) p.passed_over tally (W.contents out.old) (W.contents out.new))) }
    ensures untouched { IsUntouched result out.old out.new }
{
    match session.package() {
        Ok(_schema) => run_package(alloc, session, asked, planned, watch, out, err),
        Err(fault) => {
            let reply = refused_reply(alloc, fault)?;
            Err(Refusal::of_reply(alloc, reply))
        }
    }
}
