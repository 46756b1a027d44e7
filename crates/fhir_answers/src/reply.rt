//! What the program answers.

ghost use Rattle.std.specs.Prelude.{◌≡◌, ◌++◌, IfOk, codes, string_bytes};
ghost use Rattle.fhir_answers.specs.Replying.{reply_seen, answer_noted, fault_text, fault_reply, unreadable_reply};
ghost use Rattle.fhir_answers.specs.Status.{code_of};

use fhir_lines::push_escaped;
use std::alloc::{AllocError, Global};
use std::process::ExitCode;

/// How the program ends.
#[derive(Clone, Copy, Debug, PartialEq, Eq)]
pub enum Status {
    /// 0: yes.
    Yes,
    /// 1: no.
    No,
    /// 2: it hangs on rules that aren't judged.
    Open,
    /// 3: a fault of the input.
    Fault,
    /// 3: an output failed.
    Unwritten,
    /// 4: the words are no request.
    Usage,
    /// 5: a growth of memory was refused.
    NoMemory,
}

impl Status {
    /// The number of the status.
    pub fn code(self) -> u8
        ensures { result ≡ code_of self }
    {
        match self {
            Status::Yes => 0,
            Status::No => 1,
            Status::Open => 2,
            Status::Fault => 3,
            Status::Unwritten => 3,
            Status::Usage => 4,
            Status::NoMemory => 5,
        }
    }
}

impl From<Status> for ExitCode {
    ghost use Rattle.std.specs.Prelude.{◌≡◌};
    ghost use Rattle.std.specs.Process.{exit_status};
    ghost use Rattle.fhir_answers.specs.Status.{code_of};

    ghost from_gives = { λ status code. exit_status code ≡ code_of status };

    fn from(status: Status) -> ExitCode {
        ExitCode::from(status.code())
    }
}

/// What is answered to a request.
#[derive(Drop)]
pub enum Reply {
    /// An answer, which is written to standard output.
    Answer {
        /// The status.
        status: Status,
        /// What is written.
        out: Vec<u8>,
    },
    /// An answer, and what is told on standard error beside it.
    Noted {
        /// The status.
        status: Status,
        /// What is written to standard output.
        out: Vec<u8>,
        /// What is told.
        notes: String,
    },
    /// A fault of the input, which is told on standard error.
    Fault(String),
}

// An answer, and what is told beside it, if anything is.
pub(crate) fn answer_noted(status: Status, out: Vec<u8>, notes: String) -> Reply
    ensures { reply_seen result ≡ answer_noted (string_bytes notes) (code_of status) out.items }
{
    if notes.is_empty() {
        Reply::Answer { status, out }
    } else {
        Reply::Noted { status, out, notes }
    }
}

fn fault_words(alloc: Global, number: &str, subject: &str) -> Result<String, AllocError>
    ensures { IfOk result (λ words. string_bytes words ≡ number.now ++ codes " " ++ subject.now) }
{
    let mut words = String::from_str(alloc, number)?;
    words.push_str(" ")?;
    words.push_str(subject)?;
    Ok(words)
}

/// What is told of a fault of the input: its number, and what it is about, on one line, with control characters escaped. The one refusal is
/// want of memory.
pub fn fault_text(alloc: Global, number: &str, subject: &str) -> Result<String, AllocError>
    ensures { IfOk result (λ text. string_bytes text ≡ fault_text number.now subject.now) }
{
    let words = fault_words(alloc, number, subject)?;
    let mut text = String::new(alloc);
    push_escaped(words.as_str(), &mut text)?;
    text.push_str("\n")?;
    Ok(text)
}

/// A fault of the input: its number, and what it is about. The one refusal is want of memory.
pub fn fault_reply(alloc: Global, number: &str, subject: &str) -> Result<Reply, AllocError>
    ensures { IfOk result (λ r. reply_seen r ≡ fault_reply number.now subject.now) }
{
    Ok(Reply::Fault(fault_text(alloc, number, subject)?))
}

/// That a file of that name can't be read. The one refusal is want of memory.
pub fn unreadable_reply(alloc: Global, name: &str) -> Result<Reply, AllocError>
    ensures { IfOk result (λ r. reply_seen r ≡ unreadable_reply name.now) }
{
    fault_reply(alloc, "read", name)
}
