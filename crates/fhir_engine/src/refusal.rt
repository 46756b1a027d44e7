//! Why a run over a folder tells nothing, or not all of it.

ghost use Rattle.std.specs.Prelude.{◌≡◌, Some, IfOk, codes, string_bytes};
ghost use Rattle.fhir_answers.specs.Replying.{reply_seen, fault_text};
ghost use Rattle.fhir_engine.specs.declared.refusal.Refusal.TheVariants as refusals;
ghost use Rattle.fhir_engine.specs.Refusing.{fault_told, refusal_text, refusal_status};

use crate::engine::end_with;
use fhir_answers::{Reply, Status, fault_text};
use fhir_json::NoMemory;
use std::alloc::{AllocError, Global};
use std::io::Write;

/// What is told of a fault; an empty text of another reply. Without memory.
pub fn fault_told(alloc: Global, reply: Reply) -> String
    ensures { string_bytes result ≡ fault_told (reply_seen reply) }
{
    match reply {
        Reply::Fault(text) => text,
        Reply::Answer { .. } | Reply::Noted { .. } => String::new(alloc),
    }
}

/// Why a run tells nothing, or not all of it.
#[derive(Drop)]
pub enum Refusal {
    /// A fault of the input: what is told of it.
    Fault(String),
    /// The output failed.
    Unwritten,
    /// A growth of memory was refused.
    NoMemory,
}

impl From<NoMemory> for Refusal {
    ghost from_gives = { λ _ refusal. refusal ≡ refusals.NoMemory };

    fn from(_error: NoMemory) -> Refusal {
        Refusal::NoMemory
    }
}

impl From<AllocError> for Refusal {
    ghost from_gives = { λ _ refusal. refusal ≡ refusals.NoMemory };

    fn from(_error: AllocError) -> Refusal {
        Refusal::NoMemory
    }
}

impl Refusal {
    /// That a folder of that name can't be listed. The one refusal is want of memory.
    pub fn unlisted(alloc: Global, name: &str) -> Result<Refusal, AllocError>
        ensures { IfOk result (λ refusal. refusal_text refusal ≡ Some (fault_text (codes "P1") name.now)) }
    {
        Ok(Refusal::Fault(fault_text(alloc, "P1", name)?))
    }

    /// The fault that a reply tells, with an empty text for another reply.
    pub fn of_reply(alloc: Global, reply: Reply) -> Refusal
        ensures { refusal_text result ≡ Some (fault_told (reply_seen reply)) }
    {
        Refusal::Fault(fault_told(alloc, reply))
    }

    /// Tells it on standard error, unless the output failed, and gives the status.
    pub fn tell<E: Write>(&self, err: &mut E) -> Status
        ensures { result ≡ refusal_status self.now }
    {
        match self {
            Refusal::Fault(text) => end_with(err, text.as_str(), Status::Fault),
            Refusal::Unwritten => Status::Unwritten,
            Refusal::NoMemory => end_with(err, "no memory\n", Status::NoMemory),
        }
    }
}
