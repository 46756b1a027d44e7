//! From words to what they ask for.

ghost use Rattle.std.specs.Prelude.{◌≡◌, Some, map, string_bytes, IfOk, IfErr};
ghost use Rattle.fhir_words.specs.Requests.{TaskValue};
ghost use Rattle.fhir_words.specs.Words.{plain_task};
ghost use Rattle.fhir_words.specs.Views.{task_seen};

use crate::options::other_task;
use crate::plain::plain_task;
use crate::request::{Task, WordsFault};
use std::alloc::Global;

/// What the words ask for, of which the first is the program's name: `certify PACKAGE CERTIFICATE`, `validate PACKAGE PROFILE RESOURCE`,
/// `validate-given PACKAGE PROFILE RESOURCE FILE`, `snapshot PACKAGE URL`, `derive PACKAGE DERIVED BASE`,
/// `counter PACKAGE DERIVED BASE`, `counter-given PACKAGE DERIVED BASE FILE`,
/// `check PACKAGE [CERTIFICATE] [--only PREFIX].. [--each] [--json]`, `unread PACKAGE [PROFILE]`, `serve PACKAGE`, `serve-given PACKAGE FILE`,
/// `gather OUT FOLDER.. [--each]`, `validate-all PACKAGE PROFILE INPUT.. [--json] [--given FILE] [--only-bad] [--skip-unknown]`,
/// `audit PACKAGE [--json] [--html FILE] [--certificates FOLDER] [--against FOLDER] [--given FILE] [--only PREFIX]..`,
/// `compare OLD NEW [--for readers|writers] [--json]` or `--version`. Words without options are read as they stand, and all others by `clap`.
pub fn task_of<'w>(alloc: Global, words: &'w [String]) -> Result<Task<'w>, WordsFault>
    ensures plain { (task : TaskValue) → plain_task (map string_bytes words.now) ≡ Some task → IfOk result (λ t. task_seen t ≡ task) }
    ensures memory { (task : TaskValue) → plain_task (map string_bytes words.now) ≡ Some task
        → IfErr result (λ fault. fault ≡ WordsFault.NoMemory) }
{
    match plain_task(alloc, words)? {
        Some(task) => Ok(task),
        None => other_task(alloc, words),
    }
}
