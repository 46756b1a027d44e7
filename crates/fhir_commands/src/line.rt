//! Lines that are written.

ghost use Rattle.std.specs.Prelude.{◌≡◌, codes};
ghost use Rattle.fhir_commands.specs.declared.reply.PutAnswer.TheVariants as puts;
ghost use Rattle.fhir_commands.specs.declared.reply.RemoveAnswer.TheVariants as removes;
ghost use Rattle.fhir_commands.specs.Replies.{put, remove, derive, missing, unusable, reply_tree, fault_tree, line_of, line_seen};

/// A line that is written, with its line feed.
#[derive(Drop)]
pub enum Line {
    /// One that needs no memory.
    Fixed(&'static str),
    /// One that was made.
    Made(Vec<u8>),
}

impl Line {
    /// Its bytes.
    pub fn as_bytes(&self) -> &[u8]
        ensures { result.now ≡ line_seen self.now }
    {
        match self {
            Line::Fixed(text) => text.as_bytes(),
            Line::Made(bytes) => bytes,
        }
    }
}

/// The line that answers one that is no command.
pub const LINE_FAULT: &str = "{\"fault\":\"line\"}\n";

/// The line that answers a command for which memory ran out.
pub const MEMORY_FAULT: &str = "{\"fault\":\"memory\"}\n";

pub(crate) const PUT_DONE: &str = "{\"put\":\"done\"}\n";

pub(crate) const PUT_NO_DEFINITION: &str = "{\"put\":\"G1\"}\n";

pub(crate) const PUT_TWICE: &str = "{\"put\":\"G2\"}\n";

pub(crate) const REMOVE_DONE: &str = "{\"remove\":\"done\"}\n";

pub(crate) const REMOVE_ABSENT: &str = "{\"remove\":\"absent\"}\n";

pub(crate) const DERIVE_MISSING: &str = "{\"derive\":\"D1\"}\n";

pub(crate) const DERIVE_UNUSABLE: &str = "{\"derive\":\"D2\"}\n";

/// The lines that are always the same: those that answer what is no command (`line`) and a command for which memory ran out (`memory`),
/// the replies to commands that change definitions, and the refusals of those that derive.
pub fn fixed_lines()
    ensures line { LINE_FAULT.now ≡ line_of (fault_tree (codes "line")) }
    ensures memory { MEMORY_FAULT.now ≡ line_of (fault_tree (codes "memory")) }
    ensures put_done { PUT_DONE.now ≡ line_of (reply_tree (put puts.Done)) }
    ensures put_no_definition { PUT_NO_DEFINITION.now ≡ line_of (reply_tree (put puts.NoDefinition)) }
    ensures put_twice { PUT_TWICE.now ≡ line_of (reply_tree (put puts.Twice)) }
    ensures remove_done { REMOVE_DONE.now ≡ line_of (reply_tree (remove removes.Done)) }
    ensures remove_absent { REMOVE_ABSENT.now ≡ line_of (reply_tree (remove removes.Absent)) }
    ensures derive_missing { DERIVE_MISSING.now ≡ line_of (reply_tree (derive missing)) }
    ensures derive_unusable { DERIVE_UNUSABLE.now ≡ line_of (reply_tree (derive unusable)) }
{}
