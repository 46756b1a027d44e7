//! Replies with the lines on which they are written.

ghost use Rattle.std.specs.Prelude.{◌≡◌, IfOk};
ghost use Rattle.fhir_commands.specs.Replies.{reply_seen, reply_tree, line_of, line_seen};

use fhir_commands::{Line, Reply};
use fhir_json::NoMemory;
use std::alloc::Global;
use std::marker::Model;

/// A reply, with its line.
#[derive(Drop)]
pub(crate) struct WrittenReply {
    reply: Reply,
    line: Line,
}

impl Model for WrittenReply {
    ghost use Rattle.std.specs.Prelude.{◌≡◌};
    ghost use Rattle.fhir_commands.specs.Replies.{ReplyValue, reply_seen, reply_tree, line_of, line_seen};

    ghost Value = { ReplyValue };

    ghost use Rattle.fhir_json.specs.Coding.{tree_code};
    ghost use Rattle.std.specs.Coded.{codes};

    ghost coded = { Prim.hlevel (codes, tree_code) };

    ghost view = { λ w. reply_seen w.reply };

    ghost invariant = { λ w. line_seen w.line ≡ line_of (reply_tree (reply_seen w.reply)) };
}

// The bytes of a line in memory of their own.
fn copied(alloc: Global, line: &Line) -> Result<Line, NoMemory>
    ensures { IfOk result (λ l. line_seen l ≡ line_seen line.now) }
{
    let mut bytes = Vec::new(alloc);
    bytes.extend_from_slice(line.as_bytes())?;
    Ok(Line::Made(bytes))
}

impl WrittenReply {
    /// A copy of a reply, with its line. The one refusal is want of memory.
    pub(crate) fn of(alloc: Global, reply: &Reply) -> Result<WrittenReply, NoMemory>
        ensures { IfOk result (λ w. w ≡ reply_seen reply.now) }
    {
        let line = reply.line(alloc)?;
        Ok(WrittenReply {
            reply: reply.copy(alloc)?,
            line,
        })
    }

    /// The reply, in memory of its own. The one refusal is want of memory.
    pub(crate) fn reply(&self, alloc: Global) -> Result<Reply, NoMemory>
        ensures { IfOk result (λ r. reply_seen r ≡ self.now) }
    {
        self.reply.copy(alloc)
    }

    /// The line, in memory of its own. The one refusal is want of memory.
    pub(crate) fn line(&self, alloc: Global) -> Result<Line, NoMemory>
        ensures { IfOk result (λ l. line_seen l ≡ line_of (reply_tree self.now)) }
    {
        copied(alloc, &self.line)
    }
}
