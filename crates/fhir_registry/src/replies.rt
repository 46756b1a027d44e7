//! The replies that a registry keeps.

ghost use Rattle.std.specs.Prelude.{◌≡◌, ◌⊎◌, false, IfOk, OnOk, OnErr, option_map, option_copied};
ghost use Rattle.std.specs.Map.{lookup};
ghost use Rattle.lru.specs.LruCache.{lru_cache, promoted, put_entries};
ghost use Rattle.fhir_commands.specs.Commands.{asks_same, question_seen};
ghost use Rattle.fhir_commands.specs.Replies.{reply_seen, reply_tree, line_of, line_seen};
ghost use Rattle.fhir_registry.specs.Sound.{AddsReply};

use crate::kept::Kept;
use crate::shared::Shared;
use crate::written::WrittenReply;
use fhir_commands::{Line, Question, Reply, equal_questions};
use fhir_json::NoMemory;
use fhir_reach::KeySet;
use lru::LruCache;
use std::alloc::Global;

/// Replies, each under its question.
pub(crate) type Replies = LruCache<Question, Kept<WrittenReply>>;

fn reply_of(alloc: Global, kept: Option<&Kept<WrittenReply>>) -> Result<Option<Reply>, NoMemory>
    ensures { IfOk result (λ found. option_map reply_seen found ≡ option_map (λ k. k.value) (option_copied kept.entry)) }
{
    match kept {
        Some(kept) => Ok(Some(kept.value.reply(alloc)?)),
        None => Ok(None),
    }
}

fn line_of(alloc: Global, kept: Option<&Kept<WrittenReply>>) -> Result<Option<Line>, NoMemory>
    ensures { IfOk result (λ found. option_map line_seen found ≡ option_map (λ k. line_of (reply_tree k.value)) (option_copied kept.entry)) }
{
    match kept {
        Some(kept) => Ok(Some(kept.value.line(alloc)?)),
        None => Ok(None),
    }
}

/// The reply that is kept to a question, which is then the last used.
pub(crate) fn recall(
    alloc: Global,
    replies: &mut Replies,
    question: &Question,
) -> Result<Option<Reply>, NoMemory>
    ensures found { IfOk result (λ found. option_map reply_seen found
        ≡ option_map (λ k. k.value) (lookup (λ q. asks_same (question_seen question.now) (question_seen q)) replies.old.entries)) }
    ensures promoted { OnOk result (replies.new
        ≡ lru_cache (promoted (λ q. asks_same (question_seen question.now) (question_seen q)) replies.old.entries) replies.old.cap) }
    ensures unchanged { OnErr result (replies.new ≡ replies.old) }
{
    equal_questions();
    let found = reply_of(alloc, replies.peek(question))?;
    replies.promote(question);
    Ok(found)
}

/// The line of the reply that is kept to a question, which is then the last used.
pub(crate) fn recall_line(
    alloc: Global,
    replies: &mut Replies,
    question: &Question,
) -> Result<Option<Line>, NoMemory>
    ensures found { IfOk result (λ found. option_map line_seen found
        ≡ option_map (λ k. line_of (reply_tree k.value)) (lookup (λ q. asks_same (question_seen question.now) (question_seen q)) replies.old.entries)) }
    ensures promoted { OnOk result (replies.new
        ≡ lru_cache (promoted (λ q. asks_same (question_seen question.now) (question_seen q)) replies.old.entries) replies.old.cap) }
    ensures unchanged { OnErr result (replies.new ≡ replies.old) }
{
    equal_questions();
    let found = line_of(alloc, replies.peek(question))?;
    replies.promote(question);
    Ok(found)
}

fn kept_of(
    alloc: Global,
    reply: &Reply,
    keys: &Shared<KeySet>,
) -> Result<Kept<WrittenReply>, NoMemory>
    ensures reply { IfOk result (λ kept. kept.value ≡ reply_seen reply.now) }
    ensures keys { IfOk result (λ kept. kept.keys ≡ keys.now) }
{
    Ok(Kept {
        value: WrittenReply::of(alloc, reply)?,
        keys: keys.share()?,
    })
}

/// Keeps a reply to a question with the keys that it reaches, unless memory for that is refused.
pub(crate) fn keep(
    alloc: Global,
    replies: &mut Replies,
    question: Question,
    reply: &Reply,
    keys: &Shared<KeySet>,
)
    ensures { AddsReply question (reply_seen reply.now) keys.now replies.old replies.new }
{
    equal_questions();
    if let Ok(kept) = kept_of(alloc, reply, keys) {
        let _ = replies.put(question, kept);
    }
}
