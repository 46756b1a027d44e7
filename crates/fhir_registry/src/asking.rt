//! How questions are answered by the definitions, and what is kept of that.

ghost use Rattle.std.specs.Prelude.{◌≡◌, ◌⊎◌, ◌∷◌, [], true, false, IfOk, OnOk, OnErr, option_copied, slice_get, IsSomeAnd};
ghost use Rattle.fhir_reach.specs.Keys.{of_url, keys_seen, same_keys};
ghost use Rattle.fhir_reach.specs.Search.{reached};
ghost use Rattle.fhir_commands.specs.Commands.{validate, question_seen};
ghost use Rattle.fhir_commands.specs.Replies.{reply_seen, refuses};
ghost use Rattle.fhir_registry.specs.Session.{starts, ends, starts_by, reach_of, IsReplyBy};
ghost use Rattle.fhir_registry.specs.Sound.{IsAnswerBy, IsRightFor, AreRightSchemas, AreRightReplies, KeepsNew};

use crate::replies::{Replies, keep};
use crate::schemas::{Schemas, hold};
use fhir_commands::{Question, Reply};
use fhir_json::{Json, JsonFault, NoMemory, read};
use fhir_package::Package;
use fhir_reach::{Key, starts_of};
use fhir_replies::{derive_answer, judge, judge_given};
use fhir_schema::Schema;
use fhir_vouching::Vouching;
use std::alloc::Global;

// The keys with which the validation of the resource that bytes are begins.
fn starts(alloc: Global, profile: &str, bytes: &[u8]) -> Result<Vec<Key>, NoMemory>
    ensures { IfOk result (λ keys. keys_seen keys.items ≡ starts profile.now bytes.now) }
{
    match read(alloc, bytes) {
        Ok(resource) => starts_of(alloc, profile, &resource),
        Err(JsonFault::NoMemory) => Err(NoMemory),
        Err(_) => starts_of(alloc, profile, &Json::Null),
    }
}

// The keys with which the derivation between two profiles begins.
fn ends(alloc: Global, derived: &str, base: &str) -> Result<Vec<Key>, NoMemory>
    ensures { IfOk result (λ keys. keys_seen keys.items ≡ ends derived.now base.now) }
{
    let derived = String::from_str(alloc, derived)?;
    let base = String::from_str(alloc, base)?;
    Ok(vec![in alloc; Key::Url(derived), Key::Url(base)]?)
}

fn starts_by(alloc: Global, question: &Question) -> Result<Vec<Key>, NoMemory>
    ensures { IfOk result (λ keys. keys_seen keys.items ≡ starts_by (question_seen question.now)) }
{
    match question {
        Question::Validate { profile, resource } => starts(alloc, profile.as_str(), resource),
        Question::Derive { derived, base } => ends(alloc, derived.as_str(), base.as_str()),
    }
}

fn judgement(
    alloc: Global,
    schema: &Schema,
    given: Option<&Vouching>,
    profile: &str,
    bytes: &[u8],
) -> Result<Reply, NoMemory>
    ensures { IfOk result (λ r. IsAnswerBy (option_copied given.entry) schema.now (validate profile.now bytes.now) (reply_seen r)) }
{
    let (standing, outcome) = match given {
        Some(given) => judge_given(alloc, schema, profile, bytes, given)?,
        None => judge(alloc, schema, profile, bytes)?,
    };
    Ok(Reply::Validate(standing, outcome))
}

fn answer(
    alloc: Global,
    schema: &Schema,
    given: Option<&Vouching>,
    question: &Question,
) -> Result<Reply, NoMemory>
    ensures { IfOk result (λ r. IsAnswerBy (option_copied given.entry) schema.now (question_seen question.now) (reply_seen r)) }
{
    match question {
        Question::Validate { profile, resource } => {
            judgement(alloc, schema, given, profile.as_str(), resource)
        }
        Question::Derive { derived, base } => {
            let answer = derive_answer(alloc, schema, derived.as_str(), base.as_str())?;
            Ok(Reply::Derive(answer))
        }
    }
}

// The reply by the schema that is kept as the last used, which is kept too unless it is a refusal.
fn answer_first(
    alloc: Global,
    schemas: &Schemas,
    replies: &mut Replies,
    given: Option<&Vouching>,
    question: Question,
) -> Result<Reply, NoMemory>
    requires { IsSomeAnd (slice_get schemas.now.entries 0) (λ e. Unit {0}) }
    ensures answered { IfOk result (λ r. IsSomeAnd (slice_get schemas.now.entries 0)
        (λ e. IsAnswerBy (option_copied given.entry) e.1.value (question_seen question) (reply_seen r)
        × KeepsNew question (reply_seen r) e.1.keys replies.old replies.new)) }
    ensures unchanged { OnErr result (replies.new ≡ replies.old) }
{
    let Some((_, kept)) = schemas.peek_mru() else {
        unreachable!();
    };
    let reply = answer(alloc, kept.value.get(), given, &question)?;
    if !reply.is_refusal() {
        keep(alloc, replies, question, &reply, &kept.keys);
    }
    Ok(reply)
}

/// The reply to a question by the definitions, from a schema that is kept or a new one. The schema is kept then, and so is the reply, but for a
/// refusal and where memory for it is refused.
pub(crate) fn compute(
    alloc: Global,
    schemas: &mut Schemas,
    replies: &mut Replies,
    definitions: &Package<'_>,
    given: Option<&Vouching>,
    question: Question,
) -> Result<Reply, NoMemory>
    requires { AreRightSchemas definitions.now schemas.old }
    ensures told { IfOk result (λ r. IsReplyBy (option_copied given.entry) definitions.now (question_seen question) (reply_seen r)) }
    ensures kept { IfOk result (λ r. (keys : _) × (same_keys keys (reach_of definitions.now (question_seen question)) ≡ true)
        × KeepsNew question (reply_seen r) keys replies.old replies.new) }
    ensures unchanged { OnErr result (replies.new ≡ replies.old) }
    ensures right { AreRightSchemas definitions.now schemas.new }
    ensures cap { schemas.new.cap ≡ schemas.old.cap }
{
    let start = starts_by(alloc, &question)?;
    hold(alloc, schemas, definitions, start)?;
    answer_first(alloc, schemas, replies, given, question)
}
