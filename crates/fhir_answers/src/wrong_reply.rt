//! What is printed of a certificate's answer.

ghost use Rattle.std.specs.Prelude.{◌≡◌, IfOk, string_bytes};
ghost use Rattle.fhir_cert_check.specs.Views.{rule_name, wrong_in};
ghost use Rattle.fhir_answers.specs.WrongText.{wrong_text};
ghost use Rattle.fhir_answers.specs.Replying.{reply_seen, wrong_reply};

use crate::reply::{Reply, Status};
use fhir_cert_check::{Answer, Rule, rule_text};
use fhir_certificate::Pair;
use fhir_lines::push_escaped;
use fhir_report::no_text;
use fhir_schema::Schema;
use std::alloc::{AllocError, Global};

/// What is printed of a pair that fails a rule: a line, whatever texts the package has.
pub(crate) fn wrong_text(
    alloc: Global,
    schema: &Schema,
    pair: Pair,
    rule: Rule<'_>,
) -> Result<String, AllocError>
    ensures { IfOk result (λ text. string_bytes text ≡ wrong_text schema.now pair (rule_name rule.entry)) }
{
    let rule = rule_text(alloc, rule)?;
    let words = no_text(alloc, schema, pair, rule.as_str())?;
    let mut text = String::new(alloc);
    push_escaped(words.as_str(), &mut text)?;
    text.push_str("\n")?;
    Ok(text)
}

/// What is answered to a certificate that was checked: what is wrong with it, if anything.
pub(crate) fn wrong_reply(
    alloc: Global,
    schema: &Schema,
    answer: Answer<'_>,
) -> Result<Reply, AllocError>
    ensures { IfOk result (λ r. reply_seen r ≡ wrong_reply schema.now (wrong_in answer.entry)) }
{
    match answer {
        Answer::Yes => Ok(Reply::Answer {
            status: Status::Yes,
            out: String::from_str(alloc, "yes\n")?.into_bytes(),
        }),
        Answer::No(pair, rule) => Ok(Reply::Answer {
            status: Status::No,
            out: wrong_text(alloc, schema, pair, rule)?.into_bytes(),
        }),
    }
}
