//! From a text to an expression.

ghost use Rattle.std.specs.Prelude.{IfOk, Some};
ghost use Rattle.fhir_json.specs.Memory.{Gives};
ghost use Rattle.fhir_fp_syntax.specs.Reading.{expression_in};
ghost use Rattle.fhir_fp_syntax.specs.Views.{parsed_seen, IsRead};
ghost use Rattle.fhir_fp_syntax.specs.Expression.{Expression};
ghost use Rattle.fhir_fp_syntax.specs.Tokens.{IsWritten};

use crate::expr::Expr;
use crate::reader::read;
use crate::token::Stop;
use fhir_json::NoMemory;
use std::alloc::Global;

/// What a text is.
#[derive(Drop)]
pub enum Parsed {
    /// An expression.
    Read(Expr),
    /// No expression of the part of FHIRPath that is read here, or one beyond the limits.
    Unread,
}

/// The expression that a text is written for (FHIRPath N1, Grammar), as far as it is read here and within the limits: 64
/// parentheses and brackets open in one another, those of functions counted, and 4,096 tokens.
///
/// The one error is want of memory; a text that is not read is `Parsed::Unread`.
pub fn parse(alloc: Global, text: &str) -> Result<Parsed, NoMemory>
    // What is read is what the text is written for.
    ensures found { IfOk result (λ parsed. IsRead parsed text.now) }
    // What the text is written for is read, unless memory runs out.
    ensures only { (e : Expression) → IsWritten e text.now → Gives parsed_seen result (Some e) }
    ensures exact { Gives parsed_seen result (expression_in text.now) }
{
    match read(alloc, text) {
        Ok(e) => Ok(Parsed::Read(e)),
        Err(Stop::Unread) => Ok(Parsed::Unread),
        Err(Stop::NoMemory) => Err(NoMemory),
    }
}
