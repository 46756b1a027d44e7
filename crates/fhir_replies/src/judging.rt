//! How resources are judged.

ghost use Rattle.std.specs.Prelude.{◌≡◌, IfOk};
ghost use Rattle.fhir_json.specs.Views.{tree_of};
ghost use Rattle.fhir_replies.specs.Judging.{standing_of, IsJudged, standing_given, IsJudgedAsGiven};

use crate::outcomes::{outcome, outcome_given};
use fhir_commands::Standing;
use fhir_json::{Json, NoMemory};
use fhir_schema::Schema;
use fhir_validator::{Fault, Verdict, Vouched, validate, validate_given};
use fhir_vouching::Vouching;
use std::alloc::Global;

fn standing_of(validated: &Result<Verdict<'_>, Fault>) -> Standing
    ensures { result ≡ standing_of validated.now }
{
    match validated {
        Ok(Verdict::Conforms) => Standing::Conforms,
        Ok(Verdict::Violates(_)) => Standing::Violates,
        Ok(Verdict::Open(_)) => Standing::Open,
        Err(_) => Standing::Fault,
    }
}

/// How the resource that bytes are stands with the profile at a url, by a schema, and the OperationOutcome that says so. The one refusal
/// is want of memory.
pub fn judge(
    alloc: Global,
    schema: &Schema,
    profile: &str,
    bytes: &[u8],
) -> Result<(Standing, Json<'static>), NoMemory>
    ensures { IfOk result (λ j. IsJudged schema.now profile.now bytes.now j.0 (tree_of j.1)) }
{
    let validated = validate(alloc, schema, profile, bytes);
    let outcome = outcome(alloc, profile, &validated)?;
    Ok((standing_of(&validated), outcome))
}

fn standing_given(validated: &Result<Vouched<'_>, Fault>) -> Standing
    ensures { result ≡ standing_given validated.now }
{
    match validated {
        Ok(Vouched::Conforms(_)) => Standing::Conforms,
        Ok(Vouched::Violates(_)) => Standing::Violates,
        Ok(Vouched::Open(_)) => Standing::Open,
        Err(_) => Standing::Fault,
    }
}

/// The same where a user vouches for unread rules by their texts. Where the resource conforms as these hold, the outcome names those on
/// which that rests. The one refusal is want of memory.
pub fn judge_given(
    alloc: Global,
    schema: &Schema,
    profile: &str,
    bytes: &[u8],
    given: &Vouching,
) -> Result<(Standing, Json<'static>), NoMemory>
    ensures { IfOk result (λ j. IsJudgedAsGiven schema.now given.now profile.now bytes.now j.0 (tree_of j.1)) }
{
    let validated = validate_given(alloc, schema, profile, bytes, given);
    let outcome = outcome_given(alloc, profile, &validated)?;
    Ok((standing_given(&validated), outcome))
}
