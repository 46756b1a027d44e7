//! Whether a value is in a list (FHIRPath N1, section 6.4).

ghost use Rattle.std.specs.Prelude.{◌≡◌};
ghost use Rattle.fhir_json.specs.Memory.{GivesOr};
ghost use Rattle.fhir_fp_values.specs.Faults.{is_no_memory};
ghost use Rattle.fhir_fp_values.specs.Views.{plains_of};
ghost use Rattle.fhir_fp_eval.specs.Meaning.{member_of};

use crate::lists::single;
use fhir_fp_values::{EvalFault, Value, is_among};
use std::alloc::Global;

/// Whether the one value of the left is in the right.
pub(crate) fn member_of<'e, 'a, 'j>(
    alloc: Global,
    left: &[Value<'e, 'a, 'j>],
    right: &[Value<'e, 'a, 'j>],
) -> Result<Vec<Value<'e, 'a, 'j>>, EvalFault>
    ensures { GivesOr is_no_memory (λ v. plains_of v.items) result (member_of (plains_of left.now) (plains_of right.now)) }
{
    match left {
        [] => Ok(Vec::new(alloc)),
        [value] => single(alloc, Value::Truth(is_among(alloc, right, *value)?)),
        _ => Err(EvalFault::Several),
    }
}
