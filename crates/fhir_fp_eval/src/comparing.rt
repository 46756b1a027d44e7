//! The order of two results (FHIRPath N1, section 6.2).

ghost use Rattle.std.specs.Prelude.{◌≡◌, Ok};
ghost use Rattle.fhir_json.specs.Memory.{GivesOr};
ghost use Rattle.fhir_fp_values.specs.Faults.{is_no_memory};
ghost use Rattle.fhir_fp_values.specs.Views.{plains_of};
ghost use Rattle.fhir_fp_eval.specs.Meaning.{order_between};

use fhir_fp_values::{EvalFault, Value, order_of};
use fhir_schema::Schema;
use std::alloc::Global;
use std::cmp::Ordering;

/// The order of the one value of the left and that of the right; none where a side is empty.
pub(crate) fn order_between(
    alloc: Global,
    schema: &Schema,
    left: &[Value<'_, '_, '_>],
    right: &[Value<'_, '_, '_>],
) -> Result<Option<Ordering>, EvalFault>
    ensures { GivesOr is_no_memory (λ o. o) result (order_between schema.now (plains_of left.now) (plains_of right.now)) }
{
    match (left, right) {
        ([], _) => Ok(None),
        (_, []) => Ok(None),
        ([left], [right]) => order_of(alloc, schema, *left, *right),
        _ => Err(EvalFault::Several),
    }
}
