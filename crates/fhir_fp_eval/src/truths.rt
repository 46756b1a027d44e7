//! The truth of a result (FHIRPath N1, section 4.5).

ghost use Rattle.std.specs.Prelude.{◌≡◌, option_map};
ghost use Rattle.fhir_json.specs.Memory.{GivesOr};
ghost use Rattle.fhir_fp_values.specs.Faults.{is_no_memory};
ghost use Rattle.fhir_fp_values.specs.Views.{plains_of, system_value_seen};
ghost use Rattle.fhir_fp_eval.specs.Meaning.{truth_in, truth_of};

use fhir_fp_values::{EvalFault, SystemValue, Value, system_value_of};

pub(crate) fn truth_in(said: Option<SystemValue<'_>>) -> bool
    ensures { result ≡ truth_in (option_map system_value_seen said.entry) }
{
    match said {
        Some(SystemValue::Boolean(flag)) => flag,
        _ => true,
    }
}

/// The truth of a result where a boolean is wanted.
pub(crate) fn truth_of(values: &[Value<'_, '_, '_>]) -> Result<Option<bool>, EvalFault>
    ensures { GivesOr is_no_memory (λ p. p) result (truth_of (plains_of values.now)) }
{
    match values {
        [] => Ok(None),
        [value] => Ok(Some(truth_in(system_value_of(*value)))),
        _ => Err(EvalFault::Several),
    }
}
