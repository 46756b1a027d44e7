//! Runs over many resources (docs/USAGE.md, Many resources).

ghost use Rattle.std.specs.Prelude.{◌≡◌, ◌≤◌, ◌∷◌, [], List, length, map, codes};
ghost use Rattle.std.specs.List.{count_by};
ghost use Rattle.fhir_commands.specs.declared.reply.Standing.{Standing};
ghost use Rattle.fhir_words.specs.declared.request.Format.TheVariants.{Text as AsText};
ghost use Rattle.fhir_telling.specs.declared.verdict.LineVerdict.{LineVerdict};
ghost use Rattle.fhir_telling.specs.declared.verdict.LineVerdict.TheVariants.{Empty};
ghost use Rattle.fhir_telling.specs.Verdicts.{verdict_of, worst};
ghost use Rattle.fhir_answers.specs.Status.{code_of, standing_status};
ghost use Rattle.fhir_bulk.specs.Counting.{most};
ghost use Rattle.fhir_bulk.specs.Running.{summary};
ghost use Rattle.fhir_bulk_engine.specs.Ending.{tally_status};
ghost use Rattle.answer_laws.specs.Runs.{tally_of, count_in, is_same, status_said, total};

/// The status of a run: 1 where a resource violates a profile, else 5 where memory was refused, else 3 where something is a fault, else 2 where
/// something is open, and else 0 (`worst`). A line of blanks counts for nothing (`blank`).
pub fn statuses_of_runs()
    ensures worst { (vs : List LineVerdict) → code_of (tally_status (tally_of vs)) ≡ status_said vs }
    ensures blank { (vs : List LineVerdict) → tally_status (tally_of (Empty ∷ vs)) ≡ tally_status (tally_of vs) }
{}

/// A run over one resource has the status that `validate` has (`one`). A resource that is judged by its own profiles is told by the worst of them:
/// that has the status that a run has over each of them on a line of its own (`own`).
pub fn resources_in_runs()
    ensures one { (standing : Standing) → tally_status (tally_of (verdict_of standing ∷ [])) ≡ standing_status standing }
    ensures own { (standings : List Standing)
        → code_of (tally_status (tally_of (map verdict_of standings))) ≡ code_of (standing_status (worst standings)) }
{}

/// The last row says how often each verdict was told, under its name (`shown`, `each`), and the counts sum up to the number of lines (`all`), as long as
/// there are less than 2^64.
pub fn counts_of_runs()
    ensures shown { summary AsText (record { conforms = 1; violates = 2; opens = 3; faults = 4; no_memory = 5; empties = 6 }) 7
        ≡ codes "conforms: 1, violates: 2, open: 3, faults: 4, no memory: 5, empty lines: 6, files passed over: 7\n" }
    ensures each { (v : LineVerdict) (vs : List LineVerdict) → length vs ≤ most → count_in v (tally_of vs) ≡ count_by (is_same v) vs }
    ensures all { (vs : List LineVerdict) → length vs ≤ most → total (tally_of vs) ≡ length vs }
{}
