//! Laws: what a verdict on a line says of its resource.

ghost use Rattle.std.specs.Prelude.{◌≡◌, ℕ, List, None, Some, All};
ghost use Rattle.std.specs.List.{Contains};
ghost use Rattle.fhir_json.specs.Grammar.{Reads};
ghost use Rattle.fhir_json.specs.Tree.{Text, Tree};
ghost use Rattle.fhir_replies.specs.Standing.{AlwaysConforms, NeverConforms, ConformsAsGiven};
ghost use Rattle.fhir_inputs.specs.declared.input.Kind.{Kind};
ghost use Rattle.fhir_telling.specs.declared.verdict.LineVerdict.TheVariants as verdicts;
ghost use Rattle.fhir_telling.specs.Judgements.{ToldValue};
ghost use Rattle.fhir_telling.specs.Questions.{QuestionValue, profiles_for};
ghost use Rattle.fhir_telling.specs.Telling.{IsTold};

/// What is told of a line holds of its resource: one that is told to conform does to each profile that it is judged by, whatever unread
/// rules mean, and its constraints are true (`always`); where a user vouches for unread rules, it does as these hold (`given`); and one
/// that is told to violate doesn't conform to one of them, whatever unread rules mean (`never`).
pub fn told_lines()
    ensures always { (q : QuestionValue) (kind : Kind) (line : List ℕ) (told : ToldValue) → IsTold q kind line told → told.verdict ≡ verdicts.Conforms
        → q.texts ≡ None → (t : Tree) × Reads line t × All (λ profile. AlwaysConforms q.schema profile line) (profiles_for q t) }
    ensures given { (q : QuestionValue) (kind : Kind) (line : List ℕ) (told : ToldValue) (texts : List Text) → IsTold q kind line told
        → told.verdict ≡ verdicts.Conforms → q.texts ≡ Some texts
        → (t : Tree) × Reads line t × All (λ profile. ConformsAsGiven q.schema texts profile line) (profiles_for q t) }
    ensures never { (q : QuestionValue) (kind : Kind) (line : List ℕ) (told : ToldValue) → IsTold q kind line told → told.verdict ≡ verdicts.Violates
        → (t : Tree) × Reads line t × (profile : Text) × Contains (profiles_for q t) profile × NeverConforms q.schema profile line }
{}
