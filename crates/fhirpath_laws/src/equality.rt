//! Equality of collections (FHIRPath N1, section 6.1).

ghost use Rattle.std.specs.Prelude.{◌≡◌, ◌↔◌, List, [], ◌∷◌, length, true, false, Ok, IsTrue, codes};
ghost use Rattle.fhir_fp_syntax.specs.Expression.{Expression, boolean, call, binary};
ghost use Rattle.fhir_fp_syntax.specs.declared.expr.Function.TheVariants.{Not};
ghost use Rattle.fhir_fp_syntax.specs.declared.expr.Operator.TheVariants.{Equal, NotEqual, Union};
ghost use Rattle.fhir_fp_values.specs.Values.{Plain};
ghost use Rattle.fhir_fp_eval.specs.Worlds.{World};
ghost use Rattle.fhir_fp_eval.specs.Meaning.{den};
ghost use Rattle.fhir_fp_eval.specs.Example.{is, given_by, quoted};
ghost use Rattle.fhirpath_laws.specs.Comparing.{table};
ghost use Rattle.fhirpath_laws.specs.Equality.{are_alike, are_told_apart};

/// Two collections that aren't empty are equal where they have as many values, and each is equal to its fellow (`equal`); so their order counts.
/// They are not equal where their numbers differ (`numbers`), or where they are as many and a value is told from its fellow (`apart`).
/// `a != b` is `(a = b).not()` (`other`).
pub fn equal_collections()
    ensures equal { (w : World) (a b : Expression) (x v u : Plain) (vs us : List Plain) → den w a x ≡ Ok (v ∷ vs) → den w b x ≡ Ok (u ∷ us)
        → (den w (binary Equal a b) x ≡ is true) ↔ ((length vs ≡ length us) × IsTrue (are_alike (v ∷ vs) (u ∷ us))) }
    ensures numbers { (w : World) (a b : Expression) (x v u : Plain) (vs us : List Plain) → den w a x ≡ Ok (v ∷ vs) → den w b x ≡ Ok (u ∷ us)
        → ¬ (length vs ≡ length us) → den w (binary Equal a b) x ≡ is false }
    ensures apart { (w : World) (a b : Expression) (x v u : Plain) (vs us : List Plain) → den w a x ≡ Ok (v ∷ vs) → den w b x ≡ Ok (u ∷ us)
        → IsTrue (are_told_apart (v ∷ vs) (u ∷ us)) → den w (binary Equal a b) x ≡ is false }
    ensures other { (w : World) (a b : Expression) (x : Plain) (vs us : List Plain) → den w a x ≡ Ok vs → den w b x ≡ Ok us
        → den w (binary NotEqual a b) x ≡ den w (call Not (binary Equal a b)) x }
{}

/// The order of values counts (`turned`), and truths are equal to themselves alone (`truths`).
pub fn equality_at_work()
    ensures turned { given_by (binary Equal (binary Union (quoted (codes "a")) (quoted (codes "b")))
        (binary Union (quoted (codes "b")) (quoted (codes "a")))) ≡ is false }
    ensures truths { table Equal (boolean true ∷ boolean false ∷ []) ≡ (is true ∷ is false ∷ []) ∷ (is false ∷ is true ∷ []) ∷ [] }
{}
