//! Collections of values (FHIRPath N1, sections 5 and 6).

ghost use Rattle.std.specs.Prelude.{◌≡◌, ◌⊎◌, ℕ, List, [], ◌∷◌, ◌++◌, Ok, IsTrue, false};
ghost use Rattle.std.specs.List.{Contains, filter, slice_get};
ghost use Rattle.std.specs.Option.{option_to_list};
ghost use Rattle.fhir_json.specs.Tree.{Text};
ghost use Rattle.fhir_decimal.specs.Whole.{count};
ghost use Rattle.fhir_fp_syntax.specs.Expression.{Expression, call, typed, binary};
ghost use Rattle.fhir_fp_syntax.specs.declared.expr.Function.TheVariants.{First};
ghost use Rattle.fhir_fp_syntax.specs.declared.expr.Operator.TheVariants.{Union, Intersect, Index, Equal, NotEqual, In};
ghost use Rattle.fhir_fp_syntax.specs.declared.expr.TypeTest.TheVariants.{Is};
ghost use Rattle.fhir_fp_values.specs.Values.{Plain, number, truth};
ghost use Rattle.fhir_fp_eval.specs.Worlds.{World};
ghost use Rattle.fhir_fp_values.specs.Equality.{has};
ghost use Rattle.fhir_fp_values.specs.Sets.{joined};
ghost use Rattle.fhir_fp_eval.specs.Meaning.{den};

/// `a | b` gives the values of both, each once (`values`). Of a list each once are values of that list (`some`), of which no one is equal
/// to one before it (`once`); and each value of the list is there, or one that is equal to it (`each`).
pub fn united_values()
    ensures values { (w : World) (a b : Expression) (x : Plain) (vs us : List Plain) → den w a x ≡ Ok vs → den w b x ≡ Ok us
        → den w (binary Union a b) x ≡ Ok (joined [] (vs ++ us)) }
    ensures some { (vs : List Plain) (v : Plain) → Contains (joined [] vs) v → Contains vs v }
    ensures once { (vs front back : List Plain) (v : Plain) → joined [] vs ≡ front ++ v ∷ back → has front v ≡ false }
    ensures each { (vs : List Plain) (v : Plain) → Contains vs v → Contains (joined [] vs) v ⊎ IsTrue (has (joined [] vs) v) }
{}

/// `a.intersect(b)` gives the values of a that b has, each once.
pub fn shared_values()
    ensures { (w : World) (a b : Expression) (x : Plain) (vs us : List Plain) → den w a x ≡ Ok vs → den w b x ≡ Ok us
        → den w (binary Intersect a b) x ≡ Ok (joined [] (filter (has us) vs)) }
{}

/// `a[i]` gives the value at the place i, counted from 0, and none where there is no such place.
pub fn positions()
    ensures { (w : World) (a b : Expression) (x : Plain) (vs : List Plain) (i : ℕ) → den w a x ≡ Ok vs
        → den w b x ≡ Ok (number (count i) ∷ []) → den w (binary Index a b) x ≡ Ok (option_to_list (slice_get vs i)) }
{}

/// `a.first()` gives the first value of a, and nothing where a gives nothing (FHIRPath N1, section 5.3).
pub fn first_values()
    ensures first { (w : World) (a : Expression) (x v : Plain) (vs : List Plain) → den w a x ≡ Ok (v ∷ vs)
        → den w (call First a) x ≡ Ok (v ∷ []) }
    ensures nothing { (w : World) (a : Expression) (x : Plain) → den w a x ≡ Ok [] → den w (call First a) x ≡ Ok [] }
{}

/// `a = b` and `a != b` give nothing where either side gives nothing (FHIRPath N1, section 6.1).
pub fn equality_of_nothing()
    ensures equal_left { (w : World) (a b : Expression) (x : Plain) (us : List Plain) → den w a x ≡ Ok [] → den w b x ≡ Ok us
        → den w (binary Equal a b) x ≡ Ok [] }
    ensures equal_right { (w : World) (a b : Expression) (x : Plain) (vs : List Plain) → den w a x ≡ Ok vs → den w b x ≡ Ok []
        → den w (binary Equal a b) x ≡ Ok [] }
    ensures other_left { (w : World) (a b : Expression) (x : Plain) (us : List Plain) → den w a x ≡ Ok [] → den w b x ≡ Ok us
        → den w (binary NotEqual a b) x ≡ Ok [] }
    ensures other_right { (w : World) (a b : Expression) (x : Plain) (vs : List Plain) → den w a x ≡ Ok vs → den w b x ≡ Ok []
        → den w (binary NotEqual a b) x ≡ Ok [] }
{}

/// `a in b` says of a's one value whether b has it, so that it is false where b gives nothing; and it gives nothing where a does
/// (FHIRPath N1, section 6.4).
pub fn membership()
    ensures one { (w : World) (a b : Expression) (x v : Plain) (us : List Plain) → den w a x ≡ Ok (v ∷ []) → den w b x ≡ Ok us
        → den w (binary In a b) x ≡ Ok (truth (has us v) ∷ []) }
    ensures nothing { (w : World) (a b : Expression) (x : Plain) (us : List Plain) → den w a x ≡ Ok [] → den w b x ≡ Ok us
        → den w (binary In a b) x ≡ Ok [] }
{}

/// `a is T` gives nothing where a gives nothing (FHIRPath N1, section 6.3).
pub fn type_of_nothing()
    ensures { (w : World) (a : Expression) (x : Plain) (type : Text) → den w a x ≡ Ok [] → den w (typed Is a type) x ≡ Ok [] }
{}
