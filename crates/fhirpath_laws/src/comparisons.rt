//! The order of values (FHIRPath N1, section 6.2).

ghost use Rattle.std.specs.Prelude.{◌≡◌, List, [], ◌∷◌, true, false, None, Some, Ok, Err, IsTrue, codes};
ghost use Rattle.std.specs.Ordering.{is_lt, is_le, is_gt, is_ge};
ghost use Rattle.std.specs.declared.cmp.Ordering.{Ordering};
ghost use Rattle.fhir_instance.specs.Items.{no_kids};
ghost use Rattle.fhir_fp_syntax.specs.Expression.{Expression, binary};
ghost use Rattle.fhir_fp_syntax.specs.declared.expr.Operator.{Operator};
ghost use Rattle.fhir_fp_syntax.specs.declared.expr.Operator.TheVariants.{Less, LessOrEqual, Greater, GreaterOrEqual};
ghost use Rattle.fhir_fp_values.specs.declared.fault.EvalFault.TheVariants.{Several};
ghost use Rattle.fhir_fp_values.specs.Values.{Plain, truth};
ghost use Rattle.fhir_fp_eval.specs.Worlds.{World};
ghost use Rattle.fhir_fp_values.specs.Comparing.{order_of};
ghost use Rattle.fhir_fp_eval.specs.Meaning.{den};
ghost use Rattle.fhir_fp_eval.specs.Example.{is, none, between, digits, quoted};
ghost use Rattle.fhirpath_laws.specs.Comparing.{is_comparison, table, part, amount_of};

/// `<`, `<=`, `>` and `>=` of each of two numbers with each, and of each of two texts.
pub fn tables_of_order()
    ensures less { table Less (digits (codes "1") ∷ digits (codes "2") ∷ []) ≡ (is false ∷ is true ∷ []) ∷ (is false ∷ is false ∷ []) ∷ [] }
    ensures at_most { table LessOrEqual (digits (codes "1") ∷ digits (codes "2") ∷ []) ≡ (is true ∷ is true ∷ []) ∷ (is false ∷ is true ∷ []) ∷ [] }
    ensures greater { table Greater (digits (codes "1") ∷ digits (codes "2") ∷ []) ≡ (is false ∷ is false ∷ []) ∷ (is true ∷ is false ∷ []) ∷ [] }
    ensures at_least { table GreaterOrEqual (digits (codes "1") ∷ digits (codes "2") ∷ [])
        ≡ (is true ∷ is false ∷ []) ∷ (is true ∷ is true ∷ []) ∷ [] }
    ensures texts { table Less (quoted (codes "a") ∷ quoted (codes "b") ∷ []) ≡ (is false ∷ is true ∷ []) ∷ (is false ∷ is false ∷ []) ∷ [] }
{}

/// Of two single values the four operators say how the one stands to the other in the order, and nothing where these have none.
pub fn comparisons_by_order()
    ensures less { (w : World) (a b : Expression) (x v u : Plain) (order : Ordering) → den w a x ≡ Ok (v ∷ []) → den w b x ≡ Ok (u ∷ [])
        → order_of w.schema v u ≡ Ok (Some order) → den w (binary Less a b) x ≡ Ok (truth (is_lt order) ∷ []) }
    ensures at_most { (w : World) (a b : Expression) (x v u : Plain) (order : Ordering) → den w a x ≡ Ok (v ∷ []) → den w b x ≡ Ok (u ∷ [])
        → order_of w.schema v u ≡ Ok (Some order) → den w (binary LessOrEqual a b) x ≡ Ok (truth (is_le order) ∷ []) }
    ensures greater { (w : World) (a b : Expression) (x v u : Plain) (order : Ordering) → den w a x ≡ Ok (v ∷ []) → den w b x ≡ Ok (u ∷ [])
        → order_of w.schema v u ≡ Ok (Some order) → den w (binary Greater a b) x ≡ Ok (truth (is_gt order) ∷ []) }
    ensures at_least { (w : World) (a b : Expression) (x v u : Plain) (order : Ordering) → den w a x ≡ Ok (v ∷ []) → den w b x ≡ Ok (u ∷ [])
        → order_of w.schema v u ≡ Ok (Some order) → den w (binary GreaterOrEqual a b) x ≡ Ok (truth (is_ge order) ∷ []) }
    ensures undecided { (w : World) (op : Operator) (a b : Expression) (x v u : Plain) → IsTrue (is_comparison op)
        → den w a x ≡ Ok (v ∷ []) → den w b x ≡ Ok (u ∷ []) → order_of w.schema v u ≡ Ok None → den w (binary op a b) x ≡ Ok [] }
{}

/// A comparison gives nothing where either side gives nothing (`left`, `right`), and has a fault where one gives several values and the other
/// gives any (`several_left`, `several_right`).
pub fn comparisons_of_others()
    ensures left { (w : World) (op : Operator) (a b : Expression) (x : Plain) (us : List Plain) → IsTrue (is_comparison op)
        → den w a x ≡ Ok [] → den w b x ≡ Ok us → den w (binary op a b) x ≡ Ok [] }
    ensures right { (w : World) (op : Operator) (a b : Expression) (x : Plain) (vs : List Plain) → IsTrue (is_comparison op)
        → den w a x ≡ Ok vs → den w b x ≡ Ok [] → den w (binary op a b) x ≡ Ok [] }
    ensures several_left { (w : World) (op : Operator) (a b : Expression) (x v y u : Plain) (vs us : List Plain) → IsTrue (is_comparison op)
        → den w a x ≡ Ok (v ∷ y ∷ vs) → den w b x ≡ Ok (u ∷ us) → den w (binary op a b) x ≡ Err Several }
    ensures several_right { (w : World) (op : Operator) (a b : Expression) (x v u y : Plain) (us : List Plain) → IsTrue (is_comparison op)
        → den w a x ≡ Ok (v ∷ []) → den w b x ≡ Ok (u ∷ y ∷ us) → den w (binary op a b) x ≡ Err Several }
{}

/// Quantities have an order in one unit alone: in that of two systems (`systems`), and where one names its unit, its code or its system and the
/// other doesn't (`unit`, `code`, `system`), there is none. In one unit they have that of their values (`same`).
pub fn units_of_quantities()
    ensures same { between Less (amount_of (codes "1") (part (codes "system") (codes "urn:a") (part (codes "code") (codes "g") no_kids)))
        (amount_of (codes "2") (part (codes "system") (codes "urn:a") (part (codes "code") (codes "g") no_kids))) ≡ is true }
    ensures systems { between Less (amount_of (codes "1") (part (codes "system") (codes "urn:a") (part (codes "code") (codes "g") no_kids)))
        (amount_of (codes "2") (part (codes "system") (codes "urn:b") (part (codes "code") (codes "g") no_kids))) ≡ none }
    ensures unit { between Less (amount_of (codes "1") (part (codes "unit") (codes "g") no_kids)) (amount_of (codes "2") no_kids) ≡ none }
    ensures code { between Less (amount_of (codes "1") no_kids) (amount_of (codes "2") (part (codes "code") (codes "g") no_kids)) ≡ none }
    ensures system { between Less (amount_of (codes "1") no_kids) (amount_of (codes "2") (part (codes "system") (codes "urn:a") no_kids)) ≡ none }
{}
