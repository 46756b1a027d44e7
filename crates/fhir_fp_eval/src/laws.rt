//! Laws: what the definitions say.

ghost use Rattle.std.specs.Prelude.{◌≡◌, [], ◌∷◌, ◌&&◌, true, false, None, Ok, Err, List, codes, IsTrue, IsErr};
ghost use Rattle.std.specs.List.{Contains as Has, filter, list_any, list_all};
ghost use Rattle.fhir_json.specs.Tree.{Text};
ghost use Rattle.fhir_schema.specs.Covers.{derives};
ghost use Rattle.fhir_instance.specs.Items.{Item, type_of};
ghost use Rattle.fhir_fp_syntax.specs.Expression.{Expression, nothing, boolean, this, name, child, call, typed, filtered, binary};
ghost use Rattle.fhir_fp_syntax.specs.declared.expr.Operator.{Operator};
ghost use Rattle.fhir_fp_syntax.specs.declared.expr.Operator.TheVariants.{And, Or, Xor, Implies, In, Contains};
ghost use Rattle.fhir_fp_syntax.specs.declared.expr.Function.{Function};
ghost use Rattle.fhir_fp_syntax.specs.declared.expr.Function.TheVariants.{Not};
ghost use Rattle.fhir_fp_syntax.specs.declared.expr.TypeTest.{TypeTest};
ghost use Rattle.fhir_fp_syntax.specs.declared.expr.TypeTest.TheVariants.{Is, As, OfType};
ghost use Rattle.fhir_fp_syntax.specs.declared.expr.Filter.{Filter};
ghost use Rattle.fhir_fp_syntax.specs.declared.expr.Filter.TheVariants.{Where, Exists, All};
ghost use Rattle.fhir_fp_values.specs.declared.fault.EvalFault.{EvalFault};
ghost use Rattle.fhir_fp_values.specs.Values.{Plain, node, truth, item_value};
ghost use Rattle.fhir_fp_eval.specs.Worlds.{World};
ghost use Rattle.fhir_fp_values.specs.Comparing.{quantity_order, order_of};
ghost use Rattle.fhir_fp_eval.specs.Meaning.{den, criteria_hold, verdict, is_true};
ghost use Rattle.fhir_fp_eval.specs.Example.{is, none, table, truths, given_by};

/// The truth tables of `and`, `or`, `xor` and `implies`, whose rows and columns are `true`, `false` and `{}`, and `not()`
/// of these (FHIRPath N1, section 6.5).
pub fn truth_tables()
    ensures and { table And ≡ (is true ∷ is false ∷ none ∷ []) ∷ (is false ∷ is false ∷ is false ∷ [])
        ∷ (none ∷ is false ∷ none ∷ []) ∷ [] }
    ensures or { table Or ≡ (is true ∷ is true ∷ is true ∷ []) ∷ (is true ∷ is false ∷ none ∷ [])
        ∷ (is true ∷ none ∷ none ∷ []) ∷ [] }
    ensures xor { table Xor ≡ (is false ∷ is true ∷ none ∷ []) ∷ (is true ∷ is false ∷ none ∷ [])
        ∷ (none ∷ none ∷ none ∷ []) ∷ [] }
    ensures implies { table Implies ≡ (is true ∷ is false ∷ none ∷ []) ∷ (is true ∷ is true ∷ is true ∷ [])
        ∷ (is true ∷ none ∷ none ∷ []) ∷ [] }
    ensures not_true { given_by (call Not (boolean true)) ≡ is false }
    ensures not_false { given_by (call Not (boolean false)) ≡ is true }
    ensures not_nothing { given_by (call Not nothing) ≡ none }
{}

/// A fault anywhere is one of the whole: in what a name, a function or a type test follows, in either operand of an operator,
/// whatever the other is, and in what a function asks of any value. So nothing is cut short.
pub fn faults_pass()
    ensures child { (w : World) (a : Expression) (n : Text) (x : Plain) (e : EvalFault)
        → den w a x ≡ Err e → den w (child a n) x ≡ Err e }
    ensures function { (w : World) (f : Function) (a : Expression) (x : Plain) (e : EvalFault)
        → den w a x ≡ Err e → den w (call f a) x ≡ Err e }
    ensures test { (w : World) (f : TypeTest) (a : Expression) (t : Text) (x : Plain) (e : EvalFault)
        → den w a x ≡ Err e → den w (typed f a t) x ≡ Err e }
    ensures filter { (w : World) (f : Filter) (a c : Expression) (x : Plain) (e : EvalFault)
        → den w a x ≡ Err e → den w (filtered f a c) x ≡ Err e }
    ensures left { (w : World) (op : Operator) (a b : Expression) (x : Plain) (e : EvalFault)
        → den w a x ≡ Err e → den w (binary op a b) x ≡ Err e }
    ensures right { (w : World) (op : Operator) (a b : Expression) (x : Plain) (vs : List Plain) (e : EvalFault)
        → den w a x ≡ Ok vs → den w b x ≡ Err e → den w (binary op a b) x ≡ Err e }
    ensures asked { (w : World) (f : Filter) (a c : Expression) (x : Plain) (vs : List Plain) (v : Plain) (e : EvalFault)
        → den w a x ≡ Ok vs → Has vs v → criteria_hold (den w c) v ≡ Err e → IsErr (den w (filtered f a c) x) }
{}

/// Of the values that an expression gives, `where(c)` gives those of which c is true, in their order; `exists(c)` says whether
/// it is true of any, and `all(c)` whether of each (FHIRPath N1, sections 5.1 and 5.2). So it is where there is no fault.
pub fn criteria()
    ensures where_true { (w : World) (a c : Expression) (x : Plain) (vs us : List Plain) → den w a x ≡ Ok vs
        → den w (filtered Where a c) x ≡ Ok us → us ≡ filter (λ v. verdict (criteria_hold (den w c) v)) vs }
    ensures exists { (w : World) (a c : Expression) (x : Plain) (vs us : List Plain) → den w a x ≡ Ok vs
        → den w (filtered Exists a c) x ≡ Ok us → us ≡ truth (list_any (λ v. verdict (criteria_hold (den w c) v)) vs) ∷ [] }
    ensures all { (w : World) (a c : Expression) (x : Plain) (vs us : List Plain) → den w a x ≡ Ok vs
        → den w (filtered All a c) x ≡ Ok us → us ≡ truth (list_all (λ v. verdict (criteria_hold (den w c) v)) vs) ∷ [] }
{}

/// `a and b` is true where both are, and an expression that gives nothing, or has a fault, is not true.
pub fn true_expressions()
    ensures both { (w : World) (a b : Expression) (x : Item)
        → is_true w (binary And a b) x ≡ (is_true w a x && is_true w b x) }
    ensures nothing { (w : World) (a : Expression) (x : Item) → den w a (node x) ≡ Ok [] → is_true w a x ≡ false }
    ensures fault { (w : World) (a : Expression) (x : Item) (e : EvalFault) → den w a (node x) ≡ Err e → is_true w a x ≡ false }
{}

/// A path may begin with the type of its focus, or a base of that (FHIRPath N1, section 3.1).
pub fn paths_by_type()
    ensures { (w : World) (type : Text) (x : Item) → IsTrue (derives w.schema (type_of x) type)
        → den w (name type) (node x) ≡ Ok (node x ∷ []) }
{}

/// Type tests of one item go by its type and the chain of its bases (FHIRPath N1, section 6.3): `is` is true, and `ofType` and
/// `as` give the item, where the type is one of these (`is_of`, `of_type`, `cast`), and else `is` is false (`is_other`).
pub fn type_tests()
    ensures is_of { (w : World) (x : Item) (type : Text) → IsTrue (derives w.schema (type_of x) type)
        → den w (typed Is this type) (node x) ≡ is true }
    ensures is_other { (w : World) (x : Item) (type : Text) → derives w.schema (type_of x) type ≡ false
        → den w (typed Is this type) (node x) ≡ is false }
    ensures of_type { (w : World) (x : Item) (type : Text) → IsTrue (derives w.schema (type_of x) type)
        → den w (typed OfType this type) (node x) ≡ Ok (node x ∷ []) }
    ensures cast { (w : World) (x : Item) (type : Text) → IsTrue (derives w.schema (type_of x) type)
        → den w (typed As this type) (node x) ≡ Ok (node x ∷ []) }
{}

/// Items of two types have an order where Quantity is one of both's bases, or the type itself (FHIR R4, Data Types, Quantity).
pub fn order_of_quantities()
    ensures { (w : World) (x y : Item) → item_value x ≡ None → item_value y ≡ None
        → IsTrue (derives w.schema (type_of x) (codes "Quantity")) → IsTrue (derives w.schema (type_of y) (codes "Quantity"))
        → order_of w.schema (node x) (node y) ≡ Ok (quantity_order x y) }
{}

/// `contains` is `in` turned round (FHIRPath N1, section 6.4).
pub fn contains_is_in()
    ensures { (w : World) (a b : Expression) (x : Plain) (vs us : List Plain) → den w a x ≡ Ok vs → den w b x ≡ Ok us
        → den w (binary Contains a b) x ≡ den w (binary In b a) x }
{}
