//! Tests of types (FHIRPath N1, section 6.3).

ghost use Rattle.std.specs.Prelude.{◌≡◌, List, [], ◌∷◌, true, false, Ok, Err, codes};
ghost use Rattle.fhir_json.specs.Tree.{Text};
ghost use Rattle.fhir_schema.specs.Covers.{derives};
ghost use Rattle.fhir_instance.specs.Items.{Item, type_of};
ghost use Rattle.fhir_fp_syntax.specs.Expression.{Expression, this, typed};
ghost use Rattle.fhir_fp_syntax.specs.declared.expr.TypeTest.TheVariants.{Is, As, OfType};
ghost use Rattle.fhir_fp_values.specs.declared.fault.EvalFault.TheVariants.{Several};
ghost use Rattle.fhir_fp_values.specs.Values.{Plain, node};
ghost use Rattle.fhir_fp_eval.specs.Worlds.{World};
ghost use Rattle.fhir_fp_eval.specs.Meaning.{den};
ghost use Rattle.fhir_fp_eval.specs.Example.{is, none};
ghost use Rattle.fhirpath_laws.specs.Kin.{tested};

/// `a as T` gives nothing of an item that is of another type (`other`), and nothing where a gives nothing (`nothing`). Where a gives several
/// values `is` and `as` have a fault (`is_of_several`, `as_of_several`).
pub fn casts()
    ensures other { (w : World) (x : Item) (type : Text) → derives w.schema (type_of x) type ≡ false → den w (typed As this type) (node x) ≡ Ok [] }
    ensures nothing { (w : World) (a : Expression) (type : Text) (x : Plain) → den w a x ≡ Ok [] → den w (typed As a type) x ≡ Ok [] }
    ensures is_of_several { (w : World) (a : Expression) (type : Text) (x v u : Plain) (vs : List Plain) → den w a x ≡ Ok (v ∷ u ∷ vs)
        → den w (typed Is a type) x ≡ Err Several }
    ensures as_of_several { (w : World) (a : Expression) (type : Text) (x v u : Plain) (vs : List Plain) → den w a x ≡ Ok (v ∷ u ∷ vs)
        → den w (typed As a type) x ≡ Err Several }
{}

/// An item is of its own type (`itself`), and of those on which that rests: a resource's (`next`, `farther`), a data type's (`data`) and a
/// primitive's (`primitive`). It isn't of one that rests on its own (`turned`, `turned_farther`, `turned_data`, `turned_primitive`), nor of another
/// beside it (`beside`), nor of one that isn't there (`unknown`). `ofType` and `as` go by the same types (`left_out`,
/// `cast_away`).
pub fn types_of_items()
    ensures itself { tested Is (codes "Patient") (codes "Patient") ≡ is true }
    ensures next { tested Is (codes "Patient") (codes "DomainResource") ≡ is true }
    ensures farther { tested Is (codes "Patient") (codes "Resource") ≡ is true }
    ensures data { tested Is (codes "Age") (codes "Quantity") ≡ is true }
    ensures primitive { tested Is (codes "code") (codes "string") ≡ is true }
    ensures turned { tested Is (codes "DomainResource") (codes "Patient") ≡ is false }
    ensures turned_farther { tested Is (codes "Resource") (codes "Patient") ≡ is false }
    ensures turned_data { tested Is (codes "Quantity") (codes "Age") ≡ is false }
    ensures turned_primitive { tested Is (codes "string") (codes "code") ≡ is false }
    ensures beside { tested Is (codes "Patient") (codes "Group") ≡ is false }
    ensures unknown { tested Is (codes "Patient") (codes "Person") ≡ is false }
    ensures left_out { tested OfType (codes "Quantity") (codes "Age") ≡ none }
    ensures cast_away { tested As (codes "Quantity") (codes "Age") ≡ none }
{}
