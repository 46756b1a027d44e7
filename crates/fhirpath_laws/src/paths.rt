//! Paths, and what functions make of collections (FHIRPath N1, sections 3 and 5).

ghost use Rattle.std.specs.Prelude.{◌≡◌, List, [], ◌∷◌, length, true, false, None, Some, Ok};
ghost use Rattle.std.specs.List.{flat_map, filter};
ghost use Rattle.fhir_json.specs.Tree.{Text};
ghost use Rattle.fhir_decimal.specs.Whole.{count};
ghost use Rattle.fhir_instance.specs.Items.{Item};
ghost use Rattle.fhir_fp_syntax.specs.Expression.{Expression, child, call, typed};
ghost use Rattle.fhir_fp_syntax.specs.declared.expr.Function.TheVariants.{Exists, Empty, Count, Children, Descendants, HasValue};
ghost use Rattle.fhir_fp_syntax.specs.declared.expr.TypeTest.TheVariants.{OfType};
ghost use Rattle.fhir_fp_values.specs.Values.{Plain, node, number, SystemValue, item_value};
ghost use Rattle.fhir_fp_eval.specs.Worlds.{World};
ghost use Rattle.fhir_fp_eval.specs.Meaning.{den};
ghost use Rattle.fhir_fp_eval.specs.Example.{is};
ghost use Rattle.fhirpath_laws.specs.Paths.{of_item, named_so, children_of, all_below, is_item_of};

/// A path goes on from each of the values before it, and gives what each of them has, in their order (FHIRPath N1, section 3): behind a dot
/// its children of the name (`names`); `children()` all its children (`children`), and `descendants()` each of these and what is below it
/// (`descendants`, section 5.8). `ofType(T)` keeps those that are of the type (`types`, section 5.2).
pub fn paths_of_each()
    ensures names { (w : World) (a : Expression) (name : Text) (x : Plain) (vs : List Plain) → den w a x ≡ Ok vs
        → den w (child a name) x ≡ Ok (flat_map (of_item (named_so name)) vs) }
    ensures children { (w : World) (a : Expression) (x : Plain) (vs : List Plain) → den w a x ≡ Ok vs
        → den w (call Children a) x ≡ Ok (flat_map (of_item children_of) vs) }
    ensures descendants { (w : World) (a : Expression) (x : Plain) (vs : List Plain) → den w a x ≡ Ok vs
        → den w (call Descendants a) x ≡ Ok (flat_map (of_item all_below) vs) }
    ensures types { (w : World) (a : Expression) (type : Text) (x : Plain) (vs : List Plain) → den w a x ≡ Ok vs
        → den w (typed OfType a type) x ≡ Ok (filter (is_item_of w.schema type) vs) }
{}

/// `exists()` says whether there is any value, `empty()` whether there is none, and `count()` how many there are (FHIRPath N1, section 5.1).
pub fn values_that_there_are()
    ensures some { (w : World) (a : Expression) (x v : Plain) (vs : List Plain) → den w a x ≡ Ok (v ∷ vs) → den w (call Exists a) x ≡ is true }
    ensures none { (w : World) (a : Expression) (x : Plain) → den w a x ≡ Ok [] → den w (call Exists a) x ≡ is false }
    ensures not_empty { (w : World) (a : Expression) (x v : Plain) (vs : List Plain) → den w a x ≡ Ok (v ∷ vs) → den w (call Empty a) x ≡ is false }
    ensures empty { (w : World) (a : Expression) (x : Plain) → den w a x ≡ Ok [] → den w (call Empty a) x ≡ is true }
    ensures as_many { (w : World) (a : Expression) (x : Plain) (vs : List Plain) → den w a x ≡ Ok vs
        → den w (call Count a) x ≡ Ok (number (count (length vs)) ∷ []) }
{}

/// `hasValue()` is true of one item that has the value of a primitive (`one`), and neither of one without (`without`), nor of several, whatever
/// they are (`several`), nor of nothing (`nothing`) (FHIR R4, FHIRPath, additional functions).
pub fn items_with_values()
    ensures one { (w : World) (a : Expression) (x : Plain) (y : Item) (value : SystemValue) → den w a x ≡ Ok (node y ∷ []) → item_value y ≡ Some value
        → den w (call HasValue a) x ≡ is true }
    ensures without { (w : World) (a : Expression) (x : Plain) (y : Item) → den w a x ≡ Ok (node y ∷ []) → item_value y ≡ None
        → den w (call HasValue a) x ≡ is false }
    ensures several { (w : World) (a : Expression) (x v u : Plain) (vs : List Plain) → den w a x ≡ Ok (v ∷ u ∷ vs)
        → den w (call HasValue a) x ≡ is false }
    ensures nothing { (w : World) (a : Expression) (x : Plain) → den w a x ≡ Ok [] → den w (call HasValue a) x ≡ is false }
{}
