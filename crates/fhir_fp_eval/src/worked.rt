//! The definitions at work.

ghost use Rattle.std.specs.Prelude.{◌≡◌, [], ◌∷◌, true, false, Ok, Err, codes};
ghost use Rattle.fhir_json.specs.Tree.{string};
ghost use Rattle.fhir_json.specs.Tree.{boolean as flag};
ghost use Rattle.fhir_instance.specs.Items.{kid, no_kids};
ghost use Rattle.fhir_decimal.specs.Whole.{count};
ghost use Rattle.fhir_fp_syntax.specs.Expression.{nothing, boolean, this, resource, context, name, call, typed, filtered, binary};
ghost use Rattle.fhir_fp_syntax.specs.declared.expr.Operator.TheVariants.{Index, Intersect, Union, Less, LessOrEqual, Greater, GreaterOrEqual, Equal, NotEqual, In, Contains, And, Or, Implies};
ghost use Rattle.fhir_fp_syntax.specs.declared.expr.Function.TheVariants.{Count, First, Exists, Empty, HasValue, Children, Descendants};
ghost use Rattle.fhir_fp_syntax.specs.declared.expr.Filter.TheVariants.{Exists as ExistsWhere};
ghost use Rattle.fhir_fp_syntax.specs.declared.expr.TypeTest.TheVariants.{Is, As, OfType};
ghost use Rattle.fhir_fp_values.specs.declared.fault.EvalFault.TheVariants.{Several, Kind};
ghost use Rattle.fhir_fp_values.specs.Values.{node, number};
ghost use Rattle.fhir_fp_eval.specs.Example.{is, none, leaf, whole, period, quantity, coded_quantity, two_parts, twice, patient, given_by, between, given_names, digits, quoted, has_content, around};
ghost use Rattle.fhir_fp_eval.specs.Meaning.{den};

/// When values are equal (FHIRPath N1, section 6.1): numbers by value (`decimals`), values of two kinds not (`kinds`), a
/// year and a month of it are undecided (`moments`), as is what is compared with nothing (`nothing`); lists of other lengths
/// aren't (`counts`), and items without values by their types and their parts (`types`, `parts`, `names`), which may leave them
/// undecided (`undecided`). The parts are those of each name, in whatever order the names are listed (`listed`); those of one name
/// are as many (`doubled`), one after another (`in_turn`).
pub fn equality_example()
    ensures decimals { given_by (binary Equal (digits (codes "0.5")) (digits (codes "0.50"))) ≡ is true }
    ensures kinds { given_by (binary Equal (quoted (codes "a")) (digits (codes "1"))) ≡ is false }
    ensures moments { between Equal (leaf (codes "date") (string (codes "2020")))
        (leaf (codes "date") (string (codes "2020-01"))) ≡ none }
    ensures days { between Equal (leaf (codes "date") (string (codes "2020")))
        (leaf (codes "date") (string (codes "2021-01"))) ≡ is false }
    ensures times { between Equal (leaf (codes "date") (string (codes "2020")))
        (leaf (codes "time") (string (codes "20:20:00"))) ≡ is false }
    ensures nothing { given_by (binary NotEqual nothing (digits (codes "1"))) ≡ none }
    ensures counts { given_by (binary Equal given_names (quoted (codes "A"))) ≡ is false }
    ensures booleans { between Equal (leaf (codes "boolean") (flag true)) (leaf (codes "boolean") (flag false)) ≡ is false }
    ensures codes_and_strings { between Equal (leaf (codes "code") (string (codes "a")))
        (leaf (codes "string") (string (codes "a"))) ≡ is true }
    ensures instants { between Equal (leaf (codes "instant") (string (codes "2020-01-01T00:30:00Z")))
        (leaf (codes "dateTime") (string (codes "2020-01-01T01:30:00.0+01:00"))) ≡ is true }
    ensures valueless { between Equal (leaf (codes "code") (string (codes "a"))) (whole (codes "code") no_kids) ≡ is false }
    ensures types { between Equal (whole (codes "Period") no_kids) (whole (codes "Range") no_kids) ≡ is false }
    ensures parts { given_by (binary Equal this this) ≡ is true }
    ensures names { between Equal (period (codes "start") (codes "2020")) (period (codes "end") (codes "2020")) ≡ is false }
    ensures undecided { between Equal (period (codes "start") (codes "2020")) (period (codes "start") (codes "2020-01")) ≡ none }
    ensures listed { between Equal (two_parts (codes "p") (codes "1") (codes "q") (codes "2"))
        (two_parts (codes "q") (codes "2") (codes "p") (codes "1")) ≡ is true }
    ensures doubled { between Equal (two_parts (codes "p") (codes "1") (codes "q") (codes "2"))
        (two_parts (codes "p") (codes "1") (codes "p") (codes "1")) ≡ is false }
    ensures in_turn { between Equal (two_parts (codes "p") (codes "1") (codes "p") (codes "2"))
        (two_parts (codes "p") (codes "2") (codes "p") (codes "1")) ≡ is false }
    ensures one_differs { given_by (binary Equal (binary Union (quoted (codes "a")) (quoted (codes "b")))
        (binary Union (quoted (codes "a")) (quoted (codes "c")))) ≡ is false }
{}

/// The order of values (FHIRPath N1, section 6.2): of strings by their bytes, of numbers by value, of dates as far as they have
/// one, and of quantities in one unit. Other values have none, nor have values of two kinds.
pub fn order_example()
    ensures strings { given_by (binary Less (quoted (codes "B")) (quoted (codes "a"))) ≡ is true }
    ensures prefixes { given_by (binary Less (quoted (codes "a")) (quoted (codes "ab"))) ≡ is true }
    ensures itself { given_by (binary Less (quoted (codes "a")) (quoted (codes "a"))) ≡ is false }
    ensures at_most { given_by (binary LessOrEqual (digits (codes "1.0")) (digits (codes "1"))) ≡ is true }
    ensures at_least { given_by (binary GreaterOrEqual (digits (codes "1")) (digits (codes "1.0"))) ≡ is true }
    ensures not_at_least { given_by (binary GreaterOrEqual (digits (codes "1")) (digits (codes "2"))) ≡ is false }
    ensures greater { given_by (binary Greater (digits (codes "2")) (digits (codes "1"))) ≡ is true }
    ensures not_greater { given_by (binary Greater (digits (codes "1")) (digits (codes "1.0"))) ≡ is false }
    ensures dates { between Less (leaf (codes "date") (string (codes "2020-01")))
        (leaf (codes "date") (string (codes "2020-02"))) ≡ is true }
    ensures undecided { between Less (leaf (codes "date") (string (codes "2020")))
        (leaf (codes "date") (string (codes "2020-02"))) ≡ none }
    ensures times { between Less (leaf (codes "date") (string (codes "2020")))
        (leaf (codes "time") (string (codes "20:20:00"))) ≡ none }
    ensures kinds { given_by (binary Less (call First given_names) (digits (codes "1"))) ≡ Err Kind }
    ensures booleans { given_by (binary Less (boolean false) (boolean true)) ≡ Err Kind }
    ensures amounts { between Less (quantity (codes "1.5") (codes "mg")) (quantity (codes "2") (codes "mg")) ≡ is true }
    ensures units { between Less (quantity (codes "1.5") (codes "mg")) (quantity (codes "2") (codes "g")) ≡ none }
    ensures unit_codes { between Less (coded_quantity (codes "1") (codes "kg")) (coded_quantity (codes "2") (codes "g")) ≡ none }
    ensures items { given_by (binary Less this this) ≡ Err Kind }
{}

/// What paths, functions and sets give at a patient with the given names A and B, and where they have a fault. A fault stays one
/// where the other operand or another item would decide (`both`, `asked`).
pub fn paths_example()
    ensures count { given_by (binary Equal (call Count given_names) (digits (codes "2"))) ≡ is true }
    ensures joined { given_by (call Count (binary Union given_names given_names)) ≡ Ok (number (count 2) ∷ []) }
    ensures common { given_by (binary Intersect (binary Union given_names (quoted (codes "C"))) (quoted (codes "B")))
        ≡ Ok (node (leaf (codes "string") (string (codes "B"))) ∷ []) }
    ensures first { given_by (binary Index given_names (digits (codes "0.0")))
        ≡ Ok (node (leaf (codes "string") (string (codes "A"))) ∷ []) }
    ensures beyond { given_by (binary Index given_names (digits (codes "2"))) ≡ none }
    ensures between { given_by (binary Index given_names (digits (codes "0.5"))) ≡ Err Kind }
    ensures several { given_by (binary In given_names (quoted (codes "A"))) ≡ Err Several }
    ensures second { given_by (binary In (quoted (codes "B")) given_names) ≡ is true }
    ensures both { given_by (binary And (call Exists (name (codes "birthDate"))) given_names) ≡ Err Several }
    ensures asked { given_by (filtered ExistsWhere given_names
        (binary Or (binary Equal this (quoted (codes "A"))) (binary Less this (digits (codes "1"))))) ≡ Err Kind }
    ensures implied { given_by (binary Implies nothing (boolean true)) ≡ is true }
    ensures once { given_by (call Count (binary Intersect (binary Union given_names given_names) given_names))
        ≡ Ok (number (count 2) ∷ []) }
    ensures repeated { den (around (whole (codes "List") twice)) (call Count (binary Intersect (call Children context) (quoted (codes "A"))))
        (node patient) ≡ Ok (number (count 1) ∷ []) }
    ensures exist { given_by (call Exists given_names) ≡ is true }
    ensures none_exists { given_by (call Exists nothing) ≡ is false }
    ensures filled { given_by (call Empty given_names) ≡ is false }
    ensures nothing_is_empty { given_by (call Empty nothing) ≡ is true }
    ensures nothing_in { given_by (binary In nothing given_names) ≡ none }
    ensures contained { given_by (binary Contains given_names (quoted (codes "B"))) ≡ is true }
    ensures around_it { den (around (whole (codes "List") twice)) resource (node (whole (codes "List") twice)) ≡ Ok (node patient ∷ []) }
    ensures own_type { given_by (typed Is this (codes "Patient")) ≡ is true }
    ensures others { given_by (typed OfType given_names (codes "code")) ≡ none }
    ensures cast { given_by (typed As this (codes "Patient")) ≡ Ok (node patient ∷ []) }
    ensures types { given_by (typed Is given_names (codes "string")) ≡ Err Several }
    ensures choice { given_by (binary Equal (name (codes "multipleBirth")) (digits (codes "1"))) ≡ is true }
    ensures spelled { given_by (name (codes "multipleBirth[x]")) ≡ none }
    ensures element { given_by has_content ≡ is true }
    ensures bare { den (around patient) has_content (node (whole (codes "HumanName")
        (kid (codes "id") (leaf (codes "id") (string (codes "n"))) no_kids))) ≡ is false }
    ensures value { den (around patient) has_content (node (leaf (codes "boolean") (flag false))) ≡ is true }
    ensures single { given_by (binary And (quoted (codes "a")) (boolean true)) ≡ is true }
    ensures in_order { given_by (filtered ExistsWhere (call Descendants this) (binary Equal this (quoted (codes "B")))) ≡ is true }
    ensures below { given_by (call Count (call Descendants this)) ≡ Ok (number (count 5) ∷ []) }
{}
