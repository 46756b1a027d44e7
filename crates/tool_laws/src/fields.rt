//! Fields of FHIR's JSON.

ghost use Rattle.std.specs.Prelude.{◌≡◌, [], ◌∷◌, map, true, false, None, Some, codes};
ghost use Rattle.fhir_json.specs.Tree.{string, boolean};
ghost use Rattle.fhir_json.specs.Fields.{count_of, is_choice, choice_in, allows_choice};
ghost use Rattle.tool_laws.specs.Trees.{fields};

/// Which digits are a count, as `min` is one and a `max` other than `*` (FHIR R4, Data Types, unsignedInt: 0 to 2,147,483,647, without a
/// needless zero).
pub fn counts_of_digits()
    ensures are { map count_of (codes "0" ∷ codes "7" ∷ codes "10" ∷ codes "2147483647" ∷ [])
        ≡ Some 0 ∷ Some 7 ∷ Some 10 ∷ Some 2147483647 ∷ [] }
    ensures none { map count_of (codes "2147483648" ∷ codes "00" ∷ codes "07" ∷ codes "-1" ∷ codes "+1" ∷ codes "1.0" ∷ codes "1e1" ∷ codes "*" ∷ [])
        ≡ None ∷ None ∷ None ∷ None ∷ None ∷ None ∷ None ∷ None ∷ [] }
{}

/// Which names are of a choice of types, as `fixedCode` is of `fixed[x]` (FHIR R4, Formats, choice of datatypes): the name, and a type's
/// behind it that begins with a capital (`names`). The one that is there is taken, with its name (`taken`), and there may be one at most
/// (`one`, `two`).
pub fn choices_of_types()
    ensures names { map (is_choice (codes "fixed")) (codes "fixedCode" ∷ codes "fixedString" ∷ codes "fixed" ∷ codes "fixedcode" ∷ codes "fixed1" ∷ codes "fixe"
        ∷ codes "prefixedCode" ∷ codes "FixedCode" ∷ [])
        ≡ true ∷ true ∷ false ∷ false ∷ false ∷ false ∷ false ∷ false ∷ [] }
    ensures taken { choice_in (codes "fixed") (fields ((codes "fixed", boolean true) ∷ (codes "fixedCode", string (codes "a")) ∷ []))
        ≡ Some (codes "fixedCode", string (codes "a")) }
    ensures one { allows_choice (codes "fixed") (fields ((codes "fixedCode", string (codes "a")) ∷ (codes "patternCode", string (codes "a")) ∷ [])) ≡ true }
    ensures two { allows_choice (codes "fixed") (fields ((codes "fixedCode", string (codes "a")) ∷ (codes "fixedString", string (codes "a")) ∷ [])) ≡ false }
{}
