//! Fixed values and patterns (FHIR R4, ElementDefinition, fixed[x] and pattern[x]).

ghost use Rattle.std.specs.Prelude.{◌≡◌, ◌↔◌, ◌&&◌, Bool, false, length, nat_eq, IsTrue};
ghost use Rattle.std.specs.List.{list_all, list_any, zip};
ghost use Rattle.std.specs.Str.{bytes_eq};
ghost use Rattle.fhir_json.specs.Tree.{Text, Tree, null, boolean, number, string, array, object, Items, Members, list_of, properties_of};
ghost use Rattle.fhir_json.specs.Fields.{is_array, is_object};
ghost use Rattle.fhir_matching.specs.Equality.{equal};
ghost use Rattle.fhir_matching.specs.Fitting.{fits};

/// A text, a number by its text, a flag and null are equal to themselves, and to no other value (FHIR R4, ElementDefinition, fixed[x]:
/// the value shall be exactly this one).
pub fn equal_scalars()
    ensures texts { (s : Text) (t : Tree) → IsTrue (equal (string s) t) ↔ (t ≡ string s) }
    ensures numbers { (n : Text) (t : Tree) → IsTrue (equal (number n) t) ↔ (t ≡ number n) }
    ensures flags { (b : Bool) (t : Tree) → IsTrue (equal (boolean b) t) ↔ (t ≡ boolean b) }
    ensures nulls { (t : Tree) → IsTrue (equal null t) ↔ (t ≡ null) }
{}

/// Arrays are equal where they have as many values, and each is equal to its fellow (`arrays`). Objects are equal where each property of
/// the one is one of the other with an equal value, and that has no property of a further name (`objects`). Neither is equal to a value of
/// another kind (`no_array`, `no_object`).
pub fn equal_wholes()
    ensures arrays { (ts us : Items) → equal (array ts) (array us)
        ≡ (nat_eq (length (list_of ts)) (length (list_of us)) && list_all (λ p. equal p.0 p.1) (zip (list_of ts) (list_of us))) }
    ensures objects { (ms ns : Members) → equal (object ms) (object ns)
        ≡ (list_all (λ m. list_any (λ n. bytes_eq m.0 n.0 && equal m.1 n.1) (properties_of ns)) (properties_of ms)
        && list_all (λ n. list_any (λ m. bytes_eq n.0 m.0) (properties_of ms)) (properties_of ns)) }
    ensures no_array { (ts : Items) (u : Tree) → is_array u ≡ false → equal (array ts) u ≡ false }
    ensures no_object { (ms : Members) (u : Tree) → is_object u ≡ false → equal (object ms) u ≡ false }
{}

/// A pattern that is a text, a number by its text, a flag or null is fitted by that value alone (FHIR R4, ElementDefinition, pattern[x]).
pub fn patterns_of_scalars()
    ensures texts { (s : Text) (t : Tree) → IsTrue (fits t (string s)) ↔ (t ≡ string s) }
    ensures numbers { (n : Text) (t : Tree) → IsTrue (fits t (number n)) ↔ (t ≡ number n) }
    ensures flags { (b : Bool) (t : Tree) → IsTrue (fits t (boolean b)) ↔ (t ≡ boolean b) }
    ensures nulls { (t : Tree) → IsTrue (fits t null) ↔ (t ≡ null) }
{}

/// A pattern of several parts is fitted by what has each of them (FHIR R4, ElementDefinition, pattern[x]): for each value of a pattern's
/// array some value of the array fits it (`arrays`), and for each property of a pattern's object some property of that name does
/// (`objects`). A value of another kind fits neither (`no_array`, `no_object`).
pub fn patterns_of_wholes()
    ensures arrays { (ts ps : Items) → fits (array ts) (array ps)
        ≡ list_all (λ p. list_any (λ t. fits t p) (list_of ts)) (list_of ps) }
    ensures objects { (ms ps : Members) → fits (object ms) (object ps)
        ≡ list_all (λ p. list_any (λ m. bytes_eq p.0 m.0 && fits m.1 p.1) (properties_of ms)) (properties_of ps) }
    ensures no_array { (t : Tree) (ps : Items) → is_array t ≡ false → fits t (array ps) ≡ false }
    ensures no_object { (t : Tree) (ps : Members) → is_object t ≡ false → fits t (object ps) ≡ false }
{}
