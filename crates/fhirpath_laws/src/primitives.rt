//! Primitive types and their values (FHIR R4, Data Types, primitive types).

ghost use Rattle.std.specs.Prelude.{◌≡◌, [], ◌∷◌, map, Bool, true, false, Some, None, IsTrue, codes};
ghost use Rattle.fhir_json.specs.Tree.{Text, boolean, number, string};
ghost use Rattle.fhir_prims.specs.declared.prim.PrimType.{PrimType};
ghost use Rattle.fhir_prims.specs.declared.prim.PrimType.TheVariants.{String, Markdown, Code, Base64Binary, Id, Uri, Url, Canonical, Oid, Uuid, Date, DateTime, Instant, Time};
ghost use Rattle.fhir_prims.specs.Moments.{days_in};
ghost use Rattle.fhir_prims.specs.Values.{prim_of, lexical};
ghost use Rattle.fhirpath_laws.specs.Primitives.{type_codes, types, is_flag_type, is_number_type, is_text_type, are_values, months, februaries, is_text};

/// Each primitive type by its code, and codes that are none's.
pub fn types_by_codes()
    ensures all { map prim_of type_codes ≡ map (λ p. Some p) types }
    ensures complex { prim_of (codes "Quantity") ≡ None }
    ensures capital { prim_of (codes "String") ≡ None }
{}

/// A boolean is a flag in JSON, an integer, an unsignedInt, a positiveInt and a decimal are numbers, and all other primitive types are
/// texts (FHIR R4, JSON, representation of primitive elements).
pub fn kinds_in_json()
    ensures flags { (p : PrimType) (b : Bool) → lexical p (boolean b) ≡ is_flag_type p }
    ensures numbers { (p : PrimType) (s : Text) → IsTrue (lexical p (number s)) → IsTrue (is_number_type p) }
    ensures texts { (p : PrimType) (s : Text) → IsTrue (lexical p (string s)) → IsTrue (is_text_type p) }
{}

/// The days of each month, and of February in years that are leap years and in others: each fourth is one, but of the centuries only each
/// fourth.
pub fn days_of_months()
    ensures common { map (days_in 2021) months
        ≡ 31 ∷ 28 ∷ 31 ∷ 30 ∷ 31 ∷ 30 ∷ 31 ∷ 31 ∷ 30 ∷ 31 ∷ 30 ∷ 31 ∷ [] }
    ensures leap { map (days_in 2020) months
        ≡ 31 ∷ 29 ∷ 31 ∷ 30 ∷ 31 ∷ 30 ∷ 31 ∷ 31 ∷ 30 ∷ 31 ∷ 30 ∷ 31 ∷ [] }
    ensures centuries { februaries (1900 ∷ 2000 ∷ 2100 ∷ 2200 ∷ 2300 ∷ 2400 ∷ []) ≡ 28 ∷ 29 ∷ 28 ∷ 28 ∷ 28 ∷ 29 ∷ [] }
{}

/// Which texts are dates: a day has to be one of the calendar (FHIR R4, Data Types, date).
pub fn texts_of_dates()
    ensures right { are_values Date (codes "2021" ∷ codes "2021-12" ∷ codes "2021-12-31" ∷ codes "2020-02-29" ∷ codes "2000-02-29" ∷ [])
        ≡ true ∷ true ∷ true ∷ true ∷ true ∷ [] }
    ensures no_days { are_values Date (codes "2021-02-29" ∷ codes "1900-02-29" ∷ codes "2021-04-31" ∷ codes "2021-01-32" ∷ codes "2021-01-00" ∷ [])
        ≡ false ∷ false ∷ false ∷ false ∷ false ∷ [] }
    ensures no_months { are_values Date (codes "2021-13" ∷ codes "2021-00" ∷ codes "2021-13-01" ∷ codes "0000" ∷ [])
        ≡ false ∷ false ∷ false ∷ false ∷ [] }
    ensures other_forms { are_values Date (codes "21" ∷ codes "2021-1" ∷ codes "2021-1-1" ∷ codes "20210101" ∷ codes "2021-01-01T00:00:00Z" ∷ [])
        ≡ false ∷ false ∷ false ∷ false ∷ false ∷ [] }
{}

/// Which texts are times of day, and moments: the time 24:00 is none, a second may be a leap second, and an offset is at most 14:00 (FHIR R4,
/// Data Types, time, dateTime and instant).
pub fn texts_of_times()
    ensures times { are_values Time (codes "00:00:00" ∷ codes "23:59:59" ∷ codes "23:59:60" ∷ codes "12:00:00.5" ∷ [])
        ≡ true ∷ true ∷ true ∷ true ∷ [] }
    ensures no_times { are_values Time (codes "24:00:00" ∷ codes "12:60:00" ∷ codes "12:00:61" ∷ codes "12:00" ∷ codes "12:00:00." ∷ codes "12:00:00Z" ∷ [])
        ≡ false ∷ false ∷ false ∷ false ∷ false ∷ false ∷ [] }
    ensures instants { are_values Instant
        (codes "2020-01-01T00:00:00Z" ∷ codes "2020-01-01T00:00:00+14:00" ∷ codes "2020-01-01T00:00:00-13:59" ∷ codes "2020-01-01T00:00:00.0Z" ∷ [])
        ≡ true ∷ true ∷ true ∷ true ∷ [] }
    ensures no_instants { are_values Instant
        (codes "2020-01-01T24:00:00Z" ∷ codes "2020-01-01T00:00:00+14:01" ∷ codes "2020-01-01T00:00:00-15:00" ∷ codes "2020-01-01T00:00:00"
        ∷ codes "2020-01-01T00:00Z" ∷ codes "2020-01-01 00:00:00Z" ∷ codes "2020-01-01" ∷ [])
        ≡ false ∷ false ∷ false ∷ false ∷ false ∷ false ∷ false ∷ [] }
    ensures moments { are_values DateTime (codes "2020" ∷ codes "2020-01-01T00:00:00Z" ∷ codes "2020-01-01T00:00:00" ∷ codes "2020-01-01T00Z" ∷ [])
        ≡ true ∷ true ∷ false ∷ false ∷ [] }
{}

/// Which texts are a code, an id (of 64 characters at most, `long_id`), a uri, an oid, a uuid and a base64Binary; and a text with a control
/// character is no string (FHIR R4, Data Types).
pub fn texts_of_names()
    ensures code { are_values Code (codes "a" ∷ codes "a b" ∷ codes " a" ∷ codes "a " ∷ codes "a  b" ∷ [])
        ≡ true ∷ true ∷ false ∷ false ∷ false ∷ [] }
    ensures id { are_values Id (codes "a-1.B" ∷ codes "a_b" ∷ codes "a b" ∷ codes "a/b" ∷ []) ≡ true ∷ false ∷ false ∷ false ∷ [] }
    ensures long_id { are_values Id (codes "aaaaaaaaaaaaaaaaaaaaaaaaaaaaaaaaaaaaaaaaaaaaaaaaaaaaaaaaaaaaaaaa" ∷ codes "aaaaaaaaaaaaaaaaaaaaaaaaaaaaaaaaaaaaaaaaaaaaaaaaaaaaaaaaaaaaaaaaa" ∷ []) ≡ true ∷ false ∷ [] }
    ensures uri { are_values Uri (codes "urn:a" ∷ codes "a b" ∷ codes " a" ∷ []) ≡ true ∷ false ∷ false ∷ [] }
    ensures oid { are_values Oid (codes "urn:oid:1.2.0" ∷ codes "urn:oid:3.1" ∷ codes "urn:oid:1.02" ∷ codes "urn:oid:1" ∷ codes "urn:oid:1.2." ∷ codes "1.2" ∷ [])
        ≡ true ∷ false ∷ false ∷ false ∷ false ∷ false ∷ [] }
    ensures uuid { are_values Uuid
        (codes "urn:uuid:c757873d-ec9a-4326-a141-556f43239520" ∷ codes "urn:uuid:C757873D-EC9A-4326-A141-556F43239520"
        ∷ codes "urn:uuid:c757873d-ec9a-4326-a141-556f4323952" ∷ codes "c757873d-ec9a-4326-a141-556f43239520" ∷ [])
        ≡ true ∷ false ∷ false ∷ false ∷ [] }
    ensures base64 { are_values Base64Binary (codes "QUJD" ∷ codes "QQ==" ∷ codes " QUJD QUJD " ∷ codes "QUJ" ∷ codes "QU JD" ∷ codes "QU-D" ∷ [])
        ≡ true ∷ true ∷ true ∷ false ∷ false ∷ false ∷ [] }
    ensures string { are_values String ((1 ∷ []) ∷ (97 ∷ 31 ∷ []) ∷ (0 ∷ 97 ∷ []) ∷ []) ≡ false ∷ false ∷ false ∷ [] }
{}

/// A string has 1 to 1,048,576 characters, and no control character but tab, line feed and carriage return (`strings`), and so has a markdown
/// (`markdowns`). A url and a canonical are written as a uri is (`urls`, `canonicals`) (FHIR R4, Data Types).
pub fn texts_alike()
    ensures strings { (s : Text) → lexical String (string s) ≡ is_text s }
    ensures markdowns { (s : Text) → lexical Markdown (string s) ≡ is_text s }
    ensures urls { (s : Text) → lexical Url (string s) ≡ lexical Uri (string s) }
    ensures canonicals { (s : Text) → lexical Canonical (string s) ≡ lexical Uri (string s) }
{}
