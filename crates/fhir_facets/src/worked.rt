//! Facets at work.

ghost use Rattle.std.specs.Prelude.{◌≡◌, ◌||◌, [], ◌∷◌, true, false, codes, pos};
ghost use Rattle.std.specs.FinSet as set;
ghost use Rattle.fhir_json.specs.Tree.{number, string, item, no_items};
ghost use Rattle.fhir_codes.specs.Concepts.{Concepts, concept, has_code};
ghost use Rattle.fhir_facets.specs.Bindings.{binding_holds};
ghost use Rattle.fhir_facets.specs.Unread.{Meaning, range, binding};
ghost use Rattle.fhir_facets.specs.Values.{fixed_holds, pattern_holds, length_holds};
ghost use Rattle.fhir_facets.specs.Ranges.{range_holds};
ghost use Rattle.fhir_facets.specs.Example.{plain, extended, valueless, decimal, date, date_time, from, to, one, one_metre, coding, no_coding, concept_of, known, unknown};

/// What facets say of single values. A decimal is compared by value with the least (`least`, `equal`) and with the greatest
/// (`most`, `more`); a moment by its fields in UTC (`earlier`, `later`), and a time of day by its own (`time`); two dates of which one
/// goes further have no order (`coarser`). A bound asks nothing of another kind of value (`other`), of no value (`valueless`) and of
/// an object, whatever its type is called (`complex`), and one of another type is an unread rule (`unread`). A length counts
/// characters and not bytes, as of `äöü` (`short`, `long`). A fixed value is equal (`fixed`, `wider`) and stands alone (`extended`); a
/// pattern may be fitted by more (`pattern`).
pub fn examples()
    ensures least { (m : Meaning) → range_holds m (from (codes "minValueDecimal") (number (codes "0.5"))) (decimal (codes "0.49")) ≡ false }
    ensures equal { (m : Meaning) → range_holds m (from (codes "minValueDecimal") (number (codes "0.5"))) (decimal (codes "0.50")) ≡ true }
    ensures most { (m : Meaning) → range_holds m (to (codes "maxValueInteger") (number (codes "3"))) (decimal (codes "3.5")) ≡ false }
    ensures more { (m : Meaning) → range_holds m (from (codes "minValueInteger") (number (codes "3"))) (decimal (codes "3.5")) ≡ true }
    ensures earlier { (m : Meaning) → range_holds m (from (codes "minValueDateTime") (string (codes "2020-01-01T00:00:00Z")))
        (date_time (codes "2020-01-01T00:30:00+01:00")) ≡ false }
    ensures later { (m : Meaning) → range_holds m (to (codes "maxValueInstant") (string (codes "2020-01-01T00:00:00Z")))
        (date_time (codes "2020-01-01T00:30:00+01:00")) ≡ true }
    ensures time { (m : Meaning) → range_holds m (from (codes "minValueTime") (string (codes "10:00:00")))
        (plain (codes "time") (string (codes "09:59:59"))) ≡ false }
    ensures coarser { (m : Meaning) → range_holds m (from (codes "minValueDate") (string (codes "2020"))) (date (codes "2020-02")) ≡ false }
    ensures other { (m : Meaning) → range_holds m (from (codes "minValueDate") (string (codes "2020"))) (decimal (codes "3")) ≡ true }
    ensures valueless { (m : Meaning) → range_holds m (from (codes "minValueDate") (string (codes "2020"))) (valueless (codes "date")) ≡ true }
    ensures complex { (m : Meaning) → range_holds m (from (codes "minValueDecimal") (number (codes "0.5"))) (plain (codes "decimal") one) ≡ true }
    ensures unread { (m : Meaning) → range_holds m (to (codes "maxValueQuantity") one) (decimal (codes "3")) ≡ m (range (codes "maxValueQuantity") one) }
    ensures short { length_holds (pos 3) (plain (codes "string") (string (195 ∷ 164 ∷ 195 ∷ 182 ∷ 195 ∷ 188 ∷ []))) ≡ true }
    ensures long { length_holds (pos 3) (plain (codes "string") (string (codes "abcd"))) ≡ false }
    ensures fixed { fixed_holds one (plain (codes "Quantity") one) ≡ true }
    ensures wider { fixed_holds one (plain (codes "Quantity") one_metre) ≡ false }
    ensures extended { fixed_holds (string (codes "a")) (extended (codes "code") (string (codes "a"))) ≡ false }
    ensures pattern { pattern_holds one (plain (codes "Quantity") one_metre) ≡ true }
{}

/// What a required binding says of single values. A code is looked up by itself (`code`), a Coding by its system and code
/// (`coding`), and of a CodeableConcept one coding is enough (`concept`). A text of FHIRPath's own is one too (`system`). A Coding without a system is in no set (`systemless`),
/// and where there is no value nothing is judged (`valueless`). A number, and an item of another type, hang on the unread rule
/// (`number`, `quantity`), as all items do where the set isn't known (`unknown`), also without a value (`unknown_valueless`).
pub fn examples_of_bindings()
    ensures code { (m : Meaning) (s : Concepts) → binding_holds m (known s) (plain (codes "code") (string (codes "a"))) ≡ has_code (codes "a") s }
    ensures coding { (m : Meaning) (s : Concepts) → binding_holds m (known s) (plain (codes "Coding") (coding (codes "a")))
        ≡ set.contains s (concept (codes "urn:s") (codes "a")) }
    ensures concept { (m : Meaning) (s : Concepts) → binding_holds m (known s)
        (plain (codes "CodeableConcept") (concept_of (item (coding (codes "a")) (item (coding (codes "b")) no_items))))
        ≡ (set.contains s (concept (codes "urn:s") (codes "a")) || (set.contains s (concept (codes "urn:s") (codes "b")) || false)) }
    ensures systemless { (m : Meaning) (s : Concepts) → binding_holds m (known s) (plain (codes "Coding") (no_coding (codes "a"))) ≡ false }
    ensures valueless { (m : Meaning) (s : Concepts) → binding_holds m (known s) (valueless (codes "code")) ≡ true }
    ensures system { (m : Meaning) (s : Concepts) → binding_holds m (known s)
        (plain (codes "http://hl7.org/fhirpath/System.String") (string (codes "a"))) ≡ has_code (codes "a") s }
    ensures number { (m : Meaning) (s : Concepts) → binding_holds m (known s) (decimal (codes "3")) ≡ m (binding (codes "urn:set")) }
    ensures quantity { (m : Meaning) (s : Concepts) → binding_holds m (known s) (plain (codes "Quantity") one) ≡ m (binding (codes "urn:set")) }
    ensures unknown_valueless { (m : Meaning) → binding_holds m unknown (valueless (codes "code")) ≡ m (binding (codes "urn:set")) }
    ensures unknown { (m : Meaning) → binding_holds m unknown (plain (codes "code") (string (codes "a"))) ≡ m (binding (codes "urn:set")) }
{}
