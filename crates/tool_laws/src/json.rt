//! Bytes and the values that they are (RFC 8259).

ghost use Rattle.std.specs.Prelude.{◌≡◌, ◌++◌, ◌||◌, ◌==◌, ℕ, [], ◌∷◌, map, true, false, Ok, codes};
ghost use Rattle.fhir_json.specs.Tree.{null, boolean, number, string};
ghost use Rattle.fhir_json.specs.Bytes.{is_blank};
ghost use Rattle.fhir_json.specs.Number.{is_number};
ghost use Rattle.fhir_json.specs.Reading.{reading};
ghost use Rattle.fhir_json.specs.Compact.{compact};
ghost use Rattle.tool_laws.specs.Trees.{list, fields};

/// A blank is a space, a tab, a line feed or a carriage return (section 2), and nothing else is.
pub fn blanks_of_json()
    ensures { (b : ℕ) → is_blank b ≡ ((b == 0x20) || (b == 0x09) || (b == 0x0a) || (b == 0x0d)) }
{}

/// What a backslash and a letter stand for (section 7): the eight of them in turn, a quotation mark, a backslash, a slash, a backspace, a
/// form feed, a line feed, a carriage return and a tab (`letters`). What four hexadecimal digits stand for, in small letters or in large
/// ones (`digits`); and the pair of the G clef, which is the standard's example of one (`pair`). Each character is told by its bytes in UTF-8.
pub fn escaped_characters()
    ensures letters { reading (codes "\"\\\"\\\\\\/\\b\\f\\n\\r\\t\"")
        ≡ Ok (string (0x22 ∷ 0x5c ∷ 0x2f ∷ 0x08 ∷ 0x0c ∷ 0x0a ∷ 0x0d ∷ 0x09 ∷ [])) }
    ensures digits { reading (codes "\"\\u0041\\u00e9\\u00E9\\u20AC\"")
        ≡ Ok (string (0x41 ∷ 0xc3 ∷ 0xa9 ∷ 0xc3 ∷ 0xa9 ∷ 0xe2 ∷ 0x82 ∷ 0xac ∷ [])) }
    ensures pair { reading (codes "\"\\uD834\\uDD1E\"") ≡ Ok (string (0xf0 ∷ 0x9d ∷ 0x84 ∷ 0x9e ∷ [])) }
{}

/// Which texts are numbers (section 6): some that are (`are`), and some that aren't (`none`), as one with a plus sign, with a needless
/// zero, or with a dot and no digit on either side.
pub fn numbers_of_json()
    ensures are { map is_number (codes "0" ∷ codes "-0" ∷ codes "10" ∷ codes "-12.50" ∷ codes "0.5" ∷ codes "1e5" ∷ codes "1E+05" ∷ codes "1.0e-10" ∷ [])
        ≡ true ∷ true ∷ true ∷ true ∷ true ∷ true ∷ true ∷ true ∷ [] }
    ensures none { map is_number (codes "" ∷ codes "-" ∷ codes "+1" ∷ codes "01" ∷ codes "-01" ∷ codes "1." ∷ codes ".5" ∷ codes "1e" ∷ codes "1e+"
        ∷ codes "1 " ∷ codes "0x1" ∷ codes "1.5.0" ∷ codes "--1" ∷ codes "NaN" ∷ [])
        ≡ false ∷ false ∷ false ∷ false ∷ false ∷ false ∷ false ∷ false ∷ false ∷ false ∷ false ∷ false ∷ false ∷ false ∷ [] }
{}

/// A text and the value that it is (sections 3 to 5), with blanks wherever there may be some: the items and the members in their order, and
/// each number as it is written.
pub fn values_of_json()
    ensures { reading (codes " { \"a\" : [ true , false , null , -1.50 ] , \"\" : {} , \"b\" : [] , \"c\" : \"d\" }\n")
        ≡ Ok (fields ((codes "a", list (boolean true ∷ boolean false ∷ null ∷ number (codes "-1.50") ∷ []))
        ∷ ([], fields []) ∷ (codes "b", list []) ∷ (codes "c", string (codes "d")) ∷ [])) }
{}

/// How values are written: without blanks (`values`), with as few escapes as can be, and a control character by its letter, or by its code
/// where it has none (`escapes`).
pub fn written_values()
    ensures values { compact (fields ((codes "a", list (boolean true ∷ boolean false ∷ null ∷ number (codes "-1.50") ∷ []))
        ∷ (codes "b", fields []) ∷ (codes "c", string (codes "d")) ∷ []))
        ≡ codes "{\"a\":[true,false,null,-1.50],\"b\":{},\"c\":\"d\"}" }
    ensures escapes { compact (string (0x22 ∷ 0x5c ∷ 0x2f ∷ 0x08 ∷ 0x0c ∷ 0x0a ∷ 0x0d ∷ 0x09 ∷ 0x00 ∷ 0x1f ∷ 0x7f ∷ []))
        ≡ codes "\"\\\"\\\\/\\b\\f\\n\\r\\t\\u0000\\u001f" ++ (0x7f ∷ 0x22 ∷ []) }
{}
