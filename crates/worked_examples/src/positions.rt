//! Places in texts at work.

ghost use Rattle.std.specs.Prelude.{◌≡◌, [], ◌∷◌, ◌++◌, codes};
ghost use Rattle.std.specs.List.{repeat};
ghost use Rattle.fhir_json.specs.Bytes.{carriage_return, line_feed};
ghost use Rattle.fhir_json.specs.declared.refusal.Expected.TheVariants as wants;
ghost use Rattle.fhir_json.specs.Grammar.{mark};
ghost use Rattle.worked_examples.specs.Positions.{wide, at, positions_in, faults_of, missing};

/// The lines and columns of small texts, behind so many bytes. A line ends with a line feed (`line_feed`), also where a carriage return
/// stands before it (`pair`); a carriage return alone ends none (`carriage_return`). Columns count characters, here of two, three and
/// four bytes (`wide`). A byte order mark at the front counts for none (`mark`), and elsewhere it is a character (`mark_inside`).
/// Behind the end there is no other place than the end (`end`).
pub fn positions_example()
    ensures first_line { positions_in (codes "ab") (0 ∷ 1 ∷ 2 ∷ []) ≡ at 1 1 ∷ at 1 2 ∷ at 1 3 ∷ [] }
    ensures line_feed { positions_in (codes "a\nb") (1 ∷ 2 ∷ 3 ∷ []) ≡ at 1 2 ∷ at 2 1 ∷ at 2 2 ∷ [] }
    ensures pair { positions_in (codes "a" ++ carriage_return ∷ line_feed ∷ codes "b") (1 ∷ 2 ∷ 3 ∷ 4 ∷ []) ≡ at 1 2 ∷ at 1 3 ∷ at 2 1 ∷ at 2 2 ∷ [] }
    ensures carriage_return { positions_in (codes "a" ++ carriage_return ∷ codes "b") (1 ∷ 2 ∷ 3 ∷ []) ≡ at 1 2 ∷ at 1 3 ∷ at 1 4 ∷ [] }
    ensures wide { positions_in wide (0 ∷ 2 ∷ 5 ∷ 9 ∷ []) ≡ at 1 1 ∷ at 1 2 ∷ at 1 3 ∷ at 1 4 ∷ [] }
    ensures mark { positions_in (mark ++ codes "ab") (0 ∷ 3 ∷ 4 ∷ []) ≡ at 1 1 ∷ at 1 1 ∷ at 1 2 ∷ [] }
    ensures mark_inside { positions_in (codes "a" ++ mark ++ codes "b") (1 ∷ 4 ∷ []) ≡ at 1 2 ∷ at 1 3 ∷ [] }
    ensures end { positions_in (codes "ab") (3 ∷ []) ≡ at 1 3 ∷ [] }
{}

/// Where small files stop being JSON (RFC 8259), and what was expected there: on the first line and behind it, behind a byte order mark,
/// of which there may be one (`second_mark`), and behind characters of more than one byte (`wide`); and each thing that can be expected.
/// Bytes that aren't UTF-8 are told before all else (`utf8_first`). A fault is told at the start of what is at fault: of a number
/// (`number`), of a name that stood before it (`new_name`), of the digits of an escape (`digits`), at the first bracket that nests too
/// deep (`levels`); 128 levels are not (`deepest`).
pub fn stops_example()
    ensures first_line { faults_of (codes "[1,]") ≡ missing wants.Value 1 4 }
    ensures line_feed { faults_of (codes "[1,\n]") ≡ missing wants.Value 2 1 }
    ensures pair { faults_of (codes "[1," ++ carriage_return ∷ line_feed ∷ codes "]") ≡ missing wants.Value 2 1 }
    ensures mark { faults_of (mark ++ codes "[1,]") ≡ missing wants.Value 1 4 }
    ensures second_mark { faults_of (mark ++ mark ++ codes "1") ≡ missing wants.Value 1 1 }
    ensures wide { faults_of (codes "[\"" ++ wide ++ codes "\",]") ≡ missing wants.Value 1 8 }
    ensures nothing { faults_of [] ≡ missing wants.Value 1 1 }
    ensures number { faults_of (codes "[-]") ≡ missing wants.Value 1 2 }
    ensures name { faults_of (codes "{1}") ≡ missing wants.Name 1 2 }
    ensures new_name { faults_of (codes "{\"a\":1,\"a\":2}") ≡ missing wants.NewName 1 8 }
    ensures colon { faults_of (codes "{\"a\" 1}") ≡ missing wants.Colon 1 6 }
    ensures comma { faults_of (codes "[1 2]") ≡ missing wants.CommaOrEnd 1 4 }
    ensures end_of_list { faults_of (codes "[1") ≡ missing wants.CommaOrEnd 1 3 }
    ensures end_of_string { faults_of (codes "\"a") ≡ missing wants.EndOfString 1 3 }
    ensures character { faults_of (codes "\"\n\"") ≡ missing wants.Character 1 2 }
    ensures escape { faults_of (codes "\"\\x\"") ≡ missing wants.Escape 1 3 }
    ensures digits { faults_of (codes "\"\\u00G0\"") ≡ missing wants.Escape 1 4 }
    ensures lower_half { faults_of (codes "\"\\uDC00\"") ≡ missing wants.OtherHalf 1 4 }
    ensures upper_half { faults_of (codes "\"\\uD800\"") ≡ missing wants.OtherHalf 1 8 }
    ensures levels { faults_of (repeat 129 (codes "[")) ≡ missing wants.FewerLevels 1 129 }
    ensures deepest { faults_of (repeat 128 (codes "[")) ≡ missing wants.CommaOrEnd 1 129 }
    ensures behind { faults_of (codes "1 2") ≡ missing wants.End 1 3 }
    ensures utf8 { faults_of (codes "\"" ++ wide ++ 0xff ∷ codes "\"") ≡ missing wants.Utf8 1 5 }
    ensures utf8_first { faults_of (codes "[,]" ++ 0xff ∷ []) ≡ missing wants.Utf8 1 4 }
    ensures json { faults_of (codes "[1]") ≡ [] }
{}
