//! How pages are written (HTML).

ghost use Rattle.std.specs.Prelude.{◌≡◌, ◌++◌, [], ◌∷◌, map, true, false, codes};
ghost use Rattle.fhir_markup.specs.declared.names.Tag.TheVariants.{P, A, Meta};
ghost use Rattle.fhir_markup.specs.declared.names.AttributeName.TheVariants.{Class};
ghost use Rattle.fhir_markup.specs.declared.names.Part.TheVariants.{Profile};
ghost use Rattle.fhir_markup.specs.Markup.{fixed, place, link, words, element, none, also, is_coded, html, document};

/// Which characters are shown by their codes: each control character but a line feed (`controls`), and each that turns the direction of
/// writing, by embedding, by overriding or by isolating (Unicode, UAX 9, section 2), or ends that (`turning`). Those beside them are shown
/// themselves (`others`).
pub fn hidden_characters()
    ensures controls { map is_coded (0x00 ∷ 0x08 ∷ 0x09 ∷ 0x0a ∷ 0x0b ∷ 0x0d ∷ 0x1b ∷ 0x1f ∷ 0x7f ∷ 0x80 ∷ 0x85 ∷ 0x9f ∷ [])
        ≡ true ∷ true ∷ true ∷ false ∷ true ∷ true ∷ true ∷ true ∷ true ∷ true ∷ true ∷ true ∷ [] }
    ensures turning { map is_coded (0x202a ∷ 0x202b ∷ 0x202c ∷ 0x202d ∷ 0x202e ∷ 0x2066 ∷ 0x2067 ∷ 0x2068 ∷ 0x2069 ∷ [])
        ≡ true ∷ true ∷ true ∷ true ∷ true ∷ true ∷ true ∷ true ∷ true ∷ [] }
    ensures others { map is_coded (0x20 ∷ 0x41 ∷ 0x7e ∷ 0xa0 ∷ 0xe9 ∷ 0x2029 ∷ 0x202f ∷ 0x2065 ∷ 0x206a ∷ 0x1f600 ∷ [])
        ≡ false ∷ false ∷ false ∷ false ∷ false ∷ false ∷ false ∷ false ∷ false ∷ false ∷ [] }
{}

/// A small page: its tags, its attributes in quotation marks, and its texts, in which what begins or ends those stands by its reference
/// (`tree`). A character that would hide what the page says stands by its code (`coded`). Above the first tag stands what HTML begins with
/// (`whole`).
pub fn written_pages()
    ensures tree { html (element P (fixed Class (codes "a\"b") ∷ place Profile 3 ∷ [])
        (also (words (codes "1 < 2 & 'x' > \"y\"")) (also (element A (link Profile 12 ∷ []) (also (words (codes "p")) none)) (also (element Meta [] none) none))))
        ≡ codes "<p class=\"a&quot;b\" id=\"p3\">1 &lt; 2 &amp; &#39;x&#39; &gt; &quot;y&quot;<a href=\"#p12\">p</a><meta></p>" }
    ensures coded { html (words (codes "a" ++ (0xe2 ∷ 0x80 ∷ 0xae ∷ 0x1b ∷ codes "b\n"))) ≡ codes "a\\u202e\\u001bb\n" }
    ensures whole { document (words (codes "a")) ≡ codes "<!DOCTYPE html>\na" }
{}
