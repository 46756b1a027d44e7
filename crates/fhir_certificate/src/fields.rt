//! Where a text is cut: into lines, and these into fields.

ghost use Rattle.std.specs.Prelude.{◌≡◌, ◌<◌, [], ◌∷◌, length, IfSome, MatchOption};
ghost use Rattle.fhir_json.specs.Views.{text_seen};
ghost use Rattle.fhir_json.specs.Bytes.{tab, line_feed};
ghost use Rattle.fhir_certificate.specs.Format.{is_field};
ghost use Rattle.fhir_certificate.specs.Reading.{cut_at, lines_of, is_ended, field_at, behind_field, behind_line, field_of, field_line};
ghost use Rattle.fhir_certificate.specs.Views.{parts_seen};

/// What stands before the first tab and behind it.
pub(crate) fn cut_at_tab(text: &str) -> Option<(&str, &str)>
    ensures { parts_seen result ≡ cut_at tab text.now }
{
    text.split_once('\t')
}

/// The first line, and what stands behind it.
pub(crate) fn cut_at_feed(text: &str) -> Option<(&str, &str)>
    ensures parts { parts_seen result ≡ cut_at line_feed text.now }
    ensures lines { MatchOption result (lines_of text.now ≡ []) (λ p. lines_of text.now ≡ p.0.now ∷ lines_of p.1.now) }
    ensures ended { IfSome result (λ p. is_ended text.now ≡ is_ended p.1.now) }
    ensures shorter { IfSome result (λ p. length p.1.now < length text.now) }
{
    text.split_once('\n')
}

/// Whether a text has no tab and no line feed.
pub(crate) fn is_field(text: &str) -> bool
    ensures { result ≡ is_field text.now }
{
    text.as_bytes().iter().all(|b| *b != b'\t' && *b != b'\n')
}

/// The first field, and what stands behind its tab.
pub(crate) fn field_at(text: &str) -> Option<(&str, &str)>
    ensures { parts_seen result ≡ field_at text.now }
{
    let (field, rest) = cut_at_tab(text)?;
    if is_field(field) {
        Some((field, rest))
    } else {
        None
    }
}

/// What stands behind a first field that is this.
pub(crate) fn behind_field<'a>(word: &str, text: &'a str) -> Option<&'a str>
    ensures { text_seen result ≡ behind_field word.now text.now }
{
    let (field, rest) = cut_at_tab(text)?;
    if field == word { Some(rest) } else { None }
}

/// What stands behind a first line that is this.
pub(crate) fn behind_line<'a>(word: &str, text: &'a str) -> Option<&'a str>
    ensures { text_seen result ≡ behind_line word.now text.now }
{
    let (line, rest) = cut_at_feed(text)?;
    if line == word { Some(rest) } else { None }
}

fn field_of<'a>(word: &str, line: &'a str) -> Option<&'a str>
    ensures { text_seen result ≡ field_of word.now line.now }
{
    let (own, field) = cut_at_tab(line)?;
    if own == word && is_field(field) {
        Some(field)
    } else {
        None
    }
}

/// The field of a first line with this word, and what stands behind the line.
pub(crate) fn field_line<'a>(word: &str, text: &'a str) -> Option<(&'a str, &'a str)>
    ensures { parts_seen result ≡ field_line word.now text.now }
{
    let (line, rest) = cut_at_feed(text)?;
    Some((field_of(word, line)?, rest))
}
