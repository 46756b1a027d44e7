//! Where texts are cut.

ghost use Rattle.std.specs.Prelude.{◌≡◌, ◌∷◌, ◌++◌, option_map, IfSome};
ghost use Rattle.fhir_json.specs.Bytes.{dot, slash, colon, bar};
ghost use Rattle.fhir_names.specs.Texts.{is_plain, lacks, cut_at_first, cut_at_last};

pub(crate) fn cut_at_dot(text: &str) -> Option<(&str, &str)>
    ensures parts { option_map (λ p. (p.0.now, p.1.now)) result ≡ cut_at_first dot text.now }
    ensures whole { IfSome result (λ p. text.now ≡ p.0.now ++ dot ∷ p.1.now) }
{
    text.split_once('.')
}

pub(crate) fn cut_at_colon(text: &str) -> Option<(&str, &str)>
    ensures { option_map (λ p. (p.0.now, p.1.now)) result ≡ cut_at_first colon text.now }
{
    text.split_once(':')
}

pub(crate) fn cut_at_slash(text: &str) -> Option<(&str, &str)>
    ensures { option_map (λ p. (p.0.now, p.1.now)) result ≡ cut_at_first slash text.now }
{
    text.split_once('/')
}

pub(crate) fn cut_at_last_dot(text: &str) -> Option<(&str, &str)>
    ensures { option_map (λ p. (p.0.now, p.1.now)) result ≡ cut_at_last dot text.now }
{
    text.rsplit_once('.')
}

pub(crate) fn cut_at_last_bar(text: &str) -> Option<(&str, &str)>
    ensures { option_map (λ p. (p.0.now, p.1.now)) result ≡ cut_at_last bar text.now }
{
    text.rsplit_once('|')
}

// Whether no character is below U+0020.
pub(crate) fn is_plain(text: &str) -> bool
    ensures { result ≡ is_plain text.now }
{
    text.as_bytes().iter().all(|b| *b >= b' ')
}

pub(crate) fn lacks_slash(text: &str) -> bool
    ensures { result ≡ lacks slash text.now }
{
    text.as_bytes().iter().all(|b| *b != b'/')
}
