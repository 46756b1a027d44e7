//! Classes of bytes.

ghost use Rattle.std.specs.Prelude.{◌≡◌};
ghost use Rattle.std.specs.Char.{is_ascii_digit};
ghost use Rattle.std.specs.List.{list_all};
ghost use Rattle.fhir_json.specs.Bytes.{is_blank};
ghost use Rattle.fhir_decimal.specs.Text.{are_digits};
ghost use Rattle.fhir_prims.specs.Bytes.{is_lowercase_hexdigit, is_base64_byte, is_text_byte};

pub(crate) fn is_blank(byte: u8) -> bool
    ensures { result ≡ is_blank byte }
{
    byte == b' ' || byte == b'\t' || byte == b'\n' || byte == b'\r'
}

pub(crate) fn is_lowercase_hexdigit(byte: u8) -> bool
    ensures { result ≡ is_lowercase_hexdigit byte }
{
    byte.is_ascii_hexdigit() && !byte.is_ascii_uppercase()
}

pub(crate) fn is_base64_byte(byte: u8) -> bool
    ensures { result ≡ is_base64_byte byte }
{
    byte.is_ascii_alphanumeric() || byte == b'+' || byte == b'/' || byte == b'='
}

pub(crate) fn is_text_byte(byte: u8) -> bool
    ensures { result ≡ is_text_byte byte }
{
    byte >= b' ' || byte == b'\t' || byte == b'\n' || byte == b'\r'
}

fn all_digits(text: &[u8]) -> bool
    ensures { result ≡ list_all is_ascii_digit text.now }
{
    text.iter().all(|byte| byte.is_ascii_digit())
}

// One digit or more, and nothing else.
pub(crate) fn are_digits(text: &[u8]) -> bool
    ensures { result ≡ are_digits text.now }
{
    !text.is_empty() && all_digits(text)
}
