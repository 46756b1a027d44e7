//! Ids of resources (FHIR R4, Data Types, id).

ghost use Rattle.std.specs.Prelude.{◌≡◌};
ghost use Rattle.std.specs.List.{list_all};
ghost use Rattle.fhir_names.specs.ResourceIds.{is_id_byte, is_id};

fn is_id_byte(byte: u8) -> bool
    ensures { result ≡ is_id_byte byte }
{
    byte.is_ascii_alphanumeric() || byte == b'-' || byte == b'.'
}

fn are_id_bytes(bytes: &[u8]) -> bool
    ensures { result ≡ list_all is_id_byte bytes.now }
{
    bytes.iter().all(|byte| is_id_byte(*byte))
}

/// Whether a text is an id of a resource, `[A-Za-z0-9\-\.]{1,64}` (FHIR R4, Data Types, id).
pub fn is_id(text: &str) -> bool
    ensures { result ≡ is_id text.now }
{
    text.len() >= 1 && text.len() <= 64 && are_id_bytes(text.as_bytes())
}
