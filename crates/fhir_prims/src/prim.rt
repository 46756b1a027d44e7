//! The primitive types (FHIR R4, Data Types).

ghost use Rattle.std.specs.Prelude.{◌≡◌};
ghost use Rattle.fhir_prims.specs.Values.{prim_of};

/// The primitive types (FHIR R4, Data Types).
#[derive(Clone, Copy, Debug, PartialEq, Eq)]
pub enum PrimType {
    /// `true` or `false`: a JSON boolean (FHIR R4, Data Types, boolean).
    Boolean,
    /// A whole number from -2147483648 to 2147483647: a JSON number (FHIR R4, Data Types, integer).
    Integer,
    /// A whole number from 0 to 2147483647: a JSON number (FHIR R4, Data Types, unsignedInt).
    UnsignedInt,
    /// A whole number from 1 to 2147483647: a JSON number (FHIR R4, Data Types, positiveInt).
    PositiveInt,
    /// A decimal number as it is written: a JSON number (FHIR R4, Data Types, decimal).
    Decimal,
    /// Unicode characters: a JSON string (FHIR R4, Data Types, string).
    String,
    /// Text with marks of GitHub Flavored Markdown: a JSON string (FHIR R4, Data Types, markdown).
    Markdown,
    /// A part of a page in XHTML: a JSON string, of which only emptiness is looked at here (FHIR R4, Narrative, xhtml).
    Xhtml,
    /// Words with one blank between them: a JSON string (FHIR R4, Data Types, code).
    Code,
    /// The id of a resource: a JSON string (FHIR R4, Data Types, id).
    Id,
    /// A uniform resource identifier: a JSON string without blanks (FHIR R4, Data Types, uri).
    Uri,
    /// A uniform resource locator: a JSON string of a uri's form (FHIR R4, Data Types, url).
    Url,
    /// The url of a definition, perhaps with its version: a JSON string of a uri's form (FHIR R4, Data Types, canonical).
    Canonical,
    /// An OID as `urn:oid:`: a JSON string (FHIR R4, Data Types, oid).
    Oid,
    /// A UUID as `urn:uuid:`, in small letters: a JSON string (FHIR R4, Data Types, uuid).
    Uuid,
    /// Bytes in base64: a JSON string (FHIR R4, Data Types, base64Binary).
    Base64Binary,
    /// A year, a month or a day: a JSON string (FHIR R4, Data Types, date).
    Date,
    /// A date, or a day with a time and a zone: a JSON string (FHIR R4, Data Types, dateTime).
    DateTime,
    /// A day with a time and a zone: a JSON string (FHIR R4, Data Types, instant).
    Instant,
    /// A time of day: a JSON string (FHIR R4, Data Types, time).
    Time,
}

impl PrimType {
    /// The primitive type of a code, if it is one's (FHIR R4, Data Types).
    pub fn of(code: &str) -> Option<PrimType>
        ensures { result ≡ prim_of code.now }
    {
        match code {
            "boolean" => Some(PrimType::Boolean),
            "integer" => Some(PrimType::Integer),
            "unsignedInt" => Some(PrimType::UnsignedInt),
            "positiveInt" => Some(PrimType::PositiveInt),
            "decimal" => Some(PrimType::Decimal),
            "string" => Some(PrimType::String),
            "markdown" => Some(PrimType::Markdown),
            "xhtml" => Some(PrimType::Xhtml),
            "code" => Some(PrimType::Code),
            "base64Binary" => Some(PrimType::Base64Binary),
            "id" => Some(PrimType::Id),
            "uri" => Some(PrimType::Uri),
            "url" => Some(PrimType::Url),
            "canonical" => Some(PrimType::Canonical),
            "oid" => Some(PrimType::Oid),
            "uuid" => Some(PrimType::Uuid),
            "date" => Some(PrimType::Date),
            "dateTime" => Some(PrimType::DateTime),
            "instant" => Some(PrimType::Instant),
            "time" => Some(PrimType::Time),
            _ => None,
        }
    }
}
