//! What was expected of a JSON text, and why a definition has no snapshot, in plain words.

use fhir_json::Expected;
use fhir_snapshot::SnapFault;

/// What was expected.
pub(crate) fn expected_words(expected: Expected) -> &'static str {
    match expected {
        Expected::Utf8 => "bytes of UTF-8 were expected",
        Expected::Value => "a value was expected",
        Expected::Name => "a name in quotation marks was expected",
        Expected::NewName => "a name was expected that no member before it has",
        Expected::Colon => "a colon was expected",
        Expected::CommaOrEnd => "the closing bracket was expected, or a comma behind a value",
        Expected::EndOfString => "the closing quotation mark was expected",
        Expected::Character => "a character was expected that needs no escape",
        Expected::Escape => {
            "one of \"\\/bfnrt, or u and four hexadecimal digits, was expected behind the backslash"
        }
        Expected::OtherHalf => "the other half of a surrogate pair was expected",
        Expected::FewerLevels => "no more than 128 arrays and objects in one another were expected",
        Expected::End => "the end of the file was expected",
        Expected::Memory => "memory was expected",
    }
}

/// Why a definition has no snapshot.
pub(crate) fn lacking_words(fault: &SnapFault) -> &'static str {
    match fault {
        SnapFault::Missing => "its base isn't in the package, or one further down",
        SnapFault::BaseCycle => "its bases lead back to one of them",
        SnapFault::NoSnapshot => {
            "it defines a type, or rests on a definition that does, and that brings no snapshot"
        }
        SnapFault::WrongPart => {
            "its `snapshot` or `differential`, or that of a base, is no object with an array `element`"
        }
        SnapFault::WrongElement(_) => {
            "the element, here or in a base, has a field of a wrong kind or value, an `id` that can't be read, `min` over `max`, or a type twice"
        }
        SnapFault::NoElement(_) => {
            "the differential, here or in a base, has an element of this id that isn't in what it is laid over, and that could inherit from none there; it may be misspelt, or one above it left out"
        }
        SnapFault::MinOverMax(_) =>
            "`min` is over `max`, here or in a base, as the differential is laid over what it inherits",
        SnapFault::RepeatedId(_) =>
            "two elements of the differential, here or in a base, have this id",
        SnapFault::NoMemory => "memory was expected",
    }
}
