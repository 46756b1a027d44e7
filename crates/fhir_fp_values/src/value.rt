//! The values of a result.

use fhir_decimal::Number;
use fhir_instance::Typed;

/// One value of a result. It borrows from the items and from the expression.
#[derive(Clone, Copy)]
pub enum Value<'e, 'a, 'j> {
    /// An item of a resource.
    Node(&'e Typed<'a, 'j>),
    /// A boolean.
    Truth(bool),
    /// A number, as the expression writes it, or a count.
    Number(Number<'e>),
    /// A string.
    Text(&'e str),
}
