//! Which definition a type code names, and of what kind its type is.

ghost use Rattle.std.specs.Prelude.{◌≡◌};
ghost use Rattle.std.specs.Option.{option_copied, option_map};
ghost use Rattle.fhir_definition.specs.Snapshot.{root_place};
ghost use Rattle.fhir_nodes.specs.Types.{type_of_code, root_of_code, is_resource, names_resource, names_primitive, primitive_of, is_system};

use crate::node::NodeRef;
use crate::table::Table;
use fhir_definition::Definition;
use fhir_prims::PrimType;

/// The definition of a type.
pub fn type_of_code<'t>(table: &'t Table, code: &str) -> Option<&'t Definition>
    ensures { option_copied result ≡ type_of_code table.now code.now }
{
    table.definition(table.type_place(code)?)
}

// The root of a definition.
fn root_of(definition: &Definition) -> Option<NodeRef>
    ensures { result ≡ option_map (λ e. record { definition = definition.now.place; element = e }) (root_place definition.now.elements) }
{
    match definition.root() {
        Some(element) => Some(NodeRef {
            definition: definition.place(),
            element,
        }),
        None => None,
    }
}

/// The root of the definition of a type.
pub fn root_of_code(table: &Table, code: &str) -> Option<NodeRef>
    ensures { result ≡ root_of_code table.now code.now }
{
    root_of(type_of_code(table, code)?)
}

/// Whether it is of a resource.
pub fn is_resource(definition: &Definition) -> bool
    ensures { result ≡ is_resource definition.now }
{
    definition.kind().is_some_and(|kind| kind.is_resource())
}

/// Whether a code names the type of a resource.
pub fn names_resource(table: &Table, code: &str) -> bool
    ensures { result ≡ names_resource table.now code.now }
{
    match type_of_code(table, code) {
        Some(definition) => is_resource(definition),
        None => false,
    }
}

/// Whether a code names a primitive type.
pub(crate) fn names_primitive(table: &Table, code: &str) -> bool
    ensures { result ≡ names_primitive table.now code.now }
{
    match type_of_code(table, code) {
        Some(definition) => definition.is_primitive(),
        None => false,
    }
}

/// The primitive type that a code names.
pub fn primitive_of(table: &Table, code: &str) -> Option<PrimType>
    ensures { result ≡ primitive_of table.now code.now }
{
    if names_primitive(table, code) {
        PrimType::of(code)
    } else {
        None
    }
}

/// Whether a code is that of one of FHIRPath's own types.
pub fn is_system(code: &str) -> bool
    ensures { result ≡ is_system code.now }
{
    code.as_bytes()
        .starts_with(b"http://hl7.org/fhirpath/System.")
}
