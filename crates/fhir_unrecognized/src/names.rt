//! The names of the members that R4 has in an object.

ghost use Rattle.std.specs.Prelude.{◌≡◌};
ghost use Rattle.fhir_json.specs.Sound.{is_among};
ghost use Rattle.fhir_unrecognized.specs.Members.{resource_names, common_names, structure_names, code_system_names, element_names, own_names};

use crate::object::Object;

fn is_resource_name(name: &str) -> bool
    ensures { result ≡ is_among name.now resource_names }
{
    match name {
        "resourceType" | "id" | "meta" | "implicitRules" | "language" | "text" => true,
        "contained" | "extension" | "modifierExtension" => true,
        "url" | "identifier" | "version" | "name" | "title" | "status" | "experimental" => true,
        "date" | "publisher" | "contact" | "description" | "useContext" | "jurisdiction" => true,
        "purpose" | "copyright" => true,
        _ => false,
    }
}

/// Whether each object of its kind has it.
pub(crate) fn is_common_name(object: Object, name: &str) -> bool
    ensures { result ≡ is_among name.now (common_names object) }
{
    match object {
        Object::StructureDefinition => is_resource_name(name),
        Object::ValueSet | Object::CodeSystem => is_resource_name(name),
        Object::ElementType | Object::Binding => matches!(name, "id" | "extension"),
        Object::Constraint | Object::Slicing => matches!(name, "id" | "extension"),
        Object::Discriminator | Object::Base => matches!(name, "id" | "extension"),
        _ => matches!(name, "id" | "extension" | "modifierExtension"),
    }
}

fn is_structure_name(name: &str) -> bool
    ensures { result ≡ is_among name.now structure_names }
{
    match name {
        "keyword" | "fhirVersion" | "mapping" | "kind" | "abstract" | "context" => true,
        "contextInvariant" | "type" | "baseDefinition" | "derivation" => true,
        "snapshot" | "differential" => true,
        _ => false,
    }
}

fn is_code_system_name(name: &str) -> bool
    ensures { result ≡ is_among name.now code_system_names }
{
    match name {
        "caseSensitive" | "valueSet" | "hierarchyMeaning" | "compositional" => true,
        "versionNeeded" | "content" | "supplements" | "count" | "filter" => true,
        "property" | "concept" => true,
        _ => false,
    }
}

fn is_element_name(name: &str) -> bool
    ensures { result ≡ is_among name.now element_names }
{
    match name {
        "path" | "representation" | "sliceName" | "sliceIsConstraining" | "label" | "code" => true,
        "slicing" | "short" | "definition" | "comment" | "requirements" | "alias" => true,
        "min" | "max" | "base" | "contentReference" | "type" | "meaningWhenMissing" => true,
        "orderMeaning" | "example" | "maxLength" | "condition" | "constraint" => true,
        "mustSupport" | "isModifier" | "isModifierReason" | "isSummary" => true,
        "binding" | "mapping" => true,
        _ => false,
    }
}

/// Whether the object has it besides.
pub(crate) fn is_own_name(object: Object, name: &str) -> bool
    ensures { result ≡ is_among name.now (own_names object) }
{
    match object {
        Object::StructureDefinition => is_structure_name(name),
        Object::ValueSet => matches!(name, "immutable" | "compose" | "expansion"),
        Object::CodeSystem => is_code_system_name(name),
        Object::Snapshot | Object::Differential => name == "element",
        Object::Element => is_element_name(name),
        Object::ElementType => match name {
            "code" | "profile" | "targetProfile" | "aggregation" | "versioning" => true,
            _ => false,
        },
        Object::Binding => matches!(name, "strength" | "description" | "valueSet"),
        Object::Constraint => match name {
            "key" | "requirements" | "severity" | "human" | "expression" => true,
            "xpath" | "source" => true,
            _ => false,
        },
        Object::Slicing => matches!(name, "discriminator" | "description" | "ordered" | "rules"),
        Object::Discriminator => matches!(name, "type" | "path"),
        Object::Base => matches!(name, "path" | "min" | "max"),
        Object::Compose => matches!(name, "lockedDate" | "inactive" | "include" | "exclude"),
        Object::Include => match name {
            "system" | "version" | "concept" | "filter" | "valueSet" => true,
            _ => false,
        },
        Object::ListedConcept => matches!(name, "code" | "display" | "designation"),
        Object::Filter => matches!(name, "property" | "op" | "value"),
        Object::Concept => match name {
            "code" | "display" | "definition" | "designation" | "property" | "concept" => true,
            _ => false,
        },
    }
}
