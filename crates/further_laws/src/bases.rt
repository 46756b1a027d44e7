//! Bases of definitions (FHIR R4, StructureDefinition, baseDefinition).

ghost use Rattle.std.specs.Prelude.{◌≡◌, ◌↔◌, ◌⊎◌, IsTrue};
ghost use Rattle.fhir_json.specs.Tree.{Text};
ghost use Rattle.fhir_package.specs.Definitions.{Definitions};
ghost use Rattle.fhir_definition.specs.Definition.{Definition};
ghost use Rattle.fhir_nodes.specs.Types.{names_resource};
ghost use Rattle.fhir_schema.specs.Settling.{base_place, chain_ends};
ghost use Rattle.fhir_schema.specs.Schemas.{schema_of};
ghost use Rattle.fhir_schema.specs.Covers.{covers};
ghost use Rattle.further_laws.specs.Bases.{Ends, Leads};

/// The chain of a definition's bases doesn't run in a cycle exactly where some number of steps leads to no base.
pub fn chains_of_bases()
    ensures { (p : Definitions) (d : Definition) → IsTrue (chain_ends (schema_of p).definitions d)
        ↔ Ends (schema_of p).definitions (base_place (schema_of p).definitions d) }
{}

/// A code covers another exactly where they are the same, or it is of a resource and some number of steps to the base leads from
/// the other's definition to its own, in a chain that ends.
pub fn covered_codes()
    ensures { (p : Definitions) (code other : Text) → IsTrue (covers (schema_of p) code other)
        ↔ ((code ≡ other) ⊎ (IsTrue (names_resource (schema_of p).definitions code) × Leads (schema_of p).definitions other code)) }
{}
