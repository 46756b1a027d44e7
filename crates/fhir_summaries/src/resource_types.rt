//! Which definitions are of types of resources.

ghost use Rattle.std.specs.Prelude.{◌≡◌, IfOk, map, drop};
ghost use Rattle.std.specs.List.{slice_get};
ghost use Rattle.fhir_nodes.specs.Types.{names_resource};
ghost use Rattle.fhir_summaries.specs.ResourceTypes.{of_resources};

use fhir_nodes::{Table, names_resource};
use std::alloc::{AllocError, Global};
use std::marker::Model;

/// Of each definition of a table, whether the type that it defines or constrains is of resources (FHIR R4, StructureDefinition, kind).
#[derive(Drop)]
pub struct ResourceTypes {
    rows: Vec<bool>,
}

impl Model for ResourceTypes {
    ghost use Rattle.std.specs.Prelude.{List, Bool};

    ghost Value = { List Bool };

    ghost view = { λ t. t.rows.items };
}

impl ResourceTypes {
    /// Those of a table. It looks each type up once. The one refusal is want of memory.
    pub fn of(alloc: Global, table: &Table) -> Result<ResourceTypes, AllocError>
        ensures { IfOk result (λ t. t ≡ of_resources table.now) }
    {
        let mut rows = Vec::new(alloc);
        for definition in table.definitions() {
            rows.push(names_resource(table, definition.type_code()))?;
        }
        Ok(ResourceTypes { rows })
    }

    /// Whether the definition at a place is of such a type, if one is there.
    pub fn at(&self, place: usize) -> Option<bool>
        ensures { result ≡ slice_get self.now place }
    {
        self.rows.get(place).copied()
    }
}
