//! Which type codes cover which.

ghost use Rattle.std.specs.Prelude.{◌≡◌, ℕ};
ghost use Rattle.std.specs.Option.{option_map_or};
ghost use Rattle.fhir_nodes.specs.Types.{type_place};
ghost use Rattle.fhir_schema.specs.Covers.{reaches, reaches_type, covers_in, derives_in};
ghost use Rattle.fhir_schema.specs.Lineages.{IsLineage};

use crate::lineage::Lineage;
use fhir_nodes::{Table, names_resource};

fn reaches(table: &Table, lineage: &Lineage, start: usize, goal: usize) -> bool
    requires { IsLineage table.now lineage.now }
    ensures { result ≡ reaches table.now start goal }
{
    let places = table.definitions().len();
    if lineage.after(places, start).is_some() {
        return false;
    }
    lineage.comes_by(start, goal)
}

fn reaches_type(table: &Table, lineage: &Lineage, from: &str, code: &str) -> bool
    requires { IsLineage table.now lineage.now }
    ensures { result ≡ reaches_type table.now from.now code.now }
{
    // Where a path begins, most codes that are asked for are names that are no type's: one look-up tells that.
    let Some(goal) = table.type_place(code) else {
        return false;
    };
    match table.type_place(from) {
        Some(start) => reaches(table, lineage, start, goal),
        None => false,
    }
}

/// Whether a type is the other, or derives from it.
pub(crate) fn derives(table: &Table, lineage: &Lineage, code: &str, ancestor: &str) -> bool
    requires { IsLineage table.now lineage.now }
    ensures { result ≡ derives_in table.now code.now ancestor.now }
{
    code == ancestor || reaches_type(table, lineage, code, ancestor)
}

/// Whether the first code covers the other.
pub(crate) fn covers(table: &Table, lineage: &Lineage, code: &str, other: &str) -> bool
    requires { IsLineage table.now lineage.now }
    ensures { result ≡ covers_in table.now code.now other.now }
{
    code == other || (names_resource(table, code) && reaches_type(table, lineage, other, code))
}
