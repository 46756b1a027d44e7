//! Which definition a canonical names.

ghost use Rattle.std.specs.Prelude.{◌≡◌};
ghost use Rattle.std.specs.Option.{option_map_or, option_and_then};
ghost use Rattle.std.specs.List.{slice_get};
ghost use Rattle.fhir_nodes.specs.Urls.{is_versioned, where_versioned, version_place, canonical_place};

use crate::table::Table;
use fhir_names::Canonical;
use fhir_package::has_version;

fn is_versioned(table: &Table, version: &str, place: usize) -> bool
    ensures { result ≡ is_versioned table.now version.now place }
{
    match table.definition(place) {
        Some(definition) => has_version(version, definition.version()),
        None => false,
    }
}

fn version_place(table: &Table, canonical: &Canonical<'_>) -> Option<usize>
    ensures { result ≡ version_place table.now canonical.now }
{
    let place = table.url_place(canonical.url())?;
    match canonical.version() {
        Some(version) if !is_versioned(table, version, place) => None,
        _ => Some(place),
    }
}

/// The place of the definition that a canonical names: that of its url, where it has no version or the one behind `|`.
/// A text that is no canonical names none.
pub fn canonical_place(table: &Table, canonical: &str) -> Option<usize>
    ensures { result ≡ canonical_place table.now canonical.now }
{
    match Canonical::parse(canonical) {
        Ok(canonical) => version_place(table, &canonical),
        Err(_) => None,
    }
}
