//! The profiles that an item is asked, since a type of its element names them.

ghost use Rattle.std.specs.Prelude.{◌≡◌, ◌++◌, ◌∷◌, [], map, string_bytes, OnOk};
ghost use Rattle.std.specs.Option.{option_map_or};
ghost use Rattle.std.specs.List.{flat_map};
ghost use Rattle.fhir_schema.specs.Schemas.{loaded};
ghost use Rattle.fhir_instance.specs.View.{item_of};
ghost use Rattle.fhir_conformance.specs.Asks.{profile, roots_named, entry_roots, profile_asks};
ghost use Rattle.fhir_conformance.specs.Views.{asks_seen};

use crate::ask::Ask;
use fhir_elements::TypeEntry;
use fhir_instance::Typed;
use fhir_json::NoMemory;
use fhir_schema::{NodeRef, Schema};

fn put_profile(asked: &mut Vec<Ask<'_>>, schema: &Schema, canonical: &str) -> Result<(), NoMemory>
    ensures { OnOk result (asks_seen asked.new.items ≡ asks_seen asked.old.items
        ++ map profile (option_map_or (λ r. r ∷ []) (loaded schema.now canonical.now) [])) }
{
    if let Some(root) = schema.loaded(canonical) {
        asked.push(Ask::Profile(root))?;
    }
    Ok(())
}

fn put_roots(asked: &mut Vec<Ask<'_>>, schema: &Schema, profiles: &[String]) -> Result<(), NoMemory>
    ensures { OnOk result (asks_seen asked.new.items ≡ asks_seen asked.old.items
        ++ map profile (roots_named schema.now (map string_bytes profiles.now))) }
{
    for canonical in profiles {
        put_profile(asked, schema, canonical.as_str())?;
    }
    Ok(())
}

fn put_entry(
    asked: &mut Vec<Ask<'_>>,
    schema: &Schema,
    item: &Typed<'_, '_>,
    entry: &TypeEntry,
) -> Result<(), NoMemory>
    ensures { OnOk result (asks_seen asked.new.items ≡ asks_seen asked.old.items
        ++ map profile (entry_roots schema.now (item_of item.now) entry.now)) }
{
    if schema.covers(entry.code(), item.code()) {
        put_roots(asked, schema, entry.profiles())
    } else {
        Ok(())
    }
}

fn put_entries(
    asked: &mut Vec<Ask<'_>>,
    schema: &Schema,
    item: &Typed<'_, '_>,
    entries: &[TypeEntry],
) -> Result<(), NoMemory>
    ensures { OnOk result (asks_seen asked.new.items ≡ asks_seen asked.old.items
        ++ map profile (flat_map (entry_roots schema.now (item_of item.now)) entries.now)) }
{
    for entry in entries {
        put_entry(asked, schema, item, entry)?;
    }
    Ok(())
}

/// The profiles that a node's types name, where their codes cover the item's type.
pub(crate) fn put_profiles(
    asked: &mut Vec<Ask<'_>>,
    schema: &Schema,
    item: &Typed<'_, '_>,
    node: NodeRef,
) -> Result<(), NoMemory>
    ensures { OnOk result (asks_seen asked.new.items ≡ asks_seen asked.old.items
        ++ profile_asks schema.now (item_of item.now) node) }
{
    put_entries(asked, schema, item, schema.types(node))
}
