//! The rules of elements that aren't judged, whatever the resource is, but for constraints.

ghost use Rattle.std.specs.Prelude.{◌≡◌, ◌++◌, [], map, string_bytes, IfOk, OnOk};
ghost use Rattle.std.specs.List.{flat_map};
ghost use Rattle.std.specs.Option.{option_map_or};
ghost use Rattle.fhir_json.specs.Views.{property_seen, text_seen};
ghost use Rattle.fhir_facets.specs.Carried.{bound_unread, target_unread, profile_unread, value_set_unread};
ghost use Rattle.fhir_facets.specs.Views.{unread_seen, rules_in};
ghost use Rattle.fhir_findings.specs.Undecided.{entry_rules, element_rules};

use fhir_elements::{ElementDef, TypeEntry};
use fhir_facets::Unread;
use fhir_json::Member;
use fhir_schema::{NodeRef, Schema};
use std::alloc::{AllocError, Global};

fn put<'s>(rule: Option<Unread<'s>>, into: &mut Vec<Unread<'s>>) -> Result<(), AllocError>
    ensures { OnOk result (map unread_seen into.new.items ≡ map unread_seen into.old.items ++ rules_in rule.entry) }
{
    if let Some(rule) = rule {
        into.push(rule)?;
    }
    Ok(())
}

fn put_bound<'s>(
    bound: Option<&'s Member<'static>>,
    into: &mut Vec<Unread<'s>>,
) -> Result<(), AllocError>
    ensures { OnOk result (map unread_seen into.new.items
        ≡ map unread_seen into.old.items ++ option_map_or bound_unread (property_seen bound.entry) []) }
{
    match bound {
        Some(bound) => put(Unread::of_bound(bound), into),
        None => Ok(()),
    }
}

fn put_targets<'s>(
    schema: &Schema,
    targets: &'s [String],
    into: &mut Vec<Unread<'s>>,
) -> Result<(), AllocError>
    ensures { OnOk result (map unread_seen into.new.items
        ≡ map unread_seen into.old.items ++ flat_map (target_unread schema.now) (map string_bytes targets.now)) }
{
    for target in targets {
        put(Unread::of_target(schema, target.as_str()), into)?;
    }
    Ok(())
}

fn put_profiles<'s>(
    schema: &Schema,
    profiles: &'s [String],
    into: &mut Vec<Unread<'s>>,
) -> Result<(), AllocError>
    ensures { OnOk result (map unread_seen into.new.items
        ≡ map unread_seen into.old.items ++ flat_map (profile_unread schema.now) (map string_bytes profiles.now)) }
{
    for profile in profiles {
        put(Unread::of_profile(schema, profile.as_str()), into)?;
    }
    Ok(())
}

fn put_entry<'s>(
    schema: &Schema,
    entry: &'s TypeEntry,
    into: &mut Vec<Unread<'s>>,
) -> Result<(), AllocError>
    ensures { OnOk result (map unread_seen into.new.items ≡ map unread_seen into.old.items ++ entry_rules schema.now entry.now) }
{
    put_targets(schema, entry.targets(), into)?;
    put_profiles(schema, entry.profiles(), into)
}

fn put_types<'s>(
    schema: &Schema,
    entries: &'s [TypeEntry],
    into: &mut Vec<Unread<'s>>,
) -> Result<(), AllocError>
    ensures { OnOk result (map unread_seen into.new.items
        ≡ map unread_seen into.old.items ++ flat_map (entry_rules schema.now) entries.now) }
{
    for entry in entries {
        put_entry(schema, entry, into)?;
    }
    Ok(())
}

fn put_value_set<'s>(
    schema: &Schema,
    canonical: Option<&'s str>,
    into: &mut Vec<Unread<'s>>,
) -> Result<(), AllocError>
    ensures { OnOk result (map unread_seen into.new.items
        ≡ map unread_seen into.old.items ++ option_map_or (value_set_unread schema.now) (text_seen canonical.entry) []) }
{
    match canonical {
        Some(canonical) => put(Unread::of_value_set(schema, canonical), into),
        None => Ok(()),
    }
}

/// The rules of a node's element that aren't judged, but for its constraints: bounds of types that aren't compared, targets and profiles
/// that aren't there or can't be used, and a required binding to a value set that isn't read. That a binding is of an item which isn't
/// looked up in value sets is seen at the item alone.
pub(crate) fn unread_rules<'s>(
    alloc: Global,
    schema: &'s Schema,
    node: NodeRef,
    element: &'s ElementDef,
) -> Result<Vec<Unread<'s>>, AllocError>
    ensures { IfOk result (λ rules. map unread_seen rules.items ≡ element_rules schema.now node element.now) }
{
    let mut rules: Vec<Unread<'s>> = Vec::new(alloc);
    put_bound(element.min_value(), &mut rules)?;
    put_bound(element.max_value(), &mut rules)?;
    put_types(schema, schema.types(node), &mut rules)?;
    put_value_set(schema, element.required_value_set(), &mut rules)?;
    Ok(rules)
}
