//! What a definition says of others: its types, the elements that it refers to, and the chain of its bases.

ghost use Rattle.std.specs.Prelude.{◌≡◌, length};
ghost use Rattle.std.specs.Option.{option_map, option_map_or, option_and_then};
ghost use Rattle.std.specs.List.{list_all, slice_get};
ghost use Rattle.fhir_elements.specs.Causes.{reason_of, blamed_reason, reason_unless, is_blame_among};
ghost use Rattle.fhir_elements.specs.declared.reason.Reason.TheVariants.{UnusableType, MissingContent};
ghost use Rattle.fhir_nodes.specs.Urls.{canonical_place};
ghost use Rattle.fhir_schema.specs.Settling.{reason_at, is_usable_type, entry_is_usable, element_is_usable, types_are_usable, is_type_at, may_refer, place_referred, target_place, target_is_usable, targets_are_usable, base_place, is_first_of_type};
ghost use Rattle.fhir_schema.specs.Blaming.{reasons_of, blame_at};

use fhir_definition::{Definition, is_root};
use fhir_elements::{Blame, Cause, ElementDef, TypeEntry};
use fhir_nodes::{Table, canonical_place, content_target, is_system};

/// What is to blame for the definition at a place.
pub(crate) fn blame_at(blames: &[Option<Blame>], place: usize) -> Option<Blame>
    ensures blame { result ≡ blame_at blames.now place }
    ensures reason { blamed_reason result ≡ reason_at (reasons_of blames.now) place }
{
    match blames.get(place) {
        Some(blame) => *blame,
        None => None,
    }
}

// The definition on which one that can't be used rests in the end: itself, where it rests on no other.
fn origin_of(place: usize, blame: Blame) -> usize {
    match blame.cause {
        Cause::UnusableType { origin, .. } | Cause::UnusableContent { origin, .. } => origin,
        _ => place,
    }
}

fn type_cause(
    table: &Table,
    blames: &[Option<Blame>],
    code: &str,
    entry: Option<usize>,
) -> Option<Cause>
    ensures { option_map reason_of result ≡ reason_unless (is_usable_type table.now (reasons_of blames.now) code.now) UnusableType }
{
    let Some(definition) = table.type_place(code) else {
        return Some(Cause::MissingType(entry));
    };
    match blame_at(blames, definition) {
        Some(blame) => Some(Cause::UnusableType {
            entry,
            definition,
            origin: origin_of(definition, blame),
        }),
        None => None,
    }
}

fn entry_cause(
    table: &Table,
    blames: &[Option<Blame>],
    entry: &TypeEntry,
    place: usize,
) -> Option<Cause>
    ensures { option_map reason_of result ≡ reason_unless (entry_is_usable table.now (reasons_of blames.now) entry.now) UnusableType }
{
    let code = entry.code();
    if is_system(code) {
        return None;
    }
    type_cause(table, blames, code, Some(place))
}

fn entries_cause(table: &Table, blames: &[Option<Blame>], entries: &[TypeEntry]) -> Option<Cause>
    ensures { option_map reason_of result
        ≡ reason_unless (list_all (entry_is_usable table.now (reasons_of blames.now)) entries.now) UnusableType }
{
    for (place, entry) in entries.iter().enumerate() {
        let cause = entry_cause(table, blames, entry, place);
        if cause.is_some() {
            return cause;
        }
    }
    None
}

fn element_cause(table: &Table, blames: &[Option<Blame>], element: &ElementDef) -> Option<Cause>
    ensures { option_map reason_of result ≡ reason_unless (element_is_usable table.now (reasons_of blames.now) element.now) UnusableType }
{
    if is_root(element) {
        return None;
    }
    entries_cause(table, blames, element.types())
}

fn elements_blame(table: &Table, blames: &[Option<Blame>], elements: &[ElementDef]) -> Option<Blame>
    ensures reason { blamed_reason result
        ≡ reason_unless (list_all (element_is_usable table.now (reasons_of blames.now)) elements.now) UnusableType }
    ensures element { is_blame_among (length elements.now) result }
{
    for (place, element) in elements.iter().enumerate() {
        if let Some(cause) = element_cause(table, blames, element) {
            return Some(Blame::at(place, cause));
        }
    }
    None
}

/// What is to blame where its own type, or a type of its elements, can't be used.
pub(crate) fn types_blame(
    table: &Table,
    blames: &[Option<Blame>],
    definition: &Definition,
) -> Option<Blame>
    ensures reason { blamed_reason result
        ≡ reason_unless (types_are_usable table.now (reasons_of blames.now) definition.now) UnusableType }
    ensures element { is_blame_among (length definition.now.elements) result }
{
    if let Some(cause) = type_cause(table, blames, definition.type_code(), None) {
        return Some(Blame::whole(cause));
    }
    elements_blame(table, blames, definition.elements())
}

fn is_type_at(table: &Table, place: usize) -> bool
    ensures { result ≡ is_type_at table.now place }
{
    match table.definition(place) {
        Some(definition) => definition.is_type(),
        None => false,
    }
}

// Whether a definition may refer to elements of the one at a place: a type definition refers to type definitions alone.
fn may_refer(table: &Table, definition: &Definition, place: usize) -> bool
    ensures { result ≡ may_refer table.now definition.now place }
{
    !definition.is_type() || is_type_at(table, place)
}

fn place_referred(table: &Table, definition: &Definition, place: usize) -> Option<usize>
    ensures { result ≡ place_referred table.now definition.now place }
{
    if may_refer(table, definition, place) {
        Some(place)
    } else {
        None
    }
}

/// The place of the definition that has the element to which another refers for its content, if it may refer to that one.
pub(crate) fn target_place(
    table: &Table,
    definition: &Definition,
    element: &ElementDef,
) -> Option<usize>
    ensures { result ≡ target_place table.now definition.now element.now }
{
    match content_target(table, definition.place(), element) {
        Some(node) => place_referred(table, definition, node.definition),
        None => None,
    }
}

// Why an element has no element that it may refer to for its content.
fn no_target_cause(table: &Table, definition: &Definition, element: &ElementDef) -> Cause
    ensures { reason_of result ≡ MissingContent }
{
    match content_target(table, definition.place(), element) {
        Some(node) => Cause::ContentOfProfile(node.definition),
        None => Cause::MissingContent,
    }
}

fn target_cause(
    table: &Table,
    blames: &[Option<Blame>],
    definition: &Definition,
    element: &ElementDef,
) -> Option<Cause>
    ensures { option_map reason_of result
        ≡ reason_unless (target_is_usable table.now (reasons_of blames.now) definition.now element.now) MissingContent }
{
    if element.content_reference().is_none() {
        return None;
    }
    let Some(target) = target_place(table, definition, element) else {
        return Some(no_target_cause(table, definition, element));
    };
    match blame_at(blames, target) {
        Some(blame) => Some(Cause::UnusableContent {
            definition: target,
            origin: origin_of(target, blame),
        }),
        None => None,
    }
}

/// What is to blame where an element to which one of its elements refers for its content isn't there, or can't be used.
pub(crate) fn targets_blame(
    table: &Table,
    blames: &[Option<Blame>],
    definition: &Definition,
) -> Option<Blame>
    ensures reason { blamed_reason result
        ≡ reason_unless (targets_are_usable table.now (reasons_of blames.now) definition.now) MissingContent }
    ensures element { is_blame_among (length definition.now.elements) result }
{
    for (place, element) in definition.elements().iter().enumerate() {
        if let Some(cause) = target_cause(table, blames, definition, element) {
            return Some(Blame::at(place, cause));
        }
    }
    None
}

/// The place of its base.
pub(crate) fn base_place(table: &Table, definition: &Definition) -> Option<usize>
    ensures { result ≡ base_place table.now definition.now }
{
    match definition.base() {
        Some(base) => canonical_place(table, base),
        None => None,
    }
}

/// Whether it is the first of its type, if it is a type definition.
pub(crate) fn is_first_of_type(table: &Table, definition: &Definition) -> bool
    ensures { result ≡ is_first_of_type table.now definition.now }
{
    if !definition.is_type() {
        return true;
    }
    match table.type_place(definition.type_code()) {
        Some(place) => definition.place() == place,
        None => false,
    }
}
