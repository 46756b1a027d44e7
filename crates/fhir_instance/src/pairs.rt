//! Values beside their companions.

ghost use Rattle.std.specs.Prelude.{◌≡◌, ◌&&◌, ◌==◌, nat_lt, length, map, OnOk, IsTrue, None, Some, if◌then◌else◌};
ghost use Rattle.std.specs.List.{zip};
ghost use Rattle.fhir_forms.specs.Forms.{is_primitive};
ghost use Rattle.fhir_instance.specs.Typing.{both, joined, items_from, place_items};
ghost use Rattle.fhir_instance.specs.Found.{kids_found, held_in_hand, value_in_hand, halves_in_hand, one_items};

use crate::children::{add_alone, add_companion, add_each_alone};
use crate::found::{Found, Spots};
use crate::leaves::{add_uncompanied, check_values, is_null};
use crate::misfit::kind_of_single;
use fhir_json::Json;
use fhir_schema::{Form, Schema};
use std::alloc::{AllocError, Global};

/// The items of a property and its companion. Where one is no array, the other is still looked at, since the first misfit
/// may be in it.
#[cycle(typing)]
pub(crate) fn add_both<'a, 'j>(
    alloc: Global,
    schema: &'a Schema,
    form: &'a Form,
    companions: &'a Json<'j>,
    values: &'a Json<'j>,
    spots: Spots<'a>,
    found: &mut Found<'a, 'j>,
) -> Result<(), AllocError>
    requires { IsTrue (is_primitive form.now.content) }
    ensures { OnOk result (kids_found found.new ≡ both (kids_found found.old)
        (items_from schema.now form.now (Some (held_in_hand schema.now values.now))
        (Some (held_in_hand schema.now companions.now)))) }
{
    if !form.repeats() {
        return add_one_pair(alloc, schema, form, companions, values, spots, found);
    }
    match companions {
        Json::Arr(companions) => match values {
            Json::Arr(values) => {
                add_each_pair(alloc, schema, form, companions, values, spots, found)
            }
            _ => {
                found.refuse_early(alloc, kind_of_single(values), spots.value);
                add_each_alone(alloc, schema, form, companions, spots.companion, found)
            }
        },
        _ => {
            found.refuse_early(alloc, kind_of_single(companions), spots.companion);
            check_values(alloc, form, values, spots.value, found);
            Ok(())
        }
    }
}

// The item of a value and its companion, neither of which may be null.
#[cycle(typing)]
fn add_one_pair<'a, 'j>(
    alloc: Global,
    schema: &'a Schema,
    form: &'a Form,
    companion: &'a Json<'j>,
    value: &'a Json<'j>,
    spots: Spots<'a>,
    found: &mut Found<'a, 'j>,
) -> Result<(), AllocError>
    ensures { OnOk result (kids_found found.new ≡ both (kids_found found.old)
        (one_items schema.now form.now (value_in_hand schema.now value.now) (value_in_hand schema.now companion.now))) }
{
    if is_null(companion) {
        found.refuse_null(alloc, form, spots.companion);
        check_values(alloc, form, value, spots.value, found);
        return Ok(());
    }
    if is_null(value) {
        found.refuse_null(alloc, form, spots.value);
        return add_alone(alloc, schema, form, companion, spots.companion, found);
    }
    add_companion(alloc, schema, form, companion, Some(value), spots, found)
}

#[cycle(typing)]
fn add_each_pair<'a, 'j>(
    alloc: Global,
    schema: &'a Schema,
    form: &'a Form,
    companions: &'a Vec<Json<'j>>,
    values: &'a Vec<Json<'j>>,
    spots: Spots<'a>,
    found: &mut Found<'a, 'j>,
) -> Result<(), AllocError>
    requires { IsTrue (is_primitive form.now.content) }
    ensures { OnOk result (kids_found found.new ≡ both (kids_found found.old)
        (if nat_lt 0 (length values.now.items) && (length values.now.items == length companions.now.items)
        then joined (map (λ p. place_items schema.now form.now (halves_in_hand schema.now p.0 p.1)) (zip values.now.items companions.now.items))
        else None)) }
{
    if values.len() == 0 || values.len() != companions.len() {
        found.refuse_counts(alloc, values.len(), companions.len(), spots);
        return Ok(());
    }
    for i in 0..companions.len() {
        add_pair(
            alloc,
            schema,
            form,
            &companions[i],
            &values[i],
            spots.item(i),
            found,
        )?;
    }
    Ok(())
}

// The item of a value and a companion, one of which may be null.
#[cycle(typing)]
fn add_pair<'a, 'j>(
    alloc: Global,
    schema: &'a Schema,
    form: &'a Form,
    companion: &'a Json<'j>,
    value: &'a Json<'j>,
    spots: Spots<'a>,
    found: &mut Found<'a, 'j>,
) -> Result<(), AllocError>
    requires { IsTrue (is_primitive form.now.content) }
    ensures { OnOk result (kids_found found.new ≡ both (kids_found found.old)
        (place_items schema.now form.now (halves_in_hand schema.now value.now companion.now))) }
{
    if is_null(companion) {
        return add_uncompanied(alloc, form, value, spots, found);
    }
    if is_null(value) {
        return add_companion(alloc, schema, form, companion, None, spots, found);
    }
    add_companion(alloc, schema, form, companion, Some(value), spots, found)
}
