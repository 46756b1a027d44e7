//! Items without children.

ghost use Rattle.std.specs.Prelude.{◌≡◌, OnOk, true, None, codes, if◌then◌else◌};
ghost use Rattle.std.specs.Option.{option_map_or};
ghost use Rattle.fhir_json.specs.Views.{tree_of, tree_seen, text_seen};
ghost use Rattle.fhir_json.specs.Fields.{text_in};
ghost use Rattle.fhir_prims.specs.Values.{lexical};
ghost use Rattle.fhir_instance.specs.Typing.{both, under, is_null, is_filled_text, plain_item};
ghost use Rattle.fhir_instance.specs.Found.{kids_found, uncompanied};

use crate::found::{Found, Spot, Spots};
use crate::misfit::{MisfitKind, kind_of, kind_of_single};
use crate::typed::Typed;
use fhir_json::Json;
use fhir_prims::{PrimType, lexical};
use fhir_schema::{Content, Form};
use std::alloc::{AllocError, Global};

pub(crate) fn is_null(json: &Json<'_>) -> bool
    ensures { result ≡ is_null (tree_of json.now) }
{
    match json {
        Json::Null => true,
        _ => false,
    }
}

/// The type that a resource says it has.
pub(crate) fn type_named<'t>(json: &'t Json<'_>) -> Option<&'t str>
    ensures { text_seen result ≡ text_in (codes "resourceType") (tree_of json.now) }
{
    json.text_in("resourceType")
}

fn is_filled_text(json: &Json<'_>) -> bool
    ensures { result ≡ is_filled_text (tree_of json.now) }
{
    json.text_or_empty().len() > 0
}

// One more child without children, if it is right.
#[inline(always)]
fn add_leaf<'a, 'j>(
    alloc: Global,
    form: &'a Form,
    json: &'a Json<'j>,
    is_right: bool,
    spot: Spot<'a>,
    found: &mut Found<'a, 'j>,
) -> Result<(), AllocError>
    ensures { OnOk result (kids_found found.new ≡ both (kids_found found.old)
        (under form.now (plain_item is_right form.now.code (tree_of json.now)))) }
{
    if !is_right {
        found.refuse(alloc, kind_of(json), spot);
        return Ok(());
    }
    let kids = Vec::new(alloc);
    found.push(
        form,
        Typed {
            code: form.code(),
            json: Some(json),
            kids,
        },
    )
}

/// A primitive without a companion.
pub(crate) fn add_primitive<'a, 'j>(
    alloc: Global,
    form: &'a Form,
    prim: PrimType,
    json: &'a Json<'j>,
    spot: Spot<'a>,
    found: &mut Found<'a, 'j>,
) -> Result<(), AllocError>
    ensures { OnOk result (kids_found found.new ≡ both (kids_found found.old)
        (under form.now (plain_item (lexical prim (tree_of json.now)) form.now.code (tree_of json.now)))) }
{
    let is_right = lexical(prim, json);
    add_leaf(alloc, form, json, is_right, spot, found)
}

/// A text of one of FHIRPath's own types.
pub(crate) fn add_system<'a, 'j>(
    alloc: Global,
    form: &'a Form,
    json: &'a Json<'j>,
    spot: Spot<'a>,
    found: &mut Found<'a, 'j>,
) -> Result<(), AllocError>
    ensures { OnOk result (kids_found found.new ≡ both (kids_found found.old)
        (under form.now (plain_item (is_filled_text (tree_of json.now)) form.now.code (tree_of json.now)))) }
{
    let is_right = is_filled_text(json);
    add_leaf(alloc, form, json, is_right, spot, found)
}

// Whether a primitive's value is one of its type, if it has one.
fn allows_value(prim: PrimType, value: Option<&Json<'_>>) -> bool
    ensures { result ≡ option_map_or (lexical prim) (tree_seen value.entry) true }
{
    match value {
        Some(value) => lexical(prim, value),
        None => true,
    }
}

fn kind_of_value(value: Option<&Json<'_>>) -> MisfitKind {
    match value {
        Some(value) => kind_of(value),
        None => MisfitKind::WrongValue,
    }
}

/// Notes a primitive's value that is none of its type.
pub(crate) fn check_value<'a, 'j>(
    alloc: Global,
    prim: PrimType,
    value: Option<&Json<'_>>,
    spot: Spot<'a>,
    found: &mut Found<'a, 'j>,
)
    ensures { kids_found found.new
        ≡ (if option_map_or (lexical prim) (tree_seen value.entry) true then kids_found found.old else None) }
{
    if !allows_value(prim, value) {
        found.refuse(alloc, kind_of_value(value), spot);
    }
}

fn check_one<'a, 'j>(
    alloc: Global,
    form: &Form,
    prim: PrimType,
    json: &Json<'_>,
    spot: Spot<'a>,
    found: &mut Found<'a, 'j>,
)
    requires { kids_found found.old ≡ None }
    ensures { kids_found found.new ≡ None }
{
    if is_null(json) {
        found.refuse_null(alloc, form, spot);
    } else {
        check_value(alloc, prim, Some(json), spot, found);
    }
}

fn check_each<'a, 'j>(
    alloc: Global,
    form: &Form,
    prim: PrimType,
    items: &[Json<'_>],
    spot: Spot<'a>,
    found: &mut Found<'a, 'j>,
)
    requires { kids_found found.old ≡ None }
    ensures { kids_found found.new ≡ None }
{
    if items.len() == 0 {
        found.refuse_early(alloc, MisfitKind::Empty, spot);
    }
    for i in 0..items.len() {
        check_one(alloc, form, prim, &items[i], spot.item(i), found);
    }
}

/// Notes what is wrong with a primitive's values, where their companions have a misfit, which may come later.
pub(crate) fn check_values<'a, 'j>(
    alloc: Global,
    form: &Form,
    json: &Json<'_>,
    spot: Spot<'a>,
    found: &mut Found<'a, 'j>,
)
    requires { kids_found found.old ≡ None }
    ensures { kids_found found.new ≡ None }
{
    let Content::Primitive(prim, _below) = form.content() else {
        return;
    };
    if !form.repeats() {
        check_one(alloc, form, prim, json, spot, found);
        return;
    }
    match json {
        Json::Arr(items) => check_each(alloc, form, prim, items, spot, found),
        _ => found.refuse_early(alloc, kind_of_single(json), spot),
    }
}

/// A primitive whose companion is null.
pub(crate) fn add_uncompanied<'a, 'j>(
    alloc: Global,
    form: &'a Form,
    json: &'a Json<'j>,
    spots: Spots<'a>,
    found: &mut Found<'a, 'j>,
) -> Result<(), AllocError>
    ensures { OnOk result (kids_found found.new ≡ both (kids_found found.old)
        (uncompanied form.now (tree_of json.now))) }
{
    if is_null(json) {
        found.refuse_early(alloc, MisfitKind::Unparallel, spots.first());
        return Ok(());
    }
    match form.content() {
        Content::Primitive(prim, _below) => {
            add_primitive(alloc, form, prim, json, spots.value, found)
        }
        _ => {
            found.refuse(alloc, MisfitKind::UnknownProperty, spots.companion);
            Ok(())
        }
    }
}

/// Notes a resource that doesn't say its type.
pub(crate) fn add_untyped<'a, 'j>(
    alloc: Global,
    form: &'a Form,
    json: &'a Json<'j>,
    spot: Spot<'a>,
    found: &mut Found<'a, 'j>,
) -> Result<(), AllocError>
    ensures { OnOk result (kids_found found.new ≡ None) }
{
    let inner = misfit_of_untyped(alloc, json);
    found.add(form, form.code(), Some(json), inner, spot)
}

fn misfit_of_untyped<'a, 'j>(alloc: Global, json: &Json<'_>) -> Found<'a, 'j>
    ensures { kids_found result ≡ None }
{
    let kind = kind_of(json);
    if !json.is_object() || kind == MisfitKind::Empty {
        return Found::of_misfit(alloc, kind);
    }
    Found::of_misfit_at(alloc, MisfitKind::UnknownType, "resourceType")
}
