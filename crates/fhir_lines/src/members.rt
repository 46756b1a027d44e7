//! The members of a JSON object in the making.

ghost use Rattle.std.specs.Prelude.{◌≡◌, ◌∷◌, ◌++◌, [], map, IfOk, OnOk, string_bytes};
ghost use Rattle.fhir_json.specs.Compact.{compact};
ghost use Rattle.fhir_json.specs.Tree.{object, members_of, string};
ghost use Rattle.fhir_json.specs.Views.{tree_of, property_of, text_seen};
ghost use Rattle.fhir_lines.specs.Lines.{text_member, count_property, count_member, flag_member};

use crate::writing::json_text;
use fhir_json::{Json, Member, NoMemory};
use std::alloc::{AllocError, Global};
use std::borrow::CowStr;

/// The members of an object in the making.
pub type Members<'m> = Vec<Member<'m>>;

fn member<'m>(name: &'static str, value: Json<'m>) -> Member<'m>
    ensures { property_of result ≡ (name.now, tree_of value.entry) }
{
    Member {
        name: CowStr::Borrowed(name),
        value,
    }
}

/// Puts a value under a name behind the others. The one refusal is want of memory.
pub fn put_value<'m>(
    name: &'static str,
    value: Json<'m>,
    into: &mut Members<'m>,
) -> Result<(), AllocError>
    ensures { OnOk result (map property_of into.new.items ≡ map property_of into.old.items ++ (name.now, tree_of value.entry) ∷ []) }
{
    into.push(member(name, value))?;
    Ok(())
}

/// Puts a text under a name behind the others. The one refusal is want of memory.
pub fn put_text<'m>(
    name: &'static str,
    text: &'m str,
    into: &mut Members<'m>,
) -> Result<(), AllocError>
    ensures { OnOk result (map property_of into.new.items ≡ map property_of into.old.items ++ (name.now, string text.now) ∷ []) }
{
    put_value(name, Json::Str(CowStr::Borrowed(text)), into)
}

/// The same of a text that is owned.
pub fn put_owned(name: &'static str, text: String, into: &mut Members<'_>) -> Result<(), AllocError>
    ensures { OnOk result (map property_of into.new.items ≡ map property_of into.old.items ++ (name.now, string (string_bytes text)) ∷ []) }
{
    put_value(name, Json::Str(CowStr::Owned(text)), into)
}

/// The same of a text, if there is one.
pub fn put_text_if<'m>(
    name: &'static str,
    text: Option<&'m str>,
    into: &mut Members<'m>,
) -> Result<(), AllocError>
    ensures { OnOk result (map property_of into.new.items ≡ map property_of into.old.items ++ text_member name.now (text_seen text.entry)) }
{
    match text {
        Some(text) => put_text(name, text, into),
        None => Ok(()),
    }
}

/// Puts a number under a name behind the others. The one refusal is want of memory.
pub fn put_count(
    alloc: Global,
    name: &'static str,
    count: usize,
    into: &mut Members<'_>,
) -> Result<(), AllocError>
    ensures { OnOk result (map property_of into.new.items ≡ map property_of into.old.items ++ count_property name.now count ∷ []) }
{
    let text = format!(in alloc; "{count}")?;
    put_value(name, Json::Num(CowStr::Owned(text)), into)
}

pub(crate) fn put_count_if(
    alloc: Global,
    name: &'static str,
    count: Option<usize>,
    into: &mut Members<'_>,
) -> Result<(), AllocError>
    ensures { OnOk result (map property_of into.new.items ≡ map property_of into.old.items ++ count_member name.now count) }
{
    match count {
        Some(count) => put_count(alloc, name, count, into),
        None => Ok(()),
    }
}

pub(crate) fn put_flag(
    name: &'static str,
    is: bool,
    into: &mut Members<'_>,
) -> Result<(), AllocError>
    ensures { OnOk result (map property_of into.new.items ≡ map property_of into.old.items ++ flag_member name.now is) }
{
    if is {
        put_value(name, Json::Bool(true), into)
    } else {
        Ok(())
    }
}

/// Puts other members behind them. The one refusal is want of memory.
pub fn put_all<'m>(mut others: Members<'m>, into: &mut Members<'m>) -> Result<(), AllocError>
    ensures { OnOk result (map property_of into.new.items ≡ map property_of into.old.items ++ map property_of others.entry.items) }
{
    into.append(&mut others)
}

/// The compact text of the object. The one refusal is want of memory.
pub fn object_text(alloc: Global, members: Members<'_>) -> Result<String, NoMemory>
    ensures { IfOk result (λ text. string_bytes text ≡ compact (object (members_of (map property_of members.entry.items)))) }
{
    json_text(alloc, &Json::Obj(members))
}
