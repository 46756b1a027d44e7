//! An element as JSON.

ghost use Rattle.std.specs.Fmt.{decimal, signed_decimal};
ghost use Rattle.std.specs.Option.{option_map};
ghost use Rattle.std.specs.Prelude.{◌≡◌, ◌++◌, ◌∷◌, ◌<◌, [], map, IfOk, OnOk, codes};
ghost use Rattle.fhir_json.specs.Tree.{number};
ghost use Rattle.fhir_json.specs.Views.{tree_of, property_of, property_seen};
ghost use Rattle.fhir_overlay.specs.Json.{max_code, text_member, member_if, present, naming_members, counting_members, typing_members, value_members, rule_members, element_tree};

use crate::copying::copied_member;
use crate::members::{array_member, member_if, object, put, put_text, text_member};
use crate::parts::{binding_json_of, constraint_items, slicing_json_of, type_items};
use fhir_elements::{ElementDef, Max};
use fhir_json::{Json, Member, NoMemory};
use std::alloc::{AllocError, Global};
use std::borrow::CowStr;

fn count_json(alloc: Global, count: Option<u32>) -> Result<Option<Json<'static>>, AllocError>
    ensures { IfOk result (λ j. option_map tree_of j ≡ option_map (λ n. number (decimal n)) count) }
{
    match count {
        Some(count) => {
            let text = format!(in alloc; "{count}")?;
            Ok(Some(Json::Num(CowStr::Owned(text))))
        }
        None => Ok(None),
    }
}

fn integer_json(alloc: Global, integer: Option<i32>) -> Result<Option<Json<'static>>, AllocError>
    ensures { IfOk result (λ j. option_map tree_of j ≡ option_map (λ n. number (signed_decimal n)) integer) }
{
    match integer {
        Some(integer) => {
            let text = format!(in alloc; "{integer}")?;
            Ok(Some(Json::Num(CowStr::Owned(text))))
        }
        None => Ok(None),
    }
}

fn max_member(alloc: Global, max: Option<Max>) -> Result<Option<Member<'static>>, AllocError>
    ensures { IfOk result (λ m. option_map property_of m ≡ text_member (codes "max") (option_map max_code max)) }
{
    match max {
        Some(Max::Unbounded) => text_member(alloc, "max", Some("*")),
        Some(Max::UpTo(most)) => {
            let text = format!(in alloc; "{most}")?;
            text_member(alloc, "max", Some(text.as_str()))
        }
        None => Ok(None),
    }
}

fn put_naming(
    alloc: Global,
    members: &mut Vec<Member<'static>>,
    element: &ElementDef,
) -> Result<(), AllocError>
    ensures { OnOk result (map property_of members.new.items
        ≡ map property_of members.old.items ++ present (naming_members element.now)) }
{
    put_text(alloc, members, "id", Some(element.id()))?;
    put_text(alloc, members, "path", element.path())?;
    put_text(alloc, members, "sliceName", element.slice_name())?;
    Ok(())
}

fn put_counting(
    alloc: Global,
    members: &mut Vec<Member<'static>>,
    element: &ElementDef,
) -> Result<(), AllocError>
    ensures { OnOk result (map property_of members.new.items
        ≡ map property_of members.old.items ++ present (counting_members element.now)) }
{
    let slicing = slicing_json_of(alloc, element.slicing())?;
    put(members, member_if("slicing", slicing))?;
    let min = count_json(alloc, element.min())?;
    put(members, member_if("min", min))?;
    put(members, max_member(alloc, element.max())?)?;
    Ok(())
}

fn put_typing(
    alloc: Global,
    members: &mut Vec<Member<'static>>,
    element: &ElementDef,
) -> Result<(), AllocError>
    ensures { OnOk result (map property_of members.new.items
        ≡ map property_of members.old.items ++ present (typing_members element.now)) }
{
    put_text(
        alloc,
        members,
        "contentReference",
        element.content_reference(),
    )?;
    let types = type_items(alloc, element.types())?;
    put(members, array_member("type", types))?;
    Ok(())
}

fn put_copied(
    alloc: Global,
    members: &mut Vec<Member<'static>>,
    member: Option<&Member<'static>>,
) -> Result<(), NoMemory>
    ensures { OnOk result (map property_of members.new.items
        ≡ map property_of members.old.items ++ present (property_seen member.entry ∷ [])) }
{
    let member = copied_member(alloc, member)?;
    Ok(put(members, member)?)
}

fn put_max_length(
    alloc: Global,
    members: &mut Vec<Member<'static>>,
    max_length: Option<i32>,
) -> Result<(), AllocError>
    ensures { OnOk result (map property_of members.new.items
        ≡ map property_of members.old.items ++ present (member_if (codes "maxLength") (option_map (λ n. number (signed_decimal n)) max_length) ∷ [])) }
{
    let max_length = integer_json(alloc, max_length)?;
    put(members, member_if("maxLength", max_length))
}

fn put_values(
    alloc: Global,
    members: &mut Vec<Member<'static>>,
    element: &ElementDef,
) -> Result<(), NoMemory>
    ensures { OnOk result (map property_of members.new.items
        ≡ map property_of members.old.items ++ present (value_members element.now)) }
{
    put_copied(alloc, members, element.fixed())?;
    put_copied(alloc, members, element.pattern())?;
    put_copied(alloc, members, element.min_value())?;
    put_copied(alloc, members, element.max_value())?;
    Ok(put_max_length(alloc, members, element.max_length())?)
}

fn put_rules(
    alloc: Global,
    members: &mut Vec<Member<'static>>,
    element: &ElementDef,
) -> Result<(), AllocError>
    ensures { OnOk result (map property_of members.new.items
        ≡ map property_of members.old.items ++ present (rule_members element.now)) }
{
    let constraints = constraint_items(alloc, element.constraints())?;
    put(members, array_member("constraint", constraints))?;
    let binding = binding_json_of(alloc, element.binding())?;
    put(members, member_if("binding", binding))?;
    Ok(())
}

/// The element as a JSON object (FHIR R4, ElementDefinition), with the members `id`, `path`, `sliceName`, `slicing`, `min`,
/// `max`, `contentReference`, `type`, `fixed[x]`, `pattern[x]`, `minValue[x]`, `maxValue[x]`, `maxLength`, `constraint` and
/// `binding`, each where the element has it. The one refusal is want of memory.
pub fn element_json(alloc: Global, element: &ElementDef) -> Result<Json<'static>, NoMemory>
    ensures { IfOk result (λ j. tree_of j ≡ element_tree element.now) }
{
    let mut members: Vec<Member<'static>> = Vec::with_capacity(alloc, 15)?;
    put_naming(alloc, &mut members, element)?;
    put_counting(alloc, &mut members, element)?;
    put_typing(alloc, &mut members, element)?;
    put_values(alloc, &mut members, element)?;
    put_rules(alloc, &mut members, element)?;
    Ok(object(members))
}
