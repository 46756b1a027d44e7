//! Commands, and the lines on which they are written.

ghost use Rattle.std.specs.Prelude.{◌≡◌, ◌∷◌, [], Some, IfOk, map, option_map};
ghost use Rattle.std.specs.Option.{option_and_then};
ghost use Rattle.fhir_json.specs.Fields.{as_text, as_items};
ghost use Rattle.fhir_json.specs.Compact.{compact};
ghost use Rattle.fhir_json.specs.Tree.{list_of};
ghost use Rattle.fhir_json.specs.Views.{tree_of, trees_of, property_of};
ghost use Rattle.fhir_commands.specs.Commands.{remove, validate, derive, command_seen, only_of, only_member, put_in, validate_in, derive_in, command_of_member, command_of, line_command};

use crate::question::Question;
use fhir_json::{Json, JsonFault, Member, NoMemory, lists, read, write};
use std::alloc::Global;
use std::mem;

/// What is asked of a session.
#[derive(Drop)]
pub enum Command<'a> {
    /// Definitions are put in, all of them or none.
    Put(Vec<Json<'a>>),
    /// The definitions of a url are taken out.
    Remove(String),
    /// Something is asked about them.
    Ask(Question),
}

// The member, where there is one alone.
fn take_only<'a>(members: &mut Vec<Member<'a>>) -> Option<Member<'a>>
    ensures { option_map property_of result ≡ only_of (map property_of members.old.items) }
{
    if members.len() != 1 {
        return None;
    }
    members.pop()
}

fn only_member<'a>(json: Json<'a>) -> Option<Member<'a>>
    ensures { option_map property_of result ≡ only_member (tree_of json.entry) }
{
    let mut json = json;
    match &mut json {
        Json::Obj(members) => take_only(members),
        _ => None,
    }
}

fn put_in<'a>(alloc: Global, value: &mut Json<'a>) -> Option<Command<'a>>
    ensures { option_map command_seen result ≡ put_in (tree_of value.old) }
{
    lists();
    match value {
        Json::Arr(trees) => Some(Command::Put(mem::replace(trees, Vec::new(alloc)))),
        _ => None,
    }
}

fn remove_in<'o>(alloc: Global, value: &Json<'_>) -> Result<Option<Command<'o>>, NoMemory>
    ensures { IfOk result (λ c. option_map command_seen c ≡ option_map remove (as_text (tree_of value.now))) }
{
    match value.as_text() {
        Some(url) => Ok(Some(Command::Remove(String::from_str(alloc, url)?))),
        None => Ok(None),
    }
}

fn validate_with<'o>(
    alloc: Global,
    profile: &Json<'_>,
    resource: &Json<'_>,
) -> Result<Option<Command<'o>>, NoMemory>
    ensures { IfOk result (λ c. option_map command_seen c ≡ option_map (λ url. validate url (compact (tree_of resource.now))) (as_text (tree_of profile.now))) }
{
    let Some(profile) = profile.as_text() else {
        return Ok(None);
    };
    let profile = String::from_str(alloc, profile)?;
    let resource = write(alloc, resource)?;
    Ok(Some(Command::Ask(Question::Validate { profile, resource })))
}

fn validate_in<'o>(alloc: Global, items: &[Json<'_>]) -> Result<Option<Command<'o>>, NoMemory>
    ensures { IfOk result (λ c. option_map command_seen c ≡ validate_in (trees_of items.now)) }
{
    match items {
        [profile, resource] => validate_with(alloc, profile, resource),
        _ => Ok(None),
    }
}

fn validate_of<'o>(alloc: Global, value: &Json<'_>) -> Result<Option<Command<'o>>, NoMemory>
    ensures { IfOk result (λ c. option_map command_seen c ≡ validate_in (list_of (as_items (tree_of value.now)))) }
{
    match value {
        Json::Arr(items) => validate_in(alloc, items),
        _ => Ok(None),
    }
}

fn derive_with<'o>(
    alloc: Global,
    derived: &str,
    base: &str,
) -> Result<Option<Command<'o>>, NoMemory>
    ensures { IfOk result (λ c. option_map command_seen c ≡ Some (derive derived.now base.now)) }
{
    let derived = String::from_str(alloc, derived)?;
    let base = String::from_str(alloc, base)?;
    Ok(Some(Command::Ask(Question::Derive { derived, base })))
}

fn derive_between<'o>(
    alloc: Global,
    derived: &Json<'_>,
    base: &Json<'_>,
) -> Result<Option<Command<'o>>, NoMemory>
    ensures { IfOk result (λ c. option_map command_seen c ≡ derive_in (tree_of derived.now ∷ tree_of base.now ∷ [])) }
{
    match (derived.as_text(), base.as_text()) {
        (Some(derived), Some(base)) => derive_with(alloc, derived, base),
        _ => Ok(None),
    }
}

fn derive_in<'o>(alloc: Global, items: &[Json<'_>]) -> Result<Option<Command<'o>>, NoMemory>
    ensures { IfOk result (λ c. option_map command_seen c ≡ derive_in (trees_of items.now)) }
{
    match items {
        [derived, base] => derive_between(alloc, derived, base),
        _ => Ok(None),
    }
}

fn derive_of<'o>(alloc: Global, value: &Json<'_>) -> Result<Option<Command<'o>>, NoMemory>
    ensures { IfOk result (λ c. option_map command_seen c ≡ derive_in (list_of (as_items (tree_of value.now)))) }
{
    match value {
        Json::Arr(items) => derive_in(alloc, items),
        _ => Ok(None),
    }
}

fn command_of_member<'a>(alloc: Global, member: Member<'a>) -> Result<Option<Command<'a>>, NoMemory>
    ensures { IfOk result (λ c. option_map command_seen c ≡ command_of_member (property_of member.entry)) }
{
    let mut member = member;
    match member.name.as_str() {
        "put" => Ok(put_in(alloc, &mut member.value)),
        "remove" => remove_in(alloc, &member.value),
        "validate" => validate_of(alloc, &member.value),
        "derive" => derive_of(alloc, &member.value),
        _ => Ok(None),
    }
}

fn command_of<'a>(alloc: Global, json: Json<'a>) -> Result<Option<Command<'a>>, NoMemory>
    ensures { IfOk result (λ c. option_map command_seen c ≡ command_of (tree_of json.entry)) }
{
    match only_member(json) {
        Some(member) => command_of_member(alloc, member),
        None => Ok(None),
    }
}

impl<'a> Command<'a> {
    /// The command that the bytes of a line are, which has no line feed at its end; none where they are no JSON, or none that is a command.
    /// The one refusal is want of memory.
    pub fn of_line(alloc: Global, line: &'a [u8]) -> Result<Option<Command<'a>>, NoMemory>
        ensures { IfOk result (λ c. option_map command_seen c ≡ line_command line.now) }
    {
        match read(alloc, line) {
            Ok(json) => command_of(alloc, json),
            Err(JsonFault::NoMemory) => Err(NoMemory),
            Err(_) => Ok(None),
        }
    }
}
