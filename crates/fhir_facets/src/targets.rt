//! Targets of references (FHIR R4, ElementDefinition, type.targetProfile; References, literal references).

ghost use Rattle.std.specs.Prelude.{◌≡◌, true, map, string_bytes, is_some};
ghost use Rattle.std.specs.Option.{option_map_or};
ghost use Rattle.std.specs.List.{list_any, list_all, flat_map};
ghost use Rattle.fhir_json.specs.Views.{text_seen};
ghost use Rattle.fhir_facets.specs.Carried.{target_unread};
ghost use Rattle.fhir_facets.specs.Targets.{has_targets, referred_type, target_type, target_holds, targets_hold, covers_known, target_narrower, targets_narrower};
ghost use Rattle.fhir_facets.specs.Unread.{Reading, meaning_of};
ghost use Rattle.fhir_facets.specs.Views.{target_rules, holding_at, view_seen, IsVouched, IsCarried};

use crate::facet::Facet;
use crate::holding::Holding;
use crate::unread::Unread;
use crate::view::View;
use fhir_elements::TypeEntry;
use fhir_names::relative_target;
use fhir_schema::Schema;
use fhir_vouching::Vouching;

/// The targets that references of a type entry may have (FHIR R4, ElementDefinition, type.targetProfile). A target is judged
/// by the type that a relative reference names, as `Patient/1` does; a reference of another form is passed over. A target
/// profile that isn't there, or can't be used, is an unread rule.
#[derive(Clone, Copy)]
pub struct Targets<'s> {
    /// The schema that the profiles are in.
    pub schema: &'s Schema,
    /// The type entry.
    pub entry: &'s TypeEntry,
}

fn has_targets(entry: &TypeEntry) -> bool
    ensures { result ≡ has_targets entry.now }
{
    entry.code() == "Reference" && !entry.targets().is_empty()
}

fn referred_type<'v>(view: &View<'v, '_>) -> Option<&'v str>
    ensures { text_seen result ≡ referred_type (view_seen view.now) }
{
    let json = view.json?;
    let reference = json.text_in("reference")?;
    match relative_target(reference) {
        Some((type_name, _)) => Some(type_name),
        None => None,
    }
}

fn target_type<'s>(schema: &'s Schema, canonical: &str) -> Option<&'s str>
    ensures { text_seen result ≡ target_type schema.now canonical.now }
{
    match schema.loaded(canonical) {
        Some(node) => Some(schema.type_code(node)),
        None => None,
    }
}

fn target_holds<'s>(
    schema: &'s Schema,
    type_name: &str,
    canonical: &'s str,
    given: &Vouching,
) -> Holding<'s>
    ensures exact { (r : Reading) → holding_at r result
        ≡ target_holds schema.now (meaning_of given.now r) type_name.now canonical.now }
    ensures vouched { IsVouched given.now result }
    ensures carried { IsCarried (target_unread schema.now canonical.now) result }
{
    match target_type(schema, canonical) {
        Some(code) => Holding::of(schema.covers(code, type_name)),
        None => Holding::of_rule(Unread::Target(canonical), given),
    }
}

fn some_target_holds<'s>(
    schema: &'s Schema,
    type_name: &str,
    targets: &'s [String],
    given: &Vouching,
) -> Holding<'s>
    ensures exact { (r : Reading) → holding_at r result
        ≡ list_any (target_holds schema.now (meaning_of given.now r) type_name.now) (map string_bytes targets.now) }
    ensures vouched { IsVouched given.now result }
    ensures carried { IsCarried (flat_map (target_unread schema.now) (map string_bytes targets.now)) result }
{
    let mut found = Holding::Fails;
    for target in targets {
        found = found.or(target_holds(schema, type_name, target.as_str(), given));
        if let Holding::Holds = found {
            return found;
        }
    }
    found
}

impl<'s> Targets<'s> {
    fn of_reference(&self, view: &View<'_, '_>, given: &Vouching) -> Holding<'s>
        ensures exact { (r : Reading) → holding_at r result ≡ option_map_or
            (λ type. list_any (target_holds self.now.schema.now (meaning_of given.now r) type) self.now.entry.now.targets)
            (referred_type (view_seen view.now)) true }
        ensures vouched { IsVouched given.now result }
        ensures carried { IsCarried (flat_map (target_unread self.now.schema.now) self.now.entry.now.targets) result }
    {
        match referred_type(view) {
            Some(type_name) => {
                some_target_holds(self.schema, type_name, self.entry.targets(), given)
            }
            None => Holding::Holds,
        }
    }
}

fn covers_known(schema: &Schema, base: Option<&str>, own: Option<&str>) -> bool
    ensures { result ≡ covers_known schema.now (text_seen base.entry) (text_seen own.entry) }
{
    match (base, own) {
        (Some(base), Some(own)) => schema.covers(base, own),
        _ => false,
    }
}

fn target_narrower(schema: &Schema, own: &str, base: &str) -> bool
    ensures { result ≡ target_narrower schema.now own.now base.now }
{
    own == base || covers_known(schema, target_type(schema, base), target_type(schema, own))
}

// The place of a target than which another is as narrow, if there is one.
fn place_among(schema: &Schema, own: &str, bases: &[String]) -> Option<usize>
    ensures { is_some result ≡ list_any (target_narrower schema.now own.now) (map string_bytes bases.now) }
{
    let mut place = 0_usize;
    for base in bases {
        if target_narrower(schema, own, base.as_str()) {
            return Some(place);
        }
        place = place.saturating_add(1);
    }
    None
}

// The same. It is looked for from a place on, and then before it.
fn place_near(schema: &Schema, own: &str, bases: &[String], near: usize) -> Option<usize>
    ensures { is_some result ≡ list_any (target_narrower schema.now own.now) (map string_bytes bases.now) }
{
    let (before, behind) = bases.split_at(near.min(bases.len()));
    match place_among(schema, own, behind) {
        Some(place) => Some(before.len().saturating_add(place)),
        None => place_among(schema, own, before),
    }
}

// Each is looked for behind the last, so that lists in the same order take linear time.
fn are_targets_among(schema: &Schema, owns: &[String], bases: &[String]) -> bool
    ensures { result ≡ list_all (λ t. list_any (target_narrower schema.now t) (map string_bytes bases.now))
        (map string_bytes owns.now) }
{
    let mut near = 0_usize;
    for own in owns {
        let Some(place) = place_near(schema, own.as_str(), bases, near) else {
            return false;
        };
        near = place.saturating_add(1);
    }
    true
}

impl<'s> Facet<'s, View<'_, '_>> for Targets<'s> {
    ghost meant = { λ m t view. targets_hold t.schema.now m t.entry.now (view_seen view) };

    ghost unread_rules = { λ t asked. target_rules t.schema.now t.entry.now };

    ghost is_narrower = { λ t base. targets_narrower t.schema.now t.entry.now base.entry.now };

    fn holds(&self, asked: &View<'_, '_>) -> Holding<'s> {
        self.holds_given(asked, &Vouching::none())
    }

    fn holds_given(&self, asked: &View<'_, '_>, given: &Vouching) -> Holding<'s> {
        if has_targets(self.entry) {
            self.of_reference(asked, given)
        } else {
            Holding::Holds
        }
    }

    /// Whether the targets are as narrow as those of another entry, by the schema of these.
    fn narrower(&self, base: &Self) -> bool {
        if !has_targets(base.entry) {
            return true;
        }
        has_targets(self.entry)
            && are_targets_among(self.schema, self.entry.targets(), base.entry.targets())
    }
}
