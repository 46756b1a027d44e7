//! What could be changed at the place of a pair, so that what conforms to the derived node doesn't conform to the base's.

use crate::extremes::{extremes, has_length};
use crate::finder::{Done, Finder};
use crate::nodes::{entry_of, least_at, most_at, own_slice, profile_for};
use crate::step::{Change, Difference, Slice, Step, of_type, with_step};
use fhir_codes::ConceptSet;
use fhir_elements::{ElementDef, TypeEntry};
use fhir_json::{Json, Member, NoMemory};
use fhir_schema::{NodeRef, Schema, Slot};
use std::alloc::Global;

// How many levels below a pair are looked through.
const MOST_LEVELS: usize = 3;
// How many children of a name are put over a greatest number.
const MOST_CHILDREN: usize = 256;
// How long a text is that is too long for another element.
const MOST_LETTERS: usize = 65_536;
// How many types of resources are tried where any may be.
const MOST_TYPES: usize = 4;

fn text_is(left: Option<&str>, right: Option<&str>) -> bool {
    match (left, right) {
        (Some(left), Some(right)) => left == right,
        _ => false,
    }
}

fn set_of<'s>(schema: &'s Schema, element: &ElementDef) -> Option<&'s ConceptSet> {
    schema.concepts(element.required_value_set()?)
}

fn has_constraint(element: &ElementDef, expression: Option<&str>) -> bool {
    for constraint in element.constraints() {
        if constraint.must_hold() && text_is(constraint.expression(), expression) {
            return true;
        }
    }
    false
}

fn is_same(own: &Member<'static>, base: &Member<'static>) -> bool {
    match (own.value.as_number(), base.value.as_number()) {
        (Some(own), Some(base)) => own == base,
        _ => text_is(own.value.as_text(), base.value.as_text()),
    }
}

// Whether there is no bound of the base's, or the own one is the same.
fn is_within(own: Option<&Member<'static>>, base: Option<&Member<'static>>) -> bool {
    match (own, base) {
        (_, None) => true,
        (None, Some(_)) => false,
        (Some(own), Some(base)) => is_same(own, base),
    }
}

fn covers_code(schema: &Schema, entries: &[TypeEntry], code: &str) -> bool {
    entries.is_empty()
        || entries
            .iter()
            .any(|entry| schema.covers(entry.code(), code))
}

fn targets_code(schema: &Schema, entry: &TypeEntry, code: &str) -> bool {
    if entry.targets().is_empty() {
        return true;
    }
    for target in entry.targets() {
        if let Some(root) = schema.loaded(target.as_str()) {
            if schema.covers(schema.type_code(root), code) {
                return true;
            }
        }
    }
    false
}

fn some_targets_code(schema: &Schema, entries: &[TypeEntry], code: &str) -> bool {
    for entry in entries {
        if entry.code() == "Reference" && targets_code(schema, entry, code) {
            return true;
        }
    }
    false
}

// How much there is to look at in entries.
fn size_of(entries: &[TypeEntry]) -> usize {
    let mut size = entries.len();
    for entry in entries {
        size = size.saturating_add(entry.profiles().len());
        size = size.saturating_add(entry.targets().len());
    }
    size
}

// How much there is to look at in a node's element.
fn size_at(schema: &Schema, node: NodeRef) -> usize {
    size_of(schema.types(node)).saturating_add(1)
}

fn product(left: usize, right: usize) -> usize {
    left.saturating_mul(right)
}

fn has_targets(entries: &[TypeEntry]) -> bool {
    for entry in entries {
        if entry.code() == "Reference" && !entry.targets().is_empty() {
            return true;
        }
    }
    false
}

fn type_name_of<'s>(schema: &'s Schema, node: NodeRef) -> &'s str {
    match schema.types(node) {
        [entry, ..] => entry.code(),
        [] => schema.type_code(node),
    }
}

// The first type of a node that another allows too, or else the node's first.
fn common_type<'s>(schema: &'s Schema, own: NodeRef, base: NodeRef) -> &'s str {
    for entry in schema.types(own) {
        if covers_code(schema, schema.types(base), entry.code()) {
            return entry.code();
        }
    }
    type_name_of(schema, own)
}

// The node that has the children of what a node's items of a type are.
fn kids_of_type(schema: &Schema, node: NodeRef, code: &str) -> Option<NodeRef> {
    if let Some(holder) = schema.child_holder(node) {
        return Some(holder);
    }
    if let Some(root) = profile_for(schema, node, code) {
        return Some(root);
    }
    schema.type_root(code)
}

// The node that has the children of what a node's items are.
fn kids_node(schema: &Schema, node: NodeRef) -> Option<NodeRef> {
    kids_of_type(schema, node, type_name_of(schema, node))
}

// How many types there are to look at in a node's slices.
fn types_of_slices(schema: &Schema, node: NodeRef) -> usize {
    let mut count = 0_usize;
    for slice in schema.slices(node) {
        let types = schema.types(entry_of(node, slice)).len();
        count = count.saturating_add(types).saturating_add(1);
    }
    count
}

// Whether some slice's items may be of a type.
fn is_in_slice(schema: &Schema, node: NodeRef, code: &str) -> bool {
    for slice in schema.slices(node) {
        if covers_code(schema, schema.types(entry_of(node, slice)), code) {
            return true;
        }
    }
    false
}

impl<'s> Finder<'s> {
    // ---- facets

    fn push_values(&mut self, extra: &[Step<'s>], own: &ElementDef, base: &ElementDef) -> Done {
        let is_free = own.fixed().is_none() && own.pattern().is_none();
        let is_bound = base.fixed().is_some() || base.pattern().is_some();
        if is_free && is_bound {
            self.push(extra, Change::OtherValue)?;
        }
        if is_bound {
            self.push(extra, Change::Nothing)?;
        }
        Ok(())
    }

    // One child more, for each name that a fixed value lacks.
    fn push_lacking(&mut self, extra: &[Step<'s>], kids: NodeRef, fixed: &Json<'static>) -> Done {
        let schema = self.schema();
        if !fixed.is_object() || !self.takes_looks(schema.slots(kids).len()) {
            return Ok(());
        }
        for slot in schema.slots(kids) {
            let is_rare = matches!(slot.name(), "id" | "extension");
            if !is_rare && fixed.field(slot.name()).is_none() {
                self.push(extra, Change::OneMore(slot.name()))?;
            }
        }
        Ok(())
    }

    // A value with more children than a fixed one, where there is a pattern in its place.
    fn push_further(
        &mut self,
        extra: &[Step<'s>],
        own: &ElementDef,
        node: NodeRef,
        base: &ElementDef,
    ) -> Done {
        if own.fixed().is_some() || own.pattern().is_none() {
            return Ok(());
        }
        match (kids_node(self.schema(), node), base.fixed()) {
            (Some(kids), Some(fixed)) => self.push_lacking(extra, kids, &fixed.value),
            _ => Ok(()),
        }
    }

    fn push_extremes(&mut self, extra: &[Step<'s>], code: &str) -> Done {
        if let Some((least, greatest)) = extremes(code) {
            self.push(extra, Change::Spelled(least))?;
            self.push(extra, Change::Spelled(greatest))?;
        }
        Ok(())
    }

    fn push_bounds(&mut self, extra: &[Step<'s>], own: &'s ElementDef, code: &str) -> Done {
        if let Some(bound) = own.min_value() {
            self.push(extra, Change::Value(&bound.value))?;
        }
        if let Some(bound) = own.max_value() {
            self.push(extra, Change::Value(&bound.value))?;
        }
        self.push_extremes(extra, code)
    }

    fn push_range(
        &mut self,
        extra: &[Step<'s>],
        own: &'s ElementDef,
        base: &ElementDef,
        code: &str,
    ) -> Done {
        if is_within(own.min_value(), base.min_value())
            && is_within(own.max_value(), base.max_value())
        {
            return Ok(());
        }
        self.push_bounds(extra, own, code)
    }

    fn push_length(
        &mut self,
        extra: &[Step<'s>],
        own: &ElementDef,
        base: &ElementDef,
        code: &str,
    ) -> Done {
        let Some(most) = base.max_length() else {
            return Ok(());
        };
        if own.max_length().is_some_and(|own| own <= most) {
            return Ok(());
        }
        let count = usize::try_from(most).unwrap_or(0).saturating_add(1);
        if count <= MOST_LETTERS && has_length(code) {
            self.push(extra, Change::Long(count))?;
        }
        Ok(())
    }

    fn push_outside(&mut self, extra: &[Step<'s>], own: &'s ConceptSet, base: &ConceptSet) -> Done {
        if let Some((system, code)) = own.first_code_outside(base) {
            self.push(extra, Change::Concept(system, code))?;
        }
        if let Some((system, code)) = own.first_outside(base) {
            self.push(extra, Change::Concept(system, code))?;
        }
        Ok(())
    }

    fn push_binding(&mut self, extra: &[Step<'s>], own: &'s ElementDef, base: &ElementDef) -> Done {
        let Some(base) = set_of(self.schema(), base) else {
            return Ok(());
        };
        match set_of(self.schema(), own) {
            Some(own) => self.push_outside(extra, own, base),
            None => self.push(extra, Change::OtherValue),
        }
    }

    fn push_facets(
        &mut self,
        extra: &[Step<'s>],
        own: &'s ElementDef,
        base: &'s ElementDef,
        code: &str,
    ) -> Done {
        self.push_values(extra, own, base)?;
        self.push_binding(extra, own, base)?;
        self.push_length(extra, own, base, code)?;
        self.push_range(extra, own, base, code)
    }

    // ---- types

    // The first types of resources that an entry allows and others don't.
    fn new_resources(&self, own: &TypeEntry, base: &[TypeEntry]) -> Result<Vec<&'s str>, NoMemory> {
        let mut codes = Vec::new(self.alloc());
        for code in self.resources() {
            let is_new = self.schema().covers(own.code(), *code)
                && !covers_code(self.schema(), base, *code);
            if is_new && codes.len() < MOST_TYPES {
                codes.push(*code)?;
            }
        }
        Ok(codes)
    }

    fn push_resources(&mut self, extra: &[Step<'s>], own: &TypeEntry, base: &[TypeEntry]) -> Done {
        if !self.takes_looks(product(self.resources().len(), base.len())) {
            return Ok(());
        }
        let codes = self.new_resources(own, base)?;
        for code in &codes {
            self.push(extra, Change::OfType(*code))?;
        }
        Ok(())
    }

    fn push_type(&mut self, extra: &[Step<'s>], own: &'s TypeEntry, base: &[TypeEntry]) -> Done {
        if self.schema().is_resource(own.code()) {
            return self.push_resources(extra, own, base);
        }
        if !covers_code(self.schema(), base, own.code()) {
            self.push(extra, Change::OfType(own.code()))?;
        }
        Ok(())
    }

    fn push_types(&mut self, extra: &[Step<'s>], own: &'s [TypeEntry], base: &[TypeEntry]) -> Done {
        if base.is_empty() {
            return Ok(());
        }
        for entry in own {
            self.push_type(extra, entry, base)?;
        }
        Ok(())
    }

    // The first types of resources that some entries allow as targets and others don't.
    fn new_targets(&self, own: &[TypeEntry], base: &[TypeEntry]) -> Result<Vec<&'s str>, NoMemory> {
        let mut codes = Vec::new(self.alloc());
        for code in self.resources() {
            let is_new = some_targets_code(self.schema(), own, *code)
                && !some_targets_code(self.schema(), base, *code);
            if is_new && codes.len() < MOST_TYPES {
                codes.push(*code)?;
            }
        }
        Ok(codes)
    }

    // References to types that the derived node allows and the base doesn't.
    fn push_targets(
        &mut self,
        extra: &[Step<'s>],
        own: &'s [TypeEntry],
        base: &[TypeEntry],
    ) -> Done {
        let size = size_of(own).saturating_add(size_of(base));
        if !has_targets(base) || !self.takes_looks(product(self.resources().len(), size)) {
            return Ok(());
        }
        let codes = self.new_targets(own, base)?;
        for code in &codes {
            self.push(extra, Change::Target(*code))?;
        }
        Ok(())
    }

    // ---- constraints

    fn push_untrue(
        &mut self,
        extra: &[Step<'s>],
        own: &ElementDef,
        node: NodeRef,
        base: &'s ElementDef,
    ) -> Done {
        if !self.takes_looks(product(own.constraints().len(), base.constraints().len())) {
            return Ok(());
        }
        let schema = self.schema();
        for (position, constraint) in base.constraints().iter().enumerate() {
            if constraint.must_hold() && !has_constraint(own, constraint.expression()) {
                if let Some(expression) = schema.expression(node, position) {
                    self.push(extra, Change::Untrue(expression))?;
                }
            }
        }
        Ok(())
    }

    // ---- children

    fn push_counts(
        &mut self,
        extra: &[Step<'s>],
        name: &'s str,
        own: Option<NodeRef>,
        base: NodeRef,
    ) -> Done {
        let (own_least, own_most) = match own {
            Some(own) => (least_at(self.schema(), own), most_at(self.schema(), own)),
            None => (0, usize::MAX),
        };
        let (least, most) = (least_at(self.schema(), base), most_at(self.schema(), base));
        if least > own_least {
            self.push(extra, Change::Count(name, least.saturating_sub(1)))?;
        }
        if most < own_most && most < MOST_CHILDREN {
            self.push(extra, Change::Count(name, most + 1))?;
        }
        Ok(())
    }

    fn push_slice_counts(
        &mut self,
        extra: &[Step<'s>],
        name: &'s str,
        own: Option<NodeRef>,
        slice: NodeRef,
    ) -> Done {
        let (own_least, own_most) = match own {
            Some(own) => (least_at(self.schema(), own), most_at(self.schema(), own)),
            None => (0, usize::MAX),
        };
        let (least, most) = (
            least_at(self.schema(), slice),
            most_at(self.schema(), slice),
        );
        let told = own.unwrap_or(slice);
        if least > own_least {
            self.push(extra, Change::InSlice(name, told, least.saturating_sub(1)))?;
        }
        if most < own_most && most < MOST_CHILDREN {
            self.push(extra, Change::InSlice(name, told, most + 1))?;
        }
        Ok(())
    }

    // One item in a slice that the base doesn't have.
    fn push_own_slices(
        &mut self,
        extra: &[Step<'s>],
        name: &'s str,
        own: NodeRef,
        base: NodeRef,
    ) -> Done {
        for slice in self.schema().slices(own) {
            if self.schema().slice(base, slice.name()).is_none() {
                self.push_step(extra, step_to(name, Slice::Own(entry_of(own, slice))))?;
            }
        }
        Ok(())
    }

    // One item of each type that none of the base's slices is of.
    fn push_other_types(
        &mut self,
        extra: &[Step<'s>],
        name: &'s str,
        own: NodeRef,
        base: NodeRef,
    ) -> Done {
        let schema = self.schema();
        let types = schema.types(own);
        let looks = product(types.len(), types_of_slices(schema, base));
        if types.len() < 2 || !self.takes_looks(looks) {
            return Ok(());
        }
        for entry in types {
            if !is_in_slice(schema, base, entry.code()) {
                let code = Some(entry.code());
                let slice = Slice::Any;
                self.push_step(extra, Step { name, slice, code })?;
            }
        }
        Ok(())
    }

    fn push_step(&mut self, extra: &[Step<'s>], step: Step<'s>) -> Done {
        let steps = with_step(self.alloc(), extra, step)?;
        self.push(&steps, Change::Nothing)
    }

    fn push_closed(
        &mut self,
        extra: &[Step<'s>],
        name: &'s str,
        own: Option<NodeRef>,
        base: NodeRef,
    ) -> Done {
        if !self.schema().is_closed(base) {
            return Ok(());
        }
        self.push(extra, Change::OneMore(name))?;
        let Some(own) = own else {
            return Ok(());
        };
        self.push_own_slices(extra, name, own, base)?;
        self.push_other_types(extra, name, own, base)
    }

    fn push_slices(
        &mut self,
        extra: &[Step<'s>],
        name: &'s str,
        own: Option<NodeRef>,
        base: NodeRef,
    ) -> Done {
        let schema = self.schema();
        for slice in schema.slices(base) {
            let own = own_slice(schema, own, slice.name());
            self.push_slice_counts(extra, name, own, entry_of(base, slice))?;
        }
        Ok(())
    }

    fn push_slot(
        &mut self,
        extra: &[Step<'s>],
        own: NodeRef,
        base: NodeRef,
        slot: &'s Slot,
    ) -> Done {
        let name = slot.name();
        let entry = entry_of(base, slot);
        let own = own_slot(self.schema(), own, name);
        if !self.takes_looks(slices_at(self.schema(), own, entry)) {
            return Ok(());
        }
        self.push_counts(extra, name, own, entry)?;
        self.push_closed(extra, name, own, entry)?;
        self.push_slices(extra, name, own, entry)?;
        self.push_orders(extra, name, own, entry)
    }

    fn push_slots(&mut self, extra: &[Step<'s>], own: NodeRef, base: NodeRef) -> Done {
        let schema = self.schema();
        for slot in schema.slots(base) {
            self.push_slot(extra, own, base, slot)?;
        }
        Ok(())
    }
}

fn own_slot(schema: &Schema, own: NodeRef, name: &str) -> Option<NodeRef> {
    let slot = schema.slot(own, name)?;
    Some(entry_of(own, slot))
}

// How many slices two slots have, and one more.
fn slices_at(schema: &Schema, own: Option<NodeRef>, base: NodeRef) -> usize {
    let own = match own {
        Some(own) => schema.slices(own).len(),
        None => 0,
    };
    own.saturating_add(schema.slices(base).len())
        .saturating_add(1)
}

fn step_to<'s>(name: &'s str, slice: Slice) -> Step<'s> {
    Step {
        name,
        slice,
        code: None,
    }
}

// ---- what the elements of two nodes suggest, and what stands below them

// What two elements suggest by themselves.
fn push_elements<'s>(
    finder: &mut Finder<'s>,
    extra: &[Step<'s>],
    own: NodeRef,
    base: NodeRef,
) -> Done {
    let schema = finder.schema();
    let size = size_at(schema, own).saturating_add(size_at(schema, base));
    let types = product(schema.types(own).len(), schema.types(base).len());
    if !finder.takes_looks(size.saturating_add(types)) {
        return Ok(());
    }
    let (Some(element), Some(other)) = (schema.element(own), schema.element(base)) else {
        return Ok(());
    };
    finder.push_types(extra, schema.types(own), schema.types(base))?;
    finder.push_facets(extra, element, other, common_type(schema, own, base))?;
    finder.push_targets(extra, schema.types(own), schema.types(base))?;
    finder.push_untrue(extra, element, base, other)?;
    finder.push_further(extra, element, own, other)
}

#[cycle(changing)]
fn push_item<'s>(
    finder: &mut Finder<'s>,
    levels: usize,
    extra: &[Step<'s>],
    own: NodeRef,
    base: NodeRef,
) -> Done {
    push_elements(finder, extra, own, base)?;
    if finder.is_done() {
        return Ok(());
    }
    push_profiles(finder, levels, extra, own, base)?;
    match (
        kids_node(finder.schema(), own),
        finder.schema().child_holder(base),
    ) {
        (Some(own), Some(base)) => push_kids(finder, levels, extra, own, base),
        _ => Ok(()),
    }
}

#[cycle(changing)]
fn push_profiles<'s>(
    finder: &mut Finder<'s>,
    levels: usize,
    extra: &[Step<'s>],
    own: NodeRef,
    base: NodeRef,
) -> Done {
    let schema = finder.schema();
    for entry in schema.types(base) {
        push_named(finder, levels, extra, own, entry)?;
    }
    Ok(())
}

// What the profiles suggest that the base names for items of a type.
#[cycle(changing)]
fn push_named<'s>(
    finder: &mut Finder<'s>,
    levels: usize,
    extra: &[Step<'s>],
    own: NodeRef,
    entry: &'s TypeEntry,
) -> Done {
    let schema = finder.schema();
    if entry.profiles().is_empty() || !finder.takes_looks(size_of(schema.types(own))) {
        return Ok(());
    }
    let steps = of_type(finder.alloc(), extra, entry.code())?;
    let kids = kids_of_type(schema, own, entry.code());
    for profile in entry.profiles() {
        if let Some(root) = schema.loaded(profile.as_str()) {
            push_root(finder, levels, &steps, own, kids, root)?;
        }
    }
    Ok(())
}

// What such a profile suggests, unless it is the derived node's too.
#[cycle(changing)]
fn push_root<'s>(
    finder: &mut Finder<'s>,
    levels: usize,
    extra: &[Step<'s>],
    own: NodeRef,
    kids: Option<NodeRef>,
    root: NodeRef,
) -> Done {
    if kids == Some(root) {
        return Ok(());
    }
    push_elements(finder, extra, own, root)?;
    match kids {
        Some(kids) => push_kids(finder, levels, extra, kids, root),
        None => Ok(()),
    }
}

#[cycle(changing)]
fn push_kids<'s>(
    finder: &mut Finder<'s>,
    levels: usize,
    extra: &[Step<'s>],
    own: NodeRef,
    base: NodeRef,
) -> Done {
    finder.push_slots(extra, own, base)?;
    if levels == 0 || finder.is_done() {
        return Ok(());
    }
    let schema = finder.schema();
    for slot in schema.slots(base) {
        push_entry(finder, levels - 1, extra, own, base, slot)?;
    }
    Ok(())
}

#[cycle(changing)]
fn push_entry<'s>(
    finder: &mut Finder<'s>,
    levels: usize,
    extra: &[Step<'s>],
    own: NodeRef,
    base: NodeRef,
    slot: &'s Slot,
) -> Done {
    let base = entry_of(base, slot);
    let Some(own) = own_slot(finder.schema(), own, slot.name()) else {
        return Ok(());
    };
    push_below(
        finder,
        levels,
        extra,
        step_to(slot.name(), Slice::Any),
        own,
        base,
    )?;
    let schema = finder.schema();
    for slice in schema.slices(base) {
        let step = step_to(slot.name(), Slice::Base(entry_of(base, slice)));
        push_below(finder, levels, extra, step, own, entry_of(base, slice))?;
    }
    Ok(())
}

// What two elements below suggest, if they aren't the same.
#[cycle(changing)]
fn push_below<'s>(
    finder: &mut Finder<'s>,
    levels: usize,
    extra: &[Step<'s>],
    step: Step<'s>,
    own: NodeRef,
    base: NodeRef,
) -> Done {
    if own == base {
        return Ok(());
    }
    let steps = with_step(finder.alloc(), extra, step)?;
    push_item(finder, levels, &steps, own, base)
}

// The last step of the way, which is taken off it, so that its type can be said.
fn last_step<'s>(finder: &mut Finder<'s>) -> Result<Vec<Step<'s>>, NoMemory> {
    let mut last = Vec::new(finder.alloc());
    if let Some(step) = finder.take_step() {
        last.push(step)?;
    }
    Ok(last)
}

/// All that a pair of items and what stands below it suggest.
pub(crate) fn suggest_of_items<'s>(finder: &mut Finder<'s>, own: NodeRef, base: NodeRef) -> Done {
    let last = last_step(finder)?;
    finder.push(&last, Change::Nothing)?;
    push_item(finder, MOST_LEVELS, &last, own, base)
}

/// All that a pair of children and what stands below it suggest.
pub(crate) fn suggest_of_kids<'s>(finder: &mut Finder<'s>, own: NodeRef, base: NodeRef) -> Done {
    finder.push(&[], Change::Nothing)?;
    push_kids(finder, MOST_LEVELS, &[], own, base)
}

/// What a pair of items suggests by itself, and by the profiles that the base names for it.
pub(crate) fn suggest_of_elements<'s>(
    finder: &mut Finder<'s>,
    own: NodeRef,
    base: NodeRef,
) -> Done {
    if own == base {
        return Ok(());
    }
    let last = last_step(finder)?;
    push_elements(finder, &last, own, base)?;
    push_profiles(finder, 0, &last, own, base)
}

/// What a pair of children suggests by itself.
pub(crate) fn suggest_of_slots<'s>(finder: &mut Finder<'s>, own: NodeRef, base: NodeRef) -> Done {
    if own == base {
        return Ok(());
    }
    finder.push_slots(&[], own, base)
}
