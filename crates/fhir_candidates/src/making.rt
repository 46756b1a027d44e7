//! How a candidate is made: the least resource that a profile admits, with a change at the end of a way.

use crate::draft::{Done, Draft};
use crate::values::{put_primitive, put_system};
use fhir_demands::{
    Demand, Planned, Task, below, fill, form_for, place_of, plan_of, push_criteria, resource_code,
    specials, whole,
};
use fhir_differences::{Change, Difference, Slice, entry_of, least_at, most_at};
use fhir_json::{Json, NoMemory};
use fhir_schema::{Content, Form, NodeRef, Schema, Slot, Sought};
use std::alloc::Global;

// How many levels of items a candidate may have.
const MOST_LEVELS: usize = 40;
// How many items of one name are made at most.
const MOST_CHILDREN: usize = 1024;
// How many looks a concept that two value sets have takes. How many concepts are gone through for it isn't known.
const LOOKS_FOR_CONCEPT: usize = 10_000;

// What each of several items is asked for.
type Items<'s> = Vec<Vec<Demand<'s>>>;

// ---- which items there are of a name

fn push_item<'s>(
    alloc: Global,
    common: &[Demand<'s>],
    special: &[Demand<'s>],
    into: &mut Items<'s>,
) -> Done {
    if into.len() >= MOST_CHILDREN {
        return Ok(());
    }
    let mut item = common.to_vec(alloc)?;
    item.extend_from_slice(special)?;
    into.push(item)?;
    Ok(())
}

fn push_items<'s>(
    alloc: Global,
    common: &[Demand<'s>],
    special: &[Demand<'s>],
    count: usize,
    into: &mut Items<'s>,
) -> Done {
    for _ in 0..count {
        push_item(alloc, common, special, into)?;
    }
    Ok(())
}

// What an item of a slice is asked for besides.
fn of_slice<'s>(
    alloc: Global,
    schema: &'s Schema,
    slice: NodeRef,
) -> Result<Vec<Demand<'s>>, NoMemory> {
    let mut special: Vec<Demand<'s>> = Vec::new(alloc);
    special.push(Demand::Node(slice))?;
    push_criteria(schema, slice, &mut special)?;
    Ok(special)
}

fn is_stepped(task: &Task<'_, '_>, demands: &[Demand<'_>], name: &str, slice: NodeRef) -> bool {
    match task.step_to(demands, name) {
        Some((_, step)) => step.slice == Slice::Own(slice),
        None => false,
    }
}

// Whether it is that an item conforms to a node of a definition.
fn is_of(demand: Demand<'_>, definition: usize) -> bool {
    match demand {
        Demand::Node(node) => node.definition == definition,
        _ => false,
    }
}

// Whether the change says which items of the slice there are.
fn is_changed(task: &Task<'_, '_>, demands: &[Demand<'_>], name: &str, slice: NodeRef) -> bool {
    match task.change_at(demands) {
        Change::InSlice(changed, of, _) => changed == name && of == slice,
        Change::InOrder(changed, first, second) => {
            changed == name && (first == Some(slice) || second == slice)
        }
        _ => false,
    }
}

// How many items of a slice there have to be besides the one that the way leads to, and those that the change gives.
fn missing_of(task: &Task<'_, '_>, demands: &[Demand<'_>], name: &str, slice: NodeRef) -> usize {
    if is_changed(task, demands, name, slice) {
        return 0;
    }
    let least = least_at(task.schema, slice).min(MOST_CHILDREN);
    if is_stepped(task, demands, name, slice) {
        least.saturating_sub(1)
    } else {
        least
    }
}

// A list of children that is gathered.
#[derive(Clone, Copy)]
struct Gathering<'t, 'w, 'd, 'c, 's> {
    alloc: Global,
    task: &'t Task<'w, 's>,
    // What their parent is asked for.
    demands: &'d [Demand<'s>],
    name: &'s str,
    // What each of them is.
    common: &'c [Demand<'s>],
}

impl<'s> Gathering<'_, '_, '_, '_, 's> {
    fn push_slice(&self, node: NodeRef, slice: &Slot, into: &mut Items<'s>) -> Done {
        let slice = entry_of(node, slice);
        let count = missing_of(self.task, self.demands, self.name, slice);
        let special = of_slice(self.alloc, self.task.schema, slice)?;
        push_items(self.alloc, self.common, &special, count, into)
    }

    fn push_slices(&self, demand: Demand<'s>, into: &mut Items<'s>) -> Done {
        let Demand::Node(node) = demand else {
            return Ok(());
        };
        for slice in self.task.schema.slices(node) {
            self.push_slice(node, slice, into)?;
        }
        Ok(())
    }

    fn push_sliced(&self, into: &mut Items<'s>) -> Done {
        for demand in self.common {
            self.push_slices(*demand, into)?;
        }
        Ok(())
    }

    fn push_pattern(&self, demand: Demand<'s>, into: &mut Items<'s>) -> Done {
        let Demand::Pattern(json) = demand else {
            return Ok(());
        };
        let Some(Json::Arr(items)) = json.field(self.name) else {
            return Ok(());
        };
        for item in items {
            push_item(self.alloc, self.common, &[Demand::Pattern(item)], into)?;
        }
        Ok(())
    }

    fn push_patterns(&self, into: &mut Items<'s>) -> Done {
        for demand in self.demands {
            self.push_pattern(*demand, into)?;
        }
        Ok(())
    }

    // Whether a slice is one of an element that each of them is.
    fn is_own(&self, slice: NodeRef) -> bool {
        for demand in self.common {
            if is_of(*demand, slice.definition) {
                return true;
            }
        }
        false
    }

    // What an item is asked for besides that is told to be in a slice, of the profile or of its base.
    fn in_slice(&self, slice: NodeRef) -> Result<Vec<Demand<'s>>, NoMemory> {
        if self.is_own(slice) {
            return of_slice(self.alloc, self.task.schema, slice);
        }
        let mut special: Vec<Demand<'s>> = Vec::new(self.alloc);
        push_criteria(self.task.schema, slice, &mut special)?;
        Ok(special)
    }

    // One that is told to be in a slice, if there is one.
    fn push_told(&self, slice: Option<NodeRef>, into: &mut Items<'s>) -> Done {
        let special = match slice {
            Some(slice) => self.in_slice(slice)?,
            None => Vec::new(self.alloc),
        };
        push_item(self.alloc, self.common, &special, into)
    }

    fn push_changed(&self, into: &mut Items<'s>) -> Done {
        match self.task.change_at(self.demands) {
            Change::InSlice(name, slice, count) if name == self.name => {
                let special = self.in_slice(slice)?;
                push_items(self.alloc, self.common, &special, count, into)
            }
            Change::InOrder(name, first, second) if name == self.name => {
                self.push_told(first, into)?;
                self.push_told(Some(second), into)
            }
            _ => Ok(()),
        }
    }

    // A slice in which more items may be, where each has to be in one.
    fn open_slice(&self, demand: Demand<'s>) -> Option<NodeRef> {
        let Demand::Node(node) = demand else {
            return None;
        };
        if !self.task.schema.is_closed(node) {
            return None;
        }
        for slice in self.task.schema.slices(node) {
            let slice = entry_of(node, slice);
            if most_at(self.task.schema, slice) > least_at(self.task.schema, slice) {
                return Some(slice);
            }
        }
        None
    }

    fn filling_slice(&self) -> Option<NodeRef> {
        for demand in self.common {
            if let Some(slice) = self.open_slice(*demand) {
                return Some(slice);
            }
        }
        None
    }

    // What an item that isn't asked for by itself is asked for besides.
    fn filling(&self) -> Result<Vec<Demand<'s>>, NoMemory> {
        match self.filling_slice() {
            Some(slice) => of_slice(self.alloc, self.task.schema, slice),
            None => Ok(Vec::new(self.alloc)),
        }
    }

    fn push_rest(&self, count: usize, into: &mut Items<'s>) -> Done {
        let rest = count.min(MOST_CHILDREN).saturating_sub(into.len());
        let special = self.filling()?;
        push_items(self.alloc, self.common, &special, rest, into)
    }

    fn push_special(&self, into: &mut Items<'s>) -> Done {
        let special = specials(self.alloc, self.task, self.demands, self.name)?;
        if special.is_empty() {
            return Ok(());
        }
        push_item(self.alloc, self.common, &special, into)
    }

    fn items(&self, count: usize) -> Result<Items<'s>, NoMemory> {
        let mut items: Items<'s> = Vec::new(self.alloc);
        self.push_special(&mut items)?;
        self.push_sliced(&mut items)?;
        self.push_patterns(&mut items)?;
        self.push_changed(&mut items)?;
        self.push_rest(count, &mut items)?;
        Ok(items)
    }
}

// What all of these are asked for at once: of what doesn't repeat there is one item.
fn merged<'s>(alloc: Global, items: &Items<'s>) -> Result<Vec<Demand<'s>>, NoMemory> {
    let mut all: Vec<Demand<'s>> = Vec::new(alloc);
    for item in items {
        all.extend_from_slice(item)?;
    }
    Ok(all)
}

// Whether children of these forms repeat.
fn repeats(forms: &[Form]) -> bool {
    match forms {
        [first, ..] => first.repeats(),
        [] => false,
    }
}

// The forms from a place on.
fn forms_from(forms: &[Form], place: usize) -> &[Form] {
    forms.get(place..).unwrap_or(&[])
}

// What each of the children of a name is asked for, by the forms that begin with the first of the name.
fn items_of<'s>(
    alloc: Global,
    task: &Task<'_, 's>,
    demands: &[Demand<'s>],
    forms: &[Form],
    planned: &Planned<'s>,
) -> Result<Items<'s>, NoMemory> {
    let name = planned.name;
    let common = below(alloc, task.schema, demands, name)?;
    let gathering = Gathering {
        alloc,
        task,
        demands,
        name,
        common: &common,
    };
    let mut items = gathering.items(planned.count)?;
    if let Change::Count(changed, count) = task.change_at(demands) {
        if changed == name {
            items.truncate(count);
        }
    }
    if repeats(forms) || items.is_empty() {
        return Ok(items);
    }
    let one = merged(alloc, &items)?;
    let mut single: Items<'s> = Vec::new(alloc);
    single.push(one)?;
    Ok(single)
}

// ---- items

fn fixed_value<'s>(demands: &[Demand<'s>]) -> Option<&'s Json<'static>> {
    for demand in demands {
        if let Demand::Fixed(value) = *demand {
            return Some(value);
        }
    }
    None
}

// The value set that a node's items are bound to.
fn set_asked<'s>(schema: &'s Schema, demand: Demand<'s>) -> Option<&'s str> {
    match demand {
        Demand::Node(node) => schema.element(node)?.required_value_set(),
        _ => None,
    }
}

fn are_apart(left: Option<&str>, right: Option<&str>) -> bool {
    match (left, right) {
        (Some(left), Some(right)) => left != right,
        _ => false,
    }
}

fn first_set<'s>(schema: &'s Schema, demands: &[Demand<'s>]) -> Option<&'s str> {
    for demand in demands {
        if let Some(set) = set_asked(schema, *demand) {
            return Some(set);
        }
    }
    None
}

// Whether an item is bound to two value sets.
fn has_two_sets(schema: &Schema, demands: &[Demand<'_>]) -> bool {
    let first = first_set(schema, demands);
    for demand in demands {
        if are_apart(first, set_asked(schema, *demand)) {
            return true;
        }
    }
    false
}

// How many looks it takes to tell whether an item of a type can be what a demand says: at the demand, and at each type that it names.
fn looks_at(schema: &Schema, demand: Demand<'_>) -> usize {
    let types = match demand {
        Demand::Node(node) => schema.types(node).len(),
        Demand::Sought(_, Sought::Typed(codes)) => codes.len(),
        _ => 0,
    };
    types.saturating_add(1)
}

// How many it takes to tell whether it can be all that it is asked for.
fn looks_at_all(schema: &Schema, demands: &[Demand<'_>]) -> usize {
    let mut count = 0_usize;
    for demand in demands {
        count = count.saturating_add(looks_at(schema, *demand));
    }
    count
}

// All that an item of a type is asked for.
fn whole_within<'s>(
    draft: &mut Draft,
    task: &Task<'_, 's>,
    demands: &[Demand<'s>],
    code: &str,
) -> Result<Vec<Demand<'s>>, NoMemory> {
    let all = whole(draft.alloc(), task, demands, code)?;
    draft.takes_looks(looks_at_all(task.schema, &all));
    if has_two_sets(task.schema, &all) {
        draft.takes_looks(LOOKS_FOR_CONCEPT);
    }
    Ok(all)
}

// How many children of each name an object gets. Where that is too much to look at, the candidate is given up.
fn plan_within<'s>(
    draft: &mut Draft,
    task: &Task<'_, 's>,
    demands: &[Demand<'s>],
    typing: NodeRef,
) -> Result<Vec<Planned<'s>>, NoMemory> {
    let names = task.schema.slots(typing).len();
    if draft.takes_looks(names.saturating_mul(demands.len())) {
        plan_of(draft.alloc(), task, demands, typing)
    } else {
        Ok(Vec::new(draft.alloc()))
    }
}

// What each of the children of a name is asked for. Where that is too much to look at, there are none, and the candidate is given up.
fn items_within<'s>(
    draft: &mut Draft,
    task: &Task<'_, 's>,
    demands: &[Demand<'s>],
    forms: &[Form],
    planned: &Planned<'s>,
) -> Result<Items<'s>, NoMemory> {
    let most = planned.count.min(MOST_CHILDREN);
    if draft.takes_looks(most.saturating_mul(demands.len())) {
        items_of(draft.alloc(), task, demands, forms, planned)
    } else {
        Ok(Vec::new(draft.alloc()))
    }
}

// How many forms have a name, of those that begin with the first of it.
fn forms_named(forms: &[Form], name: &str) -> usize {
    for (count, form) in forms.iter().enumerate() {
        if form.name() != name {
            return count;
        }
    }
    forms.len()
}

// The form of a child that is asked for so, as `form_for` gives it. Where that is too much to look at, there is none, and the candidate is
// given up.
fn form_within<'s>(
    draft: &mut Draft,
    task: &Task<'_, 's>,
    forms: &'s [Form],
    name: &str,
    demands: &[Demand<'s>],
) -> Option<&'s Form> {
    let looks = looks_at_all(task.schema, demands);
    if draft.takes_looks(looks.saturating_mul(forms_named(forms, name))) {
        form_for(task, forms, name, demands)
    } else {
        None
    }
}

#[cycle(making)]
fn put_item<'s>(
    draft: &mut Draft,
    levels: usize,
    task: &Task<'_, 's>,
    demands: &[Demand<'s>],
    form: &'s Form,
) -> Done {
    if !draft.takes_item() {
        return Ok(());
    }
    if let Content::Resource = form.content() {
        return put_resource(draft, levels, task, demands, resource_code(task, demands));
    }
    let all = whole_within(draft, task, demands, form.code())?;
    match form.content() {
        Content::Primitive(prim, _) => put_primitive(draft, task, &all, prim),
        Content::System => put_system(draft, task, &all),
        Content::Complex(Some(typing)) => put_object(draft, levels, task, &all, typing),
        _ => {
            draft.give_up();
            Ok(())
        }
    }
}

#[cycle(making)]
fn put_resource<'s>(
    draft: &mut Draft,
    levels: usize,
    task: &Task<'_, 's>,
    demands: &[Demand<'s>],
    code: &'s str,
) -> Done {
    let Some(typing) = task.schema.resource_root(code) else {
        draft.give_up();
        return Ok(());
    };
    let all = whole_within(draft, task, demands, code)?;
    let plan = plan_within(draft, task, &all, typing)?;
    draft.open(b'{')?;
    draft.put_name("resourceType")?;
    draft.put_text(code)?;
    put_children(draft, levels, task, &all, typing, &plan)?;
    draft.close(b'}')
}

#[cycle(making)]
fn put_object<'s>(
    draft: &mut Draft,
    levels: usize,
    task: &Task<'_, 's>,
    demands: &[Demand<'s>],
    typing: NodeRef,
) -> Done {
    if let Some(value) = fixed_value(demands) {
        return draft.put_json(value);
    }
    let mut plan = plan_within(draft, task, demands, typing)?;
    fill(&mut plan);
    draft.open(b'{')?;
    put_children(draft, levels, task, demands, typing, &plan)?;
    draft.close(b'}')
}

#[cycle(making)]
fn put_children<'s>(
    draft: &mut Draft,
    levels: usize,
    task: &Task<'_, 's>,
    demands: &[Demand<'s>],
    typing: NodeRef,
    plan: &[Planned<'s>],
) -> Done {
    let forms = task.schema.forms(typing);
    let mut near = 0;
    for planned in plan {
        if planned.count > 0 {
            let Some(place) = place_of(forms, planned.name, near) else {
                draft.give_up();
                return Ok(());
            };
            near = place;
            put_child(
                draft,
                levels,
                task,
                demands,
                forms_from(forms, place),
                planned,
            )?;
        }
    }
    Ok(())
}

#[cycle(making)]
fn put_child<'s>(
    draft: &mut Draft,
    levels: usize,
    task: &Task<'_, 's>,
    demands: &[Demand<'s>],
    forms: &'s [Form],
    planned: &Planned<'s>,
) -> Done {
    let items = items_within(draft, task, demands, forms, planned)?;
    let Some(first) = items.first() else {
        return Ok(());
    };
    let Some(form) = form_within(draft, task, forms, planned.name, first) else {
        draft.give_up();
        return Ok(());
    };
    draft.put_name(form.property())?;
    if !form.repeats() {
        return put_below(draft, levels, task, first, form);
    }
    draft.open(b'[')?;
    put_items(draft, levels, task, &items, form)?;
    draft.close(b']')
}

#[cycle(making)]
fn put_items<'s>(
    draft: &mut Draft,
    levels: usize,
    task: &Task<'_, 's>,
    items: &Items<'s>,
    form: &'s Form,
) -> Done {
    for item in items {
        put_below(draft, levels, task, item, form)?;
    }
    Ok(())
}

#[cycle(making)]
fn put_below<'s>(
    draft: &mut Draft,
    levels: usize,
    task: &Task<'_, 's>,
    demands: &[Demand<'s>],
    form: &'s Form,
) -> Done {
    if levels == 0 {
        draft.give_up();
        return Ok(());
    }
    put_item(draft, levels - 1, task, demands, form)
}

/// The text of a resource, if one is made: the least that the profile of a root admits, with a change at the end of a way. Where a
/// resource of any type will do, it is of the type of that code.
pub fn candidate<'s>(
    alloc: Global,
    schema: &'s Schema,
    root: NodeRef,
    plain: &'s str,
    difference: &Difference<'s>,
) -> Result<Option<Vec<u8>>, NoMemory> {
    let task = Task {
        schema,
        steps: &difference.steps,
        change: difference.change,
        plain,
    };
    let mut draft = Draft::new(alloc);
    let demands = [Demand::Node(root), Demand::Way(0)];
    put_resource(
        &mut draft,
        MOST_LEVELS,
        &task,
        &demands,
        schema.type_code(root),
    )?;
    Ok(draft.into_bytes())
}
