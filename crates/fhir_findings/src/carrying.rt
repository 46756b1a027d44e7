//! From a survey and a schema to what isn't judged.

ghost use Rattle.std.specs.Prelude.{◌≡◌, ◌∷◌, ◌++◌, [], ℕ, List, None, Some, length, map, is_some, is_none, if◌then◌else◌, IfOk, OnOk};
ghost use Rattle.std.specs.List.{flat_map, enumerate_from, slice_get};
ghost use Rattle.std.specs.Option.{option_map_or};
ghost use Rattle.fhir_json.specs.Views.{tree_of};
ghost use Rattle.fhir_names.specs.Places.{Finds};
ghost use Rattle.fhir_package.specs.declared.kind.Kind.TheVariants.{StructureDefinition};
ghost use Rattle.fhir_facets.specs.Views.{unread_seen};
ghost use Rattle.fhir_nodes.specs.Expressions.{expression_of};
ghost use Rattle.fhir_schema.specs.Expressions.{constraint_at};
ghost use Rattle.fhir_schema.specs.Schemas.{element_at, elements_at};
ghost use Rattle.fhir_findings.specs.Firsts.{has_text_of, firsts};
ghost use Rattle.fhir_findings.specs.Carrying.{Carrier as CarrierValue, text_of, carrier_of, constraint_carriers, rule_carriers, element_carriers, usable_carriers, base_carrier, base_carriers, definition_carriers, selected_carriers, all_carriers};
ghost use Rattle.fhir_findings.specs.Views.{carrier_seen, carriers_seen, spot_seen};

use crate::carrier::{Carried, Carrier, Spot, carrier_of, lacks_definition, text_of};
use crate::selection::Selection;
use crate::unread::unread_rules;
use fhir_elements::{ConstraintDef, ElementDef};
use fhir_facets::Unread;
use fhir_json::{Json, NoMemory};
use fhir_names::Index;
use fhir_package::{Kind, Survey};
use fhir_schema::{NodeRef, Schema};
use std::alloc::{AllocError, Global};

// ---- elements

fn push_rules<'s>(
    spot: &Spot<'s, '_>,
    rules: &[Unread<'s>],
    into: &mut Vec<Carrier<'s>>,
) -> Result<(), AllocError>
    ensures { OnOk result (carriers_seen into.new.items
        ≡ carriers_seen into.old.items ++ map (carrier_of (spot_seen spot.now) None) (map unread_seen rules.now)) }
{
    for rule in rules {
        into.push(carrier_of(spot, None, *rule))?;
    }
    Ok(())
}

fn push_constraint<'s>(
    spot: &Spot<'s, '_>,
    constraint: &'s ConstraintDef,
    is_read: bool,
    into: &mut Vec<Carrier<'s>>,
) -> Result<(), AllocError>
    requires { is_read ≡ is_some (expression_of constraint.now) }
    ensures { OnOk result (carriers_seen into.new.items
        ≡ carriers_seen into.old.items ++ constraint_carriers (spot_seen spot.now) constraint.now) }
{
    if constraint.must_hold() && !is_read {
        let rule = Unread::of_constraint(constraint);
        into.push(carrier_of(spot, Some(constraint.key()), rule))?;
    }
    Ok(())
}

fn push_constraints<'s>(
    schema: &Schema,
    spot: &Spot<'s, '_>,
    node: NodeRef,
    constraints: &'s [ConstraintDef],
    into: &mut Vec<Carrier<'s>>,
) -> Result<(), AllocError>
    requires { (position : ℕ) → constraint_at schema.now node position ≡ slice_get constraints.now position }
    ensures { OnOk result (carriers_seen into.new.items
        ≡ carriers_seen into.old.items ++ flat_map (constraint_carriers (spot_seen spot.now)) constraints.now) }
{
    for (position, constraint) in constraints.iter().enumerate() {
        let is_read = schema.expression(node, position).is_some();
        push_constraint(spot, constraint, is_read, into)?;
    }
    Ok(())
}

// A node's element, with each of its unread rules.
fn rule_carriers<'s>(
    alloc: Global,
    schema: &'s Schema,
    spot: &Spot<'s, '_>,
    node: NodeRef,
    element: &'s ElementDef,
) -> Result<Vec<Carrier<'s>>, AllocError>
    requires { element_at schema.now node ≡ Some element.now }
    ensures { IfOk result (λ cs. carriers_seen cs.items ≡ rule_carriers schema.now (spot_seen spot.now) node element.now) }
{
    let rules = unread_rules(alloc, schema, node, element)?;
    let mut carriers: Vec<Carrier<'s>> = Vec::new(alloc);
    push_rules(spot, &rules, &mut carriers)?;
    push_constraints(schema, spot, node, element.constraints(), &mut carriers)?;
    Ok(carriers)
}

fn push_if<'s>(
    is_new: bool,
    carrier: &Carrier<'s>,
    into: &mut Vec<Carrier<'s>>,
) -> Result<(), AllocError>
    ensures { OnOk result (carriers_seen into.new.items
        ≡ carriers_seen into.old.items ++ (if is_new then carrier_seen carrier.now ∷ [] else [])) }
{
    if is_new {
        into.push(*carrier)?;
    }
    Ok(())
}

// Puts a carrier in, if none of those before it has its text. The index has the texts of those.
fn push_if_first<'s>(
    alloc: Global,
    seen: &mut Index,
    carrier: &Carrier<'s>,
    place: usize,
    into: &mut Vec<Carrier<'s>>,
) -> Result<(), NoMemory>
    ensures seen { OnOk result ((before : List CarrierValue) → Finds seen.old (map text_of before) → length before ≡ place
        → Finds seen.new (map text_of (before ++ carrier_seen carrier.now ∷ []))) }
    ensures pushed { OnOk result ((before : List CarrierValue) → Finds seen.old (map text_of before)
        → carriers_seen into.new.items ≡ carriers_seen into.old.items
        ++ (if has_text_of text_of before (carrier_seen carrier.now) then [] else carrier_seen carrier.now ∷ [])) }
{
    let text = text_of(alloc, &carrier.carried)?;
    let is_new = seen.get(text.as_str()).is_none();
    seen.add(alloc, text.as_str(), place)?;
    push_if(is_new, carrier, into)?;
    Ok(())
}

// Puts in those of which none before them has the same text.
fn push_firsts<'s>(
    alloc: Global,
    carriers: &[Carrier<'s>],
    into: &mut Vec<Carrier<'s>>,
) -> Result<(), NoMemory>
    ensures { OnOk result (carriers_seen into.new.items ≡ carriers_seen into.old.items ++ firsts text_of (carriers_seen carriers.now)) }
{
    let mut seen = Index::new(alloc);
    for (place, carrier) in carriers.iter().enumerate() {
        push_if_first(alloc, &mut seen, carrier, place, into)?;
    }
    Ok(())
}

fn push_element<'s>(
    alloc: Global,
    schema: &'s Schema,
    spot: &Spot<'s, '_>,
    node: NodeRef,
    element: &'s ElementDef,
    into: &mut Vec<Carrier<'s>>,
) -> Result<(), NoMemory>
    requires { element_at schema.now node ≡ Some element.now }
    ensures { OnOk result (carriers_seen into.new.items ≡ carriers_seen into.old.items
        ++ element_carriers schema.now (spot_seen spot.now) node.definition (node.element, element.now)) }
{
    let spot = Spot {
        package: spot.package,
        file: spot.file,
        url: spot.url,
        id: element.id(),
    };
    let carriers = rule_carriers(alloc, schema, &spot, node, element)?;
    push_firsts(alloc, &carriers, into)
}

fn push_node<'s>(
    alloc: Global,
    schema: &'s Schema,
    spot: &Spot<'s, '_>,
    node: NodeRef,
    into: &mut Vec<Carrier<'s>>,
) -> Result<(), NoMemory>
    ensures { OnOk result (carriers_seen into.new.items ≡ carriers_seen into.old.items
        ++ option_map_or (λ e. element_carriers schema.now (spot_seen spot.now) node.definition (node.element, e)) (element_at schema.now node) []) }
{
    match schema.element(node) {
        Some(element) => push_element(alloc, schema, spot, node, element, into),
        None => Ok(()),
    }
}

// ---- definitions

fn element_count(schema: &Schema, place: usize) -> usize
    ensures { result ≡ length (elements_at schema.now place) }
{
    match schema.definitions().get(place) {
        Some(definition) => definition.elements().len(),
        None => 0,
    }
}

fn push_elements<'s>(
    alloc: Global,
    schema: &'s Schema,
    spot: &Spot<'s, '_>,
    place: usize,
    into: &mut Vec<Carrier<'s>>,
) -> Result<(), NoMemory>
    ensures { OnOk result (carriers_seen into.new.items ≡ carriers_seen into.old.items
        ++ flat_map (element_carriers schema.now (spot_seen spot.now) place) (enumerate_from 0 (elements_at schema.now place))) }
{
    for element in 0..element_count(schema, place) {
        let node = NodeRef {
            definition: place,
            element,
        };
        push_node(alloc, schema, spot, node, into)?;
    }
    Ok(())
}

fn push_usable<'s>(
    alloc: Global,
    schema: &'s Schema,
    spot: &Spot<'s, '_>,
    place: usize,
    into: &mut Vec<Carrier<'s>>,
) -> Result<(), NoMemory>
    ensures { OnOk result (carriers_seen into.new.items
        ≡ carriers_seen into.old.items ++ usable_carriers schema.now (spot_seen spot.now) place) }
{
    match schema.reason(place) {
        None => push_elements(alloc, schema, spot, place, into),
        Some(_reason) => Ok(()),
    }
}

fn push_base<'s>(
    spot: &Spot<'s, '_>,
    canonical: &'s str,
    into: &mut Vec<Carrier<'s>>,
) -> Result<(), AllocError>
    ensures { OnOk result (carriers_seen into.new.items
        ≡ carriers_seen into.old.items ++ base_carrier (spot_seen spot.now) canonical.now) }
{
    if lacks_definition(spot.package, Kind::StructureDefinition, canonical) {
        into.push(Carrier {
            file: spot.file,
            url: spot.url,
            id: spot.id,
            carried: Carried::Base(canonical),
            key: None,
            lacks: true,
        })?;
    }
    Ok(())
}

fn push_base_of<'s>(
    spot: &Spot<'s, '_>,
    definition: &'s Json<'_>,
    into: &mut Vec<Carrier<'s>>,
) -> Result<(), AllocError>
    ensures { OnOk result (carriers_seen into.new.items
        ≡ carriers_seen into.old.items ++ base_carriers (spot_seen spot.now) (tree_of definition.now)) }
{
    match definition.text_in("baseDefinition") {
        Some(canonical) => push_base(spot, canonical, into),
        None => Ok(()),
    }
}

fn push_definition<'s>(
    alloc: Global,
    survey: &'s Survey<'_>,
    schema: &'s Schema,
    place: usize,
    entry: (&'s str, &'s Json<'_>),
    into: &mut Vec<Carrier<'s>>,
) -> Result<(), NoMemory>
    ensures { OnOk result (carriers_seen into.new.items ≡ carriers_seen into.old.items
        ++ definition_carriers schema.now survey.now (place, (entry.entry.0.now, tree_of entry.entry.1.now))) }
{
    let (url, definition) = entry;
    let spot = Spot {
        package: survey.package(),
        file: survey.source(Kind::StructureDefinition, place),
        url,
        id: "",
    };
    push_base_of(&spot, definition, into)?;
    push_usable(alloc, schema, &spot, place, into)
}

fn push_selected<'s>(
    alloc: Global,
    survey: &'s Survey<'_>,
    schema: &'s Schema,
    selection: &Selection,
    place: usize,
    entry: (&'s str, &'s Json<'_>),
    into: &mut Vec<Carrier<'s>>,
) -> Result<(), NoMemory>
    ensures { OnOk result (carriers_seen into.new.items ≡ carriers_seen into.old.items
        ++ selected_carriers selection.now schema.now survey.now (place, (entry.entry.0.now, tree_of entry.entry.1.now))) }
{
    if !selection.has(survey.package(), Kind::StructureDefinition, entry.0) {
        return Ok(());
    }
    push_definition(alloc, survey, schema, place, entry, into)
}

fn push_at<'s>(
    alloc: Global,
    survey: &'s Survey<'_>,
    schema: &'s Schema,
    selection: &Selection,
    place: usize,
    into: &mut Vec<Carrier<'s>>,
) -> Result<(), NoMemory>
    ensures { OnOk result (carriers_seen into.new.items ≡ carriers_seen into.old.items
        ++ option_map_or (λ e. selected_carriers selection.now schema.now survey.now (place, e))
        (slice_get survey.now.definitions.structure_definitions place) []) }
{
    match survey.package().at(Kind::StructureDefinition, place) {
        Some(entry) => push_selected(alloc, survey, schema, selection, place, entry, into),
        None => Ok(()),
    }
}

/// What the selected definitions of a survey's package carry that isn't judged, by the schema of the package, in the order of the
/// definitions: of each a base that the package lacks, also where it can't be used; and then, if it can be used, of each element the
/// bounds of types that aren't compared, the targets and the profiles that aren't there or can't be used, a required binding to a value
/// set that isn't read, and the constraints whose expressions aren't. An element carries each text once. That a binding is of an item
/// which isn't looked up in value sets is seen at the item alone. The one refusal is want of memory.
pub fn carriers<'s>(
    alloc: Global,
    survey: &'s Survey<'_>,
    schema: &'s Schema,
    selection: &Selection,
) -> Result<Vec<Carrier<'s>>, NoMemory>
    ensures { IfOk result (λ cs. carriers_seen cs.items ≡ all_carriers selection.now schema.now survey.now) }
{
    let mut found: Vec<Carrier<'s>> = Vec::new(alloc);
    for place in 0..survey.package().len(Kind::StructureDefinition) {
        push_at(alloc, survey, schema, selection, place, &mut found)?;
    }
    Ok(found)
}
