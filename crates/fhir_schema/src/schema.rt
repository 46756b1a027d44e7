//! The schema of a package.

ghost use Rattle.std.specs.Prelude.{◌≡◌, length, false, IsTrue, IfOk};
ghost use Rattle.std.specs.Option.{option_copied, option_map, option_map_or};
ghost use Rattle.fhir_json.specs.Memory.{Gives};
ghost use Rattle.fhir_schema.specs.Schemas.{schema_of, schema_with, unusable, is_usable, elements_at, elements_of_url, has, element_at, url_at, id_of_node, is_root_node, node_in, root_element, root, node_with, node, slots, slot_named, slices, slice_named, criteria, is_closed, target, holder, child_holder, types, forms, property, type_root, resource_root, is_concrete, loaded, concepts_at};
ghost use Rattle.fhir_schema.specs.Known.{is_lenient, only_type_root};
ghost use Rattle.fhir_json.specs.Views.{text_seen};
ghost use Rattle.fhir_schema.specs.Versions.{can_be_used, stated_version, version_at, version};
ghost use Rattle.fhir_elements.specs.Causes.{blamed_reason, is_blame_among};
ghost use Rattle.fhir_definition.specs.Blames.{AreBlamesAmong};
ghost use Rattle.fhir_schema.specs.Settling.{reason_at, all_reasons, base_of_place};
ghost use Rattle.fhir_schema.specs.Blaming.{reasons_of};
ghost use Rattle.fhir_nodes.specs.Slots.{all_slots, all_slices};
ghost use Rattle.fhir_nodes.specs.Expressions.{all_expressions};
ghost use Rattle.fhir_nodes.specs.Readings.{lists_seen};
ghost use Rattle.fhir_summaries.specs.Summaries.{all_summaries};
ghost use Rattle.fhir_summaries.specs.ResourceTypes.{of_resources};
ghost use Rattle.fhir_forms.specs.Criteria.{all_criteria};
ghost use Rattle.fhir_schema.specs.Lineages.{IsLineage};
ghost use Rattle.fhir_nodes.specs.Types.{names_resource, type_of_code, type_place};
ghost use Rattle.fhir_fp_syntax.specs.Expression.{expression_of as tree_of};
ghost use Rattle.fhir_schema.specs.Expressions.{expression_at};
ghost use Rattle.fhir_forms.specs.Forms.{are_apart, all_forms};
ghost use Rattle.fhir_forms.specs.CriteriaSeen.{criteria_seen};
ghost use Rattle.fhir_schema.specs.Covers.{type_at, covers, derives};

use crate::covering::{covers, derives};
use crate::lineage::Lineage;
use crate::settling::all_blames;
use crate::types::{base_place, blame_at};
use fhir_codes::{ConceptSet, ValueSets};
use fhir_definition::Definition;
use fhir_elements::{Blame, ElementDef, Reason, TypeEntry};
use fhir_forms::{Criteria, Criterion, Form, NodeForms, Property, is_closed};
use fhir_fp_syntax::Expr;
use fhir_json::NoMemory;
use fhir_nodes::{
    Expressions, NodeRef, Nodes, Slot, Table, canonical_place, child_holder, elements_in, holder,
    is_resource, names_resource, target, type_of_code,
};
use fhir_package::Package;
use fhir_summaries::{ResourceTypes, Summaries};
use std::alloc::Global;
use std::marker::Model;

/// The schema of a package: its definitions, why some can't be used, the nodes of the others, and its value sets.
pub struct Schema {
    table: Table,
    own: OwnParts,
    judged: JudgedParts,
    value_sets: ValueSets,
}

// A derived drop would be proved anew in each crate that owns one.
impl Drop for Schema {
    fn drop(self) {
        let Schema {
            table: _table,
            own: _own,
            judged: _judged,
            value_sets: _value_sets,
        } = self;
    }
}

impl Model for Schema {
    ghost use Rattle.fhir_schema.specs.Schemas.{SchemaValue};

    ghost Value = { SchemaValue };

    ghost use Rattle.fhir_json.specs.Coding.{tree_code};
    ghost use Rattle.fhir_codes.specs.Coding.{concepts_code};
    ghost use Rattle.std.specs.Coded.{codes};

    ghost coded = { Prim.hlevel (codes, tree_code, concepts_code) };

    ghost use Rattle.std.specs.Prelude.{◌≡◌};
    ghost use Rattle.fhir_nodes.specs.Slots.{all_slots, all_slices};
    ghost use Rattle.fhir_forms.specs.Forms.{all_forms};
    ghost use Rattle.fhir_forms.specs.Criteria.{all_criteria};
    ghost use Rattle.fhir_nodes.specs.Expressions.{all_expressions};
    ghost use Rattle.fhir_nodes.specs.Readings.{lists_seen};
    ghost use Rattle.fhir_summaries.specs.Summaries.{all_summaries};
    ghost use Rattle.fhir_summaries.specs.ResourceTypes.{of_resources};
    ghost use Rattle.fhir_schema.specs.Lineages.{IsLineage};
    ghost use Rattle.fhir_schema.specs.Blaming.{reasons_of};
    ghost use Rattle.fhir_definition.specs.Blames.{AreBlamesAmong};

    ghost view = { λ s. record { definitions = s.table; reasons = reasons_of s.judged.blames.items; value_sets = s.value_sets } };

    ghost invariant = { λ s. (s.own.nodes ≡ all_slots s.table) × (s.own.slices ≡ all_slices s.table) × (s.judged.criteria.criteria ≡ all_criteria s.table) × (s.judged.forms.forms ≡ all_forms s.table) × (lists_seen s.own.expressions ≡ all_expressions s.table) × (s.own.summaries ≡ all_summaries s.table) × (s.own.resource_types ≡ of_resources s.table) × IsLineage s.table s.own.lineage × AreBlamesAmong s.table s.judged.blames.items };
}

fn stated_version(definition: &Definition) -> Option<&str>
    ensures { text_seen result ≡ stated_version definition.now }
{
    match definition.version() {
        Some(version) => version.as_text(),
        None => None,
    }
}

// What definitions say of their own nodes, and of one another's bases.
#[derive(Drop)]
struct OwnParts {
    lineage: Lineage,
    nodes: Nodes,
    slices: Nodes,
    summaries: Summaries,
    resource_types: ResourceTypes,
    expressions: Expressions,
}

fn own_parts(alloc: Global, table: &Table) -> Result<OwnParts, NoMemory>
    ensures lineage { IfOk result (λ p. IsLineage table.now p.lineage) }
    ensures nodes { IfOk result (λ p. p.nodes ≡ all_slots table.now) }
    ensures slices { IfOk result (λ p. p.slices ≡ all_slices table.now) }
    ensures summaries { IfOk result (λ p. p.summaries ≡ all_summaries table.now) }
    ensures resource_types { IfOk result (λ p. p.resource_types ≡ of_resources table.now) }
    ensures expressions { IfOk result (λ p. lists_seen p.expressions ≡ all_expressions table.now) }
{
    let lineage = Lineage::of(alloc, table)?;
    let nodes = Nodes::slots_of(alloc, table)?;
    let slices = Nodes::slices_of(alloc, table)?;
    let summaries = Summaries::of(alloc, table, &nodes, &slices)?;
    let resource_types = ResourceTypes::of(alloc, table)?;
    let expressions = Expressions::of(alloc, table)?;
    Ok(OwnParts {
        lineage,
        nodes,
        slices,
        summaries,
        resource_types,
        expressions,
    })
}

// The criteria and the forms of definitions, and what is to blame for those that can't be used.
#[derive(Drop)]
struct JudgedParts {
    criteria: Criteria,
    forms: NodeForms,
    blames: Vec<Option<Blame>>,
}

fn judged_parts(alloc: Global, table: &Table, nodes: &Nodes) -> Result<JudgedParts, NoMemory>
    requires { nodes.now ≡ all_slots table.now }
    ensures criteria { IfOk result (λ p. p.criteria.criteria ≡ all_criteria table.now) }
    ensures forms { IfOk result (λ p. p.forms.forms ≡ all_forms table.now) }
    ensures reasons { IfOk result (λ p. reasons_of p.blames.items ≡ all_reasons table.now) }
    ensures elements { IfOk result (λ p. AreBlamesAmong table.now p.blames.items) }
{
    let criteria = Criteria::of(alloc, table, nodes)?;
    let forms = NodeForms::of(alloc, table, nodes)?;
    let blames = all_blames(alloc, table, forms.blames(), criteria.blames())?;
    Ok(JudgedParts {
        criteria,
        forms,
        blames,
    })
}

impl Schema {
    /// The schema of a package. It takes time near linear in the package's size. The one refusal is want of memory.
    pub fn build(alloc: Global, from: &Package) -> Result<Schema, NoMemory>
        ensures { Gives (λ s. s) result (schema_of from.now) }
    {
        let table = Table::of(alloc, from)?;
        let value_sets = ValueSets::of(alloc, from)?;
        Schema::of_table(alloc, table, value_sets)
    }

    // The schema of a table of definitions, and of value sets.
    fn of_table(alloc: Global, table: Table, value_sets: ValueSets) -> Result<Schema, NoMemory>
        ensures { IfOk result (λ s. s ≡ schema_with table value_sets) }
    {
        let own = own_parts(alloc, &table)?;
        let judged = judged_parts(alloc, &table, &own.nodes)?;
        Ok(Schema {
            table,
            own,
            judged,
            value_sets,
        })
    }

    /// The definitions of the package, in its order, also those that can't be used.
    pub fn definitions(&self) -> &[Definition]
        ensures { result.now ≡ self.now.definitions }
    {
        self.table.definitions()
    }

    /// The place of the first definition of a type. It may be one that can't be used.
    pub fn type_place(&self, code: &str) -> Option<usize>
        ensures { result ≡ type_place self.now.definitions code.now }
    {
        self.table.type_place(code)
    }

    /// The place of the definition on which the one at a place is based (FHIR R4, StructureDefinition, baseDefinition), if
    /// both are there. It may be one that can't be used.
    pub fn base_of_place(&self, place: usize) -> Option<usize>
        ensures { result ≡ base_of_place self.now.definitions place }
    {
        match self.table.definition(place) {
            Some(definition) => base_place(&self.table, definition),
            None => None,
        }
    }

    /// Why the definition at a place can't be used, if there is one that can't.
    pub fn reason(&self, place: usize) -> Option<Reason>
        ensures { result ≡ reason_at self.now.reasons place }
    {
        let blame = blame_at(&self.judged.blames, place)?;
        Some(blame.cause.reason())
    }

    /// Why the definition at a url can't be used, if it is there and can't.
    pub fn unusable(&self, url: &str) -> Option<Reason>
        ensures { result ≡ unusable self.now url.now }
    {
        match self.table.url_place(url) {
            Some(place) => self.reason(place),
            None => None,
        }
    }

    /// What is to blame where the definition at a url can't be used: its cause is of the reason that `unusable` gives, and its
    /// element is one of the definition's.
    pub fn blame(&self, url: &str) -> Option<Blame>
        ensures reason { blamed_reason result ≡ unusable self.now url.now }
        ensures element { is_blame_among (length (elements_of_url self.now url.now)) result }
    {
        self.table.are_placed();
        match self.table.url_place(url) {
            Some(place) => blame_at(&self.judged.blames, place),
            None => None,
        }
    }

    fn is_usable(&self, place: usize) -> bool
        ensures { result ≡ is_usable self.now place }
    {
        blame_at(&self.judged.blames, place).is_none()
    }

    /// Whether a definition stands at a url and can be used.
    pub fn can_be_used(&self, url: &str) -> bool
        ensures { result ≡ can_be_used self.now url.now }
    {
        match self.table.url_place(url) {
            Some(place) => self.is_usable(place),
            None => false,
        }
    }

    fn version_at(&self, place: usize) -> Option<&str>
        ensures { text_seen result ≡ version_at self.now place }
    {
        match self.table.definition(place) {
            Some(definition) => stated_version(definition),
            None => None,
        }
    }

    /// The version that the definition at a url states (FHIR R4, StructureDefinition, version), whether it can be used or not.
    pub fn version(&self, url: &str) -> Option<&str>
        ensures { text_seen result ≡ version self.now url.now }
    {
        match self.table.url_place(url) {
            Some(place) => self.version_at(place),
            None => None,
        }
    }

    fn elements_at(&self, place: usize) -> &[ElementDef]
        ensures { result.now ≡ elements_at self.now place }
    {
        elements_in(&self.table, place)
    }

    /// Whether a node is one of the schema's: an element of a definition that can be used.
    pub fn has(&self, node: NodeRef) -> bool
        ensures { result ≡ has self.now node }
    {
        let elements = self.elements_at(node.definition);
        self.is_usable(node.definition) && node.element < elements.len()
    }

    fn url_at(&self, place: usize) -> &str
        ensures { result.now ≡ url_at self.now place }
    {
        match self.table.definition(place) {
            Some(definition) => definition.url(),
            None => "",
        }
    }

    fn id_of_node(&self, node: NodeRef) -> &str
        ensures { result.now ≡ id_of_node self.now node }
    {
        match self.element(node) {
            Some(element) => element.id(),
            None => "",
        }
    }

    /// The url of a node's definition, and the node's id; empty texts where there is no such node.
    pub fn name(&self, node: NodeRef) -> (&str, &str)
        ensures url { result.0.now ≡ url_at self.now node.definition }
        ensures id { result.1.now ≡ id_of_node self.now node }
    {
        (self.url_at(node.definition), self.id_of_node(node))
    }

    fn node_in(&self, place: usize, element: Option<usize>) -> Option<NodeRef>
        ensures { result ≡ node_in self.now place element }
    {
        if !self.is_usable(place) {
            return None;
        }
        match element {
            Some(element) => Some(NodeRef {
                definition: place,
                element,
            }),
            None => None,
        }
    }

    fn root_element(&self, place: usize) -> Option<usize>
        ensures { result ≡ root_element self.now place }
    {
        match self.table.definition(place) {
            Some(definition) => definition.root(),
            None => None,
        }
    }

    /// The root of the definition at a url, if that can be used.
    pub fn root(&self, url: &str) -> Option<NodeRef>
        ensures { result ≡ root self.now url.now }
    {
        match self.table.url_place(url) {
            Some(place) => self.node_in(place, self.root_element(place)),
            None => None,
        }
    }

    /// The root of the definition that a canonical names (FHIR R4, Data Types, canonical), if that can be used. A canonical
    /// with a version names a definition of that version, or one without any.
    pub fn loaded(&self, canonical: &str) -> Option<NodeRef>
        ensures { result ≡ loaded self.now canonical.now }
    {
        match canonical_place(&self.table, canonical) {
            Some(place) => self.node_in(place, self.root_element(place)),
            None => None,
        }
    }

    /// The concepts of the value set that a canonical names (FHIR R4, ValueSet). One that isn't there, or can't be read, has
    /// none.
    pub fn concepts(&self, canonical: &str) -> Option<&ConceptSet>
        ensures { option_copied result ≡ concepts_at self.now canonical.now }
    {
        self.value_sets.concepts(canonical)
    }

    fn node_with(&self, id: &str, place: usize) -> Option<NodeRef>
        ensures { result ≡ node_with self.now id.now place }
    {
        match self.table.definition(place) {
            Some(definition) => self.node_in(place, definition.id_place(id)),
            None => None,
        }
    }

    /// The node of an id in the definition at a url, if that can be used.
    pub fn node(&self, url: &str, id: &str) -> Option<NodeRef>
        ensures { result ≡ node self.now url.now id.now }
    {
        match self.table.url_place(url) {
            Some(place) => self.node_with(id, place),
            None => None,
        }
    }

    /// Whether a node is the root of its definition.
    pub fn is_root(&self, node: NodeRef) -> bool
        ensures { result ≡ is_root_node self.now node }
    {
        match self.root_element(node.definition) {
            Some(root) => node.element == root,
            None => false,
        }
    }

    /// The slots of a node: the names that the children of an item may have, in the definition's order. A node that the
    /// schema doesn't have has none.
    pub fn slots(&self, node: NodeRef) -> &[Slot]
        ensures { result.now ≡ slots self.now node }
    {
        self.own.nodes.slots(node)
    }

    /// The slot of a name among a node's.
    pub fn slot(&self, node: NodeRef, name: &str) -> Option<&Slot>
        ensures { option_copied result ≡ slot_named self.now node name.now }
    {
        self.own.nodes.find(node, name)
    }

    /// The slices of a node's element, in the definition's order (FHIR R4, Profiling, slicing). A node that the schema doesn't
    /// have has none.
    pub fn slices(&self, node: NodeRef) -> &[Slot]
        ensures { result.now ≡ slices self.now node }
    {
        self.own.slices.slots(node)
    }

    /// The slice of a name among those of a node's element.
    pub fn slice(&self, node: NodeRef, name: &str) -> Option<&Slot>
        ensures { option_copied result ≡ slice_named self.now node name.now }
    {
        self.own.slices.find(node, name)
    }

    /// By what an item is told to belong to the slice that a node is (FHIR R4, ElementDefinition, slicing.discriminator): one
    /// criterion for each discriminator. A node that is no slice has none.
    pub fn criteria(&self, node: NodeRef) -> &[Criterion]
        ensures { criteria_seen result.now ≡ criteria self.now node }
    {
        self.judged.criteria.at(node)
    }

    /// Whether each item of a node's element has to be in one of its slices (FHIR R4, ElementDefinition, slicing.rules).
    pub fn is_closed(&self, node: NodeRef) -> bool
        ensures { result ≡ is_closed self.now node }
    {
        match self.element(node) {
            Some(element) => is_closed(element),
            None => false,
        }
    }

    /// The node that a node refers to for its content (FHIR R4, ElementDefinition, contentReference), if it refers to one.
    pub fn target(&self, node: NodeRef) -> Option<NodeRef>
        ensures { result ≡ target self.now node }
    {
        target(&self.table, node)
    }

    /// The node that has a node's children: the node itself, if it has any, and else the one that it refers to for its
    /// content.
    pub fn holder(&self, node: NodeRef) -> Option<NodeRef>
        ensures { result ≡ holder self.now node }
    {
        holder(&self.own.nodes, &self.table, node)
    }

    /// That one, if it has children.
    pub fn child_holder(&self, node: NodeRef) -> Option<NodeRef>
        ensures { result ≡ child_holder self.now node }
    {
        child_holder(&self.own.nodes, &self.table, node)
    }

    /// The type entries of a node. A root has none, whatever is written there.
    pub fn types(&self, node: NodeRef) -> &[TypeEntry]
        ensures { result.now ≡ types self.now node }
    {
        if self.is_root(node) {
            return Default::default();
        }
        match self.element(node) {
            Some(element) => element.types(),
            None => Default::default(),
        }
    }

    /// The element of a node, if it is one.
    pub fn element(&self, node: NodeRef) -> Option<&ElementDef>
        ensures { option_copied result ≡ element_at self.now node }
    {
        self.elements_at(node.definition).get(node.element)
    }

    /// The expression of the constraint at a position among those of a node's element, if it has one that can be read
    /// (FHIR R4, ElementDefinition, constraint.expression).
    #[tactic(auto, using(crate::proofs::FoundThere::found_there))]
    pub fn expression(&self, node: NodeRef, position: usize) -> Option<&Expr>
        ensures { option_map (λ e. tree_of e.now) result ≡ expression_at self.now node position }
    {
        self.own.expressions.at(node, position)
    }

    /// The code of the type that a node's definition defines or constrains.
    pub fn type_code(&self, node: NodeRef) -> &str
        ensures { result.now ≡ type_at self.now node }
    {
        match self.table.definition(node.definition) {
            Some(definition) => definition.type_code(),
            None => "",
        }
    }

    /// The root of the definition of a type, if that can be used.
    pub fn type_root(&self, code: &str) -> Option<NodeRef>
        ensures { result ≡ type_root self.now code.now }
    {
        match self.table.type_place(code) {
            Some(place) => self.node_in(place, self.root_element(place)),
            None => None,
        }
    }

    /// The root of the definition of the one type that a node's element names, if it names one alone, and that can be used. What is written
    /// at a root counts too.
    pub fn only_type_root(&self, node: NodeRef) -> Option<NodeRef>
        ensures { result ≡ only_type_root self.now node }
    {
        match self.own.summaries.one_type(node) {
            Some(place) => self.node_in(place, self.root_element(place)),
            None => None,
        }
    }

    /// Whether a node asks nothing of an item without children, but for its type: its element has no facet, no required binding and no
    /// constraint that must hold, refers to no other for its content, and none of its slots has to be filled or has slices (FHIR R4,
    /// ElementDefinition). A node that the schema doesn't have isn't known to.
    pub fn is_lenient(&self, node: NodeRef) -> bool
        ensures { result ≡ is_lenient self.now node }
    {
        self.own.summaries.is_lenient(node)
    }

    fn is_concrete(&self, code: &str) -> bool
        ensures { result ≡ option_map_or is_concrete (type_of_code self.now.definitions code.now) false }
    {
        match type_of_code(&self.table, code) {
            Some(definition) => is_resource(definition) && !definition.is_abstract(),
            None => false,
        }
    }

    /// The root of the type of a resource, if a resource may be of it: its definition can be used, and isn't abstract.
    pub fn resource_root(&self, code: &str) -> Option<NodeRef>
        ensures { result ≡ resource_root self.now code.now }
    {
        if self.is_concrete(code) {
            self.type_root(code)
        } else {
            None
        }
    }

    /// The forms of a node's children in JSON, one for each type of each slot, in the definition's order (FHIR R4, JSON
    /// representation of resources). A node of a profile has none, since type definitions alone say how a resource is
    /// spelled.
    pub fn forms(&self, node: NodeRef) -> &[Form]
        ensures { result.now ≡ forms self.now node }
    {
        self.judged.forms.forms(node)
    }

    /// What the name of a property means at a node: the form that it belongs to, and whether it is that one's companion.
    pub fn property(&self, node: NodeRef, name: &str) -> Option<Property>
        ensures { result ≡ property self.now node name.now }
    {
        self.judged.forms.property(node, name)
    }

    /// No two forms of a node's children spell one property. It does nothing.
    pub fn forms_are_apart(&self, node: NodeRef)
        ensures { IsTrue (are_apart (forms self.now node)) }
    {
        self.judged.forms.forms_are_apart(node)
    }

    /// Whether a code is of a type of resources (FHIR R4, StructureDefinition, kind).
    pub fn is_resource(&self, code: &str) -> bool
        ensures { result ≡ names_resource self.now.definitions code.now }
    {
        names_resource(&self.table, code)
    }

    /// Whether the type that a node's definition defines or constrains is of resources.
    #[tactic(auto, using(crate::proofs::OfResources::of_resource_at))]
    pub fn is_of_resource(&self, node: NodeRef) -> bool
        ensures { result ≡ names_resource self.now.definitions (type_at self.now node) }
    {
        match self.own.resource_types.at(node.definition) {
            Some(is_resource) => is_resource,
            None => names_resource(&self.table, ""),
        }
    }

    /// Whether a type code covers another: it is that one, or it is of a resource from which the other derives by its
    /// chain of bases (FHIR R4, Resource).
    pub fn covers(&self, code: &str, other: &str) -> bool
        ensures { result ≡ covers self.now code.now other.now }
    {
        covers(&self.table, &self.own.lineage, code, other)
    }

    /// Whether a type is another, or derives from it by its chain of bases (FHIR R4, StructureDefinition, baseDefinition).
    pub fn derives(&self, code: &str, ancestor: &str) -> bool
        ensures { result ≡ derives self.now code.now ancestor.now }
    {
        derives(&self.table, &self.own.lineage, code, ancestor)
    }
}
