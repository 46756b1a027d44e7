//! The forms of the children of each node, worked out when a schema is built.

ghost use Rattle.std.specs.Prelude.{◌≡◌, [], length, get_or, map, IfOk, IsTrue};
ghost use Rattle.std.specs.Option.{option_map_or};
ghost use Rattle.std.specs.List.{list_all};
ghost use Rattle.fhir_elements.specs.declared.reason.Reason.TheVariants.{NoTree};
ghost use Rattle.fhir_elements.specs.Causes.{blamed_reason, reason_unless, is_blame_among};
ghost use Rattle.fhir_definition.specs.Blames.{AreBlamesAmong};
ghost use Rattle.fhir_forms.specs.Forms.{are_apart, if_apart, forms_under, spells_apart, property_of, forms_of, all_forms};
ghost use Rattle.fhir_nodes.specs.Slots.{slots_of, all_slots};

use crate::first_blame::first_blame;
use crate::form::{Form, Property};
use crate::form_table::FormTable;
use crate::forms::forms_under;
use fhir_definition::Definition;
use fhir_elements::Blame;
use fhir_nodes::{NodeRef, Nodes, SlotList, Table};
use std::alloc::{AllocError, Global};
use std::marker::Model;

// The forms of the children of each element of one definition, and what is to blame where they aren't apart.
#[derive(Drop)]
struct DefinitionForms {
    tables: Vec<FormTable>,
    blame: Option<Blame>,
}

fn type_forms(
    alloc: Global,
    table: &Table,
    definition: &Definition,
    nodes: &Nodes,
    slots: &[SlotList],
) -> Result<DefinitionForms, AllocError>
    requires { nodes.now ≡ all_slots table.now }
    ensures forms { IfOk result (λ f. f.tables.items ≡ map (λ s. if_apart (forms_under table.now definition.now s)) slots.now) }
    ensures reason { IfOk result (λ f. blamed_reason f.blame
        ≡ reason_unless (list_all (λ s. are_apart (forms_under table.now definition.now s)) slots.now) NoTree) }
    ensures element { IfOk result (λ f. is_blame_among (length slots.now) f.blame) }
{
    let mut tables = Vec::new(alloc);
    let mut blame = None;
    for (place, list) in slots.iter().enumerate() {
        let forms = forms_under(alloc, table, definition, nodes, list.slots())?;
        let (forms, cause) = FormTable::of(alloc, forms)?;
        tables.push(forms)?;
        blame = first_blame(blame, place, cause);
    }
    Ok(DefinitionForms { tables, blame })
}

// A profile has no forms.
fn forms_of(
    alloc: Global,
    table: &Table,
    definition: &Definition,
    nodes: &Nodes,
    slots: &[SlotList],
) -> Result<DefinitionForms, AllocError>
    requires nodes { nodes.now ≡ all_slots table.now }
    requires slots { slots.now ≡ slots_of table.now definition.now }
    ensures forms { IfOk result (λ f. f.tables.items ≡ forms_of table.now definition.now) }
    ensures reason { IfOk result (λ f. blamed_reason f.blame ≡ reason_unless (spells_apart table.now definition.now) NoTree) }
    ensures element { IfOk result (λ f. is_blame_among (length definition.now.elements) f.blame) }
{
    if definition.is_type() {
        type_forms(alloc, table, definition, nodes, slots)
    } else {
        Ok(DefinitionForms {
            tables: Vec::new(alloc),
            blame: None,
        })
    }
}

/// The forms of the children of each element of each type definition. Of each definition it is known what is to blame where
/// two forms of one element's children spell one property.
#[derive(Drop)]
pub struct NodeForms {
    tables: Vec<Vec<FormTable>>,
    blames: Vec<Option<Blame>>,
}

impl Model for NodeForms {
    ghost use Rattle.std.specs.Prelude.{map};
    ghost use Rattle.fhir_forms.specs.FormTables.{NodeForms as Shown};

    ghost Value = { Shown };

    ghost view = { λ n. record { forms = map (λ v. v.items) n.tables.items; blames = n.blames.items } };
}

impl NodeForms {
    /// Those of the definitions of a table, whose slots these are.
    pub fn of(alloc: Global, table: &Table, nodes: &Nodes) -> Result<NodeForms, AllocError>
        requires { nodes.now ≡ all_slots table.now }
        ensures forms { IfOk result (λ n. n.forms ≡ all_forms table.now) }
        ensures blames { IfOk result (λ n. map blamed_reason n.blames
            ≡ map (λ d. reason_unless (spells_apart table.now d) NoTree) table.now) }
        ensures elements { IfOk result (λ n. AreBlamesAmong table.now n.blames) }
    {
        let mut tables = Vec::new(alloc);
        let mut blames = Vec::new(alloc);
        for (place, definition) in table.definitions().iter().enumerate() {
            let forms = forms_of(alloc, table, definition, nodes, nodes.lists(place))?;
            tables.push(forms.tables)?;
            blames.push(forms.blame)?;
        }
        Ok(NodeForms { tables, blames })
    }

    fn table(&self, node: NodeRef) -> Option<&FormTable>
        ensures { option_map_or (λ t. t.now) result [] ≡ get_or (get_or self.now.forms node.definition []) node.element [] }
    {
        self.tables.get(node.definition)?.get(node.element)
    }

    /// The forms of a node's children.
    pub fn forms(&self, node: NodeRef) -> &[Form]
        ensures { result.now ≡ get_or (get_or self.now.forms node.definition []) node.element [] }
    {
        match self.table(node) {
            Some(table) => table.forms(),
            None => Default::default(),
        }
    }

    /// What the name of a property means at a node.
    pub fn property(&self, node: NodeRef, name: &str) -> Option<Property>
        ensures { result ≡ property_of (get_or (get_or self.now.forms node.definition []) node.element []) name.now }
    {
        match self.table(node) {
            Some(table) => table.property(name),
            None => None,
        }
    }

    /// No two forms of a node's children spell one property.
    pub fn forms_are_apart(&self, node: NodeRef)
        ensures { IsTrue (are_apart (get_or (get_or self.now.forms node.definition []) node.element [])) }
    {
        match self.table(node) {
            Some(table) => table.are_apart(),
            None => (),
        }
    }

    /// Of each definition, the first element of whose children two forms spell one property, and the child whose form spells
    /// it again.
    pub fn blames(&self) -> &[Option<Blame>]
        ensures { result.now ≡ self.now.blames }
    {
        &self.blames
    }
}
