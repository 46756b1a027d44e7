//! The expressions of constraints, read when a schema is built.

ghost use Rattle.std.specs.Prelude.{◌≡◌, [], get_or, map, None};
ghost use Rattle.std.specs.Option.{option_map, option_copied};
ghost use Rattle.fhir_json.specs.Memory.{Gives};
ghost use Rattle.fhir_fp_syntax.specs.Expression.{expression_of as tree_of};
ghost use Rattle.fhir_fp_syntax.specs.Views.{parsed_seen};
ghost use Rattle.fhir_nodes.specs.Expressions.{expression_of, expressions_in, expressions_of, all_expressions};
ghost use Rattle.fhir_nodes.specs.Readings.{shared_seen, lists_read, lists_seen, parsed_at, found_at};

use crate::node::NodeRef;
use crate::readings::Readings;
use crate::table::Table;
use fhir_definition::Definition;
use fhir_elements::{ConstraintDef, ElementDef};
use fhir_fp_syntax::{Expr, Parsed};
use fhir_json::NoMemory;
use std::alloc::Global;
use std::marker::Model;
use std::rc::Rc;

type Shared = Option<Rc<Parsed>>;

/// The expressions of the constraints of each element of each definition.
#[derive(Drop)]
pub struct Expressions {
    lists: Vec<Vec<Vec<Shared>>>,
}

impl Model for Expressions {
    ghost use Rattle.std.specs.Prelude.{List, Option};
    ghost use Rattle.fhir_fp_syntax.specs.declared.parsing.Parsed.{Parsed};
    ghost use Rattle.fhir_nodes.specs.Readings.{lists_shown};

    ghost Value = { List (List (List (Option Parsed))) };

    ghost use Rattle.fhir_fp_syntax.specs.contracts.expr.Expr as expr;
    ghost use Rattle.std.specs.Coded.{codes};

    ghost coded = { Prim.hlevel (codes, expr.the_row.coded) };

    ghost view = { λ e. lists_shown e.lists.items };
}

fn expression_in(parsed: &Parsed) -> Option<&Expr>
    ensures { option_map (λ e. tree_of e.now) result ≡ parsed_seen parsed.now }
{
    match parsed {
        Parsed::Read(expression) => Some(expression),
        Parsed::Unread => None,
    }
}

fn read_constraint(
    alloc: Global,
    readings: &mut Readings,
    constraint: &ConstraintDef,
) -> Result<Shared, NoMemory>
    ensures { Gives shared_seen result (expression_of constraint.now) }
{
    match constraint.expression() {
        Some(text) => Ok(Some(readings.reading_of(alloc, text)?)),
        None => Ok(None),
    }
}

fn read_element(
    alloc: Global,
    readings: &mut Readings,
    element: &ElementDef,
) -> Result<Vec<Shared>, NoMemory>
    ensures { Gives (λ v. map shared_seen v.items) result (expressions_in element.now) }
{
    let mut expressions = Vec::new(alloc);
    for constraint in element.constraints() {
        let read = read_constraint(alloc, readings, constraint)?;
        expressions.push(read)?;
    }
    Ok(expressions)
}

fn read_definition(
    alloc: Global,
    readings: &mut Readings,
    definition: &Definition,
) -> Result<Vec<Vec<Shared>>, NoMemory>
    ensures { Gives (λ v. map (λ w. map shared_seen w.items) v.items) result (expressions_of definition.now) }
{
    let mut lists = Vec::new(alloc);
    for element in definition.elements() {
        let read = read_element(alloc, readings, element)?;
        lists.push(read)?;
    }
    Ok(lists)
}

// A text that stands often is read once.
fn read_definitions(alloc: Global, table: &Table) -> Result<Vec<Vec<Vec<Shared>>>, NoMemory>
    ensures { Gives (λ v. lists_read v.items) result (all_expressions table.now) }
{
    let mut readings = Readings::new(alloc);
    let mut lists = Vec::new(alloc);
    for definition in table.definitions() {
        let read = read_definition(alloc, &mut readings, definition)?;
        lists.push(read)?;
    }
    Ok(lists)
}

impl Expressions {
    /// Those of the definitions of a table. A text that stands often is read once.
    #[tactic(auto, using(crate::proofs::SeenThere::read_shown))]
    pub fn of(alloc: Global, table: &Table) -> Result<Expressions, NoMemory>
        ensures { Gives lists_seen result (all_expressions table.now) }
    {
        let lists = read_definitions(alloc, table)?;
        Ok(Expressions { lists })
    }

    // What was read at a position among the constraints of a node's element.
    fn parsed_at(&self, node: NodeRef, position: usize) -> Option<&Parsed>
        ensures { option_copied result ≡ parsed_at self.now node.definition node.element position }
    {
        let shared = self
            .lists
            .get(node.definition)?
            .get(node.element)?
            .get(position)?;
        match shared {
            Some(parsed) => Some(parsed.as_ref()),
            None => None,
        }
    }

    /// The expression of the constraint at a position among those of a node's element.
    #[tactic(auto, using(crate::proofs::SeenThere::seen_there))]
    pub fn at(&self, node: NodeRef, position: usize) -> Option<&Expr>
        ensures { option_map (λ e. tree_of e.now) result
            ≡ found_at (lists_seen self.now) node.definition node.element position }
    {
        match self.parsed_at(node, position) {
            Some(parsed) => expression_in(parsed),
            None => None,
        }
    }
}
