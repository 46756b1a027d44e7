//! The snapshot of a definition: its elements, and which of them stand under which.

ghost use Rattle.std.specs.Prelude.{◌≡◌, length, IfOk};
ghost use Rattle.fhir_elements.specs.declared.reason.Reason.TheVariants.{WrongId, NoTree};
ghost use Rattle.fhir_elements.specs.Causes.{blamed_reason, reason_unless, is_blame_among};
ghost use Rattle.fhir_definition.specs.Snapshot.{id_place, ids_differ, is_tree, root_place};
ghost use Rattle.fhir_definition.specs.Children.{children_of, slices_of};
ghost use Rattle.fhir_definition.specs.Views.{lists_in};

use crate::by_id::ElementsById;
use crate::children::{children_of, slices_of};
use fhir_elements::{Blame, ElementDef};
use std::alloc::{AllocError, Global};
use std::marker::Model;

/// The elements of a snapshot. A contract sees their list; the rest is worked out once, when they are put in.
#[derive(Drop)]
pub(crate) struct Snapshot {
    elements: ElementsById,
    children: Vec<Vec<usize>>,
    slices: Vec<Vec<usize>>,
    root: Option<usize>,
    tree_blame: Option<Blame>,
}

impl Model for Snapshot {
    ghost use Rattle.std.specs.Prelude.{List};
    ghost use Rattle.fhir_elements.specs.Element.{Element};

    ghost Value = { List Element };

    ghost use Rattle.fhir_json.specs.Coding.{tree_code};
    ghost use Rattle.std.specs.Coded.{codes};

    ghost coded = { Prim.hlevel (codes, tree_code) };

    ghost use Rattle.fhir_definition.specs.Worked.{IsWorkedOut};

    ghost view = { λ s. s.elements };

    ghost invariant = { IsWorkedOut };
}

impl Snapshot {
    /// These elements.
    pub(crate) fn of(alloc: Global, elements: Vec<ElementDef>) -> Result<Snapshot, AllocError>
        ensures { IfOk result (λ s. s ≡ elements.items) }
    {
        let elements = ElementsById::of(alloc, elements)?;
        let children = children_of(alloc, &elements)?;
        let slices = slices_of(alloc, &elements)?;
        let root = elements.root_place();
        let tree_blame = elements.tree_blame();
        Ok(Snapshot {
            elements,
            children,
            slices,
            root,
            tree_blame,
        })
    }

    /// The elements.
    pub(crate) fn elements(&self) -> &[ElementDef]
        ensures { result.now ≡ self.now }
    {
        self.elements.elements()
    }

    /// The place of the first element with an id.
    pub(crate) fn id_place(&self, id: &str) -> Option<usize>
        ensures { result ≡ id_place self.now id.now }
    {
        self.elements.id_place(id)
    }

    /// The first element whose id an element before it has.
    pub(crate) fn blame_of_ids(&self) -> Option<Blame>
        ensures reason { blamed_reason result ≡ reason_unless (ids_differ self.now) WrongId }
        ensures element { is_blame_among (length self.now) result }
    {
        self.elements.blame_of_ids()
    }

    /// What is to blame where a parent isn't there, or where there isn't one root.
    pub(crate) fn tree_blame(&self) -> Option<Blame>
        ensures reason { blamed_reason result ≡ reason_unless (is_tree self.now) NoTree }
        ensures element { is_blame_among (length self.now) result }
    {
        self.tree_blame
    }

    /// The place of the root.
    pub(crate) fn root(&self) -> Option<usize>
        ensures { result ≡ root_place self.now }
    {
        self.root
    }

    /// The places of the children of each element.
    pub(crate) fn children(&self) -> &[Vec<usize>]
        ensures { lists_in result.now ≡ children_of self.now }
    {
        &self.children
    }

    /// The places of the slices of each element.
    pub(crate) fn slices(&self) -> &[Vec<usize>]
        ensures { lists_in result.now ≡ slices_of self.now }
    {
        &self.slices
    }
}
