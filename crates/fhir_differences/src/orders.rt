//! Changes in the order of items of slices (FHIR R4, ElementDefinition, slicing.ordered and slicing.rules).

use crate::finder::{Done, Finder};
use crate::nodes::{entry_of, most_at, own_slice};
use crate::step::{Change, Step};
use fhir_facets::{is_open_at_end, is_ordered};
use fhir_schema::{NodeRef, Schema, Slot};

// The own slice of a name, or else the base's.
fn told_slice(schema: &Schema, own: Option<NodeRef>, base: NodeRef, slice: &Slot) -> NodeRef {
    own_slice(schema, own, slice.name()).unwrap_or(entry_of(base, slice))
}

// The last of the base's slices in which items may be.
fn last_slice(schema: &Schema, own: Option<NodeRef>, base: NodeRef) -> Option<NodeRef> {
    let mut last = None;
    for slice in schema.slices(base) {
        let told = told_slice(schema, own, base, slice);
        if most_at(schema, told) > 0 {
            last = Some(told);
        }
    }
    last
}

// Whether an ordered node has both slices, and the first of them stands behind the second.
fn is_behind(schema: &Schema, node: NodeRef, first: NodeRef, second: NodeRef) -> bool {
    let has_both = first.definition == node.definition && second.definition == node.definition;
    is_ordered(schema, node) && has_both && first.element > second.element
}

// Whether an item of a slice, or of none, may stand before one of another slice, as far as a node's own slices say.
fn may_precede(
    schema: &Schema,
    node: Option<NodeRef>,
    first: Option<NodeRef>,
    second: NodeRef,
) -> bool {
    match (node, first) {
        (None, _) => true,
        (Some(node), None) => !schema.is_closed(node) && !is_open_at_end(schema, node),
        (Some(node), Some(first)) => !is_behind(schema, node, first, second),
    }
}

impl<'s> Finder<'s> {
    // Items of two slices in the reverse of the base's order.
    fn push_reversed(
        &mut self,
        extra: &[Step<'s>],
        name: &'s str,
        own: Option<NodeRef>,
        base: NodeRef,
    ) -> Done {
        let schema = self.schema();
        let mut before = None;
        for slice in schema.slices(base) {
            let told = told_slice(schema, own, base, slice);
            if most_at(schema, told) > 0 {
                self.push_order(extra, name, own, Some(told), before)?;
                before = Some(told);
            }
        }
        Ok(())
    }

    // An item that is in none of the base's slices before one that is in one.
    fn push_unended(
        &mut self,
        extra: &[Step<'s>],
        name: &'s str,
        own: Option<NodeRef>,
        base: NodeRef,
    ) -> Done {
        let schema = self.schema();
        let last = last_slice(schema, own, base);
        self.push_order(extra, name, own, None, last)?;
        let Some(own) = own else {
            return Ok(());
        };
        for slice in schema.slices(own) {
            if schema.slice(base, slice.name()).is_none() {
                self.push_order(extra, name, Some(own), Some(entry_of(own, slice)), last)?;
            }
        }
        Ok(())
    }

    // An item of a slice, or of none, before one of another slice, if the derived node lets them stand so.
    fn push_order(
        &mut self,
        extra: &[Step<'s>],
        name: &'s str,
        own: Option<NodeRef>,
        first: Option<NodeRef>,
        second: Option<NodeRef>,
    ) -> Done {
        match second {
            Some(second) if may_precede(self.schema(), own, first, second) => {
                self.push(extra, Change::InOrder(name, first, second))
            }
            _ => Ok(()),
        }
    }

    /// The orders in which the derived node lets items of slices stand, and the base doesn't.
    pub(crate) fn push_orders(
        &mut self,
        extra: &[Step<'s>],
        name: &'s str,
        own: Option<NodeRef>,
        base: NodeRef,
    ) -> Done {
        if is_ordered(self.schema(), base) {
            self.push_reversed(extra, name, own, base)?;
        }
        if is_open_at_end(self.schema(), base) {
            self.push_unended(extra, name, own, base)?;
        }
        Ok(())
    }
}
