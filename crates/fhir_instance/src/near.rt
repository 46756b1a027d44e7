//! What the names of properties mean at a node.

ghost use Rattle.std.specs.Prelude.{◌≡◌};
ghost use Rattle.std.specs.Option.{IfSome};
ghost use Rattle.fhir_schema.specs.Schemas.{forms as forms_of, property};
ghost use Rattle.fhir_instance.specs.Near.{HasProperty};

use crate::placing::form_at;
use fhir_schema::{Form, NodeRef, Property, Schema};

/// How many forms are tried for a property.
const REACH: usize = 8;

/// How many properties of an object may be tried in vain.
const MISSES: usize = 4;

// The form whose property has a name, if it is one of the next from a place on.
fn form_near(forms: &[Form], from: usize, name: &str) -> Option<usize>
    ensures { IfSome result (λ form. HasProperty forms.now name.now form) }
{
    for i in from..forms.len().min(from.saturating_add(REACH)) {
        let property = form_at(forms, i).property();
        if property.len() == name.len() && name == property {
            return Some(i);
        }
    }
    None
}

/// The form that comes next, where properties stand in the order of their forms, as most do. Where they don't, this is soon
/// given up, and they are looked up by their names alone.
#[derive(Clone, Copy)]
pub(crate) struct Near {
    form: usize,
    misses: usize,
}

impl Near {
    /// The first form of all.
    pub(crate) fn new() -> Near {
        Near { form: 0, misses: 0 }
    }

    /// The form whose property has a name, if it is near.
    pub(crate) fn find(&mut self, forms: &[Form], name: &str) -> Option<usize>
        ensures { IfSome result (λ form. HasProperty forms.now name.now form) }
    {
        if MISSES <= self.misses {
            return None;
        }
        let found = form_near(forms, self.form, name);
        if found.is_none() {
            self.misses += 1;
        }
        found
    }

    /// The last property was of this form.
    pub(crate) fn pass(&mut self, form: usize) {
        self.form = form.saturating_add(1);
    }
}

/// What the name of a property means at a node of these forms.
pub(crate) fn property_at(
    schema: &Schema,
    node: NodeRef,
    forms: &[Form],
    near: &mut Near,
    name: &str,
) -> Option<Property>
    requires { forms.now ≡ forms_of schema.now node }
    ensures { result ≡ property schema.now node name.now }
{
    schema.forms_are_apart(node);
    match near.find(forms, name) {
        Some(form) => Some(Property {
            form,
            is_companion: false,
        }),
        None => schema.property(node, name),
    }
}
