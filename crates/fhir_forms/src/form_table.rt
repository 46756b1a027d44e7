//! The forms of one element's children, found by the names of their properties.

ghost use Rattle.std.specs.Prelude.{◌≡◌, ◌++◌, ◌∷◌, [], List, false, string_bytes, IfOk, IsTrue, MatchResult};
ghost use Rattle.std.specs.List.{slice_get};
ghost use Rattle.std.specs.Option.{option_map};
ghost use Rattle.fhir_elements.specs.declared.reason.Reason.TheVariants.{NoTree};
ghost use Rattle.fhir_elements.specs.Causes.{reason_of, reason_unless};
ghost use Rattle.fhir_forms.specs.Forms.{are_apart, if_apart, companion_name, property_of, spellings_of};
ghost use Rattle.fhir_forms.specs.FormTables.{Meant, Keeps, KeepsIf, companions_of, IsTable};

use crate::form::{Form, Property};
use fhir_elements::Cause;
use fhir_names::Index;
use std::alloc::{AllocError, Global};
use std::marker::Model;

// What each name means, in the order in which the forms spell them.
#[derive(Drop)]
struct Names {
    meanings: Vec<Property>,
    places: Index,
}

impl Names {
    fn new(alloc: Global) -> Names
        ensures { Keeps result.meanings.items result.places [] }
    {
        Names {
            meanings: Vec::new(alloc),
            places: Index::new(alloc),
        }
    }

    // Adds a name, if it is new.
    fn add(&mut self, alloc: Global, name: &str, meaning: Property) -> Result<bool, AllocError>
        ensures { IfOk result (λ is_new. (xs : List Meant) → Keeps self.old.meanings.items self.old.places xs
            → KeepsIf is_new self.new.meanings.items self.new.places (xs ++ (name.now, meaning) ∷ [])) }
    {
        if self.places.get(name).is_some() {
            return Ok(false);
        }
        self.places.add(alloc, name, self.meanings.len())?;
        self.meanings.push(meaning)?;
        Ok(true)
    }

    fn add_companion(
        &mut self,
        alloc: Global,
        form: &Form,
        place: usize,
    ) -> Result<bool, AllocError>
        ensures { IfOk result (λ is_new. (xs : List Meant) → Keeps self.old.meanings.items self.old.places xs
            → KeepsIf is_new self.new.meanings.items self.new.places (xs ++ companions_of place form.now)) }
    {
        if !form.content().is_primitive() {
            return Ok(true);
        }
        let name = companion_name(alloc, form)?;
        let meaning = Property {
            form: place,
            is_companion: true,
        };
        self.add(alloc, name.as_str(), meaning)
    }

    // Adds the names that a form spells, if they are new.
    fn add_form(&mut self, alloc: Global, form: &Form, place: usize) -> Result<bool, AllocError>
        ensures { IfOk result (λ is_new. (xs : List Meant) → Keeps self.old.meanings.items self.old.places xs
            → KeepsIf is_new self.new.meanings.items self.new.places (xs ++ spellings_of place form.now)) }
    {
        let meaning = Property {
            form: place,
            is_companion: false,
        };
        if !self.add(alloc, form.property(), meaning)? {
            return Ok(false);
        }
        self.add_companion(alloc, form, place)
    }
}

fn companion_name(alloc: Global, form: &Form) -> Result<String, AllocError>
    ensures { IfOk result (λ s. string_bytes s ≡ companion_name form.now) }
{
    let mut name = String::from_str(alloc, "_")?;
    name.push_str(form.property())?;
    Ok(name)
}

// The names that some forms spell, if no two are the same; else the element of the first form that spells one again.
fn names_of(alloc: Global, forms: &[Form]) -> Result<Result<Names, usize>, AllocError>
    ensures { IfOk result (λ r. MatchResult r (λ n. IsTable n.meanings.items n.places forms.now) (λ _. are_apart forms.now ≡ false)) }
{
    let mut names = Names::new(alloc);
    for (place, form) in forms.iter().enumerate() {
        if !names.add_form(alloc, form, place)? {
            return Ok(Err(form.entry));
        }
    }
    Ok(Ok(names))
}

fn meaning_at(meanings: &[Property], place: usize) -> Option<Property>
    ensures { result ≡ slice_get meanings.now place }
{
    meanings.get(place).copied()
}

/// The forms of one element's children, no two of which spell one property.
#[derive(Drop)]
pub(crate) struct FormTable {
    forms: Vec<Form>,
    names: Names,
}

impl Model for FormTable {
    ghost use Rattle.std.specs.Prelude.{List};
    ghost use Rattle.fhir_forms.specs.Forms.{Form as Shown};
    ghost use Rattle.fhir_forms.specs.FormTables.{IsTable};

    ghost Value = { List Shown };

    ghost view = { λ t. t.forms.items };

    ghost invariant = { λ t. IsTable t.names.meanings.items t.names.places t.forms.items };
}

impl FormTable {
    /// The table of some forms; where two of them spell one property that of none, and what is wrong.
    pub(crate) fn of(alloc: Global, forms: Vec<Form>) -> Result<(Self, Option<Cause>), AllocError>
        ensures table { IfOk result (λ r. r.0 ≡ if_apart forms.items) }
        ensures reason { IfOk result (λ r. option_map reason_of r.1 ≡ reason_unless (are_apart forms.items) NoTree) }
    {
        match names_of(alloc, &forms)? {
            Ok(names) => Ok((FormTable { forms, names }, None)),
            Err(child) => Ok((
                FormTable::empty(alloc),
                Some(Cause::RepeatedProperty(child)),
            )),
        }
    }

    /// No forms.
    pub(crate) fn empty(alloc: Global) -> FormTable
        ensures { result ≡ [] }
    {
        FormTable {
            forms: Vec::new(alloc),
            names: Names::new(alloc),
        }
    }

    /// The forms, in the order of the definition.
    pub(crate) fn forms(&self) -> &[Form]
        ensures { result.now ≡ self.now }
    {
        &self.forms
    }

    /// What the name of a property means.
    pub(crate) fn property(&self, name: &str) -> Option<Property>
        ensures { result ≡ property_of self.now name.now }
    {
        match self.names.places.get(name) {
            Some(place) => meaning_at(&self.names.meanings, place),
            None => None,
        }
    }

    /// No two of the forms spell one property.
    pub(crate) fn are_apart(&self)
        ensures { IsTrue (are_apart self.now) }
    {
        let _forms = &self.forms;
    }
}
