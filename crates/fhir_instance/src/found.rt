//! What has been found of an object's children.

ghost use Rattle.std.specs.Prelude.{◌≡◌, None, Some, [], IfOk, OnOk, IsTrue};
ghost use Rattle.fhir_json.specs.Views.{tree_seen};
ghost use Rattle.fhir_instance.specs.Typing.{both, item_with, under};
ghost use Rattle.fhir_instance.specs.View.{item_of};
ghost use Rattle.fhir_instance.specs.Found.{kids_found};

use crate::misfit::MisfitKind;
use crate::typed::{Kid, Typed};
use fhir_json::{Json, Member};
use fhir_schema::Form;
use std::alloc::{AllocError, Global};

/// A property of an object: its place among the others, and its name as written; and which of the items in it is meant,
/// if it is an array. The items are counted through all the forms of one element, so it has how many there are before.
#[derive(Clone, Copy)]
pub(crate) struct Spot<'a> {
    pub(crate) at: usize,
    pub(crate) property: &'a str,
    pub(crate) before: usize,
    pub(crate) index: Option<usize>,
}

impl<'a> Spot<'a> {
    /// The property at a place, behind so many items of the same element.
    pub(crate) fn of<'j>(member: &'a Member<'j>, at: usize, before: usize) -> Spot<'a> {
        Spot {
            at,
            property: member.name.as_str(),
            before,
            index: None,
        }
    }

    /// An item of its array.
    pub(crate) fn item(self, place: usize) -> Spot<'a> {
        Spot {
            at: self.at,
            property: self.property,
            before: self.before,
            index: Some(self.before.saturating_add(place)),
        }
    }
}

/// The properties of a value and of its companion.
#[derive(Clone, Copy)]
pub(crate) struct Spots<'a> {
    pub(crate) value: Spot<'a>,
    pub(crate) companion: Spot<'a>,
}

impl<'a> Spots<'a> {
    /// The one that comes first.
    pub(crate) fn first(self) -> Spot<'a> {
        if self.value.at <= self.companion.at {
            self.value
        } else {
            self.companion
        }
    }

    /// Those of a companion whose property isn't there.
    pub(crate) fn alone(spot: Spot<'a>) -> Spots<'a> {
        Spots {
            value: spot,
            companion: spot,
        }
    }

    /// An item of both arrays.
    pub(crate) fn item(self, place: usize) -> Spots<'a> {
        Spots {
            value: self.value.item(place),
            companion: self.companion.item(place),
        }
    }
}

/// A step from an item to a child.
#[derive(Clone, Copy)]
pub(crate) struct Step<'a> {
    pub(crate) name: &'a str,
    pub(crate) index: Option<usize>,
}

/// A misfit in an object: which of its properties has it, and where in that it is.
#[derive(Drop)]
pub(crate) struct FoundMisfit<'a> {
    pub(crate) kind: MisfitKind,
    pub(crate) at: usize,
    // whether it is found before the values in the property are looked at
    pub(crate) is_early: bool,
    // the property as written; none where the value itself is meant
    pub(crate) property: Option<&'a str>,
    // the steps to the property's object, the last one first
    pub(crate) steps: Vec<Step<'a>>,
}

impl<'a> FoundMisfit<'a> {
    fn in_value(alloc: Global, kind: MisfitKind, property: Option<&'a str>) -> FoundMisfit<'a> {
        FoundMisfit {
            kind,
            at: 0,
            is_early: false,
            property,
            steps: Vec::new(alloc),
        }
    }

    fn in_property(
        alloc: Global,
        kind: MisfitKind,
        spot: Spot<'a>,
        is_early: bool,
    ) -> FoundMisfit<'a> {
        FoundMisfit {
            kind,
            at: spot.at,
            is_early,
            property: Some(spot.property),
            steps: Vec::new(alloc),
        }
    }

    // Whether it is found before another, which is noted later.
    fn precedes(&self, at: usize, is_early: bool) -> bool {
        self.at < at || (self.at == at && (self.is_early || !is_early))
    }
}

/// The children of an object so far, and the first of its misfits.
#[derive(Drop)]
pub(crate) struct Found<'a, 'j> {
    pub(crate) kids: Vec<Kid<'a, 'j>>,
    pub(crate) misfit: Option<FoundMisfit<'a>>,
}

impl<'a, 'j> Found<'a, 'j> {
    /// No children so far, and room for so many.
    pub(crate) fn with_room(alloc: Global, count: usize) -> Result<Found<'a, 'j>, AllocError>
        ensures { IfOk result (λ f. kids_found f ≡ Some []) }
    {
        let kids = Vec::with_capacity(alloc, count)?;
        Ok(Found { kids, misfit: None })
    }

    /// The value itself has no item.
    pub(crate) fn of_misfit(alloc: Global, kind: MisfitKind) -> Found<'a, 'j>
        ensures { kids_found result ≡ None }
    {
        Found {
            kids: Vec::new(alloc),
            misfit: Some(FoundMisfit::in_value(alloc, kind, None)),
        }
    }

    /// The value's property has no item.
    pub(crate) fn of_misfit_at(alloc: Global, kind: MisfitKind, property: &'a str) -> Found<'a, 'j>
        ensures { kids_found result ≡ None }
    {
        Found {
            kids: Vec::new(alloc),
            misfit: Some(FoundMisfit::in_value(alloc, kind, Some(property))),
        }
    }

    // Whether a misfit is known that comes before one at a place.
    fn is_before(&self, at: usize, is_early: bool) -> bool
        ensures { IsTrue result → kids_found self.now ≡ None }
    {
        match &self.misfit {
            Some(misfit) => misfit.precedes(at, is_early),
            None => false,
        }
    }

    // Notes a misfit. The first is kept.
    fn keep(&mut self, misfit: FoundMisfit<'a>)
        ensures { kids_found self.new ≡ None }
    {
        if self.is_before(misfit.at, misfit.is_early) {
            return;
        }
        self.misfit = Some(misfit);
    }

    /// Notes that a property has no item, because of its values.
    pub(crate) fn refuse(&mut self, alloc: Global, kind: MisfitKind, spot: Spot<'a>)
        ensures { kids_found self.new ≡ None }
    {
        self.keep(FoundMisfit::in_property(alloc, kind, spot, false));
    }

    /// Notes that a property has no item, whatever its values.
    pub(crate) fn refuse_early(&mut self, alloc: Global, kind: MisfitKind, spot: Spot<'a>)
        ensures { kids_found self.new ≡ None }
    {
        self.keep(FoundMisfit::in_property(alloc, kind, spot, true));
    }

    /// Notes a null. Null stands for nothing in an array of primitives alone, and there beside something.
    pub(crate) fn refuse_null(&mut self, alloc: Global, form: &Form, spot: Spot<'a>)
        ensures { kids_found self.new ≡ None }
    {
        if spot.index.is_some() && form.content().is_primitive() {
            self.refuse_early(alloc, MisfitKind::Unparallel, spot);
        } else {
            self.refuse(alloc, MisfitKind::Empty, spot);
        }
    }

    /// Notes that the numbers of values and of companions, which are arrays, don't go together.
    pub(crate) fn refuse_counts(
        &mut self,
        alloc: Global,
        values: usize,
        companions: usize,
        spots: Spots<'a>,
    )
        ensures { kids_found self.new ≡ None }
    {
        if values == 0 {
            self.refuse_early(alloc, MisfitKind::Empty, spots.value);
        }
        if companions == 0 {
            self.refuse_early(alloc, MisfitKind::Empty, spots.companion);
        }
        self.refuse_early(alloc, MisfitKind::Unparallel, spots.first());
    }

    // Notes a misfit inside a child.
    fn refuse_inside(
        &mut self,
        misfit: FoundMisfit<'a>,
        form: &'a Form,
        spot: Spot<'a>,
    ) -> Result<(), AllocError>
        ensures { OnOk result (kids_found self.new ≡ None) }
    {
        let mut misfit = misfit;
        misfit.at = spot.at;
        misfit.is_early = false;
        if misfit.property.is_none() {
            misfit.property = Some(spot.property);
        } else {
            misfit.steps.push(Step {
                name: form.name(),
                index: spot.index,
            })?;
        }
        self.keep(misfit);
        Ok(())
    }

    /// One more child, as a form has it.
    #[inline(always)]
    pub(crate) fn push(&mut self, form: &'a Form, item: Typed<'a, 'j>) -> Result<(), AllocError>
        ensures { OnOk result (kids_found self.new
            ≡ both (kids_found self.old) (under form.now (Some (item_of item.entry)))) }
    {
        self.kids.push(Kid { form, item })?;
        Ok(())
    }

    /// One more child, with the children that were found of it.
    pub(crate) fn add(
        &mut self,
        form: &'a Form,
        code: &'a str,
        json: Option<&'a Json<'j>>,
        inner: Found<'a, 'j>,
        spot: Spot<'a>,
    ) -> Result<(), AllocError>
        ensures { OnOk result (kids_found self.new ≡ both (kids_found self.old)
            (under form.now (item_with code.now (tree_seen json.entry) (kids_found inner.entry)))) }
    {
        let Found { kids, misfit } = inner;
        match misfit {
            Some(misfit) => self.refuse_inside(misfit, form, spot),
            None => self.push(form, Typed { code, json, kids }),
        }
    }
}
