//! Items.

ghost use Rattle.std.specs.Prelude.{◌≡◌};
ghost use Rattle.fhir_json.specs.Views.{tree_seen};
ghost use Rattle.fhir_instance.specs.Items.{type_of, json_of, kids_of, kids_in};
ghost use Rattle.fhir_instance.specs.View.{item_of, named_of, named_in, repeats_of};

use fhir_json::Json;
use fhir_names::Name;
use fhir_schema::Form;

/// An item: a value of a resource as its type definition sees it.
#[cycle(typed)]
pub struct Typed<'a, 'j> {
    pub(crate) code: &'a str,
    pub(crate) json: Option<&'a Json<'j>>,
    pub(crate) kids: Vec<Kid<'a, 'j>>,
}

/// A child of an item, under the name of its element.
#[cycle(typed)]
pub struct Kid<'a, 'j> {
    // the form as which it was typed, which knows its name
    pub(crate) form: &'a Form,
    pub(crate) item: Typed<'a, 'j>,
}

// A derived drop would be proved anew in each crate that owns an item.
impl Drop for Typed<'_, '_> {
    #[cycle(typed)]
    fn drop(self) {
        let Typed {
            code: _code,
            json: _json,
            kids,
        } = self;
        drop_kids(kids);
    }
}

impl Drop for Kid<'_, '_> {
    #[cycle(typed)]
    fn drop(self) {
        let Kid {
            form: _form,
            item: _item,
        } = self;
    }
}

#[cycle(typed)]
fn drop_kids(_kids: Vec<Kid<'_, '_>>) {}

impl<'a, 'j> Typed<'a, 'j> {
    /// The code of its type.
    pub fn code(&self) -> &str
        ensures { result.now ≡ type_of (item_of self.now) }
    {
        self.code
    }

    /// The tree that it was typed from; of a primitive its value, if it has one.
    pub fn json(&self) -> Option<&Json<'j>>
        ensures { tree_seen result ≡ json_of (item_of self.now) }
    {
        self.json
    }

    /// Its children, in the order of the type.
    pub fn kids(&self) -> &[Kid<'a, 'j>]
        ensures { kids_in (named_in result.now) ≡ kids_of (item_of self.now) }
    {
        &self.kids
    }
}

impl<'a, 'j> Kid<'a, 'j> {
    /// The name of its element, as `value[x]`.
    pub fn name(&self) -> &str
        ensures { result.now ≡ (named_of self.now).0 }
    {
        self.form.name()
    }

    /// That name, to be compared with others.
    pub fn tagged_name(&self) -> &Name
        ensures { result.now ≡ (named_of self.now).0 }
    {
        self.form.tagged_name()
    }

    /// Whether its element may stand several times in its type. This serves the spelling of places alone: an item doesn't know it.
    pub fn repeats(&self) -> bool
        ensures { result ≡ repeats_of self.now }
    {
        self.form.repeats()
    }

    /// The item that it is.
    pub fn item(&self) -> &Typed<'a, 'j>
        ensures { item_of result.now ≡ (named_of self.now).1 }
    {
        &self.item
    }
}
