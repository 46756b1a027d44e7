//! A definition by itself.

ghost use Rattle.std.specs.Prelude.{◌≡◌, IfOk, codes, length, string_bytes};
ghost use Rattle.std.specs.Option.{option_map};
ghost use Rattle.fhir_json.specs.Fields.{field, text_in};
ghost use Rattle.fhir_json.specs.Views.{tree_of, text_seen, tree_seen};
ghost use Rattle.fhir_json.specs.Memory.{Gives};
ghost use Rattle.fhir_elements.specs.declared.reason.Reason.TheVariants.{NoTree};
ghost use Rattle.fhir_elements.specs.Causes.{blamed_reason, reason_unless, is_blame_among};
ghost use Rattle.fhir_definition.specs.Snapshot.{id_place, is_tree, root_place};
ghost use Rattle.fhir_definition.specs.Children.{children_of, slices_of};
ghost use Rattle.fhir_definition.specs.Views.{lists_in};
ghost use Rattle.fhir_definition.specs.Definition.{has_snapshot, is_primitive, definition_of};

use crate::blames::own_blame;
use crate::elements::{element_trees, elements_of};
use crate::head::{is_abstract, is_type_definition, kind_in};
use crate::kind::TypeKind;
use crate::snapshot::Snapshot;
use fhir_elements::{Blame, ElementDef};
use fhir_json::{Json, NoMemory};
use std::alloc::{AllocError, Global};
use std::marker::Model;

/// A StructureDefinition by itself (FHIR R4, StructureDefinition). A contract sees its fields and its elements.
pub struct Definition {
    place: usize,
    url: String,
    version: Option<Json<'static>>,
    kind: Option<TypeKind>,
    is_abstract: bool,
    type_code: String,
    is_type: bool,
    base: Option<String>,
    blame: Option<Blame>,
    snapshot: Snapshot,
}

// A derived drop would be proved anew in each crate that owns one.
impl Drop for Definition {
    fn drop(self) {
        let Definition {
            place: _place,
            url: _url,
            version: _version,
            kind: _kind,
            is_abstract: _is_abstract,
            type_code: _type_code,
            is_type: _is_type,
            base: _base,
            blame: _blame,
            snapshot: _snapshot,
        } = self;
    }
}

impl Model for Definition {
    ghost use Rattle.std.specs.Prelude.{string_bytes, length};
    ghost use Rattle.std.specs.Option.{option_map};
    ghost use Rattle.fhir_json.specs.Views.{tree_of};
    ghost use Rattle.fhir_elements.specs.Causes.{blamed_reason, is_blame_among};
    ghost use Rattle.fhir_definition.specs.Definition.{Definition as Shown};

    ghost Value = { Shown };

    ghost use Rattle.fhir_json.specs.Coding.{tree_code};
    ghost use Rattle.std.specs.Coded.{codes};

    ghost coded = { Prim.hlevel (codes, tree_code) };

    ghost view = { λ d. record {
      place = d.place;
      url = string_bytes d.url;
      version = option_map tree_of d.version;
      kind = d.kind;
      abstract = d.is_abstract;
      type = string_bytes d.type_code;
      is_type = d.is_type;
      base = option_map string_bytes d.base;
      fault = blamed_reason d.blame;
      elements = d.snapshot;
    } };

    ghost invariant = { λ d. is_blame_among (length d.snapshot) d.blame };
}

fn version_of(alloc: Global, json: &Json<'_>) -> Result<Option<Json<'static>>, NoMemory>
    ensures { IfOk result (λ v. option_map tree_of v ≡ field (codes "version") (tree_of json.now)) }
{
    match json.field("version") {
        Some(version) => Ok(Some(version.detach(alloc)?)),
        None => Ok(None),
    }
}

fn base_of(alloc: Global, json: &Json<'_>) -> Result<Option<String>, AllocError>
    ensures { IfOk result (λ s. option_map string_bytes s ≡ text_in (codes "baseDefinition") (tree_of json.now)) }
{
    match json.text_in("baseDefinition") {
        Some(base) => Ok(Some(String::from_str(alloc, base)?)),
        None => Ok(None),
    }
}

impl Definition {
    /// The definition that a tree is, at a place of a package and under a url. A field that isn't of its kind counts as
    /// absent; `blame` says whether there is one. The one refusal is want of memory.
    pub fn of(
        alloc: Global,
        place: usize,
        url: &str,
        json: &Json<'_>,
    ) -> Result<Definition, NoMemory>
        ensures { Gives (λ d. d) result (definition_of place url.now (tree_of json.now)) }
    {
        let elements = elements_of(alloc, element_trees(json))?;
        let snapshot = Snapshot::of(alloc, elements)?;
        let url_text = String::from_str(alloc, url)?;
        let version = version_of(alloc, json)?;
        let type_code = String::from_str(alloc, json.text_at("type"))?;
        let base = base_of(alloc, json)?;
        let blame = own_blame(alloc, url, json, &snapshot)?;
        Ok(Definition {
            place,
            url: url_text,
            version,
            kind: kind_in(json),
            is_abstract: is_abstract(json),
            type_code,
            is_type: is_type_definition(json),
            base,
            blame,
            snapshot,
        })
    }

    /// Where it stands in the package's order.
    pub fn place(&self) -> usize
        ensures { result ≡ self.now.place }
    {
        self.place
    }

    /// Its url.
    pub fn url(&self) -> &str
        ensures { result.now ≡ self.now.url }
    {
        self.url.as_str()
    }

    /// Its version, as it is written.
    pub fn version(&self) -> Option<&Json<'static>>
        ensures { tree_seen result ≡ self.now.version }
    {
        self.version.as_ref()
    }

    /// The kind of the type that it defines or constrains.
    pub fn kind(&self) -> Option<TypeKind>
        ensures { result ≡ self.now.kind }
    {
        self.kind
    }

    /// Whether no item is of its type itself. One that doesn't say so isn't abstract.
    pub fn is_abstract(&self) -> bool
        ensures { result ≡ self.now.abstract }
    {
        self.is_abstract
    }

    /// The code of the type that it defines or constrains.
    pub fn type_code(&self) -> &str
        ensures { result.now ≡ self.now.type }
    {
        self.type_code.as_str()
    }

    /// Whether it defines the type, and doesn't constrain it.
    pub fn is_type(&self) -> bool
        ensures { result ≡ self.now.is_type }
    {
        self.is_type
    }

    /// The canonical of its base.
    pub fn base(&self) -> Option<&str>
        ensures { text_seen result ≡ self.now.base }
    {
        match &self.base {
            Some(base) => Some(base.as_str()),
            None => None,
        }
    }

    /// What is to blame where it can't be used whatever the other definitions are: a cause of the first reason of
    /// `WrongField`, `MinOverMax`, `RepeatedType` and `WrongId` that applies, and its element, if it has one.
    pub fn blame(&self) -> Option<Blame>
        ensures reason { blamed_reason result ≡ self.now.fault }
        ensures element { is_blame_among (length self.now.elements) result }
    {
        self.blame
    }

    /// The elements of its snapshot, in order; none where it has no snapshot.
    pub fn elements(&self) -> &[ElementDef]
        ensures { result.now ≡ self.now.elements }
    {
        self.snapshot.elements()
    }

    /// Whether it has a snapshot.
    pub fn has_snapshot(&self) -> bool
        ensures { result ≡ has_snapshot self.now }
    {
        !self.elements().is_empty()
    }

    /// What is to blame where its elements are no tree by their ids: a parent that isn't there, no root, or a second one.
    pub fn tree_blame(&self) -> Option<Blame>
        ensures reason { blamed_reason result ≡ reason_unless (is_tree self.now.elements) NoTree }
        ensures element { is_blame_among (length self.now.elements) result }
    {
        self.snapshot.tree_blame()
    }

    /// The place of its root among the elements.
    pub fn root(&self) -> Option<usize>
        ensures { result ≡ root_place self.now.elements }
    {
        self.snapshot.root()
    }

    /// The place of the first element with an id.
    pub fn id_place(&self, id: &str) -> Option<usize>
        ensures { result ≡ id_place self.now.elements id.now }
    {
        self.snapshot.id_place(id)
    }

    /// The places of the children of each element.
    pub fn children(&self) -> &[Vec<usize>]
        ensures { lists_in result.now ≡ children_of self.now.elements }
    {
        self.snapshot.children()
    }

    /// The places of the slices of each element.
    pub fn slices(&self) -> &[Vec<usize>]
        ensures { lists_in result.now ≡ slices_of self.now.elements }
    {
        self.snapshot.slices()
    }

    /// Whether it is of a primitive type.
    pub fn is_primitive(&self) -> bool
        ensures { result ≡ is_primitive self.now }
    {
        self.kind.is_some_and(|kind| kind.is_primitive())
    }
}
