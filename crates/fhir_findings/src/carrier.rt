//! What definitions and their elements carry that isn't judged.

ghost use Rattle.std.specs.Prelude.{◌≡◌, ◌++◌, string_bytes, codes, IfOk};
ghost use Rattle.fhir_json.specs.Compact.{compact};
ghost use Rattle.fhir_json.specs.Views.{tree_of, text_seen, property_of};
ghost use Rattle.fhir_facets.specs.Unread.{range, unread_text};
ghost use Rattle.fhir_facets.specs.Views.{unread_seen};
ghost use Rattle.fhir_findings.specs.Carrying.{carried_text, lacks_definition, lacks, carrier_of};
ghost use Rattle.fhir_findings.specs.Views.{carried_seen, carried_printed, carrier_seen, spot_seen};

use fhir_facets::Unread;
use fhir_json::{Json, Member, NoMemory, write};
use fhir_package::{Kind, Package};
use std::alloc::{AllocError, Global};
use std::fmt;

/// What is carried. `Display` prints it: `unread` and the rule, or `base` and the canonical.
#[derive(Clone, Copy)]
pub enum Carried<'s> {
    /// A rule that isn't judged: a resource that meets it may be left open.
    Rule(Unread<'s>),
    /// Of a definition the canonical of its base, of which the package has no definition.
    Base(&'s str),
}

/// What carries a rule that isn't judged, or lacks a base.
#[derive(Clone, Copy)]
pub struct Carrier<'s> {
    /// The file that the definition stands in.
    pub file: &'s str,
    /// Its url.
    pub url: &'s str,
    /// The id of the element; empty where the definition lacks a base.
    pub id: &'s str,
    /// What is carried.
    pub carried: Carried<'s>,
    /// Of a constraint its key.
    pub key: Option<&'s str>,
    /// Whether it names a definition that the package lacks.
    pub lacks: bool,
}

// Where something stands: the file and the url of a definition of the package, and the id of an element.
#[derive(Clone, Copy)]
pub(crate) struct Spot<'s, 'f> {
    pub(crate) package: &'s Package<'f>,
    pub(crate) file: &'s str,
    pub(crate) url: &'s str,
    pub(crate) id: &'s str,
}

// Whether no definition of a kind is named by a canonical.
pub(crate) fn lacks_definition(package: &Package<'_>, kind: Kind, canonical: &str) -> bool
    ensures { result ≡ lacks_definition «package».now kind canonical.now }
{
    match package.get(kind, canonical) {
        Some(_definition) => false,
        None => true,
    }
}

fn lacks(package: &Package<'_>, rule: Unread<'_>) -> bool
    ensures { result ≡ lacks «package».now (unread_seen rule.entry) }
{
    match rule {
        Unread::Range(_) => false,
        Unread::Target(canonical) => lacks_definition(
            package,
            Kind::StructureDefinition,
            canonical,
        ),
        Unread::Profile(canonical) => {
            lacks_definition(package, Kind::StructureDefinition, canonical)
        }
        Unread::Binding(canonical) => lacks_definition(package, Kind::ValueSet, canonical),
        Unread::Expression(_) => false,
        Unread::Constraint(_) => false,
    }
}

// The carrier of a rule that stands somewhere, with the key of a constraint.
pub(crate) fn carrier_of<'s>(
    spot: &Spot<'s, '_>,
    key: Option<&'s str>,
    rule: Unread<'s>,
) -> Carrier<'s>
    ensures { carrier_seen result ≡ carrier_of (spot_seen spot.now) (text_seen key.entry) (unread_seen rule.entry) }
{
    Carrier {
        file: spot.file,
        url: spot.url,
        id: spot.id,
        carried: Carried::Rule(rule),
        key,
        lacks: lacks(spot.package, rule),
    }
}

// ---- texts

fn joined(alloc: Global, front: &str, text: &str) -> Result<String, AllocError>
    ensures { IfOk result (λ t. string_bytes t ≡ front.now ++ text.now) }
{
    let mut all = String::from_str(alloc, front)?;
    all.push_str(text)?;
    Ok(all)
}

fn compact_text(alloc: Global, json: &Json<'_>) -> Result<String, NoMemory>
    ensures { IfOk result (λ t. string_bytes t ≡ compact (tree_of json.now)) }
{
    let bytes = write(alloc, json)?;
    Ok(String::from_utf8_lossy(alloc, &bytes)?)
}

fn bound_text(alloc: Global, bound: &Member<'static>) -> Result<String, NoMemory>
    ensures { IfOk result (λ t. string_bytes t ≡ codes "unread " ++ unread_text (range (property_of bound.now).0 (property_of bound.now).1)) }
{
    let value = compact_text(alloc, &bound.value)?;
    let mut text = joined(alloc, "unread range ", bound.name.as_str())?;
    text.push_str(" ")?;
    text.push_str(value.as_str())?;
    Ok(text)
}

fn rule_text(alloc: Global, rule: Unread<'_>) -> Result<String, NoMemory>
    ensures { IfOk result (λ t. string_bytes t ≡ codes "unread " ++ unread_text (unread_seen rule.entry)) }
{
    match rule {
        Unread::Range(bound) => bound_text(alloc, bound),
        Unread::Target(canonical) => Ok(joined(alloc, "unread target ", canonical)?),
        Unread::Profile(canonical) => Ok(joined(alloc, "unread profile ", canonical)?),
        Unread::Binding(canonical) => Ok(joined(alloc, "unread binding ", canonical)?),
        Unread::Expression(text) => Ok(joined(alloc, "unread expression ", text)?),
        Unread::Constraint(key) => Ok(joined(alloc, "unread constraint ", key)?),
    }
}

/// The text of what is carried, in memory of its own.
pub(crate) fn text_of(alloc: Global, carried: &Carried<'_>) -> Result<String, NoMemory>
    ensures { IfOk result (λ t. string_bytes t ≡ carried_text (carried_seen carried.now)) }
{
    match carried {
        Carried::Rule(rule) => rule_text(alloc, *rule),
        Carried::Base(canonical) => Ok(joined(alloc, "base ", canonical)?),
    }
}

impl Carried<'_> {
    /// Its text, as `Display` prints it, in memory of its own. The one refusal is want of memory.
    pub fn to_text(&self, alloc: Global) -> Result<String, NoMemory>
        ensures { IfOk result (λ t. string_bytes t ≡ carried_text (carried_seen self.now)) }
    {
        text_of(alloc, self)
    }
}

impl fmt::Display for Carried<'_> {
    ghost output = { λ carried. carried_printed carried };

    fn fmt<W: fmt::Write>(&self, f: &mut fmt::Formatter<W>) -> fmt::Result {
        match self {
            Carried::Rule(rule) => write!(f, "unread {rule}"),
            Carried::Base(canonical) => write!(f, "base {canonical}"),
        }
    }
}
