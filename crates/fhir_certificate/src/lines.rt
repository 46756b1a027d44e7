//! What the pair lines of a certificate say in a schema. Each line is read once.

ghost use Rattle.std.specs.Prelude.{◌≡◌, ◌+◌, ◌++◌, ◌<◌, ◌≤◌, ◌^◌, ◌⊎◌, [], None, Some, option_map, IfOk, IfErr, OnOk};
ghost use Rattle.fhir_certificate.specs.declared.fault.CertFault.TheVariants as faults;
ghost use Rattle.fhir_certificate.specs.declared.pair.Pair.TheVariants.{Item, Kids};
ghost use Rattle.fhir_certificate.specs.Format.{numbering};
ghost use Rattle.fhir_certificate.specs.Judging.{limit, node_of, pair_of};
ghost use Rattle.fhir_certificate.specs.Reading.{lines_of, pair_lines, pairs_at};
ghost use Rattle.fhir_certificate.specs.Lines.{pair_in, item_in, kids_in, Reads, LeadsTo};
ghost use Rattle.fhir_certificate.specs.Views.{name_seen, line_seen};

use crate::fault::CertFault;
use crate::format::{NameText, PairLine, next_pair};
use crate::pair::{NodePair, Pair};
use crate::stated::Definitions;
use fhir_schema::{NodeRef, Schema};
use std::alloc::Global;

/// How many pair lines a certificate may have.
pub const MAX_PAIRS: usize = 16_777_216;

/// What the pair lines say so far.
#[derive(Drop)]
pub(crate) struct LinesRead {
    /// The pairs that speak of items, as long as all is known and within the limit.
    pub(crate) items: Vec<NodePair>,
    /// The pairs that speak of children, as long as all is known and within the limit.
    pub(crate) kids: Vec<NodePair>,
    /// How many lines there were.
    pub(crate) count: usize,
    /// Whether both definitions can be used and all nodes are known.
    pub(crate) is_known: bool,
}

fn node_of(schema: &Schema, name: NameText<'_>) -> Option<NodeRef>
    ensures { result ≡ node_of schema.now (name_seen name.entry) }
{
    schema.node(name.url, name.id)
}

fn pair_of(schema: &Schema, derived: NameText<'_>, base: NameText<'_>) -> Option<NodePair>
    ensures { result ≡ pair_of schema.now (name_seen derived.entry) (name_seen base.entry) }
{
    let derived = node_of(schema, derived)?;
    let base = node_of(schema, base)?;
    Some(NodePair { derived, base })
}

fn item_pair(schema: &Schema, derived: NameText<'_>, base: NameText<'_>) -> Option<Pair>
    ensures { result
        ≡ option_map Item (pair_of schema.now (name_seen derived.entry) (name_seen base.entry)) }
{
    Some(Pair::Item(pair_of(schema, derived, base)?))
}

fn kids_pair(schema: &Schema, derived: NameText<'_>, base: NameText<'_>) -> Option<Pair>
    ensures { result
        ≡ option_map Kids (pair_of schema.now (name_seen derived.entry) (name_seen base.entry)) }
{
    Some(Pair::Kids(pair_of(schema, derived, base)?))
}

fn pair_in(schema: &Schema, line: PairLine<'_>) -> Option<Pair>
    ensures { result ≡ pair_in schema.now (line_seen line.entry) }
{
    match line {
        PairLine::Item(derived, base) => item_pair(schema, derived, base),
        PairLine::Kids(derived, base) => kids_pair(schema, derived, base),
    }
}

// Puts a pair behind the others of its kind, where there is one.
fn put(items: &mut Vec<NodePair>, kids: &mut Vec<NodePair>, pair: Pair) -> Result<(), CertFault>
    ensures items { OnOk result (items.new.items ≡ items.old.items ++ item_in pair) }
    ensures kids { OnOk result (kids.new.items ≡ kids.old.items ++ kids_in pair) }
    ensures full { IfErr result (λ fault. fault ≡ faults.NoMemory) }
{
    match pair {
        Pair::Item(pair) => items.push(pair)?,
        Pair::Kids(pair) => kids.push(pair)?,
    }
    Ok(())
}

impl LinesRead {
    // Keeps a pair, where it is within the limit.
    fn keep(&mut self, pair: Pair) -> Result<(), CertFault>
        ensures same { OnOk result (record self.new { items = self.old.items; kids = self.old.kids }
            ≡ self.old) }
        ensures items { OnOk result (self.old.count ≤ limit
            → self.new.items.items ≡ self.old.items.items ++ item_in pair) }
        ensures kids { OnOk result (self.old.count ≤ limit
            → self.new.kids.items ≡ self.old.kids.items ++ kids_in pair) }
        ensures full { IfErr result (λ fault. fault ≡ faults.NoMemory) }
    {
        if self.count > MAX_PAIRS {
            return Ok(());
        }
        put(&mut self.items, &mut self.kids, pair)
    }

    // Reads one line more. Behind an unknown node no other is looked up.
    fn read_line(&mut self, schema: &Schema, line: PairLine<'_>) -> Result<(), CertFault>
        requires { self.old.count + 1 < 2 ^ 64 }
        ensures read { OnOk result (Reads schema.now (line_seen line.entry) self.old self.new) }
        ensures full { IfErr result (λ fault. fault ≡ faults.NoMemory) }
    {
        self.count += 1;
        if !self.is_known {
            return Ok(());
        }
        match pair_in(schema, line) {
            Some(pair) => self.keep(pair),
            None => {
                self.is_known = false;
                Ok(())
            }
        }
    }
}

/// What the pair lines of a text say, where it is pair lines and then the last line; else it is `WrongFormat`.
pub(crate) fn read_lines<'a>(
    alloc: Global,
    schema: &Schema,
    usable: bool,
    definitions: &Definitions<'a>,
    text: &'a str,
) -> Result<LinesRead, CertFault>
    ensures leads { let ns = numbering definitions.now in IfOk result (λ so_far.
        LeadsTo schema.now usable so_far [] (pair_lines ns (lines_of text.now))) }
    ensures whole { let ns = numbering definitions.now in
        OnOk result (pairs_at ns text.now ≡ Some (pair_lines ns (lines_of text.now))) }
    ensures refused { IfErr result (λ fault. (fault ≡ faults.NoMemory)
        ⊎ ((fault ≡ faults.WrongFormat) × (pairs_at (numbering definitions.now) text.now ≡ None))) }
{
    let mut so_far = LinesRead {
        items: Vec::new(alloc),
        kids: Vec::new(alloc),
        count: 0,
        is_known: usable,
    };
    let mut rest = text;
    while let Some((line, behind)) = next_pair(definitions, rest) {
        so_far.read_line(schema, line)?;
        rest = behind;
    }
    if rest == "end\n" {
        Ok(so_far)
    } else {
        Err(CertFault::WrongFormat)
    }
}
