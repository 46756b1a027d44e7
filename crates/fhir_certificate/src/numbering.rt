//! The numbers that a certificate's text gives to definitions.

ghost use Rattle.std.specs.Prelude.{◌≡◌, List, IfOk, OnOk};
ghost use Rattle.std.specs.List.{flat_map, position_from};
ghost use Rattle.std.specs.Str.{bytes_eq};
ghost use Rattle.fhir_json.specs.Tree.{Text};
ghost use Rattle.fhir_certificate.specs.Writing.{pair_urls, urls_named, with_text, with_texts, firsts};
ghost use Rattle.fhir_certificate.specs.Numbering.{texts_seen, AreFound};

use crate::certificate::Certificate;
use crate::pair::NodePair;
use fhir_names::Index;
use fhir_schema::Schema;
use std::alloc::{AllocError, Global};
use std::marker::Model;

/// The urls that a certificate's text names, each once in the order in which it does.
#[derive(Drop)]
pub(crate) struct UrlNumbers<'s> {
    urls: Vec<&'s str>,
    places: Index,
}

impl<'s> Model for UrlNumbers<'s> {
    ghost use Rattle.std.specs.Prelude.{List};
    ghost use Rattle.fhir_json.specs.Tree.{Text};
    ghost use Rattle.fhir_names.specs.Places.{Finds};
    ghost use Rattle.fhir_certificate.specs.Numbering.{texts_seen};

    ghost Value = { List Text };

    ghost view = { λ n. texts_seen n.urls.items };

    ghost invariant = { λ n. Finds n.places (texts_seen n.urls.items) };
}

// Puts a url behind the others, unless it is there.
fn put<'s>(
    alloc: Global,
    urls: &mut Vec<&'s str>,
    places: &mut Index,
    url: &'s str,
) -> Result<(), AllocError>
    ensures { OnOk result ((us : List Text) → AreFound urls.old.items places.old us
        → AreFound urls.new.items places.new (with_text us url.now)) }
{
    if places.get(url).is_some() {
        return Ok(());
    }
    places.add(alloc, url, urls.len())?;
    urls.push(url)?;
    Ok(())
}

fn put_pair<'s>(
    alloc: Global,
    schema: &'s Schema,
    urls: &mut Vec<&'s str>,
    places: &mut Index,
    pair: NodePair,
) -> Result<(), AllocError>
    ensures { OnOk result ((us : List Text) → AreFound urls.old.items places.old us
        → AreFound urls.new.items places.new (with_texts us (pair_urls schema.now pair))) }
{
    let (derived, _) = schema.name(pair.derived);
    let (base, _) = schema.name(pair.base);
    put(alloc, urls, places, derived)?;
    put(alloc, urls, places, base)
}

fn put_pairs<'s>(
    alloc: Global,
    schema: &'s Schema,
    urls: &mut Vec<&'s str>,
    places: &mut Index,
    pairs: &[NodePair],
) -> Result<(), AllocError>
    ensures { OnOk result ((us : List Text) → AreFound urls.old.items places.old us
        → AreFound urls.new.items places.new (with_texts us (flat_map (pair_urls schema.now) pairs.now))) }
{
    for pair in pairs {
        put_pair(alloc, schema, urls, places, *pair)?;
    }
    Ok(())
}

impl<'s> UrlNumbers<'s> {
    /// Those of a certificate. The one refusal is want of memory.
    pub(crate) fn of(
        alloc: Global,
        schema: &'s Schema,
        certificate: &'s Certificate,
    ) -> Result<UrlNumbers<'s>, AllocError>
        ensures { IfOk result (λ n. n ≡ firsts (urls_named schema.now certificate.now)) }
    {
        let mut urls: Vec<&'s str> = Vec::new(alloc);
        let mut places = Index::new(alloc);
        put(alloc, &mut urls, &mut places, certificate.derived.as_str())?;
        put(alloc, &mut urls, &mut places, certificate.base.as_str())?;
        put_pairs(alloc, schema, &mut urls, &mut places, &certificate.items)?;
        put_pairs(alloc, schema, &mut urls, &mut places, &certificate.kids)?;
        Ok(UrlNumbers { urls, places })
    }

    /// The urls, in the order of their numbers.
    pub(crate) fn urls(&self) -> &[&'s str]
        ensures { texts_seen result.now ≡ self.now }
    {
        &self.urls
    }

    /// The number of a url, if it has one.
    pub(crate) fn number(&self, url: &str) -> Option<usize>
        ensures { result ≡ position_from (bytes_eq url.now) 0 self.now }
    {
        self.places.get(url)
    }
}
