//! The text of a certificate.

ghost use Rattle.std.specs.Prelude.{◌≡◌, ◌<◌, [], ◌∷◌, length, None, is_some, option_map, IfOk, IfSome, MatchOption};
ghost use Rattle.fhir_certificate.specs.Format.{numbering};
ghost use Rattle.fhir_certificate.specs.Reading.{lines_of, url_at, name_at, name_of, line_with};
ghost use Rattle.fhir_certificate.specs.Reading.{line_of, pair_lines, pairs_at, url_line, written_behind, written_of};
ghost use Rattle.fhir_certificate.specs.Views.{parts_seen, name_seen, line_seen};
ghost use Rattle.fhir_certificate.specs.Heads.{written_with};

use crate::fields::{cut_at_feed, cut_at_tab, field_at, field_line, is_field};
use crate::stated::Definitions;
use crate::stating::front_of;
use fhir_json::NoMemory;
use std::alloc::Global;

/// An element by the url of its definition and its id.
#[derive(Clone, Copy)]
pub(crate) struct NameText<'a> {
    pub(crate) url: &'a str,
    pub(crate) id: &'a str,
}

/// A pair line: the derived element and the base's.
#[derive(Clone, Copy)]
pub(crate) enum PairLine<'a> {
    Item(NameText<'a>, NameText<'a>),
    Kids(NameText<'a>, NameText<'a>),
}

/// What stands in front of the pairs of a text, and what stands behind it.
#[derive(Drop)]
pub(crate) struct Head<'a> {
    pub(crate) definitions: Definitions<'a>,
    pub(crate) derived: &'a str,
    pub(crate) base: &'a str,
    pub(crate) pairs: &'a str,
}

fn url_at<'a>(definitions: &Definitions<'a>, text: &'a str) -> Option<(&'a str, &'a str)>
    ensures { parts_seen result ≡ url_at (numbering definitions.now) text.now }
{
    let (field, rest) = field_at(text)?;
    Some((definitions.url(field)?, rest))
}

fn name_at<'a>(definitions: &Definitions<'a>, text: &'a str) -> Option<(NameText<'a>, &'a str)>
    ensures { option_map (λ p. (name_seen p.0, p.1.now)) result ≡ name_at (numbering definitions.now) text.now }
{
    let (url, rest) = url_at(definitions, text)?;
    let (id, rest) = field_at(rest)?;
    Some((NameText { url, id }, rest))
}

fn name_of<'a>(definitions: &Definitions<'a>, text: &'a str) -> Option<NameText<'a>>
    ensures { option_map name_seen result ≡ name_of (numbering definitions.now) text.now }
{
    let (url, id) = url_at(definitions, text)?;
    if is_field(id) {
        Some(NameText { url, id })
    } else {
        None
    }
}

fn line_with<'a>(word: &str, derived: NameText<'a>, base: NameText<'a>) -> Option<PairLine<'a>>
    ensures { option_map line_seen result ≡ line_with word.now (name_seen derived.entry) (name_seen base.entry) }
{
    if word == "item" {
        Some(PairLine::Item(derived, base))
    } else if word == "kids" {
        Some(PairLine::Kids(derived, base))
    } else {
        None
    }
}

fn line_of<'a>(definitions: &Definitions<'a>, line: &'a str) -> Option<PairLine<'a>>
    ensures { option_map line_seen result ≡ line_of (numbering definitions.now) line.now }
{
    let (word, names) = cut_at_tab(line)?;
    let (derived, base) = name_at(definitions, names)?;
    line_with(word, derived, name_of(definitions, base)?)
}

/// The first line, where it is a pair line, and what stands behind it.
pub(crate) fn next_pair<'a>(
    definitions: &Definitions<'a>,
    text: &'a str,
) -> Option<(PairLine<'a>, &'a str)>
    ensures pairs { let ns = numbering definitions.now in MatchOption result (pair_lines ns (lines_of text.now) ≡ [])
        (λ p. pair_lines ns (lines_of text.now) ≡ line_seen p.0 ∷ pair_lines ns (lines_of p.1.now)) }
    ensures all { let ns = numbering definitions.now in
        IfSome result (λ p. is_some (pairs_at ns text.now) ≡ is_some (pairs_at ns p.1.now)) }
    ensures shorter { IfSome result (λ p. length p.1.now < length text.now) }
{
    let (line, rest) = cut_at_feed(text)?;
    Some((line_of(definitions, line)?, rest))
}

/// The url that is named in a first line with this word, and what stands behind the line.
pub(crate) fn url_line<'a>(
    definitions: &Definitions<'a>,
    word: &str,
    text: &'a str,
) -> Option<(&'a str, &'a str)>
    ensures { parts_seen result ≡ url_line (numbering definitions.now) word.now text.now }
{
    let (field, rest) = field_line(word, text)?;
    Some((definitions.url(field)?, rest))
}

fn head_behind<'a>(definitions: Definitions<'a>, text: &'a str) -> Option<Head<'a>>
    ensures { MatchOption result (written_behind definitions.entry text.now ≡ None)
        (λ head. written_behind definitions.entry text.now
        ≡ option_map (written_with head) (pairs_at (numbering head.definitions) head.pairs.now)) }
{
    let (derived, rest) = url_line(&definitions, "derived", text)?;
    let (base, pairs) = url_line(&definitions, "base", rest)?;
    Some(Head {
        definitions,
        derived,
        base,
        pairs,
    })
}

/// The head of a certificate's text, if it has one. The one refusal is want of memory.
pub(crate) fn head_of(alloc: Global, text: &str) -> Result<Option<Head<'_>>, NoMemory>
    ensures { IfOk result (λ h. MatchOption h (written_of text.now ≡ None)
        (λ head. written_of text.now ≡ option_map (written_with head) (pairs_at (numbering head.definitions) head.pairs.now))) }
{
    match front_of(alloc, text)? {
        Some((definitions, rest)) => Ok(head_behind(definitions, rest)),
        None => Ok(None),
    }
}
