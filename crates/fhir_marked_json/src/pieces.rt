//! Pieces of text, of which some are marked.

ghost use Rattle.std.specs.Prelude.{◌≡◌, ◌++◌, [], map, codes, IfOk, OnOk};
ghost use Rattle.fhir_markup.specs.Markup.{element, none, with_child};
ghost use Rattle.fhir_markup.specs.Views.{element_node};
ghost use Rattle.fhir_markup.specs.declared.names.Tag.TheVariants.{Pre};
ghost use Rattle.fhir_marked_json.specs.Lines.{line, piece_node, with_pieces};
ghost use Rattle.fhir_marked_json.specs.Views.{piece_seen, told};

use fhir_markup::{Element, Tag};
use std::alloc::{AllocError, Global};

/// A piece of text.
#[derive(Drop)]
pub(crate) struct Piece {
    pub(crate) text: String,
    pub(crate) is_marked: bool,
}

/// Puts in a piece behind the others.
pub(crate) fn put(
    alloc: Global,
    text: &str,
    is_marked: bool,
    into: &mut Vec<Piece>,
) -> Result<(), AllocError>
    ensures { OnOk result (told into.new.items ≡ told into.old.items ++ text.now) }
{
    let text = String::from_str(alloc, text)?;
    Ok(into.push(Piece { text, is_marked })?)
}

/// Begins a line behind a margin.
pub(crate) fn put_line(alloc: Global, margin: &str, into: &mut Vec<Piece>) -> Result<(), AllocError>
    ensures { OnOk result (told into.new.items ≡ told into.old.items ++ line margin.now) }
{
    put(alloc, "\n", false, into)?;
    put(alloc, margin, false, into)
}

fn push_piece(alloc: Global, piece: &Piece, into: &mut Element) -> Result<(), AllocError>
    ensures { OnOk result (element_node into.new ≡ with_child (element_node into.old) (piece_node (piece_seen piece.now))) }
{
    if piece.is_marked {
        into.push(Element::of_text(alloc, Tag::Mark, piece.text.as_str())?)
    } else {
        into.push_text(alloc, piece.text.as_str())
    }
}

/// An element of the pieces, as lines that stand as they are.
pub(crate) fn pre_of(alloc: Global, pieces: &[Piece]) -> Result<Element, AllocError>
    ensures { IfOk result (λ pre. element_node pre ≡ with_pieces (element Pre [] none) (map piece_seen pieces.now)) }
{
    let mut pre = Element::new(alloc, Tag::Pre);
    for piece in pieces {
        push_piece(alloc, piece, &mut pre)?;
    }
    Ok(pre)
}
