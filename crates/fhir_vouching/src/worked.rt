//! Worked examples.

ghost use Rattle.std.specs.Prelude.{◌≡◌, ◌∷◌, ◌++◌, [], Some, None, codes};
ghost use Rattle.std.specs.List.{list_any};
ghost use Rattle.std.specs.Str.{bytes_eq};
ghost use Rattle.fhir_json.specs.Views.{tree_of};
ghost use Rattle.fhir_json.specs.Compact.{compact};
ghost use Rattle.fhir_vouching.specs.Given.{given_lines};
ghost use Rattle.fhir_vouching.specs.Example.{example};

use crate::progress::Progress;
use crate::spelled::Spelled;
use crate::vouching::Vouching;
use fhir_json::Json;
use std::cmp::Ordering;

// A thing of two pieces: it spells the word, and behind it the compact text of the tree.
#[derive(Clone, Copy)]
struct WordAndTree<'t, 'j> {
    word: &'t str,
    tree: &'t Json<'j>,
}

impl Spelled for WordAndTree<'_, '_> {
    ghost spelled = { λ x. x.word.now ++ compact (tree_of x.tree.now) };

    fn cmp_text(&self, text: &str) -> Ordering {
        Progress::of(text)
            .then(self.word)
            .then_compact(self.tree)
            .order()
    }
}

/// Whether a word with the compact text of a tree behind it is in a set: neither is written out.
pub fn contains_word_and_tree(vouching: &Vouching, word: &str, tree: &Json<'_>) -> bool
    ensures { result ≡ list_any (bytes_eq (word.now ++ compact (tree_of tree.now))) vouching.now }
{
    vouching.contains(&WordAndTree { word, tree })
}

/// What a small file gives: its third line with the escape resolved, its fourth without a text, and its fifth.
pub fn example_file()
    ensures { given_lines example ≡ (3, Some (codes "a b")) ∷ (4, None) ∷ (5, Some (codes "d#")) ∷ [] }
{}
