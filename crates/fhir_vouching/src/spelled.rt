//! Things that spell a text.

ghost use Rattle.std.specs.Prelude.{◌≡◌};
ghost use Rattle.std.specs.Ordering.{nat_cmp};
ghost use Rattle.std.specs.Cmp.Lexicographic.{slice_cmp};
ghost use Rattle.fhir_json.specs.Tree.{Text};

use std::cmp::Ordering;

/// A thing that spells a text, which need not be written out anywhere.
pub trait Spelled {
    /// The text that it spells.
    ghost spelled: { Self → Text };

    /// How the text that it spells stands to another, in the order of their bytes.
    ///
    /// A `Progress` finds it piece by piece. Where `spelled` is written as these pieces in turn, with `++` between them, the
    /// proof is found.
    fn cmp_text(&self, text: &str) -> Ordering
        ensures { result ≡ slice_cmp nat_cmp (spelled self.now) text.now };
}
