//! A text that comes in pieces, and how it stands to another.

ghost use Rattle.std.specs.Prelude.{◌≡◌, []};
ghost use Rattle.std.specs.Ordering.{nat_cmp};
ghost use Rattle.std.specs.Cmp.Lexicographic.{slice_cmp};
ghost use Rattle.fhir_json.specs.Tree.{Text};
ghost use Rattle.fhir_vouching.specs.Progress.{Compares, Adds};

use std::cmp::Ordering;

/// How far a text that comes in pieces has been compared to another. It takes no memory.
#[derive(Clone, Copy, Debug)]
pub enum Progress<'t> {
    /// The pieces so far are the front of the other text, of which these bytes are left.
    Left(&'t [u8]),
    /// They are no front of it, and this is their order to it, whatever comes.
    Decided(Ordering),
}

impl<'t> Progress<'t> {
    /// No piece has come yet, and this is the other text.
    pub fn of(text: &'t str) -> Progress<'t>
        ensures { Compares result [] text.now }
    {
        Progress::Left(text.as_bytes())
    }

    /// The piece has come too.
    pub fn then(self, piece: &str) -> Progress<'t>
        ensures { Adds self.entry piece.now result }
    {
        self.then_bytes(piece.as_bytes())
    }

    pub(crate) fn then_bytes(self, piece: &[u8]) -> Progress<'t>
        ensures { Adds self.entry piece.now result }
    {
        match self {
            Progress::Left(text) => match text.strip_prefix(piece) {
                Some(rest) => Progress::Left(rest),
                None => Progress::Decided(piece.cmp(text)),
            },
            Progress::Decided(order) => Progress::Decided(order),
        }
    }

    /// How the pieces that have come, taken as one text, stand to the other, in the order of their bytes.
    pub fn order(self) -> Ordering
        ensures { (fed text : Text) → Compares self.entry fed text → result ≡ slice_cmp nat_cmp fed text }
    {
        match self {
            Progress::Left(rest) if rest.is_empty() => Ordering::Equal,
            Progress::Left(_) => Ordering::Less,
            Progress::Decided(order) => order,
        }
    }
}
