//! What inputs are.

ghost use Rattle.std.specs.Prelude.{◌≡◌, ℕ, List, length, IfOk};
ghost use Rattle.fhir_inputs.specs.Inputs.{InputValue, bytes_at, kind_at};

use std::alloc::Global;
use std::io::BufRead;

/// What an input holds.
#[derive(Clone, Copy, Debug, PartialEq, Eq)]
pub enum Kind {
    /// One text, which may have any number of lines.
    Document,
    /// A text on each line (NDJSON).
    Lines,
}

/// Why an input isn't opened.
#[derive(Clone, Copy, Debug, PartialEq, Eq)]
pub enum OpenFault {
    /// The device doesn't give it.
    Device,
    /// A growth of memory was refused.
    NoMemory,
}

/// Inputs, which are opened one at a time.
pub trait Inputs {
    /// What reads an input.
    type Reader: BufRead + Drop;

    /// The inputs in their order.
    ghost inputs: { Self → List InputValue };

    /// How many there are.
    fn count(&self) -> usize
        ensures { result ≡ length (inputs self.now) };

    /// What the one at a place holds.
    fn kind(&self, place: usize) -> Kind
        ensures { result ≡ kind_at (inputs self.now) place };

    /// Opens the one at a place.
    fn open(&self, alloc: Global, place: usize) -> Result<Self::Reader, OpenFault>
        ensures { IfOk result (λ reader. Self.Reader.remaining reader ≡ bytes_at (inputs self.now) place) };
}
