//! What tells of inputs.

ghost use Rattle.std.specs.Prelude.{ℕ, List};
ghost use Rattle.fhir_inputs.specs.Going.{IsStopped};

use fhir_serve::Service;
use std::io;
use std::io::Write;

/// Why an input isn't gone through to its end.
#[derive(Clone, Copy, Debug, PartialEq, Eq)]
pub enum Stop {
    /// It can't be opened, or not be read on.
    Unread,
    /// There is no memory to open it, or to hold it.
    NoMemory,
}

/// What answers the lines of inputs, and is told where each begins, and where one stops before its end.
pub trait Teller: Service {
    ghost use Rattle.fhir_inputs.specs.declared.teller.Stop.{Stop};

    /// From what it holds it may go over to an input at a place so, and it then holds that.
    ghost begins: { Self → ℕ → Self → Type 0 };

    /// From what it holds it may tell so that an input stops, and it then holds that.
    ghost stops: { Self → Stop → Self → List ℕ → Type 0 };

    /// Goes over to the input at a place.
    fn begin(&mut self, place: usize)
        ensures { begins self.old place self.new };

    /// Tells that the input stops here. The one error is of the output.
    fn stop<W: Write>(&mut self, stop: Stop, out: &mut W) -> io::Result<()>
        ensures { IsStopped stops self.old stop self.new result (W.contents out.old) (W.contents out.new) };
}
