//! What answers lines.

ghost use Rattle.std.specs.Prelude.{ℕ, List};
ghost use Rattle.fhir_serve.specs.Answered.{IsAnswered};

use std::alloc::Global;
use std::io;
use std::io::Write;

/// What answers lines, and may change with each. It writes its answers itself, so that want of memory can be told without memory.
pub trait Service {
    /// From what it holds a line may be answered so, and it then holds that.
    ghost answers: { Self → List ℕ → Self → List ℕ → Type 0 };

    /// Answers a line, which has no line feed at its end, on an output. Where memory runs out, that is answered. The one error is of the
    /// output: the line is answered, but the output may not hold the answer.
    fn answer<W: Write>(&mut self, alloc: Global, line: &[u8], out: &mut W) -> io::Result<()>
        ensures { IsAnswered answers self.old line.now self.new result (W.contents out.old) (W.contents out.new) };

    /// Answers a line that memory doesn't hold.
    fn unheld<W: Write>(&mut self, out: &mut W) -> io::Result<()>
        ensures { (line : List ℕ) → IsAnswered answers self.old line self.new result (W.contents out.old) (W.contents out.new) };
}
