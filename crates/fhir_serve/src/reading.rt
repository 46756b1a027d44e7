//! One line of a reader.

ghost use Rattle.std.specs.Prelude.{◌≡◌, ℕ, List, Option};
ghost use Rattle.std.specs.Io.{StopsAt};
ghost use Rattle.std.specs.Io.BufRead.{ends_with_byte, strip_last};
ghost use Rattle.std.specs.Io.KnownBytes.{Consumes};
ghost use Rattle.fhir_serve.specs.Reading.{Reads};

use std::alloc::Global;
use std::io::{BufRead, ErrorKind};

/// What a reader gave.
#[derive(Drop)]
pub(crate) enum Reading {
    /// The next line, without its line feed.
    Held(Vec<u8>),
    /// The next line, which memory doesn't hold. It was passed over.
    Unheld,
    /// No line, at the end.
    End,
    /// A failure.
    Failure,
}

fn ends_in_feed(bytes: &[u8]) -> bool
    ensures { result ≡ ends_with_byte 10 bytes.now }
{
    let length = bytes.len();
    length > 0 && bytes[length - 1] == b'\n'
}

// The line feed at the end, if there is one, is cut off.
fn without_feed(mut line: Vec<u8>) -> Vec<u8>
    ensures { result.items ≡ strip_last 10 line.items }
{
    if ends_in_feed(&line) {
        line.truncate(line.len() - 1);
    }
    line
}

// Passes over what is left of a line of which some part, maybe nothing, was taken.
fn pass_over<R: BufRead>(reader: &mut R, part: Vec<u8>) -> Reading
    requires { StopsAt part.items 10 }
    ensures { (old : Option (List ℕ)) → Consumes old (R.remaining reader.old) part.items → Reads result old (R.remaining reader.new) }
{
    let is_started = !part.is_empty();
    // The part may be the whole line.
    if ends_in_feed(&part) {
        return Reading::Unheld;
    }
    // The memory is given back.
    drop(part);
    let Ok(skipped) = reader.skip_until(b'\n') else {
        return Reading::Failure;
    };
    if is_started || skipped > 0 {
        Reading::Unheld
    } else {
        Reading::End
    }
}

/// Reads the next line.
pub(crate) fn next_line<R: BufRead>(alloc: Global, reader: &mut R) -> Reading
    ensures { Reads result (R.remaining reader.old) (R.remaining reader.new) }
{
    let mut line = Vec::new(alloc);
    match reader.read_until(b'\n', &mut line) {
        Ok(0) => Reading::End,
        Ok(_) => Reading::Held(without_feed(line)),
        Err(e) if e.kind() == ErrorKind::OutOfMemory => pass_over(reader, line),
        Err(_) => Reading::Failure,
    }
}
