//! Places in a text.

ghost use Rattle.std.specs.Prelude.{◌≡◌};
ghost use Rattle.fhir_json.specs.Position.{begins_character, without_mark, position_at};

/// A place in a text: its line and its column, both from 1.
#[derive(Clone, Copy, Debug, PartialEq, Eq)]
pub struct Position {
    /// The line.
    pub line: usize,
    /// The column.
    pub column: usize,
}

// The first bytes, and of a byte order mark at the front nothing.
fn without_mark(bytes: &[u8], before: usize) -> &[u8]
    ensures { result.now ≡ without_mark bytes.now before }
{
    let front = &bytes[..before.min(bytes.len())];
    if bytes.starts_with(b"\xef\xbb\xbf") {
        &front[3usize.min(front.len())..]
    } else {
        front
    }
}

fn begins_character(b: u8) -> bool
    ensures { result ≡ begins_character b }
{
    b < 128 || b >= 192
}

/// The position of the byte behind the first `before` bytes, or of the end where there are not so many. Lines end with
/// a line feed, and columns count characters. A byte order mark at the front counts for none.
pub fn position_of(bytes: &[u8], before: usize) -> Position
    ensures { result ≡ position_at bytes.now before }
{
    let front = without_mark(bytes, before);
    let mut line = 1;
    let mut column = 1;
    'bytes: for b in front {
        if *b == b'\n' {
            line += 1;
            column = 1;
        } else if begins_character(*b) {
            column += 1;
        }
    }
    Position { line, column }
}
