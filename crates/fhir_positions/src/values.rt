//! Where the values of a JSON text begin.

ghost use Rattle.std.specs.Prelude.{◌≡◌, ◌<◌, ◌≤◌, ◌^◌, ◌-◌, ◌+◌, ◌++◌, ◌∷◌, [], ℕ, List, length, take, IfOk};
ghost use Rattle.std.specs.Prelude.{OnOk, All, None};
ghost use Rattle.fhir_json.specs.Position.{begins_character};
ghost use Rattle.std.specs.List.{AllZip};
ghost use Rattle.fhir_json.specs.Tree.{Tree};
ghost use Rattle.fhir_json.specs.Grammar.{Reads};
ghost use Rattle.fhir_json.specs.Reading.{text_behind_mark};
ghost use Rattle.fhir_positions.specs.Positions.{StandsIn, BeginsAt, behind_front, values_in};
ghost use Rattle.fhir_positions.specs.Lexing.{kind_of, turn_outside, turn_of, outside_behind, text_behind, inside_behind};
ghost use Rattle.fhir_positions.specs.Lexing.{seen, settled, turned, passed, nothing_seen};
ghost use Rattle.fhir_positions.specs.Values.{StandIn};

use fhir_json::{NoMemory, Position};
use std::alloc::Global;

// What the next byte stands in.
#[derive(Clone, Copy)]
enum Inside {
    // none of the others
    Between,
    // a number or a literal
    Word,
    Text,
    // a string, behind a backslash
    Escape,
}

// Which bytes mean the same outside of strings, or end them.
#[derive(Clone, Copy)]
enum Kind {
    Blank,
    Colon,
    // a comma, or a closing bracket or brace
    End,
    // an opening bracket or brace
    Opening,
    Quote,
    Backslash,
    Other,
}

// What a byte says of the values.
#[derive(Clone, Copy)]
enum Turn {
    // nothing
    Passes,
    // the string in front of it is the name of a member
    Names,
    // the string in front of it is a value
    Settles,
    // a value that is no string begins with it
    Begins,
    // a string begins with it
    Quotes,
}

fn kind_of(b: u8) -> Kind
    ensures { result ≡ kind_of b }
{
    match b {
        b' ' | b'\t' | b'\n' | b'\r' => Kind::Blank,
        b':' => Kind::Colon,
        b',' | b']' | b'}' => Kind::End,
        b'[' | b'{' => Kind::Opening,
        b'"' => Kind::Quote,
        b'\\' => Kind::Backslash,
        _ => Kind::Other,
    }
}

fn turn_outside(word: Turn, kind: Kind) -> Turn
    ensures { result ≡ turn_outside word kind }
{
    match kind {
        Kind::Blank => Turn::Passes,
        Kind::Colon => Turn::Names,
        Kind::End => Turn::Settles,
        Kind::Opening => Turn::Begins,
        Kind::Quote => Turn::Quotes,
        Kind::Backslash | Kind::Other => word,
    }
}

fn turn_of(inside: Inside, kind: Kind) -> Turn
    ensures { result ≡ turn_of inside kind }
{
    match inside {
        Inside::Between => turn_outside(Turn::Begins, kind),
        Inside::Word => turn_outside(Turn::Passes, kind),
        Inside::Text | Inside::Escape => Turn::Passes,
    }
}

fn outside_behind(kind: Kind) -> Inside
    ensures { result ≡ outside_behind kind }
{
    match kind {
        Kind::Blank | Kind::Colon | Kind::End | Kind::Opening => Inside::Between,
        Kind::Quote => Inside::Text,
        Kind::Backslash | Kind::Other => Inside::Word,
    }
}

fn text_behind(kind: Kind) -> Inside
    ensures { result ≡ text_behind kind }
{
    match kind {
        Kind::Quote => Inside::Between,
        Kind::Backslash => Inside::Escape,
        Kind::Blank | Kind::Colon | Kind::End | Kind::Opening | Kind::Other => Inside::Text,
    }
}

fn inside_behind(inside: Inside, kind: Kind) -> Inside
    ensures { result ≡ inside_behind inside kind }
{
    match inside {
        Inside::Between | Inside::Word => outside_behind(kind),
        Inside::Text => text_behind(kind),
        Inside::Escape => Inside::Text,
    }
}

// The values that were found so far.
#[derive(Drop)]
struct Values {
    found: Vec<Position>,
    // where a string begins that is a value or the name of a member
    string: Option<Position>,
    inside: Inside,
}

impl Values {
    fn new(alloc: Global) -> Values
        ensures seen { seen result ≡ nothing_seen }
        ensures stand { (bytes : List ℕ) → StandIn bytes result }
    {
        Values {
            found: Vec::new(alloc),
            string: None,
            inside: Inside::Between,
        }
    }

    // The string, if there is one, is a value.
    fn settle(&mut self) -> Result<(), NoMemory>
        ensures settled { OnOk result (seen self.new ≡ record {
          found = settled self.old.found.items self.old.string;
          string = None;
          inside = self.old.inside;
        }) }
        ensures stand { OnOk result ((bytes : List ℕ) → StandIn bytes self.old → StandIn bytes self.new) }
    {
        match self.string {
            Some(at) => {
                self.found.push(at)?;
                self.string = None;
                Ok(())
            }
            None => Ok(()),
        }
    }

    fn begin(&mut self, at: Position) -> Result<(), NoMemory>
        ensures begun { OnOk result (seen self.new
            ≡ turned Turn.Begins at self.old.inside self.old.found.items self.old.string) }
        ensures stand { OnOk result ((bytes : List ℕ) → StandsIn bytes at → StandIn bytes self.old
            → StandIn bytes self.new) }
    {
        self.settle()?;
        self.found.push(at)?;
        Ok(())
    }

    fn quote(&mut self, at: Position) -> Result<(), NoMemory>
        ensures quoted { OnOk result (seen self.new
            ≡ turned Turn.Quotes at self.old.inside self.old.found.items self.old.string) }
        ensures stand { OnOk result ((bytes : List ℕ) → StandsIn bytes at → StandIn bytes self.old
            → StandIn bytes self.new) }
    {
        self.settle()?;
        self.string = Some(at);
        Ok(())
    }

    fn list(&mut self, turn: Turn, at: Position) -> Result<(), NoMemory>
        ensures turned { OnOk result (seen self.new
            ≡ turned turn at self.old.inside self.old.found.items self.old.string) }
        ensures stand { OnOk result ((bytes : List ℕ) → StandsIn bytes at → StandIn bytes self.old
            → StandIn bytes self.new) }
    {
        match turn {
            Turn::Passes => Ok(()),
            Turn::Names => {
                self.string = None;
                Ok(())
            }
            Turn::Settles => self.settle(),
            Turn::Begins => self.begin(at),
            Turn::Quotes => self.quote(at),
        }
    }

    // The byte at a position.
    fn pass(&mut self, b: u8, at: Position) -> Result<(), NoMemory>
        ensures passed { OnOk result (seen self.new ≡ passed at b (seen self.old)) }
        ensures stand { OnOk result ((bytes : List ℕ) → StandsIn bytes at → StandIn bytes self.old
            → StandIn bytes self.new) }
    {
        let kind = kind_of(b);
        let turn = turn_of(self.inside, kind);
        self.inside = inside_behind(self.inside, kind);
        self.list(turn, at)
    }
}

fn behind_mark(bytes: &[u8]) -> &[u8]
    ensures text { result.now ≡ text_behind_mark bytes.now }
    ensures within { (n : ℕ) → n ≤ length result.now → StandsIn bytes.now (behind_front (take n result.now)) }
{
    if bytes.starts_with(b"\xef\xbb\xbf") {
        &bytes[3..]
    } else {
        bytes
    }
}

fn begins_character(b: u8) -> bool
    ensures { result ≡ begins_character b }
{
    b < 128 || b >= 192
}

// The position behind a byte.
fn after(at: Position, b: u8) -> Position
    requires line { at.line < 2 ^ 64 - 1 }
    requires column { at.column < 2 ^ 64 - 1 }
    ensures at { (front : List ℕ) → at ≡ behind_front front → result ≡ behind_front (front ++ b ∷ []) }
    ensures line { result.line ≤ at.line + 1 }
    ensures column { result.column ≤ at.column + 1 }
{
    if b == b'\n' {
        Position {
            line: at.line + 1,
            column: 1,
        }
    } else if begins_character(b) {
        Position {
            line: at.line,
            column: at.column + 1,
        }
    } else {
        at
    }
}

/// Where each value of a JSON text begins, in the order of the text: a value before those inside it. A string in front of a
/// colon is the name of a member, and no value. It takes time linear in the bytes. Bytes that aren't JSON give something.
pub(crate) fn values_of(alloc: Global, bytes: &[u8]) -> Result<Vec<Position>, NoMemory>
    ensures values { IfOk result (λ all. (t : Tree) → Reads bytes.now t
        → AllZip (BeginsAt bytes.now) (values_in t) all.items) }
    ensures within { IfOk result (λ all. All (StandsIn bytes.now) all.items) }
{
    let text = behind_mark(bytes);
    let mut values = Values::new(alloc);
    let mut at = Position { line: 1, column: 1 };
    'bytes: for b in text {
        values.pass(*b, at)?;
        at = after(at, *b);
    }
    values.settle()?;
    Ok(values.found)
}
