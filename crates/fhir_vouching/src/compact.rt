//! The compact text of a tree as a piece: it is compared as it would be written, and never written out.

ghost use Rattle.std.specs.Prelude.{◌≡◌, ◌<◌, false};
ghost use Rattle.fhir_json.specs.Views.{tree_of, items_view, members_view};
ghost use Rattle.fhir_json.specs.Compact.{hex_digit, escape_byte, comma_if, compact, quoted_text, items_text, members_text};
ghost use Rattle.fhir_vouching.specs.Progress.{Adds};

use crate::progress::Progress;
use fhir_json::{Json, Member};

fn hex_digit(n: u8) -> u8
    requires { n < 16 }
    ensures { result ≡ hex_digit n }
{
    if n < 10 { n + b'0' } else { n + 87 }
}

impl<'t> Progress<'t> {
    // A byte of a text between quotes.
    fn then_byte(self, byte: u8) -> Progress<'t>
        ensures { Adds self.entry (escape_byte byte) result }
    {
        match byte {
            b'"' => self.then("\\\""),
            b'\\' => self.then("\\\\"),
            8 => self.then("\\b"),
            12 => self.then("\\f"),
            b'\n' => self.then("\\n"),
            b'\r' => self.then("\\r"),
            b'\t' => self.then("\\t"),
            0..=31 => self
                .then("\\u00")
                .then_bytes(&[hex_digit(byte / 16), hex_digit(byte % 16)]),
            _ => self.then_bytes(&[byte]),
        }
    }

    // A text between quotes.
    fn then_text(self, text: &str) -> Progress<'t>
        ensures { Adds self.entry (quoted_text text.now) result }
    {
        let mut progress = self.then("\"");
        for byte in text.as_bytes() {
            progress = progress.then_byte(*byte);
        }
        progress.then("\"")
    }

    fn then_comma(self, begun: bool) -> Progress<'t>
        ensures { Adds self.entry (comma_if begun) result }
    {
        if begun { self.then(",") } else { self }
    }

    /// The compact text of a tree has come too, the one that `fhir_json::write` writes. It recurses as deep as the tree
    /// nests, which is at most `fhir_json::MAX_DEPTH` levels where the tree was read; where the order is decided already, the
    /// tree isn't looked at.
    #[cycle(compact)]
    pub fn then_compact(self, json: &Json<'_>) -> Progress<'t>
        ensures { Adds self.entry (compact (tree_of json.now)) result }
    {
        if let Progress::Decided(order) = self {
            return Progress::Decided(order);
        }
        match json {
            Json::Null => self.then("null"),
            Json::Bool(true) => self.then("true"),
            Json::Bool(false) => self.then("false"),
            Json::Num(number) => self.then(number.as_str()),
            Json::Str(text) => self.then_text(text.as_str()),
            Json::Arr(items) => self.then("[").then_items(items).then("]"),
            Json::Obj(members) => self.then("{").then_members(members).then("}"),
        }
    }

    #[cycle(compact)]
    fn then_items(self, items: &[Json<'_>]) -> Progress<'t>
        ensures { Adds self.entry (items_text false (items_view items.now)) result }
    {
        let mut progress = self;
        let mut begun = false;
        for item in items {
            progress = progress.then_comma(begun).then_compact(item);
            begun = true;
        }
        progress
    }

    #[cycle(compact)]
    fn then_members(self, members: &[Member<'_>]) -> Progress<'t>
        ensures { Adds self.entry (members_text false (members_view members.now)) result }
    {
        let mut progress = self;
        let mut begun = false;
        for member in members {
            progress = progress
                .then_comma(begun)
                .then_text(member.name.as_str())
                .then(":")
                .then_compact(&member.value);
            begun = true;
        }
        progress
    }
}
