//! A set of texts.

ghost use Rattle.std.specs.Prelude.{◌≡◌, [], map, string_bytes};
ghost use Rattle.std.specs.List.{list_any};
ghost use Rattle.std.specs.List.Sorted.{IsStrictlySortedBy};
ghost use Rattle.std.specs.Ordering.{nat_cmp};
ghost use Rattle.std.specs.Cmp.Lexicographic.{slice_cmp};
ghost use Rattle.std.specs.Str.{bytes_eq};
ghost use Rattle.fhir_json.specs.Tree.{Text};

use crate::spelled::Spelled;
use std::marker::Model;

/// A set of texts. They are kept in the order of their bytes, each once.
#[derive(Drop)]
pub struct Vouching {
    // None, where it has none.
    texts: Option<Vec<String>>,
}

impl Model for Vouching {
    ghost use Rattle.std.specs.Prelude.{List, [], map, string_bytes};
    ghost use Rattle.std.specs.Option.{option_map_or};
    ghost use Rattle.fhir_json.specs.Tree.{Text};
    ghost use Rattle.std.specs.List.Sorted.{IsStrictlySortedBy};
    ghost use Rattle.std.specs.Ordering.{nat_cmp};
    ghost use Rattle.std.specs.Cmp.Lexicographic.{slice_cmp};

    ghost Value = { List Text };

    ghost view = { λ v. option_map_or (λ texts. map string_bytes texts.items) v.texts [] };

    ghost invariant = { λ v. IsStrictlySortedBy (slice_cmp nat_cmp) (option_map_or (λ texts. map string_bytes texts.items) v.texts []) };
}

// Whether the text that a thing spells is one of these, which are in the order of their bytes.
fn is_among<T: Spelled>(texts: &[String], thing: &T) -> bool
    requires { IsStrictlySortedBy (slice_cmp nat_cmp) (map string_bytes texts.now) }
    ensures { result ≡ list_any (bytes_eq (T.spelled thing.now)) (map string_bytes texts.now) }
{
    texts
        .binary_search_by(|text| thing.cmp_text(text.as_str()).reverse())
        .is_ok()
}

impl Vouching {
    /// The set without texts.
    pub fn none() -> Vouching
        ensures { result ≡ [] }
    {
        Vouching { texts: None }
    }

    /// The set of these texts, which come in any order and may be there twice. It takes no more memory.
    pub fn of(mut texts: Vec<String>) -> Vouching
        ensures { (t : Text) → list_any (bytes_eq t) result ≡ list_any (bytes_eq t) (map string_bytes texts.items) }
    {
        texts.sort_unstable();
        texts.dedup();
        Vouching { texts: Some(texts) }
    }

    /// Whether the text that a thing spells is in the set. It is a binary search, and takes no memory.
    pub fn contains<T: Spelled>(&self, thing: &T) -> bool
        ensures { result ≡ list_any (bytes_eq (T.spelled thing.now)) self.now }
    {
        match &self.texts {
            Some(texts) => is_among(texts, thing),
            None => false,
        }
    }
}
