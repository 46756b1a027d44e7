//! Texts, each once.

ghost use Rattle.std.specs.Prelude.{◌≡◌, List, [], ◌∷◌, ◌++◌, map, IfOk, OnOk};
ghost use Rattle.fhir_json.specs.Tree.{Text};
ghost use Rattle.fhir_claims.specs.Once.{each_once, HasOnce};

use fhir_json::NoMemory;
use fhir_names::Index;
use std::alloc::Global;
use std::marker::Model;

// Texts, each once, in the order in which they came first.
#[derive(Drop)]
struct Once<'t> {
    texts: Vec<&'t str>,
    places: Index,
}

impl<'t> Model for Once<'t> {
    ghost use Rattle.std.specs.Prelude.{map};
    ghost use Rattle.fhir_claims.specs.Once.{OnceValue};

    ghost Value = { OnceValue };

    ghost view = { λ o. record { texts = map (λ t. t.now) o.texts.items; places = o.places } };
}

impl<'t> Once<'t> {
    fn new(alloc: Global) -> Once<'t>
        ensures { HasOnce result [] }
    {
        Once {
            texts: Vec::new(alloc),
            places: Index::new(alloc),
        }
    }

    // Adds a text, unless it is there.
    fn add(&mut self, alloc: Global, text: &'t str) -> Result<(), NoMemory>
        ensures { OnOk result ((texts : List Text) → HasOnce self.old texts → HasOnce self.new (texts ++ text.now ∷ [])) }
    {
        if self.places.get(text).is_some() {
            return Ok(());
        }
        self.places.put(alloc, text, self.texts.len())?;
        Ok(self.texts.push(text)?)
    }
}

/// Texts, each once: where it stands first. It takes time near linear in the texts. The one refusal is want of memory.
pub(crate) fn each_once<'t>(alloc: Global, texts: &[&'t str]) -> Result<Vec<&'t str>, NoMemory>
    ensures { IfOk result (λ once. map (λ t. t.now) once.items ≡ each_once (map (λ t. t.now) texts.now)) }
{
    let mut once = Once::new(alloc);
    for text in texts {
        once.add(alloc, *text)?;
    }
    Ok(once.texts)
}
