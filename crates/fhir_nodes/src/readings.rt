//! Texts read as expressions, each once.

ghost use Rattle.std.specs.Prelude.{◌≡◌, IfSome};
ghost use Rattle.fhir_json.specs.Memory.{Gives};
ghost use Rattle.fhir_fp_syntax.specs.Reading.{expression_in};
ghost use Rattle.fhir_nodes.specs.Readings.{reading_seen};

use fhir_fp_syntax::{Parsed, parse};
use fhir_json::NoMemory;
use fhir_names::Index;
use std::alloc::Global;
use std::marker::Model;
use std::rc::Rc;

/// What texts have been read as, so that one which stands often is read once.
#[derive(Drop)]
pub(crate) struct Readings {
    places: Index,
    read: Vec<Rc<Parsed>>,
}

impl Model for Readings {
    ghost use Rattle.fhir_names.specs.Places.{Places};
    ghost use Rattle.fhir_nodes.specs.Readings.{AreRight, readings_seen};

    ghost Value = { Places };

    ghost view = { λ r. r.places };

    ghost invariant = { λ r. AreRight r.places (readings_seen r.read.items) };
}

impl Readings {
    /// No texts, which allocates nothing.
    pub(crate) fn new(alloc: Global) -> Readings {
        Readings {
            places: Index::new(alloc),
            read: Vec::new(alloc),
        }
    }

    fn known_reading(&self, text: &str) -> Option<&Rc<Parsed>>
        ensures { IfSome result (λ r. reading_seen r.now ≡ expression_in text.now) }
    {
        let place = self.places.get(text)?;
        self.read.get(place)
    }

    #[tactic(auto, using(crate::proofs::Right::kept, crate::proofs::Right::put))]
    fn add(&mut self, alloc: Global, text: &str, reading: Rc<Parsed>) -> Result<(), NoMemory>
        requires { reading_seen reading ≡ expression_in text.now }
    {
        let place = self.read.len();
        self.read.push(reading)?;
        self.places.put(alloc, text, place)?;
        Ok(())
    }

    /// The expression that a text is.
    pub(crate) fn reading_of(&mut self, alloc: Global, text: &str) -> Result<Rc<Parsed>, NoMemory>
        ensures { Gives reading_seen result (expression_in text.now) }
    {
        if let Some(known) = self.known_reading(text) {
            return Ok(known.clone()?);
        }
        let reading = Rc::new(alloc, parse(alloc, text)?)?;
        self.add(alloc, text, reading.clone()?)?;
        Ok(reading)
    }
}
