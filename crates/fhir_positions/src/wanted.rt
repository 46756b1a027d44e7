//! The places that are wanted.

ghost use Rattle.std.specs.Prelude.{◌≡◌, length, IfOk};

use fhir_json::NoMemory;
use fhir_names::Index;
use std::alloc::{AllocError, Global};
use std::fmt::Write;

/// Which JSON value stands for a stop best: the last of these.
#[derive(Clone, Copy, PartialEq, Eq, PartialOrd, Ord)]
pub(crate) enum Standing {
    /// Null, which stands for nothing.
    Null,
    /// What is beside a primitive's value.
    Companion,
    /// The item's own value.
    Value,
    /// The property that is named as the place is.
    Named,
    /// Such a one that the type doesn't have.
    Unknown,
}

/// The value that stands for a stop: its number, in the order of the text.
#[derive(Clone, Copy)]
struct Found {
    number: usize,
    standing: Standing,
}

/// A stop on the way to a place that is wanted.
#[derive(Clone, Copy)]
pub(crate) struct Stop {
    /// The stop that it is reached from, which has a lower number. The first one has its own.
    pub(crate) above: usize,
    leads_on: bool,
    found: Option<Found>,
}

impl Stop {
    fn new(above: usize) -> Stop {
        Stop {
            above,
            leads_on: false,
            found: None,
        }
    }

    /// The number of the value that stands for it.
    pub(crate) fn value(&self) -> Option<usize> {
        match self.found {
            Some(found) => Some(found.number),
            None => None,
        }
    }
}

/// The places that are wanted, as the stops on the way to them: the outermost resource is stop 0, and from a stop the name of
/// an element leads to another, and so does an index.
#[derive(Drop)]
pub(crate) struct Wanted {
    stops: Vec<Stop>,
    // The number of a stop, under that of the one above and the step from there: `12.name` and `12[0]`.
    steps: Index,
    key: String,
}

// `name` and `[3]` of `name[3]`.
fn cut_at_bracket(segment: &str) -> Option<(&str, &str)> {
    let (name, rest) = segment.split_once('[')?;
    let index = rest.strip_suffix(']')?;
    Some((name, index))
}

impl Wanted {
    /// No place but the outermost resource.
    pub(crate) fn new(alloc: Global) -> Result<Wanted, NoMemory> {
        let mut stops = Vec::new(alloc);
        stops.push(Stop::new(0))?;
        Ok(Wanted {
            stops,
            steps: Index::new(alloc),
            key: String::new(alloc),
        })
    }

    /// The stops, in the order of their numbers.
    pub(crate) fn stops(&self) -> &[Stop] {
        &self.stops
    }

    /// Whether a step leads on from a stop.
    pub(crate) fn leads_on(&self, stop: usize) -> bool {
        match self.stops.get(stop) {
            Some(stop) => stop.leads_on,
            None => false,
        }
    }

    fn write_name(&mut self, stop: usize, name: &str) -> Result<(), AllocError> {
        self.key.clear();
        write!(self.key, "{stop}.{name}")
    }

    fn write_index(&mut self, stop: usize, index: &str) -> Result<(), AllocError> {
        self.key.clear();
        write!(self.key, "{stop}[{index}]")
    }

    /// The stop to which an element's name leads.
    pub(crate) fn named(&mut self, stop: usize, name: &str) -> Result<Option<usize>, NoMemory> {
        self.write_name(stop, name)?;
        Ok(self.steps.get(self.key.as_str()))
    }

    /// The stop to which an index leads.
    pub(crate) fn indexed(&mut self, stop: usize, index: usize) -> Result<Option<usize>, NoMemory> {
        self.key.clear();
        write!(self.key, "{stop}[{index}]")?;
        Ok(self.steps.get(self.key.as_str()))
    }

    fn indexed_as_written(&mut self, stop: usize, index: &str) -> Result<Option<usize>, NoMemory> {
        self.write_index(stop, index)?;
        Ok(self.steps.get(self.key.as_str()))
    }

    fn by_segment(&mut self, stop: usize, segment: &str) -> Result<Option<usize>, NoMemory> {
        match cut_at_bracket(segment) {
            Some((name, index)) => match self.named(stop, name)? {
                Some(stop) => self.indexed_as_written(stop, index),
                None => Ok(None),
            },
            None => self.named(stop, segment),
        }
    }

    /// The stop to which the name of a property leads as it is written. Dots and brackets in it are read as those of a place
    /// are, since a place that ends with the name was cut there.
    pub(crate) fn written(&mut self, stop: usize, name: &str) -> Result<Option<usize>, NoMemory> {
        let mut there = stop;
        'segments: for segment in name.split('.') {
            match self.by_segment(there, segment)? {
                Some(next) => there = next,
                None => return Ok(None),
            }
        }
        Ok(Some(there))
    }

    // The stop to which the step leads whose key is written.
    fn step(&mut self, alloc: Global, stop: usize) -> Result<usize, NoMemory> {
        if let Some(there) = self.steps.get(self.key.as_str()) {
            return Ok(there);
        }
        let there = self.stops.len();
        self.stops.push(Stop::new(stop))?;
        self.steps.put(alloc, self.key.as_str(), there)?;
        if let Some(above) = self.stops.get_mut(stop) {
            above.leads_on = true;
        }
        Ok(there)
    }

    fn step_by_name(&mut self, alloc: Global, stop: usize, name: &str) -> Result<usize, NoMemory> {
        self.write_name(stop, name)?;
        self.step(alloc, stop)
    }

    fn step_by_segment(
        &mut self,
        alloc: Global,
        stop: usize,
        segment: &str,
    ) -> Result<usize, NoMemory> {
        match cut_at_bracket(segment) {
            Some((name, index)) => {
                let stop = self.step_by_name(alloc, stop, name)?;
                self.write_index(stop, index)?;
                self.step(alloc, stop)
            }
            None => self.step_by_name(alloc, stop, segment),
        }
    }

    /// The stop of a place, which is wanted from now on. What is written in front of the first dot is the outermost resource.
    pub(crate) fn add(&mut self, alloc: Global, place: &str) -> Result<usize, NoMemory> {
        let mut stop = 0;
        let Some((_type, steps)) = place.split_once('.') else {
            return Ok(stop);
        };
        'segments: for segment in steps.split('.') {
            stop = self.step_by_segment(alloc, stop, segment)?;
        }
        Ok(stop)
    }

    /// The stops of places, which are wanted from now on.
    pub(crate) fn add_all(&mut self, alloc: Global, places: &[&str]) -> Result<Vec<usize>, NoMemory>
        ensures { IfOk result (λ all. length all.items ≡ length places.now) }
    {
        let mut all = Vec::with_capacity(alloc, places.len())?;
        for place in places {
            all.push(self.add(alloc, place)?)?;
        }
        Ok(all)
    }

    /// Notes that a value stands for a stop, if none that stands for it better was noted, nor one that stands as well.
    pub(crate) fn note(&mut self, stop: usize, number: usize, standing: Standing) {
        let Some(stop) = self.stops.get_mut(stop) else {
            return;
        };
        let is_better = match stop.found {
            Some(found) => found.standing < standing,
            None => true,
        };
        if is_better {
            stop.found = Some(Found { number, standing });
        }
    }
}
