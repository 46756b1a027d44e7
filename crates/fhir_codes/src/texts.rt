//! Texts in memory, each once.

ghost use Rattle.std.specs.Prelude.{◌≡◌, IfSome};
ghost use Rattle.std.specs.Rc.{rc_str_bytes};
ghost use Rattle.fhir_json.specs.Memory.{Gives};

use fhir_json::NoMemory;
use std::alloc::Global;
use std::collections::BTreeSet;
use std::mem::replace;
use std::rc::RcStr;

/// The texts that have been shared: urls of systems, and codes.
pub(crate) struct Texts {
    // In the order of their bytes, so that a look-up takes time logarithmic in their number whatever they are.
    kept: BTreeSet<RcStr>,
    // Those that aren't kept yet: many at once are put into the order faster than one by one.
    recent: Vec<RcStr>,
}

// A derived drop would be proved anew in each crate that owns one.
impl Drop for Texts {
    fn drop(self) {
        let Texts {
            kept: _kept,
            recent: _recent,
        } = self;
    }
}

impl Texts {
    /// No texts, which allocates nothing.
    pub(crate) fn new(alloc: Global) -> Texts {
        Texts {
            kept: BTreeSet::new(alloc),
            recent: Vec::new(alloc),
        }
    }

    fn find(&self, text: &str) -> Option<&RcStr>
        ensures { IfSome result (λ t. rc_str_bytes t.now ≡ text.now) }
    {
        self.kept.get(text)
    }

    fn put(&mut self, alloc: Global, text: &str) -> Result<RcStr, NoMemory>
        ensures { Gives rc_str_bytes result text.now }
    {
        let text = RcStr::from_str(alloc, text)?;
        self.recent.push(text.clone()?)?;
        Ok(text)
    }

    /// The text in memory: the one that is kept, or else a new one. The one refusal is want of memory.
    pub(crate) fn share(&mut self, alloc: Global, text: &str) -> Result<RcStr, NoMemory>
        ensures { Gives rc_str_bytes result text.now }
    {
        match self.find(text) {
            Some(kept) => Ok(kept.clone()?),
            None => self.put(alloc, text),
        }
    }

    /// Keeps all texts so far. The one refusal is want of memory.
    pub(crate) fn settle(&mut self, alloc: Global) -> Result<(), NoMemory> {
        let recent = replace(&mut self.recent, Vec::new(alloc));
        let mut recent = BTreeSet::from_iter(alloc, recent)?;
        self.kept.append(&mut recent)?;
        Ok(())
    }
}
