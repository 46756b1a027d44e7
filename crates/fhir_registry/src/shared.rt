//! Values that several hold.

ghost use Rattle.std.specs.Prelude.{◌≡◌, IfOk};

use fhir_json::NoMemory;
use std::alloc::Global;
use std::marker::Model;
use std::rc::Rc;

/// A value that several hold. It goes with the last of them.
#[derive(Drop)]
pub(crate) struct Shared<T> {
    held: Rc<T>,
}

impl<T> Model for Shared<T> {
    ghost use Rattle.std.specs.Rc.{rc_value};

    ghost Value = { T };

    ghost view = { λ s. rc_value s.held };
}

impl<T: Drop> Shared<T> {
    pub(crate) fn new(alloc: Global, value: T) -> Result<Shared<T>, NoMemory>
        ensures { IfOk result (λ s. s ≡ value) }
    {
        Ok(Shared {
            held: Rc::new(alloc, value)?,
        })
    }

    pub(crate) fn get(&self) -> &T
        ensures { result.now ≡ self.now }
    {
        self.held.as_ref()
    }

    /// The same, held once more.
    pub(crate) fn share(&self) -> Result<Shared<T>, NoMemory>
        ensures { IfOk result (λ s. s ≡ self.now) }
    {
        Ok(Shared {
            held: self.held.clone()?,
        })
    }
}
