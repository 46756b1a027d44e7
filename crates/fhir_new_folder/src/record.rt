//! What a directory was given, which clauses alone read.

ghost use Rattle.std.specs.Prelude.{◌≡◌, [], ◌∷◌, ◌++◌};
ghost use Rattle.std.specs.Borrow.{ftrue};
ghost use Rattle.fhir_package.specs.Folder.{Files};

use std::marker::{Model, PhantomData};

/// Files in the order in which they were noted. No memory holds them: their names and bytes stand in clauses alone.
#[derive(Drop)]
pub(crate) struct Record {
    marker: PhantomData<u8>,
    pub ghost files: { Files },
}

impl Model for Record {
    ghost also_owns = { λ _. ftrue };
}

impl Record {
    /// No files.
    pub(crate) fn new() -> Record
        ensures { result.files ≡ [] }
    {
        Record {
            marker: PhantomData,
        }
    }

    /// Notes a file behind those that were noted.
    pub(crate) fn note(&mut self, _name: &[u8], _bytes: &[u8])
        ensures { self.new.files ≡ self.old.files ++ (_name.now, _bytes.now) ∷ [] }
    {}
}
