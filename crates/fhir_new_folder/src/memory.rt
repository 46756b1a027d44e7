//! A folder over memory in the making.

ghost use Rattle.std.specs.Prelude.{◌≡◌, ◌⊎◌, ◌++◌, [], ◌∷◌, None, Some, Err, is_some, OnOk, OnErr, IfErr};
ghost use Rattle.fhir_package.specs.Memory.{memory_files};
ghost use Rattle.fhir_new_folder.specs.Folders.{Puts};
ghost use Rattle.fhir_new_folder.specs.Memory.{kept, counted, is_due, write_answer, begin_answer, begun, finish_answer, finished, abandon_answer, abandoned};

use crate::new_folder::{BeginFault, NewFolder, WriteFault};
use fhir_package::FolderFile;
use std::alloc::Global;
use std::marker::Model;

/// A folder in the making whose files are in memory. It can be told which call fails, as if a device did.
#[derive(Drop)]
pub struct MemoryNewFolder {
    alloc: Global,
    whole: Option<Vec<FolderFile>>,
    part: Option<Vec<FolderFile>>,
    calls_left: Option<u64>,
}

impl Model for MemoryNewFolder {
    ghost use Rattle.fhir_new_folder.specs.Memory.{MemoryStanding, kept};

    ghost Value = { MemoryStanding };

    ghost view = { λ m. record { whole = kept m.whole; part = kept m.part; calls_left = m.calls_left } };
}

impl MemoryNewFolder {
    /// A folder where nothing stands under the two names, and none of whose calls fails.
    pub fn new(alloc: Global) -> MemoryNewFolder
        ensures { result ≡ record { whole = None; part = None; calls_left = None } }
    {
        MemoryNewFolder {
            alloc,
            whole: None,
            part: None,
            calls_left: None,
        }
    }

    /// Puts files under the folder's name, in place of what stands there.
    pub fn put_whole(&mut self, files: Vec<FolderFile>)
        ensures { self.new ≡ record self.old { whole = Some (memory_files files.items) } }
    {
        self.whole = Some(files);
    }

    /// Puts files under the part's name, in place of what stands there.
    pub fn put_part(&mut self, files: Vec<FolderFile>)
        ensures { self.new ≡ record self.old { part = Some (memory_files files.items) } }
    {
        self.part = Some(files);
    }

    /// Lets one call fail, behind so many others, of which none does.
    pub fn fail_behind(&mut self, calls: u64)
        ensures { self.new ≡ record self.old { calls_left = Some calls } }
    {
        self.calls_left = Some(calls);
    }

    /// Whether a part is there.
    pub fn has_part(&self) -> bool
        ensures { result ≡ is_some self.now.part }
    {
        self.part.is_some()
    }

    /// The files of what stands under the folder's name, if anything does.
    pub fn into_whole(self) -> Option<Vec<FolderFile>>
        ensures { kept result ≡ self.whole }
    {
        self.whole
    }
}

// Counts a call, and says whether it fails.
fn is_due(calls_left: &mut Option<u64>) -> bool
    ensures due { result ≡ is_due calls_left.old }
    ensures counted { calls_left.new ≡ counted calls_left.old }
{
    match *calls_left {
        None => false,
        Some(0) => {
            *calls_left = None;
            true
        }
        Some(calls) => {
            *calls_left = Some(calls - 1);
            false
        }
    }
}

fn put_file(
    alloc: Global,
    files: &mut Vec<FolderFile>,
    name: &str,
    bytes: &[u8],
) -> Result<(), WriteFault>
    ensures put { OnOk result (memory_files files.new.items ≡ memory_files files.old.items ++ (name.now, bytes.now) ∷ []) }
    ensures unchanged { OnErr result (files.new.items ≡ files.old.items) }
    ensures memory { IfErr result (λ fault. fault ≡ WriteFault.NoMemory) }
{
    let name = String::from_str(alloc, name)?;
    let bytes = Some(bytes.to_vec(alloc)?);
    files.push(FolderFile { name, bytes })?;
    Ok(())
}

impl NewFolder for MemoryNewFolder {
    ghost use Rattle.fhir_new_folder.specs.Memory.{memory_whole, memory_part};

    ghost whole = { memory_whole };

    ghost part = { memory_part };

    fn begin(&mut self) -> Result<(), BeginFault>
        ensures answer { result ≡ begin_answer self.old }
        ensures begun { self.new ≡ begun self.old }
    {
        if is_due(&mut self.calls_left) {
            return Err(BeginFault::Device);
        }
        if self.whole.is_some() {
            return Err(BeginFault::Exists);
        }
        if self.has_part() {
            return Err(BeginFault::Left);
        }
        self.part = Some(Vec::new(self.alloc));
        Ok(())
    }

    fn write(&mut self, name: &str, bytes: &[u8]) -> Result<(), WriteFault>
        ensures answer { (result ≡ write_answer self.old) ⊎ (result ≡ Err WriteFault.NoMemory) }
        ensures written { OnOk result (Puts self.old.part self.new.part name.now bytes.now) }
        ensures unwritten { OnErr result (self.new.part ≡ self.old.part) }
        ensures whole { self.new.whole ≡ self.old.whole }
        ensures counted { self.new.calls_left ≡ counted self.old.calls_left }
    {
        if is_due(&mut self.calls_left) {
            return Err(WriteFault::Device);
        }
        match &mut self.part {
            Some(files) => put_file(self.alloc, files, name, bytes),
            None => Err(WriteFault::Device),
        }
    }

    fn finish(&mut self) -> Result<(), WriteFault>
        ensures answer { result ≡ finish_answer self.old }
        ensures finished { self.new ≡ finished self.old }
    {
        if is_due(&mut self.calls_left) {
            return Err(WriteFault::Device);
        }
        if self.whole.is_some() || self.part.is_none() {
            return Err(WriteFault::Device);
        }
        self.whole = self.part.take();
        Ok(())
    }

    fn abandon(&mut self) -> Result<(), WriteFault>
        ensures answer { result ≡ abandon_answer self.old }
        ensures abandoned { self.new ≡ abandoned self.old }
    {
        if is_due(&mut self.calls_left) {
            return Err(WriteFault::Device);
        }
        self.part = None;
        Ok(())
    }
}
