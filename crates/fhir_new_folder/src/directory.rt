//! A folder of a file system in the making.

ghost use Rattle.std.specs.Prelude.{◌≡◌, None, IfOk};
ghost use Rattle.fhir_new_folder.specs.Folders.{whole_of, part_of};

use crate::new_folder::{BeginFault, NewFolder, WriteFault};
use crate::record::Record;
use fhir_json::NoMemory;
use std::fs::{OpenFile, OpenOptions};
use std::io::{ErrorKind, Write};
use std::marker::Model;
use std::rt::Files;
use std::{fs, io};

// How far the making has come.
#[derive(Clone, Copy)]
enum Stage {
    // It isn't begun.
    Unbegun,
    // The part is there, with the files that were written.
    Begun,
    // The part is there, in any state: a call on it failed.
    Spoiled,
    // The part has the folder's name.
    Finished,
}

/// A directory in the making, whose part is the directory of its path and `.part`. A value makes it once. Behind a call on the part
/// that failed, the part can only be abandoned; one that is neither finished nor abandoned stays when the value is dropped.
///
/// What its contracts say stands under the two names is a record of what this value itself did, which no memory holds: that each call
/// on the file system does what is noted of it no proof shows, nor what others do there meanwhile.
#[derive(Drop)]
pub struct NewDirectory<'r, R: Files + AllocGlobal> {
    rt: &'r R,
    path: String,
    part: String,
    stage: Stage,
    written: Record,
}

impl<'r, R: Files + AllocGlobal> Model for NewDirectory<'r, R> {
    ghost use Rattle.fhir_new_folder.specs.Folders.{Standing};

    ghost Value = { Standing };

    ghost use Rattle.fhir_new_folder.specs.Directories.{standing};

    ghost view = { λ d. standing d.stage d.written.files };
}

impl<'r, R: Files + AllocGlobal> NewDirectory<'r, R> {
    /// The directory at a path, whose slashes at the end count for nothing. Nothing is asked of the file system yet. The one refusal
    /// is want of memory.
    pub fn new(rt: &'r R, path: &str) -> Result<NewDirectory<'r, R>, NoMemory>
        ensures no_whole { IfOk result (λ d. whole_of d ≡ None) }
        ensures no_part { IfOk result (λ d. part_of d ≡ None) }
    {
        let path = path.trim_end_matches('/');
        Ok(NewDirectory {
            rt,
            path: String::from_str(rt.alloc(), path)?,
            part: format!(in rt.alloc(); "{path}.part")?,
            stage: Stage::Unbegun,
            written: Record::new(),
        })
    }
}

// The directory that holds what a path names.
fn parent_of(path: &str) -> &str {
    match path.rsplit_once('/') {
        Some(("", _)) => "/",
        Some((parent, _)) => parent,
        None => ".",
    }
}

// Whether nothing stands at a path, be it a link that leads nowhere. At the empty path the root stands, whose slash was trimmed.
fn is_free<R: Files>(rt: &R, path: &str) -> io::Result<bool> {
    if path.is_empty() {
        return Ok(false);
    }
    match fs::symlink_metadata(rt, path) {
        Ok(_) => Ok(false),
        Err(error) if error.kind() == ErrorKind::NotFound => Ok(true),
        Err(error) => Err(error),
    }
}

fn make_part<R: Files>(rt: &R, path: &str, part: &str) -> Result<(), BeginFault> {
    match is_free(rt, path) {
        Ok(true) => {}
        Ok(false) => return Err(BeginFault::Exists),
        Err(_) => return Err(BeginFault::Device),
    }
    match fs::create_dir(rt, part) {
        Ok(()) => Ok(()),
        Err(error) if error.kind() == ErrorKind::AlreadyExists => Err(BeginFault::Left),
        Err(_) => Err(BeginFault::Device),
    }
}

fn write_file<R: Files>(rt: &R, path: &str, bytes: &[u8]) -> io::Result<()> {
    let mut file = OpenOptions::new()
        .write(true)
        .create_new(true)
        .open(rt, path)?;
    file.write_all(bytes)?;
    file.sync_all()
}

fn sync_directory<R: Files>(rt: &R, path: &str) -> io::Result<()> {
    fs::open(rt, path)?.sync_all()
}

// Behind the renaming the directory stands, and a parent that isn't synced undoes nothing: so it isn't told.
fn give_name<R: Files>(rt: &R, path: &str, part: &str) -> Result<(), WriteFault> {
    if !is_free(rt, path)? {
        return Err(WriteFault::Device);
    }
    sync_directory(rt, part)?;
    fs::rename(rt, part, path)?;
    let _ = sync_directory(rt, parent_of(path));
    Ok(())
}

impl<R: Files + AllocGlobal> NewDirectory<'_, R> {
    // A name with a slash would lead out of the part.
    fn write_named(&self, name: &str, bytes: &[u8]) -> Result<(), WriteFault> {
        if name.as_bytes().contains(&b'/') {
            return Err(WriteFault::Device);
        }
        let path = format!(in self.rt.alloc(); "{}/{name}", self.part.as_str())?;
        write_file(self.rt, path.as_str(), bytes)?;
        Ok(())
    }
}

impl<R: Files + AllocGlobal> NewFolder for NewDirectory<'_, R> {
    ghost use Rattle.fhir_new_folder.specs.Folders.{whole_of, part_of};

    ghost whole = { whole_of };

    ghost part = { part_of };

    fn begin(&mut self) -> Result<(), BeginFault> {
        match self.stage {
            Stage::Unbegun => {}
            Stage::Begun | Stage::Spoiled => return Err(BeginFault::Left),
            Stage::Finished => return Err(BeginFault::Exists),
        }
        make_part(self.rt, self.path.as_str(), self.part.as_str())?;
        self.stage = Stage::Begun;
        self.written = Record::new();
        Ok(())
    }

    fn write(&mut self, name: &str, bytes: &[u8]) -> Result<(), WriteFault> {
        let Stage::Begun = self.stage else {
            return Err(WriteFault::Device);
        };
        self.stage = Stage::Spoiled;
        self.write_named(name, bytes)?;
        self.stage = Stage::Begun;
        self.written.note(name.as_bytes(), bytes);
        Ok(())
    }

    fn finish(&mut self) -> Result<(), WriteFault> {
        let Stage::Begun = self.stage else {
            return Err(WriteFault::Device);
        };
        self.stage = Stage::Spoiled;
        give_name(self.rt, self.path.as_str(), self.part.as_str())?;
        self.stage = Stage::Finished;
        Ok(())
    }

    fn abandon(&mut self) -> Result<(), WriteFault> {
        if let Stage::Begun | Stage::Spoiled = self.stage {
            self.stage = Stage::Spoiled;
            fs::remove_dir_all(self.rt, self.part.as_str())?;
            self.stage = Stage::Unbegun;
        }
        Ok(())
    }
}
