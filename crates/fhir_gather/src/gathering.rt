//! What is gathered of folders that were read.

ghost use Rattle.std.specs.Prelude.{◌≡◌, IfOk, OnOk, if◌then◌else◌};
ghost use Rattle.std.specs.Option.{option_map};
ghost use Rattle.fhir_json.specs.Views.{tree_of};
ghost use Rattle.fhir_json.specs.Reading.{reading};
ghost use Rattle.fhir_package.specs.FilesView.{folder_file, folder_files};
ghost use Rattle.fhir_gather.specs.Gathering.{nothing_gathered, gather_one, gather_each, taken_in};
ghost use Rattle.fhir_gather.specs.Reading.{unreadable, not_json, with_bytes, files_with_bytes, folders_with_bytes, gather_tree, gather_files, gather_folders, or_file, gather};
ghost use Rattle.fhir_gather.specs.Views.{taken_seen, all_seen, all_dropped};
ghost use Rattle.fhir_gather.specs.FolderViews.{file_seen, read_folder, read_folders};
ghost use Rattle.fhir_gather.specs.Faults.{IsRefusal, IsGathered};
ghost use Rattle.fhir_gather.specs.Making.{Tells};

use crate::dropped::DroppedOne;
use crate::fault::GatherFault;
use crate::gathered::Gathered;
use crate::kept::{Kept, KeptList};
use crate::read_folder::{FileAt, ReadFolder, bytes_of, first_unread};
use fhir_archives::Note;
use fhir_json::{Json, JsonFault, NoMemory, read};
use fhir_package::{FolderFile, Progress, Stage, definitions_in};
use std::alloc::{AllocError, Global};
use std::marker::Model;

// The fault of a file that the device doesn't give.
fn unreadable(alloc: Global, at: FileAt<'_>) -> Result<GatherFault, AllocError>
    ensures { IfOk result (λ fault. IsRefusal fault (Err (unreadable (file_seen at.entry)))) }
{
    Ok(GatherFault::Unreadable {
        folder: String::from_str(alloc, at.folder)?,
        file: String::from_str(alloc, at.file)?,
    })
}

// The fault of a file that is no JSON text.
fn not_json(alloc: Global, at: FileAt<'_>) -> Result<GatherFault, AllocError>
    ensures { IfOk result (λ fault. IsRefusal fault (Err (not_json (file_seen at.entry)))) }
{
    Ok(GatherFault::NotJson {
        folder: String::from_str(alloc, at.folder)?,
        file: String::from_str(alloc, at.file)?,
    })
}

/// The definitions of folders that were read, of each kind and url the first, and what is told of the others.
#[derive(Drop)]
pub struct Gathering<'f> {
    kept: KeptList<'f>,
    dropped: Vec<DroppedOne>,
}

impl<'f> Model for Gathering<'f> {
    ghost use Rattle.fhir_gather.specs.Gathering.{Gathered};
    ghost use Rattle.fhir_gather.specs.Views.{all_dropped};

    ghost Value = { Gathered };

    ghost use Rattle.fhir_json.specs.Coding.{tree_code};
    ghost use Rattle.std.specs.Coded.{codes};

    ghost coded = { Prim.hlevel (codes, tree_code) };

    ghost view = { λ g. record { kept = g.kept; dropped = all_dropped g.dropped.items } };
}

impl<'f> Gathering<'f> {
    fn new(alloc: Global) -> Gathering<'f>
        ensures { result ≡ nothing_gathered }
    {
        Gathering {
            kept: KeptList::new(alloc),
            dropped: Vec::new(alloc),
        }
    }

    /// The definitions that are kept, in the order of taking.
    pub fn kept(&self) -> &[Kept<'f>]
        ensures { all_seen result.now ≡ self.now.kept }
    {
        self.kept.all()
    }

    /// What is told of those that are not kept, in the order of taking.
    pub fn dropped(&self) -> &[DroppedOne]
        ensures { all_dropped result.now ≡ self.now.dropped }
    {
        &self.dropped
    }

    /// What is told of it, where it is that of so many folders with so many files, of which this is noted.
    pub(crate) fn told(
        self,
        folders: usize,
        files: usize,
        notes: Vec<Note>,
    ) -> Result<Gathered, NoMemory>
        ensures { IfOk result (Tells folders files self.entry) }
    {
        let Gathering { kept, dropped } = self;
        let count = kept.all().len();
        let Some(definitions) = count.checked_add(dropped.len()) else {
            return Err(NoMemory);
        };
        Ok(Gathered {
            folders,
            files,
            definitions,
            kept: count,
            dropped,
            notes,
        })
    }

    // Takes a definition: it is kept unless one of its kind and url is.
    fn take(&mut self, alloc: Global, kept: Kept<'f>) -> Result<(), NoMemory>
        ensures { OnOk result (self.new ≡ gather_one (taken_seen kept.entry) self.old) }
    {
        match self.kept.get(kept.definition.kind(), kept.definition.url()) {
            None => self.kept.push(alloc, kept),
            Some(first) => {
                let dropped = DroppedOne::of(alloc, first, kept)?;
                Ok(self.dropped.push(dropped)?)
            }
        }
    }

    // Takes the definitions in the tree of a file.
    fn take_tree(&mut self, alloc: Global, at: FileAt<'f>, json: Json<'f>) -> Result<(), NoMemory>
        ensures { OnOk result (self.new ≡ gather_each (taken_in at.entry.folder.now at.entry.file.now (tree_of json.entry)) self.old) }
    {
        let FileAt { folder, file } = at;
        for definition in definitions_in(alloc, json)? {
            self.take(
                alloc,
                Kept {
                    folder,
                    file,
                    definition,
                },
            )?;
        }
        Ok(())
    }

    // Takes the definitions of a file, and says whether it is JSON.
    fn take_file(
        &mut self,
        alloc: Global,
        at: FileAt<'f>,
        bytes: &'f [u8],
    ) -> Result<bool, NoMemory>
        ensures { IfOk result (λ is_json. gather_tree at.entry.folder.now at.entry.file.now (reading bytes.now) self.old
            ≡ (if is_json then Ok self.new else Err (file_seen at.entry))) }
    {
        match read(alloc, bytes) {
            Ok(json) => {
                self.take_tree(alloc, at, json)?;
                Ok(true)
            }
            Err(JsonFault::NoMemory) => Err(NoMemory),
            Err(_) => Ok(false),
        }
    }

    // Takes the definitions of files, one after the other, and tells how many are done. A file that is no JSON ends it.
    fn take_files<P: Progress>(
        &mut self,
        alloc: Global,
        folder: &'f str,
        files: &'f [FolderFile],
        progress: &mut P,
    ) -> Result<Option<FileAt<'f>>, NoMemory>
        ensures { IfOk result (λ at. gather_files folder.now (files_with_bytes (folder_files files.now)) self.old
            ≡ or_file (option_map file_seen at) self.new) }
    {
        let mut done = 0_usize;
        for file in files {
            let at = FileAt {
                folder,
                file: file.name.as_str(),
            };
            if !self.take_file(alloc, at, bytes_of(file))? {
                return Ok(Some(at));
            }
            done = done.saturating_add(1);
            progress.tell(Stage::Surveying, done, files.len());
        }
        Ok(None)
    }

    // Takes the definitions of folders, one after the other. A file that is no JSON ends it.
    fn take_folders<P: Progress>(
        &mut self,
        alloc: Global,
        folders: &'f [ReadFolder],
        progress: &mut P,
    ) -> Result<Option<FileAt<'f>>, NoMemory>
        ensures { IfOk result (λ at. gather_folders (folders_with_bytes (read_folders folders.now)) self.old
            ≡ or_file (option_map file_seen at) self.new) }
    {
        for folder in folders {
            let at = self.take_files(alloc, folder.name.as_str(), folder.files.files(), progress)?;
            if at.is_some() {
                return Ok(at);
            }
        }
        Ok(None)
    }

    /// What is gathered of folders, in their order: of each kind and url the first definition, and what is told of the others. How
    /// many files of a folder are done is told to `progress`. A first file without bytes is refused, before any that is no JSON,
    /// and else the first of these.
    pub fn of<P: Progress>(
        alloc: Global,
        folders: &'f [ReadFolder],
        progress: &mut P,
    ) -> Result<Gathering<'f>, GatherFault>
        ensures { IsGathered result (gather (read_folders folders.now)) }
    {
        if let Some(at) = first_unread(folders) {
            return Err(unreadable(alloc, at)?);
        }
        let mut gathering = Gathering::new(alloc);
        match gathering.take_folders(alloc, folders, progress)? {
            None => Ok(gathering),
            Some(at) => Err(not_json(alloc, at)?),
        }
    }
}
