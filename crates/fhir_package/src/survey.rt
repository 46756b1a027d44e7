//! What is wrong with the files of a folder.

ghost use Rattle.std.specs.Prelude.{◌≡◌, [], ◌∷◌, ◌++◌, map, find, get_or, OnOk};
ghost use Rattle.std.specs.Option.{option_copied, option_map};
ghost use Rattle.fhir_json.specs.Memory.{Gives};
ghost use Rattle.fhir_json.specs.Reading.{placed_reading};
ghost use Rattle.fhir_package.specs.FilesView.{folder_file, folder_files};
ghost use Rattle.fhir_package.specs.Faults.{fault_number, fault_subject};
ghost use Rattle.fhir_package.specs.Surveying.{no_sources, sources_of, with_sources, nothing_surveyed, source_of, not_json, position_in, with_fault, clash, with_new, put, put_each, survey_tree, survey_file, survey_each, survey, is_unreadable, refusal};
ghost use Rattle.fhir_package.specs.SurveyView.{fault_seen, faults_seen};

use crate::definitions::{Definition, definitions_in};
use crate::folder_files::{FolderFile, FolderFiles};
use crate::kind::Kind;
use crate::package::Package;
use crate::progress::{Progress, Stage};
use fhir_json::{Expected, NoMemory, Position, Refusal, position_of, read_or_place};
use fhir_matching::json_eq_in;
use std::alloc::{AllocError, Global};
use std::marker::Model;
use std::mem;

/// Two different definitions of one kind and url.
#[derive(Drop)]
pub struct Clash<'f> {
    /// The kind.
    pub kind: Kind,
    /// The url.
    pub url: String,
    /// The file of the second.
    pub file: &'f str,
    /// The file of the first, which may be the same.
    pub first: &'f str,
}

/// A file that is no JSON text.
#[derive(Clone, Copy, Debug)]
pub struct NotJson<'f> {
    /// The name of the file.
    pub file: &'f str,
    /// What was expected.
    pub expected: Expected,
    /// Where.
    pub position: Position,
}

/// What is wrong with a file.
#[derive(Drop)]
pub enum FileFault<'f> {
    /// The device doesn't give the file of this name.
    Unreadable(&'f str),
    /// It is no JSON text.
    NotJson(NotJson<'f>),
    /// A definition of it differs from one of the same kind and url that was read before it.
    Clash(Clash<'f>),
}

impl<'f> FileFault<'f> {
    /// The number that stands before its subject where it is printed.
    pub fn number(&self) -> &'static str
        ensures { result.now ≡ fault_number (fault_seen self.now) }
    {
        match self {
            FileFault::Unreadable(_) => "P1",
            FileFault::NotJson(_) => "P2",
            FileFault::Clash(_) => "P3",
        }
    }

    /// The name of the file; of a clash the url.
    pub fn subject(&self) -> &str
        ensures { result.now ≡ fault_subject (fault_seen self.now) }
    {
        match self {
            FileFault::Unreadable(file) => *file,
            FileFault::NotJson(fault) => fault.file,
            FileFault::Clash(clash) => clash.url.as_str(),
        }
    }
}

// The fault of a file whose bytes are refused.
fn not_json<'f>(file: &'f str, bytes: &[u8], refusal: Refusal) -> FileFault<'f>
    ensures { fault_seen result ≡ not_json file.now refusal.expected (position_in bytes.now refusal) }
{
    FileFault::NotJson(NotJson {
        file,
        expected: refusal.expected,
        position: position_of(bytes, bytes.len().saturating_sub(refusal.left)),
    })
}

// The first fault of the device.
fn first_unreadable<'s, 'f>(faults: &'s [FileFault<'f>]) -> Option<&'s FileFault<'f>>
    ensures { option_map fault_seen (option_copied result) ≡ find is_unreadable (faults_seen faults.now) }
{
    for fault in faults {
        if matches!(fault, FileFault::Unreadable(_)) {
            return Some(fault);
        }
    }
    None
}

// Of each kind the file of each definition.
#[derive(Drop)]
struct Sources<'f> {
    structure_definitions: Vec<&'f str>,
    value_sets: Vec<&'f str>,
    code_systems: Vec<&'f str>,
}

impl<'f> Model for Sources<'f> {
    ghost use Rattle.std.specs.Prelude.{map};
    ghost use Rattle.fhir_package.specs.Surveying.{Sources as Shown};

    ghost Value = { Shown };

    ghost view = { λ s. record {
      structure_definitions = map (λ f. f.now) s.structure_definitions.items;
      value_sets = map (λ f. f.now) s.value_sets.items;
      code_systems = map (λ f. f.now) s.code_systems.items;
    } };
}

impl<'f> Sources<'f> {
    fn new(alloc: Global) -> Sources<'f>
        ensures { result ≡ no_sources }
    {
        Sources {
            structure_definitions: Vec::new(alloc),
            value_sets: Vec::new(alloc),
            code_systems: Vec::new(alloc),
        }
    }

    fn of_kind(&self, kind: Kind) -> &[&'f str]
        ensures { map (λ f. f.now) result.now ≡ sources_of kind self.now }
    {
        match kind {
            Kind::StructureDefinition => &self.structure_definitions,
            Kind::ValueSet => &self.value_sets,
            Kind::CodeSystem => &self.code_systems,
        }
    }

    fn at(&self, kind: Kind, place: usize) -> &'f str
        ensures { result.now ≡ get_or (sources_of kind self.now) place [] }
    {
        match self.of_kind(kind).get(place) {
            Some(file) => *file,
            None => "",
        }
    }

    fn push(&mut self, kind: Kind, file: &'f str) -> Result<(), AllocError>
        ensures { OnOk result (self.new ≡ with_sources kind (sources_of kind self.old ++ file.now ∷ []) self.old) }
    {
        match kind {
            Kind::StructureDefinition => self.structure_definitions.push(file)?,
            Kind::ValueSet => self.value_sets.push(file)?,
            Kind::CodeSystem => self.code_systems.push(file)?,
        }
        Ok(())
    }
}

/// What is wrong with the files of a folder, and the package of all that is right.
pub struct Survey<'f> {
    package: Package<'f>,
    sources: Sources<'f>,
    faults: Vec<FileFault<'f>>,
}

// A derived drop would be proved anew in each crate that owns one.
impl Drop for Survey<'_> {
    fn drop(self) {
        let Survey {
            package: _package,
            sources: _sources,
            faults: _faults,
        } = self;
    }
}

impl<'f> Model for Survey<'f> {
    ghost use Rattle.fhir_package.specs.Surveying.{Surveyed};
    ghost use Rattle.fhir_package.specs.SurveyView.{faults_seen};

    ghost Value = { Surveyed };

    ghost use Rattle.fhir_json.specs.Coding.{tree_code};
    ghost use Rattle.std.specs.Coded.{codes};

    ghost coded = { Prim.hlevel (codes, tree_code) };

    ghost view = { λ s. record { definitions = s.package; sources = s.sources; faults = faults_seen s.faults.items } };
}

impl<'f> Survey<'f> {
    // A survey of no files.
    fn new(alloc: Global) -> Survey<'f>
        ensures { result ≡ nothing_surveyed }
    {
        Survey {
            package: Package::new(alloc),
            sources: Sources::new(alloc),
            faults: Vec::new(alloc),
        }
    }

    /// The package of all that is right.
    pub fn package(&self) -> &Package<'f>
        ensures { result.now ≡ self.now.definitions }
    {
        &self.package
    }

    /// Puts another package in place of that one, and gives that one. The faults and the files of the definitions stay.
    pub fn replace_package(&mut self, other: Package<'f>) -> Package<'f>
        ensures put { self.new ≡ record self.old { definitions = other.entry } }
        ensures taken { result ≡ self.old.definitions }
    {
        mem::replace(&mut self.package, other)
    }

    /// The faults, in the order of the files and within one in that of the text.
    pub fn faults(&self) -> &[FileFault<'f>]
        ensures { faults_seen result.now ≡ self.now.faults }
    {
        &self.faults
    }

    /// The file of the definition at a place of the package; an empty text where there is none.
    pub fn source(&self, kind: Kind, place: usize) -> &'f str
        ensures { result.now ≡ get_or (sources_of kind self.now.sources) place [] }
    {
        self.sources.at(kind, place)
    }

    /// The first fault by which the files are no package: of the device, or else the first of all.
    pub fn refusal(&self) -> Option<&FileFault<'f>>
        ensures { option_map fault_seen (option_copied result) ≡ refusal self.now }
    {
        match first_unreadable(&self.faults) {
            Some(fault) => Some(fault),
            None => self.faults.first(),
        }
    }

    // The file of the definition at a url.
    fn source_of(&self, kind: Kind, url: &str) -> &'f str
        ensures { result.now ≡ source_of kind url.now self.now }
    {
        match self.package.place(kind, url) {
            Some(place) => self.sources.at(kind, place),
            None => "",
        }
    }

    fn push_fault(&mut self, fault: FileFault<'f>) -> Result<(), AllocError>
        ensures { OnOk result (self.new ≡ with_fault (fault_seen fault.entry) self.old) }
    {
        self.faults.push(fault)?;
        Ok(())
    }

    // A definition of a file that differs from the one at its url.
    fn push_clash(&mut self, file: &'f str, definition: Definition<'f>) -> Result<(), AllocError>
        ensures { OnOk result (self.new ≡ with_fault
            (clash definition.entry.kind definition.entry.url file.now
            (source_of definition.entry.kind definition.entry.url self.old)) self.old) }
    {
        let Definition { kind, url, .. } = definition;
        let first = self.source_of(kind, url.as_str());
        self.push_fault(FileFault::Clash(Clash {
            kind,
            url,
            file,
            first,
        }))
    }

    fn push_new(
        &mut self,
        alloc: Global,
        file: &'f str,
        definition: Definition<'f>,
    ) -> Result<(), NoMemory>
        ensures { OnOk result (self.new ≡ with_new file.now definition.entry self.old) }
    {
        self.sources.push(definition.kind, file)?;
        self.package.push(alloc, definition)
    }

    // A definition of a file.
    fn put(
        &mut self,
        alloc: Global,
        file: &'f str,
        definition: Definition<'f>,
    ) -> Result<(), NoMemory>
        ensures { OnOk result (self.new ≡ put file.now definition.entry self.old) }
    {
        match self
            .package
            .at_url(definition.kind, definition.url.as_str())
        {
            None => self.push_new(alloc, file, definition),
            Some(there) => {
                if !json_eq_in(alloc, there, &definition.tree)? {
                    self.push_clash(file, definition)?;
                }
                Ok(())
            }
        }
    }

    // The definitions of a file.
    fn put_each(
        &mut self,
        alloc: Global,
        file: &'f str,
        definitions: Vec<Definition<'f>>,
    ) -> Result<(), NoMemory>
        ensures { OnOk result (self.new ≡ put_each file.now definitions.entry.items self.old) }
    {
        for definition in definitions {
            self.put(alloc, file, definition)?;
        }
        Ok(())
    }

    // The definitions of a file with these bytes, or why it has none.
    fn take_bytes(&mut self, alloc: Global, file: &'f str, bytes: &'f [u8]) -> Result<(), NoMemory>
        ensures { OnOk result (self.new ≡ survey_tree file.now bytes.now (placed_reading bytes.now) self.old) }
    {
        match read_or_place(alloc, bytes) {
            Ok(json) => self.put_each(alloc, file, definitions_in(alloc, json)?),
            Err(
                Refusal {
                    expected: Expected::Memory,
                    ..
                },
            ) => Err(NoMemory),
            Err(refusal) => Ok(self.push_fault(not_json(file, bytes, refusal))?),
        }
    }

    fn take_file(&mut self, alloc: Global, file: &'f FolderFile) -> Result<(), NoMemory>
        ensures { OnOk result (self.new ≡ survey_file (folder_file file.now).0 (folder_file file.now).1 self.old) }
    {
        let name = file.name.as_str();
        match &file.bytes {
            Some(bytes) => self.take_bytes(alloc, name, bytes),
            None => Ok(self.push_fault(FileFault::Unreadable(name))?),
        }
    }

    // Takes files, one after the other, and tells how many are done.
    fn take_each<P: Progress>(
        &mut self,
        alloc: Global,
        files: &'f [FolderFile],
        progress: &mut P,
    ) -> Result<(), NoMemory>
        ensures { OnOk result (self.new ≡ survey_each (folder_files files.now) self.old) }
    {
        let mut done = 0_usize;
        for file in files {
            self.take_file(alloc, file)?;
            done = done.saturating_add(1);
            progress.tell(Stage::Surveying, done, files.len());
        }
        Ok(())
    }

    /// What is wrong with files, each of them, and the package of all that is right: the definitions of the files that are
    /// JSON texts, of two different ones of one kind and url the first. `progress` is told behind each file how many are done. The
    /// one refusal is want of memory.
    pub fn of<P: Progress>(
        alloc: Global,
        files: &'f FolderFiles,
        progress: &mut P,
    ) -> Result<Survey<'f>, NoMemory>
        ensures { Gives (λ s. s) result (survey files.now) }
    {
        let mut survey = Survey::new(alloc);
        survey.take_each(alloc, files.files(), progress)?;
        Ok(survey)
    }
}
