//! The files of a run, as they are opened.

ghost use Rattle.std.specs.Prelude.{◌≡◌, length, map, IfOk};

use crate::plan::{InputFile, Origin};
use crate::source::Source;
use fhir_inputs::{Inputs, Kind, OpenFault};
use std::alloc::Global;
use std::fs;
use std::fs::Metadata;
use std::io::{BufReader, Read};
use std::os::unix::fs::MetadataExt;
use std::rt::Files;

// How many bytes of a file are read at once, at most.
const FILE_BUFFER: usize = 65536;

/// The files of a run.
#[derive(Drop)]
pub struct FileInputs<'r, R, S> {
    rt: &'r R,
    files: &'r [InputFile],
    standard: S,
}

impl<'r, R, S> FileInputs<'r, R, S> {
    /// Those of a plan; standard input is read by `standard`.
    pub fn new(rt: &'r R, files: &'r [InputFile], standard: S) -> FileInputs<'r, R, S> {
        FileInputs {
            rt,
            files,
            standard,
        }
    }
}

// Whether a file is the one that standard output is written to, as far as the system tells.
fn is_output<R: Files>(rt: &R, file: &Metadata) -> bool {
    match fs::metadata(rt, "/dev/stdout") {
        Ok(output) => file.is_file() && file.dev() == output.dev() && file.ino() == output.ino(),
        Err(_) => false,
    }
}

// Opens a file, unless it is the output: then its rows would be read in their turn, without end.
fn open_file<R: Files>(rt: &R, path: &str) -> Result<R::File, OpenFault> {
    match fs::metadata(rt, path) {
        Ok(file) if !is_output(rt, &file) => {}
        _ => return Err(OpenFault::Device),
    }
    match fs::open(rt, path) {
        Ok(file) => Ok(file),
        Err(_) => Err(OpenFault::Device),
    }
}

// Standard input, unless it is a file that is the output.
fn open_standard<R: Files, S: Copy>(rt: &R, standard: S) -> Result<S, OpenFault> {
    match fs::metadata(rt, "/dev/stdin") {
        Ok(file) if is_output(rt, &file) => Err(OpenFault::Device),
        _ => Ok(standard),
    }
}

fn opened<R: Files, S: Copy>(
    rt: &R,
    file: &InputFile,
    standard: S,
) -> Result<Source<R::File, S>, OpenFault> {
    match file.origin {
        Origin::Path => Ok(Source::File(open_file(rt, file.name.as_str())?)),
        Origin::Standard => Ok(Source::Standard(open_standard(rt, standard)?)),
        Origin::Unnamed => Err(OpenFault::Device),
    }
}

impl<R: Files, S: Read + Copy> Inputs for FileInputs<'_, R, S> {
    ghost use Rattle.std.specs.Prelude.{map};
    ghost use Rattle.fhir_bulk_engine.specs.Bulk.{input_of};

    type Reader = BufReader<Source<R::File, S>>;

    ghost inputs = { λ f. map input_of f.files.now };

    fn count(&self) -> usize {
        self.files.len()
    }

    fn kind(&self, place: usize) -> Kind {
        match self.files.get(place) {
            Some(file) => file.kind,
            None => Kind::Lines,
        }
    }

    fn open(&self, alloc: Global, place: usize) -> Result<Self::Reader, OpenFault> {
        let Some(file) = self.files.get(place) else {
            return Err(OpenFault::Device);
        };
        let source = opened(self.rt, file, self.standard)?;
        match BufReader::with_capacity(alloc, FILE_BUFFER, source) {
            Ok(reader) => Ok(reader),
            Err(_) => Err(OpenFault::NoMemory),
        }
    }
}
