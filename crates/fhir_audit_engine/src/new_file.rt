//! A file that is written whole or not at all.

use fhir_json::NoMemory;
use fhir_new_folder::WriteFault;
use std::fs::{OpenFile, OpenOptions};
use std::io::Write;
use std::rt::Files;
use std::{fs, io};

/// A file in the making: its bytes are written to a part beside it, which takes its name at the end, in place of what stands there.
pub trait NewFile {
    /// Writes the part, and syncs it. It is refused where something stands under the part's name.
    fn write(&mut self, bytes: &[u8]) -> Result<(), WriteFault>;

    /// Gives the part, which is written, the file's name.
    fn finish(&mut self) -> Result<(), WriteFault>;

    /// Takes the part away, if this value has made it.
    fn abandon(&mut self);
}

/// A file in the making whose part is the file of its path and `.part`.
#[derive(Drop)]
pub struct PageFile<'r, R: Files + AllocGlobal> {
    rt: &'r R,
    path: String,
    part: String,
    // Whether the part is this value's.
    is_made: bool,
}

impl<'r, R: Files + AllocGlobal> PageFile<'r, R> {
    /// The file at a path. Nothing is asked of the file system yet. The one refusal is want of memory.
    pub fn new(rt: &'r R, path: &str) -> Result<PageFile<'r, R>, NoMemory> {
        Ok(PageFile {
            rt,
            path: String::from_str(rt.alloc(), path)?,
            part: format!(in rt.alloc(); "{path}.part")?,
            is_made: false,
        })
    }
}

// Whether no file may take the place of what a path leads to: of a directory, a device or a pipe. At the empty path there is no place.
fn is_other<R: Files>(rt: &R, path: &str) -> bool {
    match fs::metadata(rt, path) {
        Ok(metadata) => !metadata.is_file(),
        Err(_) => path.is_empty(),
    }
}

fn write_part<R: Files>(rt: &R, part: &str, bytes: &[u8], is_made: &mut bool) -> io::Result<()> {
    let mut file = OpenOptions::new()
        .write(true)
        .create_new(true)
        .open(rt, part)?;
    *is_made = true;
    file.write_all(bytes)?;
    file.sync_all()
}

impl<R: Files + AllocGlobal> NewFile for PageFile<'_, R> {
    fn write(&mut self, bytes: &[u8]) -> Result<(), WriteFault> {
        if is_other(self.rt, self.path.as_str()) {
            return Err(WriteFault::Device);
        }
        let part = self.part.as_str();
        write_part(self.rt, part, bytes, &mut self.is_made)?;
        Ok(())
    }

    fn finish(&mut self) -> Result<(), WriteFault> {
        if !self.is_made {
            return Err(WriteFault::Device);
        }
        fs::rename(self.rt, self.part.as_str(), self.path.as_str())?;
        self.is_made = false;
        Ok(())
    }

    // Where the device fails, the part stays.
    fn abandon(&mut self) {
        if self.is_made {
            self.is_made = false;
            let _ = fs::remove_file(self.rt, self.part.as_str());
        }
    }
}
