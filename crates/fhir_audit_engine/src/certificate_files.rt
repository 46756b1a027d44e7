//! The certificates of an audit as files of a new folder.

use fhir_answers::fault_text;
use fhir_audit::{Audited, Verdict};
use fhir_audit_lines::file_names;
use fhir_certificate::{Certificate, write};
use fhir_engine::Refusal;
use fhir_json::NoMemory;
use fhir_new_folder::{BeginFault, NewFolder, WriteFault};
use fhir_schema::Schema;
use std::alloc::{AllocError, Global};

/// Why certificates aren't written.
#[derive(Drop)]
pub(crate) enum FilesFault {
    /// Something stands under the folder's name, or its part's.
    Exists,
    /// The same under that of its part.
    Left,
    /// The device failed at the folder.
    Folder,
    /// It failed at a file of that name.
    File(String),
    /// A growth of memory was refused.
    NoMemory,
}

impl From<BeginFault> for FilesFault {
    fn from(fault: BeginFault) -> FilesFault {
        match fault {
            BeginFault::Exists => FilesFault::Exists,
            BeginFault::Left => FilesFault::Left,
            BeginFault::Device => FilesFault::Folder,
        }
    }
}

impl From<NoMemory> for FilesFault {
    fn from(_error: NoMemory) -> FilesFault {
        FilesFault::NoMemory
    }
}

impl From<AllocError> for FilesFault {
    fn from(_error: AllocError) -> FilesFault {
        FilesFault::NoMemory
    }
}

fn certificate_of<'a>(audited: &'a Audited<'_>) -> Option<&'a Certificate> {
    match &audited.verdict {
        Verdict::Narrows(certificate) => Some(certificate),
        Verdict::DoesNotNarrow { .. }
        | Verdict::IsNotShown { .. }
        | Verdict::CannotBeUsed(_)
        | Verdict::HasNoBase => None,
    }
}

// The certificates of an audit, in order, with the urls of their profiles.
fn certificates_in<'a>(
    alloc: Global,
    audited: &'a [Audited<'_>],
) -> Result<(Vec<&'a str>, Vec<&'a Certificate>), AllocError> {
    let mut urls = Vec::new(alloc);
    let mut certificates = Vec::new(alloc);
    for one in audited {
        if let Some(certificate) = certificate_of(one) {
            urls.push(one.url)?;
            certificates.push(certificate)?;
        }
    }
    Ok((urls, certificates))
}

fn write_one<N: NewFolder>(
    alloc: Global,
    schema: &Schema,
    name: &str,
    certificate: &Certificate,
    new: &mut N,
) -> Result<(), FilesFault> {
    let bytes = write(alloc, schema, certificate)?;
    match new.write(name, &bytes) {
        Ok(()) => Ok(()),
        Err(WriteFault::Device) => Err(FilesFault::File(String::from_str(alloc, name)?)),
        Err(WriteFault::NoMemory) => Err(FilesFault::NoMemory),
    }
}

fn write_each<N: NewFolder>(
    alloc: Global,
    schema: &Schema,
    audited: &[Audited<'_>],
    new: &mut N,
) -> Result<(), FilesFault> {
    let (urls, certificates) = certificates_in(alloc, audited)?;
    let names = file_names(alloc, &urls)?;
    for (name, certificate) in names.iter().zip(certificates.iter()) {
        write_one(alloc, schema, name.as_str(), *certificate, new)?;
    }
    Ok(())
}

/// Begins a new folder, and writes the certificates of an audit to it. Where that fails, the folder is abandoned.
pub(crate) fn write_certificates<N: NewFolder>(
    alloc: Global,
    schema: &Schema,
    audited: &[Audited<'_>],
    new: &mut N,
) -> Result<(), FilesFault> {
    new.begin()?;
    match write_each(alloc, schema, audited, new) {
        Ok(()) => Ok(()),
        Err(fault) => {
            let _abandoned = new.abandon();
            Err(fault)
        }
    }
}

/// The name of the part of a new folder.
pub(crate) fn part_of(alloc: Global, name: &str) -> Result<String, AllocError> {
    format!(in alloc; "{}.part", name.trim_end_matches('/'))
}

/// Why certificates aren't written to a folder of that name, of a fault. The one refusal of its own is want of memory.
pub(crate) fn files_refusal(
    alloc: Global,
    name: &str,
    fault: &FilesFault,
) -> Result<Refusal, AllocError> {
    let text = match fault {
        FilesFault::Exists => fault_text(alloc, "exists", name)?,
        FilesFault::Left => fault_text(alloc, "exists", part_of(alloc, name)?.as_str())?,
        FilesFault::Folder => fault_text(alloc, "write", name)?,
        FilesFault::File(file) => {
            let path = format!(in alloc; "{name}/{}", file.as_str())?;
            fault_text(alloc, "write", path.as_str())?
        }
        FilesFault::NoMemory => return Ok(Refusal::NoMemory),
    };
    Ok(Refusal::Fault(text))
}
