//! What is asked of a package.

use fhir_answers::NamedFile;
use fhir_words::Format;

/// A file of a folder of certificates, whose bytes were read.
#[derive(Drop)]
pub struct NamedBytes {
    /// Its name.
    pub name: String,
    /// Its bytes.
    pub bytes: Vec<u8>,
}

/// What is asked of a package.
#[derive(Clone, Copy)]
pub struct Asked<'a> {
    /// Where there are some, it is asked of the profiles whose urls begin with one of them, and of those that these rest on.
    pub prefixes: &'a [String],
    /// The file that gives the texts of unread rules which hold, if one does.
    pub given: Option<NamedFile<'a>>,
    /// The certificates of which it is told whether they hold still, if there are some.
    pub held: Option<&'a [NamedBytes]>,
    /// How it is told.
    pub format: Format,
}
