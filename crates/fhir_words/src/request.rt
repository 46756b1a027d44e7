//! What words ask for.

ghost use Rattle.std.specs.Prelude.{◌≡◌, IfOk};
ghost use Rattle.fhir_words.specs.declared.request.WordsFault.TheVariants as faults;
ghost use Rattle.fhir_words.specs.Requests.{folder_of, one_file, files_of};
ghost use Rattle.fhir_json.specs.Views.{text_seen};
ghost use Rattle.fhir_words.specs.Views.{request_seen, texts_seen};

use std::alloc::{AllocError, Global};

/// How a report is written.
#[derive(Clone, Copy, Debug, PartialEq, Eq)]
pub enum Format {
    /// A line is a text.
    Text,
    /// A line is a JSON object.
    Json,
}

/// How often that is told which is found in several places.
#[derive(Clone, Copy, Debug, PartialEq, Eq)]
pub enum Detail {
    /// Once, with a count.
    Once,
    /// At each place.
    Each,
}

/// How a report is made.
#[derive(Clone, Copy, Debug, PartialEq, Eq)]
pub struct Manner {
    /// How its lines are written.
    pub format: Format,
    /// How often a rule is told that several elements carry.
    pub detail: Detail,
}

/// What is asked.
#[derive(Drop)]
pub enum Request<'w> {
    /// Whether the certificate in a file is right, over the definitions in a folder.
    Certify {
        /// The folder.
        folder: &'w str,
        /// The file.
        file: &'w str,
    },
    /// The certificate in a file, in the newest format, over the definitions in a folder.
    Migrate {
        /// The folder.
        folder: &'w str,
        /// The file.
        file: &'w str,
    },
    /// Whether the resource in a file conforms to the profile at a url, over the definitions in a folder.
    Validate {
        /// The folder.
        folder: &'w str,
        /// The profile's url.
        profile: &'w str,
        /// The file.
        file: &'w str,
    },
    /// The same where the unread rules hold whose texts another file gives.
    ValidateGiven {
        /// The folder.
        folder: &'w str,
        /// The profile's url.
        profile: &'w str,
        /// The file of the resource.
        file: &'w str,
        /// The file of the texts.
        given: &'w str,
    },
    /// The snapshot of the definition at a url, among those in a folder.
    Snapshot {
        /// The folder.
        folder: &'w str,
        /// The url.
        url: &'w str,
    },
    /// The certificate that the profile at a url narrows that at another, over the definitions in a folder.
    Derive {
        /// The folder.
        folder: &'w str,
        /// The url of the derived profile.
        derived: &'w str,
        /// The url of the base.
        base: &'w str,
    },
    /// A resource that conforms to the profile at a url and not to that at another, where the one doesn't narrow the other.
    Counter {
        /// The folder.
        folder: &'w str,
        /// The url of the derived profile.
        derived: &'w str,
        /// The url of the base.
        base: &'w str,
    },
    /// The same where the unread rules hold whose texts a file gives.
    CounterGiven {
        /// The folder.
        folder: &'w str,
        /// The url of the derived profile.
        derived: &'w str,
        /// The url of the base.
        base: &'w str,
        /// The file of the texts.
        given: &'w str,
    },
    /// What is wrong with the files of a folder.
    Check {
        /// The folder.
        folder: &'w str,
        /// The file of a certificate over the folder's definitions, if that is asked about too.
        certificate: Option<&'w str>,
        /// Where there are some, it is asked of the definitions whose urls begin with one of them, and of those that they reach.
        prefixes: Vec<String>,
        /// How the report is made.
        manner: Manner,
    },
    /// The texts of the unread rules of the definitions in a folder.
    Unread {
        /// The folder.
        folder: &'w str,
        /// The url of a profile, if it is asked of that alone, and of what it reaches.
        profile: Option<&'w str>,
    },
}

// A file, if there is one.
fn one_file<'w>(alloc: Global, file: Option<&'w str>) -> Result<Vec<&'w str>, AllocError>
    ensures { IfOk result (λ files. texts_seen files.items ≡ one_file (text_seen file.entry)) }
{
    match file {
        Some(file) => Ok(vec![in alloc; file]?),
        None => Ok(Vec::new(alloc)),
    }
}

impl<'w> Request<'w> {
    /// The folder of the definitions.
    pub fn folder(&self) -> &'w str
        ensures { result.now ≡ folder_of (request_seen self.now) }
    {
        match self {
            Request::Certify { folder, .. }
            | Request::Migrate { folder, .. }
            | Request::Validate { folder, .. }
            | Request::ValidateGiven { folder, .. }
            | Request::Snapshot { folder, .. }
            | Request::Derive { folder, .. }
            | Request::Counter { folder, .. }
            | Request::CounterGiven { folder, .. }
            | Request::Check { folder, .. }
            | Request::Unread { folder, .. } => *folder,
        }
    }

    /// The files that are asked about, in the order of the words. The one refusal is want of memory.
    pub fn files(&self, alloc: Global) -> Result<Vec<&'w str>, AllocError>
        ensures { IfOk result (λ files. texts_seen files.items ≡ files_of (request_seen self.now)) }
    {
        match self {
            Request::Certify { file, .. }
            | Request::Migrate { file, .. }
            | Request::Validate { file, .. } => Ok(vec![in alloc; *file]?),
            Request::ValidateGiven { file, given, .. } => Ok(vec![in alloc; *file, *given]?),
            Request::CounterGiven { given, .. } => Ok(vec![in alloc; *given]?),
            Request::Snapshot { .. }
            | Request::Derive { .. }
            | Request::Counter { .. }
            | Request::Unread { .. } => Ok(Vec::new(alloc)),
            Request::Check { certificate, .. } => one_file(alloc, *certificate),
        }
    }
}

/// What words ask for that is answered once.
#[derive(Drop)]
pub enum Invocation<'w> {
    /// An answer to a request.
    Request(Request<'w>),
    /// The program's version.
    Version,
}

/// That the definitions in folders are gathered into a new one.
#[derive(Drop)]
pub struct GatherRequest<'w> {
    /// The new folder.
    pub out: &'w str,
    /// The folders, in turn.
    pub folders: Vec<&'w str>,
    /// Whether a definition is told that equals one before it.
    pub detail: Detail,
}

/// That all resources of some inputs are validated.
#[derive(Drop)]
pub struct BulkRequest<'w> {
    /// The folder of the definitions.
    pub folder: &'w str,
    /// The url of the profile. Where there is none, each resource is judged by the definition of its type, and by the profiles that it
    /// names itself.
    pub profile: Option<&'w str>,
    /// The inputs, in turn: folders, and files of resources. None in place of one is standard input.
    pub inputs: Vec<Option<&'w str>>,
    /// The file that gives the texts of unread rules which hold, if one does.
    pub given: Option<&'w str>,
    /// How what is told is written.
    pub format: Format,
    /// Whether it isn't told that a resource conforms.
    pub only_bad: bool,
    /// Whether a profile that a resource names, and that isn't there, is passed over.
    pub skip_unknown: bool,
}

/// That each profile of a package is told, and whether it narrows its base.
#[derive(Drop)]
pub struct AuditRequest<'w> {
    /// The folder of the definitions.
    pub folder: &'w str,
    /// Where there are some, those profiles are told whose urls begin with one of them, and the profiles that these rest on.
    pub prefixes: Vec<String>,
    /// The file that gives the texts of unread rules which hold, if one does.
    pub given: Option<&'w str>,
    /// The file to which all is written as a page, if it is.
    pub page: Option<&'w str>,
    /// The new folder to which the certificates are written, if they are.
    pub certificates: Option<&'w str>,
    /// The folder of certificates of which it is told whether they hold still, if there is one.
    pub against: Option<&'w str>,
    /// How what is told is written.
    pub format: Format,
}

/// Whom a change of a profile breaks.
#[derive(Clone, Copy, Debug, PartialEq, Eq)]
pub enum Audience {
    /// Those who read what conforms to it.
    Readers,
    /// Those who write what has to conform to it.
    Writers,
}

/// That the profiles of two packages are compared.
#[derive(Drop)]
pub struct CompareRequest<'w> {
    /// The folder of the old definitions.
    pub old: &'w str,
    /// The folder of the new ones.
    pub new: &'w str,
    /// Who is asked about.
    pub audience: Audience,
    /// How what is told is written.
    pub format: Format,
}

/// What words ask for.
#[derive(Drop)]
pub enum Task<'w> {
    /// An answer.
    Answer(Invocation<'w>),
    /// That the definitions in a folder are served.
    Serve {
        /// The folder.
        folder: &'w str,
        /// The file that gives the texts of unread rules which hold, if one does.
        given: Option<&'w str>,
    },
    /// That the definitions in folders are gathered into a new one.
    Gather(GatherRequest<'w>),
    /// That all resources of some inputs are validated.
    ValidateAll(BulkRequest<'w>),
    /// That each profile of a package is told, and whether it narrows its base.
    Audit(AuditRequest<'w>),
    /// That the profiles of two packages are compared.
    Compare(CompareRequest<'w>),
}

/// Why words ask for nothing.
#[derive(Clone, Copy, Debug, PartialEq, Eq)]
pub enum WordsFault {
    /// They are no request, or ask how to ask.
    Usage,
    /// A growth of memory was refused.
    NoMemory,
}

impl From<AllocError> for WordsFault {
    ghost from_gives = { λ _ e. e ≡ faults.NoMemory };

    fn from(_error: AllocError) -> WordsFault {
        WordsFault::NoMemory
    }
}
