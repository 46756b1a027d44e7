//! What was found in a package.

ghost use Rattle.std.specs.Prelude.{◌≡◌, [], false};
ghost use Rattle.fhir_package.specs.SurveyView.{fault_seen};
ghost use Rattle.fhir_findings.specs.Finding.{fault_file, file_of, faults_told, all_told, has_faults};

use fhir_elements::Reason;
use fhir_package::FileFault;

/// A definition that can't be used.
#[derive(Clone, Copy, Debug, PartialEq, Eq)]
pub struct Unusable<'r> {
    /// The file that it stands in.
    pub file: &'r str,
    /// Its url.
    pub url: &'r str,
    /// Why it can't be used.
    pub reason: Reason,
}

/// What was found in a package.
#[derive(Clone, Copy)]
pub enum Finding<'s, 'f> {
    /// Something is wrong with a file.
    File(&'s FileFault<'f>),
    /// A definition can't be used.
    Unusable(Unusable<'s>),
}

/// The file that a fault is of.
pub(crate) fn fault_file<'f>(fault: &FileFault<'f>) -> &'f str
    ensures { result.now ≡ fault_file (fault_seen fault.now) }
{
    match fault {
        FileFault::Unreadable(file) => *file,
        FileFault::NotJson(fault) => fault.file,
        FileFault::Clash(clash) => clash.file,
    }
}

impl<'s, 'f: 's> Finding<'s, 'f> {
    /// The file that it is found in.
    pub fn file(&self) -> &'s str
        ensures { result.now ≡ file_of self.now }
    {
        match self {
            Finding::File(fault) => fault_file(fault),
            Finding::Unusable(unusable) => unusable.file,
        }
    }
}

/// Whether something is wrong with a file, or a definition can't be used.
#[tactic(auto, using(crate::proofs::Faulty::any_found, crate::proofs::Faulty::none_told))]
pub fn has_faults(findings: &[Finding<'_, '_>]) -> bool
    ensures exact { result ≡ has_faults findings.now }
    ensures none { result ≡ false → (faults_told findings.now ≡ []) × (all_told findings.now ≡ []) }
{
    !findings.is_empty()
}
