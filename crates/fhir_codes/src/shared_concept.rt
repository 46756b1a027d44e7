//! Concepts in memory.

ghost use Rattle.std.specs.Prelude.{◌≡◌, IfOk};
ghost use Rattle.std.specs.Rc.{rc_str_bytes};
ghost use Rattle.std.specs.Ordering.{nat_cmp, eq_by_cmp};
ghost use Rattle.std.specs.Cmp.Lexicographic.{slice_cmp};
ghost use Rattle.fhir_json.specs.Memory.{Gives};
ghost use Rattle.fhir_codes.specs.Concepts.{concept, concept_cmp};

use fhir_json::NoMemory;
use std::cmp::Ordering;
use std::marker::Model;
use std::rc::RcStr;

/// A concept. Its texts are shared with other sets that have it.
pub struct SharedConcept {
    code: RcStr,
    system: RcStr,
}

// A derived drop would be proved anew in each crate that owns one.
impl Drop for SharedConcept {
    fn drop(self) {
        let SharedConcept {
            code: _code,
            system: _system,
        } = self;
    }
}

impl Model for SharedConcept {
    ghost use Rattle.std.specs.Rc.{rc_str_bytes};
    ghost use Rattle.fhir_codes.specs.Concepts.{Concept};

    ghost Value = { Concept };

    ghost view = { λ c. record { system = rc_str_bytes c.system; code = rc_str_bytes c.code } };
}

impl SharedConcept {
    /// The concept of a code in a system.
    pub(crate) fn new(system: RcStr, code: RcStr) -> SharedConcept
        ensures { result ≡ concept (rc_str_bytes system) (rc_str_bytes code) }
    {
        SharedConcept { code, system }
    }

    /// The same concept, with the same texts.
    pub(crate) fn share(&self) -> Result<SharedConcept, NoMemory>
        ensures { Gives (λ c. c) result self.now }
    {
        let code = self.code.clone()?;
        let system = self.system.clone()?;
        Ok(SharedConcept { code, system })
    }

    /// How it stands to the concept of a code in a system.
    pub(crate) fn cmp_to(&self, system: &str, code: &str) -> Ordering
        ensures { result ≡ concept_cmp self.now (concept system.now code.now) }
    {
        match self.code.as_str().cmp(code) {
            Ordering::Equal => self.system.as_str().cmp(system),
            other => other,
        }
    }

    /// How its code stands to another.
    pub(crate) fn cmp_code(&self, code: &str) -> Ordering
        ensures { result ≡ slice_cmp nat_cmp self.now.code code.now }
    {
        self.code.as_str().cmp(code)
    }

    /// How it stands to another.
    pub(crate) fn cmp_with(&self, other: &SharedConcept) -> Ordering
        ensures { result ≡ concept_cmp self.now other.now }
    {
        self.cmp_to(other.system.as_str(), other.code.as_str())
    }

    /// Whether the two are one.
    pub(crate) fn is_same(&self, other: &SharedConcept) -> bool
        ensures { result ≡ eq_by_cmp concept_cmp self.now other.now }
    {
        match self.cmp_with(other) {
            Ordering::Equal => true,
            _ => false,
        }
    }

    /// The system.
    pub fn system(&self) -> &str
        ensures { result.now ≡ self.now.system }
    {
        self.system.as_str()
    }

    /// The code.
    pub fn code(&self) -> &str
        ensures { result.now ≡ self.now.code }
    {
        self.code.as_str()
    }
}
