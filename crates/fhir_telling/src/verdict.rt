//! Verdicts on lines.

ghost use Rattle.std.specs.Prelude.{◌≡◌};
ghost use Rattle.fhir_telling.specs.Verdicts.{verdict_of, worse};

use fhir_commands::Standing;

/// What is told of a line.
#[derive(Clone, Copy, Debug, PartialEq, Eq)]
pub enum LineVerdict {
    /// Its resource conforms.
    Conforms,
    /// Its resource violates the profile.
    Violates,
    /// That hangs on rules that aren't read.
    Open,
    /// It is no JSON, or it, or what is behind it, can't be read; or a profile that it claims to conform to isn't there or can't be used.
    Fault,
    /// Memory was refused for it. Nothing is said of its resource.
    NoMemory,
    /// It is blank.
    Empty,
}

impl LineVerdict {
    /// The verdict on a line whose resource stands so.
    pub fn of(standing: Standing) -> LineVerdict
        ensures { result ≡ verdict_of standing }
    {
        match standing {
            Standing::Conforms => LineVerdict::Conforms,
            Standing::Violates => LineVerdict::Violates,
            Standing::Open => LineVerdict::Open,
            Standing::Fault => LineVerdict::Fault,
        }
    }
}

/// The worse of two.
pub(crate) fn worse(one: Standing, other: Standing) -> Standing
    ensures { result ≡ worse one other }
{
    match (one, other) {
        (Standing::Violates, _) | (_, Standing::Violates) => Standing::Violates,
        (Standing::Fault, _) | (_, Standing::Fault) => Standing::Fault,
        (Standing::Open, _) | (_, Standing::Open) => Standing::Open,
        (Standing::Conforms, Standing::Conforms) => Standing::Conforms,
    }
}
