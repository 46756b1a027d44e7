//! Certificates that were made before, and whether they hold still.

ghost use Rattle.std.specs.Prelude.{◌≡◌, Ok, Err, None, Some, IfOk, IfSome, IsTrue, string_bytes};
ghost use Rattle.std.specs.Option.{option_map_or};
ghost use Rattle.fhir_package.specs.declared.kind.Kind.TheVariants.{StructureDefinition};
ghost use Rattle.fhir_package.specs.Definitions.{at_url};
ghost use Rattle.fhir_certificate.specs.Certificate.{fits};
ghost use Rattle.fhir_certificate.specs.Reading.{reading};
ghost use Rattle.fhir_audit.specs.Standing.{is_gone, is_faulty, standing_seen, profiles_seen, IsChecked, IsUnread, IsHeld};

use crate::heading::derived_in;
use fhir_cert_check::{Answer, Rule, check};
use fhir_certificate::{CertFault, Certificate, Pair, read};
use fhir_json::NoMemory;
use fhir_package::{Kind, Package};
use fhir_schema::Schema;
use std::alloc::Global;

/// How a certificate stands.
#[derive(Drop)]
pub enum Standing<'s> {
    /// It is right: each resource that conforms to its derived profile conforms to its base.
    Holds,
    /// The pair fails the rule.
    Fails(Pair, Rule<'s>),
    /// It can't be read: by its format, its nodes, its size or its versions.
    IsFaulty(CertFault),
    /// It can't be read, and no definition of the url is there, which it says to be that of its derived profile.
    IsGone(String),
}

/// A certificate with how it stands.
#[derive(Drop)]
pub struct Held<'s> {
    /// How it stands.
    pub standing: Standing<'s>,
    /// The urls of its derived profile and of its base, where it can be read.
    pub profiles: Option<(String, String)>,
}

// How a certificate stands that can be read.
fn checked<'s>(
    alloc: Global,
    schema: &'s Schema,
    certificate: &Certificate,
) -> Result<Standing<'s>, NoMemory>
    requires { IsTrue (fits schema.now certificate.now) }
    ensures { IfOk result (λ standing. IsChecked schema.now certificate.now (standing_seen standing)) }
{
    match check(alloc, schema, certificate)? {
        Answer::Yes => Ok(Standing::Holds),
        Answer::No(pair, rule) => Ok(Standing::Fails(pair, rule)),
    }
}

fn held_certificate<'s>(
    alloc: Global,
    schema: &'s Schema,
    certificate: Certificate,
) -> Result<Held<'s>, NoMemory>
    requires { IsTrue (fits schema.now certificate) }
    ensures standing { IfOk result (λ h. IsChecked schema.now certificate (standing_seen h.standing)) }
    ensures profiles { IfOk result (λ h. profiles_seen h ≡ Some (certificate.derived, certificate.base)) }
{
    let standing = checked(alloc, schema, &certificate)?;
    let Certificate { derived, base, .. } = certificate;
    Ok(Held {
        standing,
        profiles: Some((derived, base)),
    })
}

// The url that bytes say to be that of their derived profile, where no definition of it is there.
fn gone_in(alloc: Global, package: &Package<'_>, bytes: &[u8]) -> Result<Option<String>, NoMemory>
    ensures { IfOk result (λ gone. IfSome gone (λ url. at_url StructureDefinition (string_bytes url) «package».now ≡ None)) }
{
    let Some(url) = derived_in(bytes) else {
        return Ok(None);
    };
    match package.at_url(Kind::StructureDefinition, url) {
        Some(_definition) => Ok(None),
        None => Ok(Some(String::from_str(alloc, url)?)),
    }
}

fn unread<'s>(gone: Option<String>, fault: CertFault) -> Held<'s>
    ensures standing { standing_seen result.standing ≡ option_map_or (λ url. is_gone (string_bytes url)) gone (is_faulty fault) }
    ensures profiles { profiles_seen result ≡ None }
{
    let standing = match gone {
        Some(url) => Standing::IsGone(url),
        None => Standing::IsFaulty(fault),
    };
    Held {
        standing,
        profiles: None,
    }
}

/// How the certificate stands that bytes spell. It goes by what they say of themselves. The one refusal is want of memory.
pub fn recheck<'s>(
    alloc: Global,
    package: &Package<'_>,
    schema: &'s Schema,
    bytes: &[u8],
) -> Result<Held<'s>, NoMemory>
    ensures { IfOk result (λ h. IsHeld schema.now «package».now bytes.now h) }
{
    match read(alloc, schema, bytes) {
        Ok(certificate) => held_certificate(alloc, schema, certificate),
        Err(CertFault::NoMemory) => Err(NoMemory),
        Err(CertFault::UnknownNode) => {
            let gone = gone_in(alloc, package, bytes)?;
            Ok(unread(gone, CertFault::UnknownNode))
        }
        Err(fault) => Ok(unread(None, fault)),
    }
}
