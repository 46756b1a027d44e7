//! Laws: what certificates and verdicts say together.

ghost use Rattle.std.specs.Prelude.{IsTrue};
ghost use Rattle.fhir_json.specs.Tree.{Tree};
ghost use Rattle.fhir_schema.specs.Schemas.{SchemaValue};
ghost use Rattle.fhir_certificate.specs.Certificate.{CertificateValue};
ghost use Rattle.fhir_cert_check.specs.Checking.{IsCertificate};
ghost use Rattle.fhir_validator.specs.declared.verdict.Verdict.{Verdict};
ghost use Rattle.fhir_validator.specs.Verdicts.{is_conforming};
ghost use Rattle.fhir_engine.specs.Agreeing.{IsVerdict};

use fhir_cert_check::certificates_include;
use fhir_conformance::fair_meanings;

/// No resource conforms to the derived profile of a right certificate and is open, or violates, against its base: where the
/// verdict against the first is that it conforms, so is the verdict against the second.
pub fn verdicts_agree()
    ensures { (s : SchemaValue) (c : CertificateValue) (t : Tree) (derived base : Verdict) → IsCertificate s c
        → IsVerdict s c.derived t derived → IsVerdict s c.base t base
        → IsTrue (is_conforming derived) → IsTrue (is_conforming base) }
{
    certificates_include();
    fair_meanings();
}
