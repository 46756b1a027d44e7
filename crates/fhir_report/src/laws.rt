//! Laws: what a report says of files.

ghost use Rattle.std.specs.Prelude.{◌↔◌, Option};
ghost use Rattle.fhir_package.specs.ReadFiles.{ReadFiles};
ghost use Rattle.fhir_package.specs.Surveying.{Surveyed};
ghost use Rattle.fhir_schema.specs.Schemas.{SchemaValue};
ghost use Rattle.fhir_findings.specs.Selecting.{SelectionValue};
ghost use Rattle.fhir_report.specs.Faultless.{CertificateValue, PromisesIfAny, IsRightBy, AreOf, IsFaultless, IsPromised};

use fhir_findings::selected_usable;
use fhir_package::surveys;
use fhir_snapshot::one_completion;

/// What is right by the survey of files whose package is completed and by the schema of that is right of the files, and promised of
/// them.
pub fn reports()
    ensures faultless { (files : ReadFiles) (survey : Surveyed) (s : SchemaValue) (selection : SelectionValue) (certificate : Option CertificateValue)
        → AreOf files survey s → IsRightBy selection s survey certificate ↔ IsFaultless selection files certificate }
    ensures promised { (files : ReadFiles) (survey : Surveyed) (s : SchemaValue) (selection : SelectionValue) (certificate : Option CertificateValue)
        → AreOf files survey s → IsRightBy selection s survey certificate → PromisesIfAny s certificate → IsPromised files certificate }
{
    surveys();
    selected_usable();
    one_completion();
}
