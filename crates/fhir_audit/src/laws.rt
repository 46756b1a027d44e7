//! Laws: what an audit says of a package.

ghost use Rattle.std.specs.Prelude.{◌≡◌, ◌↔◌, ℕ, Bool, true, List, map, Option, None, IsTrue};
ghost use Rattle.fhir_json.specs.Tree.{Text};
ghost use Rattle.fhir_package.specs.Surveying.{Surveyed};
ghost use Rattle.fhir_schema.specs.Schemas.{SchemaValue};
ghost use Rattle.fhir_derive_check.specs.Faults.{derive_refusal};
ghost use Rattle.fhir_derive_check.specs.Reaching.{HasCertificate};
ghost use Rattle.fhir_audit.specs.Asked.{AreAsked, profiles_in};
ghost use Rattle.fhir_audit.specs.Auditing.{AuditedValue, IsAudit, are_narrowing, AllNarrow};
ghost use Rattle.fhir_audit.specs.Verdicts.{VerdictValue, is_narrowing, IsSaid};

/// Where each profile that is told narrows its base, each that is asked about does.
pub fn narrowing_profiles()
    ensures { (prefixes : List Text) (given : Option (List Text)) (s : SchemaValue) (survey : Surveyed) (told : List AuditedValue)
        → IsAudit prefixes given s survey told → IsTrue (are_narrowing told) → AllNarrow prefixes s survey.definitions }
{}

/// Each profile that is asked about is told once, in the order of the package.
pub fn profiles_told_once()
    ensures { (prefixes : List Text) (given : Option (List Text)) (s : SchemaValue) (survey : Surveyed) (told : List AuditedValue)
        → IsAudit prefixes given s survey told
        → (asked : ℕ → Bool) × AreAsked prefixes survey.definitions asked
        × (map (λ a. a.url) told ≡ map (λ e. e.1.0) (profiles_in asked survey.definitions)) }
{}

/// Of a profile and a base that can be used it is said that the profile narrows the base exactly where a certificate exists.
pub fn narrowing_exactly()
    ensures { (given : Option (List Text)) (s : SchemaValue) (url base : Text) (verdict : VerdictValue) → IsSaid given s url base verdict
        → derive_refusal s url base ≡ None → (is_narrowing verdict ≡ true) ↔ HasCertificate s url base }
{}
