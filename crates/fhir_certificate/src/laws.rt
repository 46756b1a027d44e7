//! Laws: what the definitions say of one another.

ghost use Rattle.std.specs.Prelude.{◌≡◌, ◌≤◌, ◌+◌, ◌⊎◌, ◌↔◌, codes, length, Some, Ok, IsTrue, IsUtf8};
ghost use Rattle.fhir_json.specs.Compact.{compact};
ghost use Rattle.fhir_json.specs.Tree.{Text, string};
ghost use Rattle.fhir_package.specs.Definitions.{Definitions};
ghost use Rattle.fhir_package.specs.Changing.{AreSound, EachOnce};
ghost use Rattle.fhir_schema.specs.Schemas.{SchemaValue, schema_of};
ghost use Rattle.fhir_certificate.specs.Certificate.{CertificateValue, fits};
ghost use Rattle.fhir_certificate.specs.Format.{Written, Spells, text_of};
ghost use Rattle.fhir_certificate.specs.Judging.{limit, Stands};
ghost use Rattle.fhir_certificate.specs.Reading.{written_of, reading};
ghost use Rattle.fhir_certificate.specs.Versions.{is_version};
ghost use Rattle.fhir_certificate.specs.Migrating.{migrated};
ghost use Rattle.fhir_certificate.specs.Writing.{written_by, AreNamed, IsWritable};

use fhir_json::{reading_agrees, sound_trees};
use fhir_schema::{named_nodes, names_are_utf8, nodes_by_name, versions_are_utf8};

/// Reading from left to right gives what the bytes spell, and nothing where they spell nothing. What they spell is one.
pub fn format_agrees()
    ensures found { (bytes : Text) (w : Written) → IsUtf8 bytes → written_of bytes ≡ Some w → Spells bytes w }
    ensures only { (bytes : Text) (w : Written) → Spells bytes w → written_of bytes ≡ Some w }
    ensures one { (bytes : Text) (v w : Written) → Spells bytes v → Spells bytes w → v ≡ w }
{}

/// What is written for a certificate is read as that certificate: where it fits, its nodes are found by their names, its
/// text is UTF-8 with a field for each url and id, and its pairs are within the limit.
pub fn written_back()
    ensures stands { (s : SchemaValue) (c : CertificateValue) → IsTrue (fits s c) → AreNamed s c → IsWritable (written_by s c)
        → length c.items + length c.kids ≤ limit → Stands s (text_of (written_by s c)) c }
    ensures read { (s : SchemaValue) (c : CertificateValue) → IsTrue (fits s c) → AreNamed s c → IsWritable (written_by s c)
        → length c.items + length c.kids ≤ limit → reading s (text_of (written_by s c)) ≡ Ok c }
{}

/// In the schema of a package of sound definitions, each url of a kind once, what is written for a certificate that fits is
/// read as it, within the limit. A package of files is one, also behind changes by sound definitions.
pub fn written_back_in_packages()
    ensures stands { (p : Definitions) (c : CertificateValue) → AreSound p → EachOnce p → IsTrue (fits (schema_of p) c)
        → length c.items + length c.kids ≤ limit
        → Stands (schema_of p) (text_of (written_by (schema_of p) c)) c }
    ensures read { (p : Definitions) (c : CertificateValue) → AreSound p → EachOnce p → IsTrue (fits (schema_of p) c)
        → length c.items + length c.kids ≤ limit
        → reading (schema_of p) (text_of (written_by (schema_of p) c)) ≡ Ok c }
{
    nodes_by_name();
    names_are_utf8();
    versions_are_utf8();
    sound_trees();
    reading_agrees();
}

/// A version is written as JSON writes a text, or as `-`.
pub fn versions_as_json()
    ensures { (text : Text) → IsTrue (is_version text)
        ↔ ((text ≡ codes "-") ⊎ ((version : Text) × IsUtf8 version × (text ≡ compact (string version)))) }
{
    sound_trees();
    reading_agrees();
}

/// In the schema of a package of sound definitions, each url of a kind once, what is migrated is read as the same certificate.
pub fn migrated_back()
    ensures { (p : Definitions) (bytes text : Text) (c : CertificateValue) → AreSound p → EachOnce p
        → reading (schema_of p) bytes ≡ Ok c → migrated (schema_of p) bytes ≡ Ok text → reading (schema_of p) text ≡ Ok c }
{
    named_nodes();
    written_back_in_packages();
}
