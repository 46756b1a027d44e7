//! Laws: what an audit tells.

ghost use Rattle.std.specs.Prelude.{◌≡◌, ◌<◌, ◌^◌, List, length};
ghost use Rattle.std.specs.List.{IsDistinct};
ghost use Rattle.std.specs.Str.{bytes_eq};
ghost use Rattle.fhir_json.specs.Tree.{Text};
ghost use Rattle.fhir_audit_lines.specs.Naming.{file_names};

/// No two names of files are equal.
pub fn names_differ()
    ensures { (urls : List Text) → length urls < 2 ^ 63 → IsDistinct bytes_eq (file_names urls) }
{}
