//! How a resource is shown on a page.

ghost use Rattle.std.specs.Prelude.{◌≡◌, [], ◌∷◌, true, codes};
ghost use Rattle.fhir_json.specs.Tree.{boolean, number, string};
ghost use Rattle.fhir_marked_json.specs.Lines.{lines};
ghost use Rattle.tool_laws.specs.Trees.{list, fields};

/// A small value on lines: each item and each member on one of its own, two blanks further in than what it stands in, with a comma between
/// two of them. It is the same JSON, with blanks.
pub fn shown_values()
    ensures { lines [] (fields ((codes "a", list (boolean true ∷ number (codes "-1.50") ∷ [])) ∷ (codes "b", string (codes "\"")) ∷ []))
        ≡ codes "{\n  \"a\": [\n    true,\n    -1.50\n  ],\n  \"b\": \"\\\"\"\n}" }
{}
