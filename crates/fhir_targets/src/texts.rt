//! Sets of texts.

ghost use Rattle.std.specs.Prelude.{◌≡◌, ◌||◌, OnOk};
ghost use Rattle.std.specs.Str.{bytes_eq};
ghost use Rattle.fhir_json.specs.Tree.{Text};
ghost use Rattle.fhir_targets.specs.Texts.{has_text};

use fhir_json::NoMemory;
use std::collections::BTreeSet;

/// Whether a set has a text.
pub(crate) fn has_text(set: &BTreeSet<&str>, text: &str) -> bool
    ensures { result ≡ has_text text.now set.now }
{
    set.contains(text)
}

/// Puts a text in.
pub(crate) fn put_text<'t>(set: &mut BTreeSet<&'t str>, text: &'t str) -> Result<(), NoMemory>
    ensures { OnOk result ((t : Text) → has_text t set.new ≡ (bytes_eq t text.entry.now || has_text t set.old)) }
{
    set.insert(text)?;
    Ok(())
}
