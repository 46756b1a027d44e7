//! The counts as a text.

ghost use Rattle.std.specs.Prelude.{◌≡◌, IfOk, string_bytes};
ghost use Rattle.fhir_audit_lines.specs.Counting.{counts_text};

use fhir_audit_words::Counts;
use fhir_lines::push_counted;
use std::alloc::{AllocError, Global};

/// The counts as a text.
pub(crate) fn counts_text(alloc: Global, counts: Counts) -> Result<String, AllocError>
    ensures { IfOk result (λ text. string_bytes text ≡ counts_text counts) }
{
    let mut text = String::new(alloc);
    push_counted(alloc, "profiles: ", counts.profiles, &mut text)?;
    push_counted(alloc, ", narrow: ", counts.narrow, &mut text)?;
    push_counted(alloc, ", do not: ", counts.do_not, &mut text)?;
    push_counted(alloc, ", not shown: ", counts.not_shown, &mut text)?;
    push_counted(alloc, ", can't be used: ", counts.unusable, &mut text)?;
    push_counted(alloc, ", without a base: ", counts.without_base, &mut text)?;
    Ok(text)
}
