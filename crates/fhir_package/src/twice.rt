//! Definitions that come twice.

ghost use Rattle.std.specs.Prelude.{◌≡◌, IfOk};
ghost use Rattle.fhir_package.specs.Changing.{has_twice};

use crate::definitions::Definition;
use crate::package::Package;
use fhir_json::{Json, NoMemory};
use std::alloc::Global;

/// Whether two of these definitions are of one kind and url. The one refusal is want of memory.
pub fn has_twice(alloc: Global, definitions: &[Definition<'_>]) -> Result<bool, NoMemory>
    ensures { IfOk result (λ twice. twice ≡ has_twice definitions.now) }
{
    let mut seen = Package::new(alloc);
    for definition in definitions {
        if seen.place(definition.kind(), definition.url()).is_some() {
            return Ok(true);
        }
        seen.add(alloc, definition.kind(), definition.url(), Json::Null)?;
    }
    Ok(false)
}
