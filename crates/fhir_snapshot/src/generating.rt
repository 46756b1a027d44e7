//! The snapshot of one definition.

ghost use Rattle.std.specs.Prelude.{◌≡◌, IfOk, IfErr, false};
ghost use Rattle.fhir_snapshot.specs.Faults.{number_of};
ghost use Rattle.fhir_snapshot.specs.Refusing.{Applies};
ghost use Rattle.fhir_snapshot.specs.Snapshots.{IsSnapshot, HasNone, is_no_memory};

use crate::fault::SnapFault;
use crate::knowing::find;
use crate::laws::numbers_apply;
use crate::outcome::Outcome;
use fhir_asking::{Table, tables_hold};
use fhir_elements::ElementDef;
use fhir_inheritance::{Named, NodeDef, Sources};
use fhir_package::Package;
use std::alloc::Global;

/// The snapshot of the definition of a url (FHIR R4, Profiling, snapshots): the one that it brings, or what its differential
/// makes of its base's. A fault says why there is none, by a number that applies, or that memory ran out: that of the lowest base
/// comes first.
pub fn generate(
    alloc: Global,
    package: &Package<'_>,
    url: &str,
) -> Result<Vec<ElementDef>, SnapFault>
    ensures made { IfOk result (λ v. IsSnapshot «package».now url.now v.items) }
    ensures none { IfErr result (λ f. is_no_memory f ≡ false → HasNone «package».now url.now) }
    ensures number { IfErr result (λ f. is_no_memory f ≡ false → Applies «package».now url.now (number_of f)) }
{
    numbers_apply();
    tables_hold::<NodeDef>();
    tables_hold::<bool>();
    let sources = Sources::of(alloc, package)?;
    let mut nodes = Table::new(alloc);
    let mut ends = Table::new(alloc);
    let mut known = Named::new(alloc);
    find(alloc, &sources, &mut nodes, &mut ends, &mut known, url)?;
    match known.take(url) {
        Some(Outcome::Made(elements)) => Ok(elements),
        Some(Outcome::Faulty(fault)) => Err(fault),
        None => unreachable!(),
    }
}
