//! The definitions of a package that have no snapshot.

ghost use Rattle.std.specs.Prelude.{◌≡◌, IfOk};
ghost use Rattle.std.specs.List.{slice_get};
ghost use Rattle.std.specs.Map.{lookup};
ghost use Rattle.std.specs.Option.{option_copied, option_map};
ghost use Rattle.std.specs.Str.{bytes_eq};
ghost use Rattle.fhir_report.specs.Lacking.{lacking_seen};

use fhir_json::NoMemory;
use fhir_names::Index;
use fhir_snapshot::SnapFault;
use std::alloc::Global;
use std::marker::Model;

/// The definitions of a package that have no snapshot, by their urls, each with the fault.
#[derive(Drop)]
pub struct LackingTable {
    faults: Vec<(String, SnapFault)>,
    places: Index,
}

impl Model for LackingTable {
    ghost use Rattle.std.specs.Map.{keys_of};
    ghost use Rattle.fhir_names.specs.Places.{Finds};
    ghost use Rattle.fhir_report.specs.Lacking.{Lacking, lacking_seen};

    ghost Value = { Lacking };

    ghost view = { λ l. lacking_seen l.faults.items };

    ghost invariant = { λ l. Finds l.places (keys_of (lacking_seen l.faults.items)) };
}

fn fault_at(faults: &[(String, SnapFault)], place: usize) -> Option<&SnapFault>
    ensures { option_copied result ≡ option_map (λ e. e.1) (slice_get (lacking_seen faults.now) place) }
{
    match faults.get(place) {
        Some((_, fault)) => Some(fault),
        None => None,
    }
}

impl LackingTable {
    /// These definitions, as completing a package lists them. The one refusal is want of memory.
    pub fn of(alloc: Global, faults: Vec<(String, SnapFault)>) -> Result<LackingTable, NoMemory>
        ensures { IfOk result (λ l. l ≡ lacking_seen faults.items) }
    {
        let mut places = Index::new(alloc);
        for (place, (url, _)) in faults.iter().enumerate() {
            places.add(alloc, url.as_str(), place)?;
        }
        Ok(LackingTable { faults, places })
    }

    /// The fault for which the definition of a url has no snapshot.
    pub fn get(&self, url: &str) -> Option<&SnapFault>
        ensures { option_copied result ≡ lookup (bytes_eq url.now) self.now }
    {
        match self.places.get(url) {
            Some(place) => fault_at(&self.faults, place),
            None => None,
        }
    }
}
