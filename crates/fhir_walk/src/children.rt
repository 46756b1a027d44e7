//! The children of an item by their names.

ghost use Rattle.std.specs.Prelude.{◌≡◌, length};
ghost use Rattle.fhir_instance.specs.Items.{kids_in};
ghost use Rattle.fhir_instance.specs.View.{named_in};
ghost use Rattle.fhir_conformance.specs.Asks.{places_from};

use fhir_instance::Kid;
use fhir_names::Name;

/// How many children have a name.
pub(crate) fn count_named(kids: &[Kid<'_, '_>], name: &Name) -> usize
    ensures { result ≡ length (places_from 0 name.now (kids_in (named_in kids.now))) }
{
    let mut count = 0;
    for kid in kids {
        if name.is(kid.tagged_name()) {
            count += 1;
        }
    }
    count
}
