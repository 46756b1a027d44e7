//! Laws: that a definition has one snapshot or none, and a package one completion.

ghost use Rattle.std.specs.Prelude.{◌≡◌, List};
ghost use Rattle.std.specs.Map.{keys_of};
ghost use Rattle.fhir_json.specs.Tree.{Text};
ghost use Rattle.fhir_elements.specs.Element.{Element};
ghost use Rattle.fhir_package.specs.Definitions.{Definitions};
ghost use Rattle.fhir_snapshot.specs.declared.fault.SnapNumber.{SnapNumber};
ghost use Rattle.fhir_snapshot.specs.Snapshots.{IsSnapshot, HasNone};
ghost use Rattle.fhir_snapshot.specs.Refusing.{Applies};
ghost use Rattle.fhir_snapshot.specs.Completing.{Numbered, IsCompletion};

use fhir_asking::one_answer;
use fhir_inheritance::NodeDef;

/// A definition has no two snapshots. What completes a package is one package, and the definitions that have none are the same.
pub fn one_completion()
    ensures snapshots { (p : Definitions) (url : Text) (one other : List Element) → IsSnapshot p url one → IsSnapshot p url other → one ≡ other }
    ensures packages { (old one other : Definitions) (faults more : Numbered) → IsCompletion old one faults → IsCompletion old other more → one ≡ other }
    ensures listed { (old one other : Definitions) (faults more : Numbered) → IsCompletion old one faults → IsCompletion old other more
        → keys_of faults ≡ keys_of more }
{
    one_answer::<NodeDef>();
}

/// A definition to which the number of a fault applies has no snapshot.
pub fn numbers_apply()
    ensures { (p : Definitions) (url : Text) (number : SnapNumber) → Applies p url number → HasNone p url }
{
    one_answer::<NodeDef>();
}
