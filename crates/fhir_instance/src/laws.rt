//! Laws: what the definitions say of one another.

ghost use Rattle.std.specs.Prelude.{◌≡◌, List, Some};
ghost use Rattle.fhir_json.specs.Tree.{Tree};
ghost use Rattle.fhir_schema.specs.Schemas.{SchemaValue};
ghost use Rattle.fhir_instance.specs.Items.{Item, Named};
ghost use Rattle.fhir_instance.specs.Typing.{Types, Frame, Field, object_kids};
ghost use Rattle.fhir_instance.specs.Accounting.{Accounts};

/// A tree has at most one item.
pub fn one_item()
    ensures { (s : SchemaValue) (t : Tree) (x y : Item) → Types s t x → Types s t y → x ≡ y }
{}

/// What it is that an object has these children: each of its properties is an element's or names its type, and under each
/// name stand the items that are typed from that element's properties.
pub fn accounts_for_each_property()
    ensures { (s : SchemaValue) (frame : Frame) (fields : List Field) (kids : List Named)
        → object_kids s frame fields ≡ Some kids → Accounts s frame fields kids }
{}
