//! The rules of a certificate's pairs.

ghost use Rattle.std.specs.Prelude.{◌≡◌, Some};
ghost use Rattle.fhir_json.specs.Views.{text_seen};
ghost use Rattle.fhir_cert_check.specs.Rule.{word_of, about, slice_of, rule_text};
ghost use Rattle.fhir_cert_check.specs.Views.{rule_name};

use std::fmt;

/// A rule of a pair, with the key of the constraint, or the name of the slot, that it is about, and perhaps that of a slice.
/// `Display` prints its word, behind a blank the key or the name, and behind a colon that of the slice.
#[derive(Clone, Copy, Debug, PartialEq, Eq, Drop)]
pub enum Rule<'s> {
    /// `root`: the certificate has the pair of the two roots.
    Root,
    /// `type`: both nodes are roots, and the base's type covers the derived one's; or neither is one, and each type that the
    /// derived node allows is within one that the base node allows: covered by it, with targets that it allows, and with profiles,
    /// if it names some, each of which is one of its own or is paired with one (FHIR R4, ElementDefinition, type, type.profile and
    /// type.targetProfile).
    TypeCode,
    /// `fixed`: the derived node fixes the value that the base node fixes (ElementDefinition, fixed[x]).
    Fixed,
    /// `pattern`: the derived node's fixed value fits the base node's pattern, or its pattern does (ElementDefinition,
    /// pattern[x]).
    Pattern,
    /// `range`: the derived node's least and greatest values lie within those of the base node (ElementDefinition,
    /// minValue[x] and maxValue[x]).
    Range,
    /// `length`: the derived node allows no longer a text than the base node (ElementDefinition, maxLength).
    Length,
    /// `binding`: the derived node's required binding is to the base node's value set, or to one within (ElementDefinition,
    /// binding).
    Binding,
    /// `constraint`: the base node's constraint of that key needn't hold, or is entailed by those of the derived node that must,
    /// all together. One whose expression isn't read is among these with the same text; one without an expression, with the same
    /// key and none (ElementDefinition, constraint).
    Constraint(&'s str),
    /// `children`: the base node has no children, or there is a pair for them, with the children of the derived node or with
    /// those of each type that it names: of each profile that the type names, or of its own definition, unless that is one of
    /// resources.
    Children,
    /// `slot`: the derived node has a slot of the base node's name.
    Slot(&'s str),
    /// `cardinality`: the cardinality of the derived node's slot lies within that of the base node's (ElementDefinition, min and
    /// max).
    Cardinality(&'s str),
    /// `entry`: there is a pair for the elements of the slot. Where no item may be at the derived node's slot, neither this nor what
    /// stands below is asked, but for `bounds`.
    Entry(&'s str),
    /// `closed`: where each item of the base node's slot has to be in a slice, so it is at the derived node's, and in a slice
    /// that the base node's lacks no item may be (ElementDefinition, slicing.rules).
    Closed(&'s str),
    /// `ordered`: where the items of the base node's slot stand in the order of its slices, so they do at the derived node's, and the
    /// slices of both in which items may be stand in the base node's order (ElementDefinition, slicing.ordered).
    Ordered(&'s str),
    /// `end`: where those items of the base node's slot that are in no slice stand at its end, so they do at the derived node's, or there
    /// are none; and items in slices that the base node's lacks stand behind those of the slices that it has (ElementDefinition,
    /// slicing.rules).
    End(&'s str),
    /// `slice`: the derived node's slot has a slice of the base node's name, and there is a pair for the two, unless no item may
    /// be in it (FHIR R4, Profiling, slicing).
    Slice { name: &'s str, slice: &'s str },
    /// `criteria`: the two slices are told apart by the same (ElementDefinition, slicing.discriminator).
    Criteria { name: &'s str, slice: &'s str },
    /// `bounds`: the cardinality of the derived node's slice lies within that of the base node's; of a slot where no item may be, that
    /// the base node's slice asks for none (ElementDefinition, min and max).
    Bounds { name: &'s str, slice: &'s str },
}

impl<'s> Rule<'s> {
    // The rule's word, the key or the name that it is about, and the name of the slice.
    fn word_and_names(&self) -> (&'static str, Option<&'s str>, Option<&'s str>)
        ensures word { result.0.now ≡ word_of (rule_name self.now) }
        ensures about { text_seen result.1 ≡ about (rule_name self.now) }
        ensures slice { text_seen result.2 ≡ slice_of (rule_name self.now) }
    {
        match self {
            Rule::Root => ("root", None, None),
            Rule::TypeCode => ("type", None, None),
            Rule::Fixed => ("fixed", None, None),
            Rule::Pattern => ("pattern", None, None),
            Rule::Range => ("range", None, None),
            Rule::Length => ("length", None, None),
            Rule::Binding => ("binding", None, None),
            Rule::Constraint(key) => ("constraint", Some(*key), None),
            Rule::Children => ("children", None, None),
            Rule::Slot(name) => ("slot", Some(*name), None),
            Rule::Cardinality(name) => ("cardinality", Some(*name), None),
            Rule::Entry(name) => ("entry", Some(*name), None),
            Rule::Closed(name) => ("closed", Some(*name), None),
            Rule::Ordered(name) => ("ordered", Some(*name), None),
            Rule::End(name) => ("end", Some(*name), None),
            Rule::Slice { name, slice } => ("slice", Some(*name), Some(*slice)),
            Rule::Criteria { name, slice } => ("criteria", Some(*name), Some(*slice)),
            Rule::Bounds { name, slice } => ("bounds", Some(*name), Some(*slice)),
        }
    }

    /// The rule's word.
    pub fn word(&self) -> &'static str
        ensures { result.now ≡ word_of (rule_name self.now) }
    {
        self.word_and_names().0
    }

    /// The name of the slice that the rule is about.
    pub fn slice(&self) -> Option<&'s str>
        ensures { text_seen result ≡ slice_of (rule_name self.now) }
    {
        self.word_and_names().2
    }
}

impl fmt::Display for Rule<'_> {
    ghost output = { λ rule. Some (rule_text (rule_name rule)) };

    fn fmt<W: fmt::Write>(&self, f: &mut fmt::Formatter<W>) -> fmt::Result {
        match self.word_and_names() {
            (word, Some(name), Some(slice)) => write!(f, "{word} {name}:{slice}"),
            (word, Some(name), None) => write!(f, "{word} {name}"),
            (word, None, _) => write!(f, "{word}"),
        }
    }
}
