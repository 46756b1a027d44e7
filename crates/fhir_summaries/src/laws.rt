//! The law of lenient nodes.

ghost use Rattle.std.specs.Prelude.{◌≡◌, List, IsTrue, Some};
ghost use Rattle.fhir_definition.specs.Definition.{Definition};
ghost use Rattle.fhir_nodes.specs.declared.node.NodeRef.{NodeRef};
ghost use Rattle.fhir_nodes.specs.Contents.{element_of};
ghost use Rattle.fhir_elements.specs.Element.{Element};
ghost use Rattle.fhir_summaries.specs.Summaries.{asks_nothing, one_type, all_summaries, summary_at};

/// What the summaries say of a node is so: a lenient one asks nothing of an item without children, and the type that is known of one is
/// the one that its element names.
pub fn lenient_nodes()
    ensures lenient { (ds : List Definition) (n : NodeRef) → IsTrue (summary_at (all_summaries ds) n).is_lenient
        → IsTrue (asks_nothing ds n) }
    ensures types { (ds : List Definition) (n : NodeRef) (e : Element) → element_of ds n ≡ Some e
        → (summary_at (all_summaries ds) n).type ≡ one_type ds e.types }
{}
