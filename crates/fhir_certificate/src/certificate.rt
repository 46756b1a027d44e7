//! Certificates.

ghost use Rattle.std.specs.Prelude.{◌≡◌};
ghost use Rattle.std.specs.List.{list_all};
ghost use Rattle.fhir_certificate.specs.Certificate.{are_nodes, fits};

use crate::pair::NodePair;
use fhir_schema::Schema;
use std::marker::Model;

/// A certificate that each resource which conforms to a derived profile conforms to a base: pairs of nodes, of which
/// each is to be right by the others. Nothing is promised of one that wasn't checked.
#[derive(Drop)]
pub struct Certificate {
    /// The url of the derived profile.
    pub derived: String,
    /// The url of the base.
    pub base: String,
    /// The pairs that speak of items.
    pub items: Vec<NodePair>,
    /// The pairs that speak of the children of items.
    pub kids: Vec<NodePair>,
}

impl Model for Certificate {
    ghost use Rattle.std.specs.Prelude.{string_bytes};
    ghost use Rattle.fhir_certificate.specs.Certificate.{CertificateValue};

    ghost Value = { CertificateValue };

    ghost view = { λ c. record { derived = string_bytes c.derived; base = string_bytes c.base; items = c.items.items; kids = c.kids.items } };
}

fn is_pair(schema: &Schema, pair: NodePair) -> bool
    ensures { result ≡ are_nodes schema.now pair }
{
    schema.has(pair.derived) && schema.has(pair.base)
}

fn are_pairs(schema: &Schema, pairs: &[NodePair]) -> bool
    ensures { result ≡ list_all (are_nodes schema.now) pairs.now }
{
    pairs.iter().all(|pair| is_pair(schema, *pair))
}

/// Whether a certificate's two definitions can be used and all its nodes are the schema's.
pub fn fits(schema: &Schema, certificate: &Certificate) -> bool
    ensures { result ≡ fits schema.now certificate.now }
{
    schema.root(&certificate.derived).is_some()
        && schema.root(&certificate.base).is_some()
        && are_pairs(schema, &certificate.items)
        && are_pairs(schema, &certificate.kids)
}
