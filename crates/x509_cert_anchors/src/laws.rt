//! A law about trust anchors, for every bound on the arcs of OIDs and every profile. It complements
//! the laws about certificates.
//!
//! The law is the contract of a function that does nothing.

ghost use Rattle.std.specs.Prelude.{ℕ, Option, Bool};
ghost use Rattle.der_core.specs.Shapes.{IsValid};
ghost use Rattle.x509_cert_anchors.specs.Anchors.{PlainAnchor, trust_anchor_choice};
ghost use Rattle.x509_cert_anchors.specs.Anchors.{trust_anchor_by};

/// If a trust anchor has an encoding, it also has one with the dates of its certificates re-encoded
/// (RFC 5280 4.1.2.5).
pub fn respelled_anchors_are_spelled()
    ensures { (bound : ℕ) (limit : Option ℕ) (r : Bool) (a : PlainAnchor)
        → IsValid (trust_anchor_choice bound limit) a
        → IsValid (trust_anchor_choice bound limit) (trust_anchor_by r a) }
{}
