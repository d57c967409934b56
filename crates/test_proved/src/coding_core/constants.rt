//! OIDs that a program has as texts. The check computes that each text is accepted.
#![tactic(auto, unfolding(const_oid::specs::Bound::Bound, const_oid::specs::TextReading::text_arcs, const_oid::specs::ArcLists::add_arc, const_oid::specs::ArcLists::whole_arcs, const_oid::specs::IdentifierOctets::identifier_octets, const_oid::specs::IdentifierOctets::arc_octets, const_oid::specs::Digits::digits, const_oid::specs::Digits::digits_within, const_oid::specs::Digits::marked))]

ghost use Rattle.std.specs.Prelude.{◌∷◌, []};

use const_oid::{AssociatedOid, Buffer, DynAssociatedOid, ObjectIdentifier};

type Identifier = ObjectIdentifier<39>;

/// Returns the key purpose of a server's key (RFC 5280 4.2.1.12).
fn server_auth() -> Identifier {
    ObjectIdentifier::new_unwrap("1.3.6.1.5.5.7.3.1")
}

/// Returns the OID of RSA signatures with SHA-256 (RFC 4055 5).
fn sha256_with_rsa() -> Identifier {
    ObjectIdentifier::new_unwrap("1.2.840.113549.1.1.11")
}

/// The OID of a common name, 2.5.4.3 (X.520 6.2.2).
struct CommonName;

impl AssociatedOid for CommonName {
    ghost oid_arcs = { 2 ∷ 5 ∷ 4 ∷ 3 ∷ [] };

    fn associated_oid() -> Identifier {
        ObjectIdentifier::new_unwrap("2.5.4.3")
    }
}

#[test]
fn texts_of_a_program(rt: HostRuntime) {
    assert!(rt; server_auth().as_bytes() == [0x2b, 6, 1, 5, 5, 7, 3, 1].as_slice());
    let rsa = sha256_with_rsa();
    assert!(rt; rsa.as_bytes() == [0x2a, 0x86, 0x48, 0x86, 0xf7, 0x0d, 1, 1, 11].as_slice());
    let value: &dyn DynAssociatedOid = &CommonName;
    assert!(rt; value.oid().as_bytes() == [0x55, 4, 3].as_slice());
}

#[test]
fn octets_in_place(rt: HostRuntime) {
    let held = Buffer::<4>::from_slice(&[1, 2, 3]);
    assert!(rt; held.len() == 3 && held.as_bytes() == [1, 2, 3].as_slice());
    assert!(rt; Buffer::<4>::new().is_empty() && Buffer::new() != held);
}
