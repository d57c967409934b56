//! Object identifiers.

ghost use Rattle.std.specs.Prelude.{◌≡◌, [], ◌∷◌};

use der_core::oid::ObjectIdentifier;

/// `id-ct-KP-aKeyPackage`, 2.16.840.1.101.2.1.2.78.5.
pub fn id_ct_kp_a_key_package() -> ObjectIdentifier<39>
    ensures { result ≡ 2 ∷ 16 ∷ 840 ∷ 1 ∷ 101 ∷ 2 ∷ 1 ∷ 2 ∷ 78 ∷ 5 ∷ [] }
{
    ObjectIdentifier::from_bytes_unwrap(&[
        0x60, 0x86, 0x48, 0x01, 0x65, 0x02, 0x01, 0x02, 0x4e, 0x05,
    ])
}
