//! Object identifiers.

ghost use Rattle.std.specs.Prelude.{◌≡◌, [], ◌∷◌};

use der_core::oid::ObjectIdentifier;

/// `id-ct-TSTInfo`, 1.2.840.113549.1.9.16.1.4.
pub fn id_ct_tst_info() -> ObjectIdentifier<39>
    ensures { result ≡ 1 ∷ 2 ∷ 840 ∷ 113549 ∷ 1 ∷ 9 ∷ 16 ∷ 1 ∷ 4 ∷ [] }
{
    ObjectIdentifier::from_bytes_unwrap(&[
        0x2a, 0x86, 0x48, 0x86, 0xf7, 0x0d, 0x01, 0x09, 0x10, 0x01, 0x04,
    ])
}
