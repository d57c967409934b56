//! A law about the signed parts of CRLs and CSRs: the contract of a function that does nothing.

ghost use Rattle.std.specs.Prelude.{◌≡◌};
ghost use Rattle.x509_cert_anchors.specs.Der.Shapes.{Shape, BodyValue, octets_of};
ghost use Rattle.x509_cert.specs.Signed.{signed_fields, octets_in_place};

/// In the encoding of a CRL or a CSR, the bytes at the position of the signed part are the encoding
/// of the signed part (RFC 5280 5.1.1.3; RFC 2986 4.2).
pub fn signed_part_stands_in_place()
    ensures { (s : Shape) (v : BodyValue (signed_fields s)) → octets_in_place s v
        ≡ octets_of s v.0 }
{}
