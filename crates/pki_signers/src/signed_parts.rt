//! The first value in a SEQUENCE, as a part of its encoding.

ghost use Rattle.std.specs.Prelude.{◌≡◌, List, ℕ, true, IfSome, IfNone, IsSomeAnd};
ghost use Rattle.der_core.specs.Shapes.{Shape, Body, Value, Spells, field, octets_of, sequence};
ghost use Rattle.der_core.specs.Spelling.{is_element};
ghost use Rattle.pki_signers.specs.Fields.{IsFirstField};

use der_core::{Tag, header_of};

/// Returns the encoding of the first value in a SEQUENCE, as a subslice of `octets`. This is the
/// first field of the type, unless that field can be absent.
///
/// In these types, the first field is what is signed: the TBSCertificate of a certificate, the
/// TBSCertList of a CRL (RFC 5280 4.1.1.3, 5.1.1.3), the ResponseData of a BasicOCSPResponse, and
/// the TBSRequest of an OCSPRequest (RFC 6960 4.1.1, 4.2.1).
///
/// Returns `None` unless the bytes are one SEQUENCE whose content begins with a header and as many
/// bytes as it announces. Neither these bytes nor what follows them are decoded.
pub fn first_field(octets: &[u8]) -> Option<&[u8]>
    // If the bytes are the encoding of a SEQUENCE whose first field is always present, these are
    // the bytes of that field.
    ensures field { (s : Shape) (b : Body) (v : Value (sequence (field s b)))
        → is_element s ≡ true → Spells (sequence (field s b)) v octets.now
        → IsSomeAnd result (λ part. part.now ≡ octets_of s v.0) }
    // In any case, they are the first value in the SEQUENCE.
    ensures first { IfSome result (λ part. IsFirstField octets.now part.now) }
    ensures none { IfNone result ((part : List ℕ) → IsFirstField octets.now part → ⊥) }
{
    let Ok((outer, start)) = header_of(octets) else {
        return None;
    };
    let Tag::Sequence = outer.tag else {
        return None;
    };
    let content = &octets[start..];
    if outer.length.value as usize != content.len() {
        return None;
    }
    let Ok((inner, start)) = header_of(content) else {
        return None;
    };
    let len = inner.length.value as usize;
    if len > content.len() - start {
        return None;
    }
    Some(&content[..start + len])
}
