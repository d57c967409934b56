//! Laws about certificates, for every bound on the arcs of OIDs and every profile.
//!
//! Each law is the contract of a function that does nothing. With the laws of `der_core` they imply
//! that no encoding of a certificate is a prefix of another, that different certificates have
//! different encodings, and that decoding returns the certificate that the bytes encode.

ghost use Rattle.std.specs.Prelude.{◌≡◌, ◌⊎◌, ◌∷◌, ◌++◌, map, ◌≤◌, ◌↔◌, ℕ, List, [], Option, Bool};
ghost use Rattle.std.specs.Prelude.{true, false, Ok, Err, take, drop};
ghost use Rattle.der_core.specs.Oid.Bound.{Bound};
ghost use Rattle.der_core.specs.Equality.{IsOfValues};
ghost use Rattle.der_core.specs.ErrorTypes.ErrorKind.{ErrorKind};
ghost use Rattle.der_core.specs.Octets.{IsOctets};
ghost use Rattle.der_core.specs.Heads.{Fits};
ghost use Rattle.der_core.specs.Grammar.{read, read_whole};
ghost use Rattle.der_core.specs.Bounds.{AreBelow, HoldsLarge};
ghost use Rattle.der_core.specs.Shapes.{IsValid, Spells, octets_of};
ghost use Rattle.der_core.specs.Spelling.{is_apart, are_enough};
ghost use Rattle.x509_cert_parts.specs.Grammar.{not_before, not_after, algorithm_arcs};
ghost use Rattle.x509_cert_parts.specs.Grammar.{key_algorithm, extension_arcs};
ghost use Rattle.x509_cert_names.specs.Names.{type_of, all_of};
ghost use Rattle.x509_cert_parts.specs.Respelling.{is_early_generalized};
ghost use Rattle.x509_cert_certificates.specs.Bounds.{certificate_identifiers, SpellsEach};
ghost use Rattle.x509_cert_certificates.specs.Bounds.{OneHoldsLarge};
ghost use Rattle.x509_cert_certificates.specs.Certificates.{PlainCertificate, raw_tbs_certificate};
ghost use Rattle.x509_cert_certificates.specs.Certificates.{tbs_certificate, certificate_octets};
ghost use Rattle.x509_cert_certificates.specs.Certificates.{certificate, tbs_validity, public_key};
ghost use Rattle.x509_cert_certificates.specs.Certificates.{certificate_by, signed_length, subject};
ghost use Rattle.x509_cert_certificates.specs.Certificates.{signed_start, issuer, extensions_of};
ghost use Rattle.x509_cert_certificates.specs.Certificates.{tbs, inner_algorithm, outer_algorithm};
ghost use Rattle.x509_cert_certificates.specs.Views.{certificate_plain, tbs_plain};

use crate::certificate::CertificateInner;
use crate::tbs_certificate::TbsCertificateInner;
use std::cmp::PartialEq;

/// The tags of the fields of a certificate determine which field comes next, and eight levels of
/// nesting suffice to decode it.
pub fn certificates_are_apart()
    ensures signed { (bound : ℕ) (limit : Option ℕ)
        → (is_apart (tbs_certificate bound limit) ≡ true)
        × (are_enough (tbs_certificate bound limit) 8 ≡ true) }
    ensures whole { (bound : ℕ) (limit : Option ℕ) → (is_apart (certificate bound limit) ≡ true)
        × (are_enough (certificate bound limit) 8 ≡ true) }
{}

/// In the encoding of a certificate, the bytes at the position of the TBSCertificate are the
/// encoding of the TBSCertificate (RFC 5280 4.1.1.3).
pub fn signed_part_stands_in_place()
    ensures { (bound : ℕ) (c : PlainCertificate)
        → take (signed_length bound c) (drop (signed_start bound c) (certificate_octets bound c))
        ≡ octets_of (raw_tbs_certificate bound) (tbs c) }
{}

/// If a certificate has an encoding, it also has one with its dates re-encoded. The two encodings
/// are equal exactly if neither date was a GeneralizedTime before 2050 (RFC 5280 4.1.2.5).
pub fn respelled_certificates_are_spelled()
    ensures valid { (bound : ℕ) (limit : Option ℕ) (r : Bool) (c : PlainCertificate)
        → IsValid (certificate bound limit) c
        → IsValid (certificate bound limit) (certificate_by r c) }
    ensures same { (bound : ℕ) (limit : Option ℕ) (c : PlainCertificate)
        → IsValid (certificate bound limit) c
        → (octets_of (certificate bound limit) (certificate_by true c)
        ≡ octets_of (certificate bound limit) c)
        ↔ ((is_early_generalized (not_before (tbs_validity (tbs c))) ≡ false)
        × (is_early_generalized (not_after (tbs_validity (tbs c))) ≡ false)) }
{}

/// Bytes that encode a certificate under one bound on arcs encode the same certificate under a
/// larger bound. The encoding of a certificate doesn't depend on the bound.
pub fn wider_bounds_keep_certificates()
    ensures spelled { (small large : ℕ) (limit : Option ℕ) (c : PlainCertificate) (w : List ℕ)
        → small ≤ large
        → Spells (certificate small limit) c w → Spells (certificate large limit) c w }
    ensures octets { (small large : ℕ) (limit : Option ℕ) (c : PlainCertificate)
        → octets_of (certificate small limit) c ≡ octets_of (certificate large limit) c }
{}

/// Bytes that decode to a certificate under one bound on arcs decode to the same certificate under
/// a larger bound, both as a whole and as a prefix.
pub fn wider_bounds_read_certificates_alike()
    ensures whole { (small large : ℕ) (limit : Option ℕ) (c : PlainCertificate) (w : List ℕ)
        → small ≤ large → IsOctets w
        → read_whole (certificate small limit) w ≡ Ok (c, [])
        → read_whole (certificate large limit) w ≡ Ok (c, []) }
    ensures front { (small large : ℕ) (limit : Option ℕ) (c : PlainCertificate) (w r : List ℕ)
        → small ≤ large → IsOctets w → Fits w
        → read (certificate small limit) 64 w ≡ Ok (c, r) → read (certificate large limit) 64 w
        ≡ Ok (c, r) }
{}

/// Bytes that encode a certificate under one bound on arcs encode it under another bound if each
/// arc of its OIDs is below that bound.
///
/// So a certificate that is accepted only under the larger bound has an arc that isn't below the
/// smaller one.
pub fn newly_read_certificates_hold_a_large_arc()
    ensures narrow { (small large : ℕ) (limit : Option ℕ) (c : PlainCertificate) (w : List ℕ)
        → Spells (certificate large limit) c w
        → AreBelow small (certificate_identifiers c) → Spells (certificate small limit) c w }
    ensures exact { (small large : ℕ) (limit : Option ℕ) (c : PlainCertificate) (w : List ℕ)
        → 40 ≤ small → small ≤ large
        → Spells (certificate small limit) c w
        ↔ (Spells (certificate large limit) c w × AreBelow small (certificate_identifiers c)) }
    ensures new { (small large : ℕ) (limit : Option ℕ) (c : PlainCertificate) (w : List ℕ)
        → Spells (certificate large limit) c w → (Spells (certificate small limit) c w → ⊥)
        → HoldsLarge small (certificate_identifiers c) }
    ensures whole { (small large : ℕ) (limit : Option ℕ) (c : PlainCertificate) (w : List ℕ)
        (e : ErrorKind) → IsOctets w
        → read_whole (certificate large limit) w ≡ Ok (c, [])
        → read_whole (certificate small limit) w ≡ Err e
        → HoldsLarge small (certificate_identifiers c) }
    ensures front { (small large : ℕ) (limit : Option ℕ) (c : PlainCertificate) (w r : List ℕ)
        (e : ErrorKind) → IsOctets w → Fits w
        → read (certificate large limit) 64 w ≡ Ok (c, r) → read (certificate small limit) 64 w
        ≡ Err e → HoldsLarge small (certificate_identifiers c) }
{}

/// The OIDs in a certificate are those of its inner algorithm, of the attributes of its issuer and
/// of its subject, of its key's algorithm, of its extensions and of its outer algorithm, in this
/// order.
pub fn identifiers_stand_in_turn()
    ensures { (c : PlainCertificate) → certificate_identifiers c
        ≡ algorithm_arcs (inner_algorithm c)
        ∷ (map type_of (all_of (issuer c)) ++ (map type_of (all_of (subject c))
        ++ (algorithm_arcs (key_algorithm (public_key c))
        ∷ (map extension_arcs (extensions_of c) ++ (algorithm_arcs (outer_algorithm c) ∷ []))))) }
{}

/// Bytes that encode a sequence of certificates under one bound on arcs encode the same
/// certificates under a larger bound.
///
/// If bytes encode a sequence of certificates under the larger bound, they encode it under the
/// smaller bound, or a certificate has an arc that isn't below the smaller bound.
pub fn wider_bounds_keep_chains()
    ensures kept { (small large : ℕ) (limit : Option ℕ) (cs : List PlainCertificate) (w : List ℕ)
        → small ≤ large
        → SpellsEach small limit cs w → SpellsEach large limit cs w }
    ensures new { (small large : ℕ) (limit : Option ℕ) (cs : List PlainCertificate) (w : List ℕ)
        → SpellsEach large limit cs w → SpellsEach small limit cs w ⊎ OneHoldsLarge small cs }
{}

/// `==` of certificates and of TBSCertificates compares their abstract values, under every profile.
pub fn equality_of_certificates_is_of_values<P>()
    ensures signed { (limit : Option ℕ) → IsOfValues ⟦<TbsCertificateInner<P> as PartialEq>⟧.eq
        tbs_plain (octets_of (tbs_certificate Bound limit)) }
    ensures whole { (limit : Option ℕ) → IsOfValues ⟦<CertificateInner<P> as PartialEq>⟧.eq
        certificate_plain (octets_of (certificate Bound limit)) }
{}
