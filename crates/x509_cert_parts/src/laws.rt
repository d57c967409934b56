//! Laws about the parts of certificates, for every bound on the arcs of OIDs and every profile.
//!
//! Each law is the contract of a function that does nothing. With the laws of `der_core` they imply
//! that no encoding of a part is a prefix of another, that different values have different
//! encodings, and that decoding returns the value that the bytes encode.

ghost use Rattle.std.specs.Prelude.{◌≡◌, ◌≤◌, ◌↔◌, ℕ, ℤ, pos, Option, Bool, true, false, length};
ghost use Rattle.der_core.specs.Oid.Bound.{Bound};
ghost use Rattle.der_core.specs.Equality.{IsOfValues};
ghost use Rattle.der_core.specs.Integers.{integer_octets, IsNumber};
ghost use Rattle.der_core.specs.Shapes.{IsValid, octets_of};
ghost use Rattle.der_core.specs.Spelling.{is_apart, are_enough};
ghost use Rattle.x509_cert_parts.specs.Grammar.{algorithm_identifier, public_key_info, version};
ghost use Rattle.x509_cert_parts.specs.Grammar.{version_field, serial_number, numbers_within, time};
ghost use Rattle.x509_cert_parts.specs.Grammar.{validity, extension, extensions, PlainValidity};
ghost use Rattle.x509_cert_parts.specs.Views.{algorithm_plain, key_plain, extension_plain};
ghost use Rattle.x509_cert_parts.specs.Views.{time_value, validity_plain, version_number};
ghost use Rattle.x509_cert_parts.specs.Grammar.{not_before, not_after};
ghost use Rattle.x509_cert_parts.specs.Respelling.{validity_by, is_early_generalized};
ghost use Rattle.x509_cert_parts.specs.SerialNumbers.{serial_octets_max};

use crate::algorithm_identifier::AlgorithmIdentifier;
use crate::extension::Extension;
use crate::profile::{Profile, Raw, Rfc5280};
use crate::serial_number::SerialNumber;
use crate::subject_public_key_info::SubjectPublicKeyInfo;
use crate::time::Time;
use crate::validity::Validity;
use crate::version::Version;
use std::cmp::PartialEq;

/// The tags of the fields determine which field comes next, in every part. Four levels of nesting
/// suffice to decode each part.
pub fn parts_are_apart()
    ensures algorithms { (bound : ℕ) → (is_apart (algorithm_identifier bound) ≡ true)
        × (are_enough (algorithm_identifier bound) 4 ≡ true) }
    ensures keys { (bound : ℕ) → (is_apart (public_key_info bound) ≡ true)
        × (are_enough (public_key_info bound) 4 ≡ true) }
    ensures versions { (is_apart version ≡ true) × (is_apart version_field ≡ true)
        × (are_enough version_field 4 ≡ true) }
    ensures serials { (limit : Option ℕ) → (is_apart (serial_number limit) ≡ true)
        × (are_enough (serial_number limit) 4 ≡ true) }
    ensures validities { (is_apart time ≡ true) × (is_apart validity ≡ true)
        × (are_enough validity 4 ≡ true) }
    ensures lists { (bound : ℕ) → (is_apart (extension bound) ≡ true)
        × (is_apart (extensions bound) ≡ true) × (are_enough (extensions bound) 4 ≡ true) }
{}

/// `Rfc5280` accepts the serial numbers with at most 21 content bytes, and `Raw` accepts all.
pub fn serial_numbers_by_profile()
    ensures rfc5280 { (z : ℤ) → IsNumber (numbers_within ⟦<Rfc5280 as Profile>⟧.serial_limit) z
        ↔ (length (integer_octets z) ≤ serial_octets_max) }
    ensures raw { (z : ℤ) → IsNumber (numbers_within ⟦<Raw as Profile>⟧.serial_limit) z }
{}

/// `Rfc5280` leaves a validity unchanged exactly if neither date is a GeneralizedTime before 2050,
/// and `Raw` leaves each validity unchanged.
#[tactic(auto, using(crate::proofs::Respelled::validity_same))]
pub fn dates_by_profile()
    ensures rfc5280 { (v : PlainValidity) → (validity_by ⟦<Rfc5280 as Profile>⟧.respells v ≡ v)
        ↔ ((is_early_generalized (not_before v) ≡ false)
        × (is_early_generalized (not_after v) ≡ false)) }
    ensures raw { (v : PlainValidity) → validity_by ⟦<Raw as Profile>⟧.respells v ≡ v }
{}

/// If a validity has an encoding, it also has one with its dates re-encoded. The two encodings are
/// equal exactly if neither date was a GeneralizedTime before 2050.
#[tactic(auto, using(crate::proofs::Respelled::validity_valid, crate::proofs::Respelled::octets_same))]
pub fn respelled_dates_are_spelled()
    ensures valid { (r : Bool) (v : PlainValidity) → IsValid validity v
        → IsValid validity (validity_by r v) }
    ensures same { (v : PlainValidity) → IsValid validity v
        → (octets_of validity (validity_by true v) ≡ octets_of validity v)
        ↔ ((is_early_generalized (not_before v) ≡ false)
        × (is_early_generalized (not_after v) ≡ false)) }
{}

/// `==` of parts compares their abstract values.
pub fn equality_of_parts_is_of_values<P>()
    ensures algorithms { IsOfValues ⟦<AlgorithmIdentifier as PartialEq>⟧.eq algorithm_plain
        (octets_of (algorithm_identifier Bound)) }
    ensures keys { IsOfValues ⟦<SubjectPublicKeyInfo as PartialEq>⟧.eq key_plain
        (octets_of (public_key_info Bound)) }
    ensures extensions { IsOfValues ⟦<Extension as PartialEq>⟧.eq extension_plain
        (octets_of (extension Bound)) }
    ensures versions { IsOfValues ⟦<Version as PartialEq>⟧.eq (λ v. pos (version_number v))
        (octets_of version) }
    ensures serials { (limit : Option ℕ) → IsOfValues ⟦<SerialNumber<P> as PartialEq>⟧.eq (λ n. n)
        (octets_of (serial_number limit)) }
    ensures times { IsOfValues ⟦<Time as PartialEq>⟧.eq time_value (octets_of time) }
    ensures validities { IsOfValues ⟦<Validity<P> as PartialEq>⟧.eq validity_plain
        (octets_of validity) }
{}
