//! Borrowed object identifiers.

ghost use Rattle.std.specs.Prelude.{◌≡◌, ℕ, ◌<◌, ◌↔◌, IsTrue, ◌≤◌, true, is_ok, length, slice_get};
ghost use Rattle.std.specs.Prelude.{Result, Ok, IfOk, List};
ghost use Rattle.const_oid.specs.Bound.{Bound};
ghost use Rattle.const_oid.specs.Arcs.{arcs_of};
ghost use Rattle.const_oid.specs.IdentifierOctets.{identifier_octets, IsIdentifier};
ghost use Rattle.const_oid.specs.IdentifierOctets.{read_identifier};

use crate::arcs::{self, Arcs};
use crate::error::{Arc, Error, Result};
use crate::object_identifier::ObjectIdentifier;
use crate::octets;
use std::convert::AsSlice;

/// An object identifier that borrows its encoding, which may have any length.
///
/// In contracts, `reference_octets` is its encoding, and `reference_arcs` are its arcs.
#[derive(Clone, Copy, PartialEq, Eq, PartialOrd, Ord, Hash)]
pub struct ObjectIdentifierRef<'a> {
    octets: &'a [u8],
    ghost is_identifier: { is_ok (read_identifier Bound (length octets.now) octets.now) ≡ true },
    ghost is_spelled: { octets.now ≡ identifier_octets (arcs_of octets.now) },
}

impl<'a> ObjectIdentifierRef<'a> {
    ghost use Rattle.std.specs.Result.{result_map_both};
    ghost use Rattle.std.specs.Prelude.{◌≢◌, Err, IfErr};
    ghost use Rattle.const_oid.specs.declared.error.Error.TheVariants as errors;
    ghost use Rattle.const_oid.specs.OctetFaults.{IsOctetsFault};
    ghost use Rattle.const_oid.specs.References.{reference_octets, reference_arcs, remaining_arcs};

    /// Decodes an identifier of any length (X.690 8.19).
    ///
    /// # Errors
    ///
    /// The errors of `ObjectIdentifier::from_bytes_sized`, without `Length`.
    pub fn from_bytes(ber: &'a [u8]) -> Result<Self>
        ensures read { result_map_both reference_arcs (λ e. e) result
            ≡ read_identifier Bound (length ber.now) ber.now }
        ensures octets { IfOk result (λ oid. reference_octets oid ≡ ber.now) }
        ensures ok { IfOk result
            (λ oid. IsIdentifier Bound (reference_arcs oid)
            × (ber.now ≡ identifier_octets (reference_arcs oid))) }
        ensures spelled { (arcs : List ℕ) → ber.now ≡ identifier_octets arcs
            → IsIdentifier Bound arcs
            → result_map_both reference_arcs (λ e. e) result ≡ Ok arcs }

        // The capacity is the number of bytes, so `Length` can't occur.
        ensures fault { IfErr result (λ e. IsOctetsFault Bound (length ber.now) ber.now e) }
        ensures never_overflow { result ≢ Err errors.Overflow }
    {
        octets::check(ber)?;
        Ok(ObjectIdentifierRef { octets: ber })
    }

    /// Returns the identifier of bytes that were already checked.
    #[inline]
    pub(crate) fn trusted(octets: &'a [u8]) -> Self
        requires identifier { is_ok (read_identifier Bound (length octets.now) octets.now) ≡ true }
        requires spelled { octets.now ≡ identifier_octets (arcs_of octets.now) }
        ensures { reference_octets result ≡ octets.now }
    {
        ObjectIdentifierRef { octets }
    }

    /// Returns the encoding.
    #[inline]
    pub fn as_bytes(&self) -> &'a [u8]
        ensures octets { result.now ≡ reference_octets self.now }
        ensures read { read_identifier Bound (length result.now) result.now
            ≡ Ok (reference_arcs self.now) }
        ensures arcs { result.now ≡ identifier_octets (reference_arcs self.now) }
        ensures identifier { IsIdentifier Bound (reference_arcs self.now) }
    {
        self.octets
    }

    /// Returns an iterator over the arcs, in their order.
    #[inline]
    pub fn arcs(&self) -> Arcs<'a>
        ensures { remaining_arcs result ≡ reference_arcs self.now }
    {
        Arcs::of(self.octets)
    }

    /// Returns the arc at this index, or `None` if there are fewer arcs.
    pub fn arc(&self, index: usize) -> Option<Arc>
        ensures { result ≡ slice_get (reference_arcs self.now) index }
    {
        arcs::arc_at(self.octets, index)
    }

    /// Returns true if an owned identifier has the same arcs.
    pub fn equals_owned<const MAX_SIZE: usize>(&self, other: &ObjectIdentifier<MAX_SIZE>) -> bool
        ensures arcs { IsTrue result ↔ (reference_arcs self.now ≡ other.now) }
    {
        let octets = self.as_bytes();
        octets == other.as_bytes()
    }

    /// Returns the number of arcs.
    pub fn len(&self) -> usize
        ensures { result ≡ length (reference_arcs self.now) }
    {
        arcs::count(self.octets)
    }
}

impl AsSlice<u8> for ObjectIdentifierRef<'_> {
    ghost use Rattle.const_oid.specs.References.{reference_octets};

    ghost items = { reference_octets };

    fn as_slice(&self) -> &[u8] {
        self.as_bytes()
    }
}

impl<'a> TryFrom<&'a [u8]> for ObjectIdentifierRef<'a> {
    ghost use Rattle.std.specs.Prelude.{◌≡◌, length};
    ghost use Rattle.std.specs.Result.{result_map_both};
    ghost use Rattle.const_oid.specs.Bound.{Bound};
    ghost use Rattle.const_oid.specs.IdentifierOctets.{read_identifier};
    ghost use Rattle.const_oid.specs.References.{reference_arcs};

    type Error = Error;

    ghost try_from_gives = { λ octets r. result_map_both reference_arcs (λ e. e) r
        ≡ read_identifier Bound (length octets.now) octets.now };

    fn try_from(octets: &'a [u8]) -> Result<Self>
        ensures read { result_map_both reference_arcs (λ e. e) result
            ≡ read_identifier Bound (length octets.now) octets.now }
    {
        Self::from_bytes(octets)
    }
}

/// Returns the borrowed form of the identifier.
impl<'a, const MAX_SIZE: usize> From<&'a ObjectIdentifier<MAX_SIZE>> for ObjectIdentifierRef<'a> {
    ghost use Rattle.std.specs.Prelude.{◌≡◌};
    ghost use Rattle.const_oid.specs.References.{reference_arcs};

    ghost from_gives = { λ oid r. reference_arcs r ≡ oid.now };

    fn from(oid: &'a ObjectIdentifier<MAX_SIZE>) -> Self
        ensures { reference_arcs result ≡ oid.now }
    {
        oid.as_oid_ref()
    }
}
