//! Owned bytes, of which there are at most 2^32 - 1.

ghost use Rattle.std.specs.Prelude.{◌≡◌, ◌↔◌, ◌<◌, [], length, nat_eq, IsTrue, IfOk, Some};
ghost use Rattle.std.proofs.Common.{refl, rules};
ghost use Rattle.std.specs.Cmp.{partial_equiv_from_equiv};
ghost use Rattle.std.specs.Cmp.Lexicographic.{pointwise, slice_cmp, nat_list_eq_equiv};
ghost use Rattle.std.specs.Cmp.Lexicographic.{nat_list_cmp_total, texts_po, texts_ties};
ghost use Rattle.std.specs.Cmp.Rules.{hashing};
ghost use Rattle.std.specs.Hash as fed;
ghost use Rattle.std.specs.Ordering.{nat_cmp};
ghost use Rattle.der_core_head.specs.Heads.{Fits};
ghost use Rattle.der_core_head.specs.Lengths.{counted};
ghost use Rattle.der_core_head.specs.Reading.{GivesNow, Reads};
ghost use Rattle.der_core_octets.specs.Parts.{parts_at};

use crate::Header;
use crate::parts::join_by;
use crate::reader::Reader;
use der_core_head::{Error, ErrorKind, Length, Tag};
use std::alloc::{AllocError, Global};
use std::cmp::Ordering;
use std::convert::AsSlice;
use std::hash::{Hash, Hasher};
use std::marker::Model;

/// Owned bytes, at most `Length::MAX` of them.
///
/// In contracts, its value is the bytes.
#[derive(Debug, Drop)]
pub struct BytesOwned {
    bytes: Vec<u8>,
}

impl Model for BytesOwned {
    ghost use Rattle.std.specs.Prelude.{ℕ, List};
    ghost use Rattle.der_core_head.specs.Heads.{Fits};

    ghost Value = { List ℕ };

    ghost view = { λ b. b.bytes.items };

    ghost invariant = { λ b. Fits b.bytes.items };
}

impl BytesOwned {
    /// Wraps these bytes.
    ///
    /// # Errors
    ///
    /// - `Overflow`: there are 2^32 bytes or more.
    pub fn new(bytes: Vec<u8>) -> Result<BytesOwned, Error>
        ensures { GivesNow (λ b. b) result (counted bytes.items) }
    {
        if bytes.len() > Length::MAX.value as usize {
            return Err(Error::from(ErrorKind::Overflow));
        }
        Ok(BytesOwned { bytes })
    }

    /// Decodes the content of a string in constructed form (X.690 8.7.3), after its header, and
    /// returns the joined contents of its parts.
    ///
    /// Each part is a DER encoding with the tag `inner_tag`. The parts end with the content of the
    /// string, or with the end-of-contents bytes of an indefinite length (X.690 8.1.5). After an
    /// error the reader has failed.
    ///
    /// A `Header` doesn't say whether the string is in constructed form. Bit 6 of the first byte
    /// of the encoding does.
    ///
    /// # Errors
    ///
    /// - `Incomplete`: the content is longer than the remaining bytes.
    /// - `TagUnknown`: the reader's encoding rules are DER, which doesn't allow the constructed
    ///   form (X.690 10.2).
    /// - `TagUnexpected`: a part has another tag.
    /// - The first error of a part.
    /// - `OutOfMemory`: memory runs out.
    /// - `Failed`: the reader failed before.
    pub fn decode_value_parts<'a, R: Reader<'a>>(
        alloc: Global,
        reader: &mut R,
        header: Header,
        inner_tag: Tag,
    ) -> Result<BytesOwned, Error>
        ensures { Reads (λ b. b) (R.state reader.old) (R.state reader.new) result
            (parts_at (R.state reader.old).source.encoding inner_tag header.length.value) }
    {
        let rules = reader.encoding_rules();
        let octets = reader.read_slice(header.length)?;
        match join_by(alloc, rules, inner_tag, octets) {
            Ok(bytes) => Ok(BytesOwned { bytes }),
            Err(error) => {
                reader.fail();
                Err(error)
            }
        }
    }

    /// Returns a copy of bytes that the caller proves to be at most 2^32 - 1.
    ///
    /// # Errors
    ///
    /// - `AllocError`: memory runs out.
    pub fn copy_of(alloc: Global, octets: &[u8]) -> Result<BytesOwned, AllocError>
        requires { Fits octets.now }
        ensures { IfOk result (λ copy. copy ≡ octets.now) }
    {
        let bytes = Vec::from_slice(alloc, octets)?;
        Ok(BytesOwned { bytes })
    }

    /// Returns a copy.
    ///
    /// # Errors
    ///
    /// - `AllocError`: memory runs out.
    pub fn clone(&self, alloc: Global) -> Result<BytesOwned, AllocError>
        ensures { IfOk result (λ copy. copy ≡ self.now) }
    {
        BytesOwned::copy_of(alloc, self.as_slice())
    }

    /// Returns the bytes, and consumes the value.
    pub fn into_vec(self) -> Vec<u8>
        ensures { result.items ≡ self }
    {
        self.bytes
    }

    /// Returns the bytes.
    pub fn as_slice(&self) -> &[u8]
        ensures octets { result.now ≡ self.now }
        ensures short { Fits result.now }
    {
        self.bytes.as_slice()
    }

    /// Returns the number of bytes.
    pub fn len(&self) -> Length
        ensures { result.value ≡ length self.now }
    {
        Length::new(self.bytes.len() as u32)
    }

    /// Returns whether there are no bytes.
    pub fn is_empty(&self) -> bool
        ensures { IsTrue result ↔ (self.now ≡ []) }
    {
        self.bytes.is_empty()
    }
}

/// Copies the value with its own allocator.
impl Clone for BytesOwned {
    ghost is_clone = { λ x y. y ≡ x };

    fn clone(&self) -> Result<BytesOwned, AllocError> {
        BytesOwned::copy_of(*self.bytes.allocator(), self.as_slice())
    }
}

impl AsSlice<u8> for BytesOwned {
    ghost items = { λ octets. octets };

    fn as_slice(&self) -> &[u8] {
        self.bytes.as_slice()
    }
}

/// Compares the bytes.
impl PartialEq for BytesOwned {
    ghost eq = { pointwise nat_eq };

    ghost laws = { partial_equiv_from_equiv nat_list_eq_equiv };

    fn eq(&self, other: &Self) -> bool {
        self.as_slice() == other.as_slice()
    }
}

impl Eq for BytesOwned {
    ghost laws = { nat_list_eq_equiv };
}

/// Orders values by their bytes, as lists.
impl PartialOrd for BytesOwned {
    ghost partial_cmp = { λ a b. Some (slice_cmp nat_cmp a b) };

    ghost laws = { texts_po };

    fn partial_cmp(&self, other: &Self) -> Option<Ordering> {
        Some(self.cmp(other))
    }
}

impl Ord for BytesOwned {
    ghost cmp = { slice_cmp nat_cmp };

    ghost total = { nat_list_cmp_total };

    ghost matches_partial_cmp = { λ a b. refl };

    ghost matches_eq = { texts_ties };

    fn cmp(&self, other: &Self) -> Ordering {
        self.as_slice().cmp(other.as_slice())
    }
}

impl Hash for BytesOwned {
    ghost hash_input = { fed.slice fed.u8 };

    ghost respects_eq = { Prim.search (hashing, rules) };

    fn hash<H: Hasher>(&self, state: &mut H) {
        self.as_slice().hash(state);
    }
}
