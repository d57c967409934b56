//! SEQUENCE without decoding, borrowed.

ghost use Rattle.std.specs.Prelude.{◌≡◌, ◌<◌, length, IfOk, IfErr, false};
ghost use Rattle.der_core.specs.Limits.{length_max};
ghost use Rattle.der_core.specs.Heads.{Fits};
ghost use Rattle.der_core.specs.TagTypes.Tag.TheVariants.{Sequence as SequenceTag};
ghost use Rattle.der_core.specs.Leaves.{octets};

use der_core::describing::{AsOctets, Described, Octets, Ordered, Primitive};
use der_core::making::octets_in_range;
use der_core::{Error, ErrorKind, FixedTag, Leaf, Length, Tag};
use std::alloc::Global;
use std::convert::AsSlice;

/// A type whose values are SEQUENCEs (X.690 8.9, 8.10).
pub trait Sequence: FixedTag {
    /// The tag of the type is that of SEQUENCE.
    ghost is_sequence: { Self.fixed_tag ≡ SequenceTag };
}

/// A borrowed SEQUENCE (X.690 8.9) whose content of fewer than 2^32 bytes isn't decoded.
#[derive(Clone, Copy, Debug, PartialEq, Eq, PartialOrd, Ord, Hash)]
pub struct SequenceRef<'a> {
    bytes: &'a [u8],
    ghost short: { Fits bytes.now },
}

impl<'a> SequenceRef<'a> {
    ghost use Rattle.der_types_values.specs.Sequences.{fields_lent};

    /// Returns the SEQUENCE with this content.
    ///
    /// # Errors
    ///
    /// - `Overflow`: there are 2^32 bytes or more.
    pub fn new(bytes: &'a [u8]) -> Result<SequenceRef<'a>, Error>
        ensures ok { IfOk result (λ s. Fits bytes.now × (fields_lent s ≡ bytes.now)) }
        ensures err { IfErr result (λ e. (length_max < length bytes.now)
            × (e.kind ≡ ErrorKind.Overflow)) }
    {
        if bytes.len() > Length::MAX.value as usize {
            return Err(Error::from(ErrorKind::Overflow));
        }
        Ok(SequenceRef { bytes })
    }

    /// Wraps a content, which the caller proves to have fewer than 2^32 bytes.
    pub fn of_content(bytes: &'a [u8]) -> SequenceRef<'a>
        requires { Fits bytes.now }
        ensures { fields_lent result ≡ bytes.now }
    {
        SequenceRef { bytes }
    }

    /// Returns the content bytes.
    pub fn as_bytes(&self) -> &'a [u8]
        ensures octets { result.now ≡ fields_lent self.now }
        ensures short { Fits result.now }
    {
        self.bytes
    }
}

/// Returns the content bytes.
impl<'a> AsSlice<u8> for SequenceRef<'a> {
    ghost use Rattle.der_types_values.specs.Sequences.{fields_lent};

    ghost items = { fields_lent };

    fn as_slice(&self) -> &[u8] {
        self.bytes
    }
}

impl<'a> FixedTag for SequenceRef<'a> {
    ghost fixed_tag = { SequenceTag };

    fn tag() -> Tag
        ensures { result ≡ SequenceTag }
    {
        Tag::Sequence
    }
}

impl<'a> Sequence for SequenceRef<'a> {
    ghost use Rattle.std.specs.Prelude.{refl};

    ghost is_sequence = { refl };
}

impl<'a> Described for SequenceRef<'a> {
    type By = AsOctets;
}

impl<'a> Primitive for SequenceRef<'a> {
    ghost use Rattle.der_types_values.specs.Sequences.{fields_lent};

    ghost kind = { octets };

    ghost leaf_plain = { fields_lent };
}

/// The content is the bytes, which aren't decoded.
impl<'a> Leaf<'a> for SequenceRef<'a> {
    ghost takes_memory = { false };

    fn from_content(_alloc: Global, _tag: Tag, octets: &'a [u8]) -> Result<SequenceRef<'a>, Error> {
        Ok(SequenceRef { bytes: octets })
    }
}

impl<'a> Octets for SequenceRef<'a> {
    fn content(&self) -> &[u8] {
        octets_in_range(self.as_bytes());
        self.bytes
    }
}

/// Compares the content bytes.
impl<'a> Ordered for SequenceRef<'a> {}
