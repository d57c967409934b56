//! Descriptions of types whose content isn't a sequence of values.

ghost use Rattle.std.specs.Prelude.{◌≡◌, refl};
ghost use Rattle.der_core_octets.specs.CoreHead.Leaves.{leaf_contents, IsLeafValue};
ghost use Rattle.der_core_octets.specs.CoreHead.Reading.{GivesNow};
ghost use Rattle.der_core_octets.specs.CoreHead.Shapes.{contents, leaf};
ghost use Rattle.der_core_octets.specs.CoreHead.Writing.{Writes, size_content, write_content};
ghost use Rattle.der_core_octets.specs.Outputs.{AddsFront, Continues};

use crate::leaves::{Leaf, Primitive, decode_leaf};
use crate::ways::{AsReadWay, DecodeWay, RangeWay, Way};
use der_core_octets::core_head::{Error, Length};
use der_core_octets::{Header, Reader, Writer, slice_len};
use std::alloc::Global;

/// A type whose values store the bytes of their content.
pub trait Octets: Primitive {
    /// Returns the content bytes.
    fn content(&self) -> &[u8]
        ensures content { result.now ≡ leaf_contents Self.kind (Self.leaf_plain self.now) }
        // The value is in range.
        ensures in_range { IsLeafValue Self.kind (Self.leaf_plain self.now) };
}

/// Describes a type as the bytes that its values store. The type itself has the tag.
pub struct AsOctets;

impl<T: Octets> Way<T> for AsOctets {
    ghost content_by = { leaf T.kind };

    ghost plain_by = { T.leaf_plain };

    ghost written_by = { T.leaf_plain };

    fn len_by(value: &T) -> Result<Length, Error> {
        slice_len(value.content())
    }

    #[tactic(auto, using(der_core_octets::proofs::Added::write_adds), unfolding(crate::specs::Opened::contents))]
    fn encode_by<W: Writer>(value: &T, writer: &mut W) -> Result<(), Error> {
        writer.write(value.content())
    }

    ghost apart_by = { refl };
}

impl<T: Octets> AsReadWay<T> for AsOctets {
    ghost as_read_by = { λ _. refl };
}

impl<'a, R: Reader<'a>, T: Octets + Leaf<'a>> DecodeWay<'a, R, T> for AsOctets {
    // Inlined, so that the result isn't moved.
    #[inline(always)]
    fn decode_by(alloc: Global, reader: &mut R, header: Header) -> Result<T, Error> {
        decode_leaf(alloc, reader, header)
    }
}

impl<T: Octets> RangeWay<T> for AsOctets {
    fn range_by(value: &T) {
        // `content` states that the value is in range.
        let _content = value.content();
    }
}

/// A type that encodes its content from values that don't store it.
pub trait EncodeLeaf: Primitive {
    /// Returns the length of the content.
    ///
    /// # Errors
    ///
    /// - `Overflow`: the length is 2^32 or more.
    fn leaf_len(&self) -> Result<Length, Error>
        ensures { GivesNow (λ l. l.value) result
            (size_content (leaf Self.kind) (Self.leaf_plain self.now)) };

    /// Encodes the content.
    ///
    /// # Errors
    ///
    /// - The errors of the writer.
    fn encode_leaf<W: Writer>(&self, writer: &mut W) -> Result<(), Error>
        ensures exact { Writes W.takes_memory (W.out writer.old) (W.out writer.new) result
            (write_content (leaf Self.kind) (Self.leaf_plain self.now)) }
        ensures kept { Continues (W.out writer.old) (W.out writer.new) }
        ensures front { AddsFront (contents (leaf Self.kind) (Self.leaf_plain self.now))
            (W.out writer.old) (W.out writer.new) };
}

/// Describes a type by its own decoder and encoder of a content. The type itself has the tag, the
/// range and the order.
pub struct AsLeaf;

impl<T: EncodeLeaf> Way<T> for AsLeaf {
    ghost content_by = { leaf T.kind };

    ghost plain_by = { T.leaf_plain };

    ghost written_by = { T.leaf_plain };

    fn len_by(value: &T) -> Result<Length, Error> {
        value.leaf_len()
    }

    fn encode_by<W: Writer>(value: &T, writer: &mut W) -> Result<(), Error> {
        value.encode_leaf(writer)
    }

    ghost apart_by = { refl };
}

impl<T: EncodeLeaf> AsReadWay<T> for AsLeaf {
    ghost as_read_by = { λ _. refl };
}

impl<'a, R: Reader<'a>, T: EncodeLeaf + Leaf<'a>> DecodeWay<'a, R, T> for AsLeaf {
    // Inlined, so that the result isn't moved.
    #[inline(always)]
    fn decode_by(alloc: Global, reader: &mut R, header: Header) -> Result<T, Error> {
        decode_leaf(alloc, reader, header)
    }
}
