//! The traits of types that are encoded.

ghost use Rattle.der_core_octets.specs.CoreHead.Reading.{GivesNow};
ghost use Rattle.der_core_octets.specs.CoreHead.Shapes.{contents, octets_of};
ghost use Rattle.der_core_octets.specs.CoreHead.Writing.{Writes, size, write, size_content};
ghost use Rattle.der_core_octets.specs.CoreHead.Writing.{write_content};
ghost use Rattle.der_core_octets.specs.Outputs.{AddsFront, Continues};

use crate::decode::{FixedTag, Shaped, ShapedValue};
use der_core_octets::core_head::{Error, Length};
use der_core_octets::{Writer, encode_header};

/// A type that is encoded as bytes, with its header.
pub trait Encode: Shaped {
    /// Returns the length of the encoding.
    ///
    /// # Errors
    ///
    /// - `Overflow`: the length is 2^32 or more.
    fn encoded_len(&self) -> Result<Length, Error>
        ensures { GivesNow (λ l. l.value) result (size Self.shape (Self.written self.now)) };

    /// Encodes a value.
    ///
    /// # Errors
    ///
    /// - `Overflow`: a length exceeds 2^32 - 1.
    /// - `SetOrdering`, `SetDuplicate`: a strict set in the value isn't in ascending order (X.690
    ///   11.6).
    /// - The errors of the writer.
    fn encode<W: Writer>(&self, writer: &mut W) -> Result<(), Error>
        ensures exact { Writes W.takes_memory (W.out writer.old) (W.out writer.new) result
            (write Self.shape (Self.written self.now)) }
        ensures kept { Continues (W.out writer.old) (W.out writer.new) }
        ensures front { AddsFront (octets_of Self.shape (Self.written self.now)) (W.out writer.old)
            (W.out writer.new) };
}

/// A type whose content is encoded after a header.
pub trait EncodeValue: ShapedValue {
    /// Returns the length of the content.
    ///
    /// # Errors
    ///
    /// - `Overflow`: the length is 2^32 or more.
    fn value_len(&self) -> Result<Length, Error>
        ensures { GivesNow (λ l. l.value) result
            (size_content Self.content (Self.value_written self.now)) };

    /// Encodes the content.
    ///
    /// # Errors
    ///
    /// - `Overflow`: a length exceeds 2^32 - 1.
    /// - `SetOrdering`, `SetDuplicate`: a strict set in the value isn't in ascending order (X.690
    ///   11.6).
    /// - The errors of the writer.
    fn encode_value<W: Writer>(&self, writer: &mut W) -> Result<(), Error>
        ensures exact { Writes W.takes_memory (W.out writer.old) (W.out writer.new) result
            (write_content Self.content (Self.value_written self.now)) }
        ensures kept { Continues (W.out writer.old) (W.out writer.new) }
        ensures front { AddsFront (contents Self.content (Self.value_written self.now))
            (W.out writer.old) (W.out writer.new) };
}

impl<T: EncodeValue + FixedTag> Encode for T {
    // Inlined, so that the result isn't moved.
    #[inline(always)]
    #[tactic(auto, unfolding(crate::specs::Opened::tlv_len, crate::specs::Opened::head_len))]
    fn encoded_len(&self) -> Result<Length, Error> {
        let len = self.value_len()?;
        len.for_tlv(T::tag())
    }

    // Inlined, so that the result isn't moved.
    #[inline(always)]
    #[tactic(auto, using(der_core_octets::proofs::Added::none_added, der_core_octets::proofs::Added::header_adds, der_core_octets::proofs::Added::content_adds), unfolding(crate::specs::Opened::write_tlv))]
    fn encode<W: Writer>(&self, writer: &mut W) -> Result<(), Error> {
        let len = self.value_len()?;
        encode_header(writer, T::tag(), len)?;
        self.encode_value(writer)
    }
}
