//! Rows of fields as nested pairs: `(A, (B, (C, ())))`.

ghost use Rattle.der_core_values.specs.CoreHead.Reading.{GivesNow};
ghost use Rattle.der_core_values.specs.CoreHead.Shapes.{body_octets};
ghost use Rattle.der_core_values.specs.CoreHead.Writing.{Writes, size_body, write_body};
ghost use Rattle.der_core_values.specs.CoreOctets.Outputs.{AddsFront, Continues};

use der_core_values::core_head::{Error, Length};
use der_core_values::core_octets::Writer;
use der_core_values::{Encode, FieldRow};
use std::marker::PhantomData;

/// Fields that are encoded one after another.
pub trait EncodeFields: FieldRow {
    /// Returns the total length of the fields.
    ///
    /// # Errors
    ///
    /// - `Overflow`: the length is 2^32 or more.
    fn fields_len(&self) -> Result<Length, Error>
        ensures { GivesNow (λ l. l.value) result
            (size_body Self.fields (Self.fields_written self.now)) };

    /// Encodes the fields.
    ///
    /// # Errors
    ///
    /// - `Overflow`: a length exceeds 2^32 - 1.
    /// - `SetOrdering`, `SetDuplicate`: a strict set in a field isn't in ascending order (X.690
    ///   11.6).
    /// - The errors of the writer.
    fn encode_fields<W: Writer>(&self, writer: &mut W) -> Result<(), Error>
        ensures exact { Writes W.takes_memory (W.out writer.old) (W.out writer.new) result
            (write_body Self.fields (Self.fields_written self.now)) }
        ensures kept { Continues (W.out writer.old) (W.out writer.new) }
        ensures front { AddsFront (body_octets Self.fields (Self.fields_written self.now))
            (W.out writer.old) (W.out writer.new) };
}

impl EncodeFields for () {
    fn fields_len(&self) -> Result<Length, Error> {
        Ok(Length { value: 0 })
    }

    #[tactic(auto, using(crate::proofs::Cited::none_added))]
    fn encode_fields<W: Writer>(&self, _writer: &mut W) -> Result<(), Error> {
        Ok(())
    }
}

impl<A: Encode, B: EncodeFields> EncodeFields for (A, B) {
    #[tactic(auto, unfolding(crate::specs::Opened::both_len))]
    fn fields_len(&self) -> Result<Length, Error> {
        let first = self.0.encoded_len()?;
        let others = self.1.fields_len()?;
        first + others
    }

    #[tactic(auto, using(crate::proofs::Cited::first_added, crate::proofs::Cited::value_then_added), unfolding(crate::specs::Opened::body_octets))]
    fn encode_fields<W: Writer>(&self, writer: &mut W) -> Result<(), Error> {
        self.0.encode(writer)?;
        self.1.encode_fields(writer)
    }
}

impl<T> EncodeFields for PhantomData<T> {
    fn fields_len(&self) -> Result<Length, Error> {
        Ok(Length { value: 0 })
    }

    #[tactic(auto, using(crate::proofs::Cited::none_added))]
    fn encode_fields<W: Writer>(&self, _writer: &mut W) -> Result<(), Error> {
        Ok(())
    }
}
