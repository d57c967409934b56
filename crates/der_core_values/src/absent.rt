//! A field without bytes: `PhantomData`.

ghost use Rattle.std.specs.Prelude.{refl};
ghost use Rattle.der_core_octets.specs.CoreHead.Shapes.{nothing, done};

use crate::decode::{Choice, Decode, Shaped};
use crate::elements::{AsRead, Member};
use crate::encode::Encode;
use crate::fields::{DecodeRow, FieldRow};
use crate::in_range::InRange;
use der_core_octets::core_head::{Error, ErrorKind, Length, Tag};
use der_core_octets::{Reader, Writer};
use std::alloc::Global;
use std::marker::PhantomData;

/// The encoding is empty, whatever `T` is.
impl<T> Shaped for PhantomData<T> {
    ghost shape = { nothing };

    ghost plain = { λ _. tt };

    ghost written = { λ _. tt };
}

impl<T> Choice for PhantomData<T> {
    fn can_decode(_tag: Tag) -> bool {
        false
    }
}

impl<T> Member for PhantomData<T> {
    ghost apart = { refl };
}

impl<T> AsRead for PhantomData<T> {
    ghost as_read = { λ _. refl };
}

/// Decoding consumes nothing.
impl<'a, R: Reader<'a>, T> Decode<'a, R> for PhantomData<T> {
    fn decode(_alloc: Global, reader: &mut R) -> Result<PhantomData<T>, Error> {
        if reader.is_failed() {
            return Err(Error::from(ErrorKind::Failed));
        }
        Ok(PhantomData)
    }
}

impl<T> Encode for PhantomData<T> {
    fn encoded_len(&self) -> Result<Length, Error> {
        Ok(Length { value: 0 })
    }

    #[tactic(auto, using(der_core_octets::proofs::Added::none_added))]
    fn encode<W: Writer>(&self, _writer: &mut W) -> Result<(), Error> {
        Ok(())
    }
}

/// The row is empty.
impl<T> FieldRow for PhantomData<T> {
    ghost fields = { done };

    ghost fields_plain = { λ _. tt };

    ghost fields_written = { λ _. tt };
}

impl<'a, R: Reader<'a>, T> DecodeRow<'a, R> for PhantomData<T> {
    fn decode_row(_alloc: Global, reader: &mut R) -> Result<PhantomData<T>, Error> {
        if reader.is_failed() {
            return Err(Error::from(ErrorKind::Failed));
        }
        Ok(PhantomData)
    }
}

impl<T> InRange for PhantomData<T> {
    fn in_range(&self) {}
}
