//! Values in a box.

use crate::decode::{DecodeValue, FixedTag, ShapedValue};
use crate::elements::{ApartValue, AsReadValue};
use crate::encode::EncodeValue;
use crate::in_range::InRangeValue;
use der_core_octets::core_head::{Error, Length, Tag};
use der_core_octets::{Header, Reader, Writer};
use std::alloc::Global;

impl<T: FixedTag> FixedTag for Box<T> {
    ghost fixed_tag = { T.fixed_tag };

    fn tag() -> Tag {
        T::tag()
    }
}

impl<T: ShapedValue> ShapedValue for Box<T> {
    ghost content = { T.content };

    ghost value_plain = { λ b. T.value_plain b.value };

    ghost value_written = { λ b. T.value_written b.value };
}

impl<'a, R: Reader<'a>, T: DecodeValue<'a, R>> DecodeValue<'a, R> for Box<T> {
    fn decode_value(alloc: Global, reader: &mut R, header: Header) -> Result<Box<T>, Error> {
        let value = T::decode_value(alloc, reader, header)?;
        match Box::new(alloc, value) {
            Ok(boxed) => Ok(boxed),
            Err(error) => {
                reader.fail();
                Err(Error::from(error))
            }
        }
    }
}

impl<T: EncodeValue> EncodeValue for Box<T> {
    fn value_len(&self) -> Result<Length, Error> {
        (**self).value_len()
    }

    fn encode_value<W: Writer>(&self, writer: &mut W) -> Result<(), Error> {
        (**self).encode_value(writer)
    }
}

impl<T: ApartValue> ApartValue for Box<T> {
    ghost apart_value = { T.apart_value };
}

impl<T: AsReadValue> AsReadValue for Box<T> {
    ghost as_read_value = { λ b. T.as_read_value b.value };
}

impl<T: InRangeValue> InRangeValue for Box<T> {
    fn value_in_range(&self) {
        (**self).value_in_range();
    }
}
