//! Members of a SET OF in the order of the input.

ghost use Rattle.der_core.specs.TagTypes.Tag.TheVariants.{Set};

use der_core::{DecodeValue, Error, FixedTag, Header, Reader, ShapedValue, Tag};
use std::alloc::Global;

/// The members of a SET OF as a list, in the order in which they were decoded, whatever that is.
#[derive(Drop)]
pub(crate) struct AnyOrder<L> {
    pub(crate) list: L,
}

impl<L> FixedTag for AnyOrder<L> {
    ghost fixed_tag = { Set };

    fn tag() -> Tag {
        Tag::Set
    }
}

impl<L: ShapedValue> ShapedValue for AnyOrder<L> {
    ghost content = { L.content };

    ghost value_plain = { λ v. L.value_plain v.list };

    ghost value_written = { λ v. L.value_written v.list };
}

impl<'a, R: Reader<'a>, L: DecodeValue<'a, R>> DecodeValue<'a, R> for AnyOrder<L> {
    fn decode_value(alloc: Global, reader: &mut R, header: Header) -> Result<AnyOrder<L>, Error> {
        let list = L::decode_value(alloc, reader, header)?;
        Ok(AnyOrder { list })
    }
}
