//! Optional values.

ghost use Rattle.der_core_octets.specs.CoreHead.Shapes.{optional};
ghost use Rattle.der_core_octets.specs.CoreHead.Grammar.{plain_option};

use crate::decode::{Choice, Decode, Shaped};
use crate::elements::AsRead;
use crate::encode::Encode;
use crate::in_range::InRange;
use der_core_octets::core_head::{Error, Length};
use der_core_octets::{Reader, Writer};
use std::alloc::Global;

impl<T: Shaped> Shaped for Option<T> {
    ghost shape = { optional T.shape };

    ghost plain = { plain_option T.plain };

    ghost written = { plain_option T.written };
}

impl<'a, R: Reader<'a>, T: Decode<'a, R> + Choice> Decode<'a, R> for Option<T> {
    #[tactic(auto, unfolding(crate::specs::Opened::opt_at))]
    fn decode(alloc: Global, reader: &mut R) -> Result<Option<T>, Error> {
        let Some(tag) = reader.next_tag_or_end()? else {
            return Ok(None);
        };
        if T::can_decode(tag) {
            Ok(Some(T::decode(alloc, reader)?))
        } else {
            Ok(None)
        }
    }
}

impl<T: Encode> Encode for Option<T> {
    // Inlined, so that the result isn't moved.
    #[inline(always)]
    fn encoded_len(&self) -> Result<Length, Error> {
        match self {
            Some(value) => value.encoded_len(),
            None => Ok(Length { value: 0 }),
        }
    }

    #[tactic(auto, using(der_core_octets::proofs::Added::none_added), unfolding(crate::specs::Opened::octets_of))]
    fn encode<W: Writer>(&self, writer: &mut W) -> Result<(), Error> {
        match self {
            Some(value) => value.encode(writer),
            None => Ok(()),
        }
    }
}

impl<T: AsRead> AsRead for Option<T> {
    ghost use Rattle.der_core_values.specs.Same.{same_option};

    ghost as_read = { same_option T.as_read };
}

impl<T: InRange> InRange for Option<T> {
    fn in_range(&self) {
        if let Some(value) = self {
            value.in_range();
        }
    }
}
