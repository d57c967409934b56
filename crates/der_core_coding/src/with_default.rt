//! A field with a default value (X.690 11.5).

ghost use Rattle.std.specs.Prelude.{Ok, refl};
ghost use Rattle.der_core_values.specs.CoreHead.Shapes.{defaulted};

use crate::kinds::DefaultValue;
use der_core_values::core_head::{Error, ErrorKind, Length};
use der_core_values::core_octets::{Reader, Writer};
use der_core_values::{AsRead, Choice, Decode, Encode, InRange, Shaped};
use std::alloc::Global;

/// A value of a field that is absent if the value is the default.
#[derive(Debug, Drop, PartialEq, Eq, Hash)]
pub struct WithDefault<T> {
    /// The value, which isn't encoded if it is the default.
    pub value: T,
}

impl<T: DefaultValue> Shaped for WithDefault<T> {
    ghost shape = { defaulted T.shape T.default_octets };

    ghost plain = { λ x. T.plain x.value };

    ghost written = { λ x. T.plain x.value };
}

impl<T: DefaultValue> AsRead for WithDefault<T> {
    ghost as_read = { λ _. refl };
}

impl<'a, R: Reader<'a>, T: Decode<'a, R> + Choice + DefaultValue> Decode<'a, R> for WithDefault<T> {
    // Inlined, because one byte shows that the field is absent.
    #[inline(always)]
    #[tactic(auto, unfolding(crate::specs::Opened::default_at))]
    fn decode(alloc: Global, reader: &mut R) -> Result<WithDefault<T>, Error> {
        let Some(tag) = reader.next_tag_or_end()? else {
            return Ok(WithDefault {
                value: T::default_value(),
            });
        };
        if !T::can_decode(tag) {
            return Ok(WithDefault {
                value: T::default_value(),
            });
        }
        let place = reader.position();
        let value = T::decode(alloc, reader)?;
        if value.is_default() {
            reader.fail();
            return Err(ErrorKind::Noncanonical { tag }.at(place));
        }
        Ok(WithDefault { value })
    }
}

impl<T: Encode + DefaultValue> Encode for WithDefault<T> {
    // Inlined, so that the result isn't moved.
    #[inline(always)]
    #[tactic(auto, unfolding(crate::specs::Opened::default_len))]
    fn encoded_len(&self) -> Result<Length, Error> {
        if self.value.is_default() {
            Ok(Length { value: 0 })
        } else {
            self.value.encoded_len()
        }
    }

    // Inlined, so that the result isn't moved.
    #[inline(always)]
    #[tactic(auto, using(crate::proofs::Cited::none_added), unfolding(crate::specs::Opened::default_write, crate::specs::Opened::octets_of, crate::specs::Opened::unless))]
    fn encode<W: Writer>(&self, writer: &mut W) -> Result<(), Error> {
        if self.value.is_default() {
            Ok(())
        } else {
            self.value.encode(writer)
        }
    }
}

/// The default is in range, too, although it isn't encoded.
impl<T: InRange + DefaultValue> InRange for WithDefault<T> {
    fn in_range(&self) {
        self.value.in_range();
        // Only for the proof: `is_default` states that a default is valid.
        let _absent = self.value.is_default();
    }
}
