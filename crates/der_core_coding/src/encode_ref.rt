//! Encoding a value through a reference.

ghost use Rattle.std.specs.Prelude.{◌≡◌};

use der_core_values::core_head::{Error, Length};
use der_core_values::core_octets::Writer;
use der_core_values::{AsRead, Element, Encode, InRange, Member, Shaped};

/// A reference to a value, which is encoded as the value.
#[derive(Drop)]
pub struct EncodeRef<'a, T>(pub &'a T);

impl<'a, T> AsRef<T> for EncodeRef<'a, T> {
    fn as_ref(&self) -> &T
        ensures { result.now ≡ self.now.0.now }
    {
        self.0
    }
}

impl<'a, T: Shaped> Shaped for EncodeRef<'a, T> {
    ghost shape = { T.shape };

    ghost plain = { λ r. T.plain r.0.now };

    ghost written = { λ r. T.written r.0.now };
}

impl<'a, T: Encode> Encode for EncodeRef<'a, T> {
    // Inlined, so that the result isn't moved.
    #[inline(always)]
    fn encoded_len(&self) -> Result<Length, Error> {
        self.0.encoded_len()
    }

    // Inlined, so that the result isn't moved.
    #[inline(always)]
    fn encode<W: Writer>(&self, writer: &mut W) -> Result<(), Error> {
        self.0.encode(writer)
    }
}

impl<'a, T: Element> Element for EncodeRef<'a, T> {
    ghost element = { T.element };
}

impl<'a, T: Member> Member for EncodeRef<'a, T> {
    ghost apart = { T.apart };
}

impl<'a, T: AsRead> AsRead for EncodeRef<'a, T> {
    ghost as_read = { λ r. T.as_read r.0.now };
}

impl<'a, T: InRange> InRange for EncodeRef<'a, T> {
    fn in_range(&self) {
        self.0.in_range();
    }
}
