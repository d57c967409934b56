//! SET OF whose members are in ascending order, with equal members allowed (X.690 8.12, 11.6).

ghost use Rattle.std.specs.Prelude.{◌≡◌, ◌==◌, length};
ghost use Rattle.der_core.specs.Grammar.{plain_list};
ghost use Rattle.der_core.specs.TagTypes.Tag.TheVariants.{Set};
ghost use Rattle.der_core.specs.Shapes.{ascending, nested};

use der_core::making::{check_in_order, elements_cmp, read_ascending, read_fields};
use der_core::{
    ApartValue, AsRead, AsReadValue, Decode, DecodeFields, DecodeValue, DerOrd, Element, Encode,
    EncodeValue, Error, Fields, FixedTag, Header, InRange, InRangeValue, Length, Member, Reader,
    Shaped, ShapedValue, Tag, ValueOrd, Writer,
};
use std::alloc::Global;
use std::cmp::Ordering;

/// SET OF in which equal members are allowed. It is encoded only if the encodings of its members
/// are in ascending order. Decoding members in another order returns the error `SetOrdering`.
#[derive(Clone, Debug, Drop, PartialEq, Eq)]
pub struct AscendingSetOf<T> {
    /// The members. Encoding fails if their encodings aren't in ascending order.
    pub values: Vec<T>,
}

impl<T> AscendingSetOf<T> {
    /// Returns the members in their order.
    pub fn as_slice(&self) -> &[T]
        ensures { result.now ≡ self.now.values.items }
    {
        self.values.as_slice()
    }

    /// Returns whether there are no members.
    pub fn is_empty(&self) -> bool
        ensures { result ≡ (length self.now.values.items == 0) }
    {
        self.values.is_empty()
    }

    /// Returns the number of members.
    pub fn len(&self) -> usize
        ensures { result ≡ length self.now.values.items }
    {
        self.values.len()
    }
}

impl<T> FixedTag for AscendingSetOf<T> {
    ghost fixed_tag = { Set };

    fn tag() -> Tag {
        Tag::Set
    }
}

impl<T: Shaped> Fields for AscendingSetOf<T> {
    ghost fields = { ascending T.shape };

    ghost fields_plain = { λ v. plain_list T.plain v.values.items };

    ghost fields_written = { λ v. plain_list T.written v.values.items };
}

impl<T: Shaped> ShapedValue for AscendingSetOf<T> {
    ghost content = { nested (ascending T.shape) };

    ghost value_plain = { λ v. plain_list T.plain v.values.items };

    ghost value_written = { λ v. plain_list T.written v.values.items };
}

impl<'a, R: Reader<'a>, T: Decode<'a, R> + Member> DecodeFields<'a, R> for AscendingSetOf<T> {
    fn decode_fields(alloc: Global, reader: &mut R) -> Result<AscendingSetOf<T>, Error> {
        let values = read_ascending(alloc, reader)?;
        Ok(AscendingSetOf { values })
    }
}

impl<'a, R: Reader<'a>, T: Decode<'a, R> + Member> DecodeValue<'a, R> for AscendingSetOf<T> {
    fn decode_value(
        alloc: Global,
        reader: &mut R,
        header: Header,
    ) -> Result<AscendingSetOf<T>, Error> {
        read_fields(alloc, reader, header)
    }
}

/// The content is the members, none of which may be less than the one before it.
///
/// The members are encoded before their order is checked, because then their lengths are known to
/// be valid.
impl<T: Encode + DerOrd + Member> EncodeValue for AscendingSetOf<T> {
    fn value_len(&self) -> Result<Length, Error> {
        self.values.value_len()
    }

    /// # Errors
    ///
    /// - The errors of the members and of the writer.
    /// - `SetOrdering`: an encoding is less than the one before it (X.690 11.6).
    #[tactic(auto, unfolding(crate::specs::Opened::contents))]
    fn encode_value<W: Writer>(&self, writer: &mut W) -> Result<(), Error> {
        self.values.encode_value(writer)?;
        check_in_order(self.values.as_slice(), true)
    }
}

impl<T: Element + Member> ApartValue for AscendingSetOf<T> {
    ghost use Rattle.der_core.specs.Both.{both_true};

    ghost apart_value = { both_true T.element T.apart };
}

impl<T: AsRead> AsReadValue for AscendingSetOf<T> {
    ghost use Rattle.der_core.specs.Same.{same_list};

    ghost as_read_value = { λ v. same_list T.as_read v.values.items };
}

impl<T: InRange> InRangeValue for AscendingSetOf<T> {
    fn value_in_range(&self) {
        self.values.value_in_range();
    }
}

/// Compares the concatenated encodings of the members.
impl<T: DerOrd> ValueOrd for AscendingSetOf<T> {
    #[tactic(auto, unfolding(crate::specs::Opened::contents, crate::specs::Opened::IsContent, crate::specs::Opened::body_octets, crate::specs::Opened::IsBody))]
    fn value_cmp(&self, other: &Self) -> Result<Ordering, Error> {
        elements_cmp(self.values.as_slice(), other.values.as_slice())
    }
}
