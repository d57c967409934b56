//! SEQUENCE OF with at least one member.

ghost use Rattle.std.specs.Prelude.{◌≡◌, ◌∷◌, slice_get, option_copied};
ghost use Rattle.der_core.specs.Grammar.{plain_list};
ghost use Rattle.der_core.specs.Shapes.{field, many};

use der_core::describing::{AsRecord, Described, LentRow, RowUser, Rows};
use der_core::making::{elements_cmp, encode_members, members_len};
use der_core::{
    AsRead, Decode, DecodeFields, DerOrd, Element, Encode, EncodeRef, Error, Fields, FirstTag,
    Length, Member, Reader, Shaped, Tag, Writer,
};
use std::alloc::Global;
use std::cmp::Ordering;

/// SEQUENCE OF (X.690 8.10) with at least one member: `SIZE (1..MAX)`. Decoding an empty SEQUENCE
/// returns the error `Incomplete`.
#[derive(Debug, Drop, PartialEq, Eq)]
pub struct OneOrMore<T> {
    /// The first member.
    pub first: T,
    /// The members after the first one.
    pub others: Vec<T>,
}

impl<T> OneOrMore<T> {
    /// Returns the member at an index, or `None` if there is no member at this index.
    pub fn get(&self, index: usize) -> Option<&T>
        ensures { option_copied result
            ≡ slice_get (self.now.first ∷ self.now.others.items) index }
    {
        if index == 0 {
            Some(&self.first)
        } else {
            self.others.as_slice().get(index - 1)
        }
    }
}

impl<T: Encode + DerOrd + FirstTag + Element + Member> Described for OneOrMore<T> {
    type By = AsRecord;
}

impl<T: Shaped> Fields for OneOrMore<T> {
    ghost fields = { field T.shape (many T.shape) };

    ghost fields_plain = { λ v. (T.plain v.first, plain_list T.plain v.others.items) };

    ghost fields_written = { λ v. (T.written v.first, plain_list T.written v.others.items) };
}

impl<'a, R: Reader<'a>, T: Decode<'a, R>> DecodeFields<'a, R> for OneOrMore<T> {
    fn decode_fields(alloc: Global, reader: &mut R) -> Result<OneOrMore<T>, Error> {
        let first = T::decode(alloc, reader)?;
        let others = Vec::<T>::decode_fields(alloc, reader)?;
        Ok(OneOrMore { first, others })
    }
}

impl<T: Encode + DerOrd + FirstTag + Element + Member> Rows for OneOrMore<T> {
    ghost use Rattle.der_types_more.specs.FirstMembers.{one_apart};

    fn with_rows<U: RowUser>(&self, other: &Self, user: &mut U) -> U::Answer {
        user.take_lent(
            &(EncodeRef(&self.first), Members(self.others.as_slice())),
            &(EncodeRef(&other.first), Members(other.others.as_slice())),
        )
    }

    ghost apart = { one_apart T.shape T.element T.apart };
}

/// The members after the first one, as the last part of a row.
#[derive(Drop)]
struct Members<'a, T>(&'a [T]);

impl<'a, T: Encode + DerOrd + FirstTag> LentRow for Members<'a, T> {
    ghost fields = { many T.shape };

    ghost fields_written = { λ r. plain_list T.written r.0.now };

    fn row_len(&self) -> Result<Length, Error> {
        members_len(self.0)
    }

    fn encode_row<W: Writer>(&self, writer: &mut W) -> Result<(), Error> {
        encode_members(self.0, writer)
    }

    fn row_cmp(&self, other: &Self) -> Result<Ordering, Error> {
        elements_cmp(self.0, other.0)
    }

    #[tactic(auto, using(crate::proofs::FirstMembers::list_starts, crate::proofs::FirstMembers::none_starts))]
    fn row_tag(&self) -> Option<Tag> {
        match self.0 {
            [first, ..] => first.first_tag(),
            [] => None,
        }
    }
}
