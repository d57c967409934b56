//! A choice.

ghost use Rattle.std.specs.Prelude.{◌≡◌, refl};
ghost use Rattle.std.proofs.Common.{inl, inr};
ghost use Rattle.example_own_types.specs.declared.holder.Holder.TheVariants as holders;

use der_core::describing::LentField;
use der_core::making::{cases_cmp, cases_tag};
use der_core::{
    Choice, Decode, DerOrd, Element, Encode, EncodeRef, Error, FirstTag, Length, Member, OneOf2,
    Reader, Shaped, Tag, Writer,
};
use std::alloc::Global;
use std::cmp::Ordering;

/// ```text
/// Holder ::= CHOICE { number INTEGER (0..4294967295), name UTF8String }
/// ```
#[derive(Debug, Drop)]
pub enum Holder {
    Number(u32),
    Name(String),
}

type Cases = OneOf2<u32, String>;

type CasesRef<'a> = OneOf2<EncodeRef<'a, u32>, EncodeRef<'a, String>>;

impl Holder {
    /// Returns a reference to the alternative.
    fn cases<'a>(&'a self) -> CasesRef<'a>
        ensures { ⟦<CasesRef<'a> as LentField>⟧.written result
            ≡ ⟦<Holder as Shaped>⟧.written self.now }
    {
        match self {
            Holder::Number(number) => OneOf2::First(EncodeRef(number)),
            Holder::Name(name) => OneOf2::Second(EncodeRef(name)),
        }
    }
}

impl Shaped for Holder {
    ghost shape = { ⟦<Cases as Shaped>⟧.shape };

    ghost plain = { λ h. elim h [
      | holders.Number n ↦ inl (⟦<u32 as Shaped>⟧.plain n)
      | holders.Name t ↦ inr (⟦<String as Shaped>⟧.plain t)
    ] };

    ghost written = { λ h. elim h [
      | holders.Number n ↦ inl (⟦<u32 as Shaped>⟧.written n)
      | holders.Name t ↦ inr (⟦<String as Shaped>⟧.written t)
    ] };
}

impl Choice for Holder {
    fn can_decode(tag: Tag) -> bool {
        Cases::can_decode(tag)
    }
}

impl<'a, R: Reader<'a>> Decode<'a, R> for Holder {
    fn decode(alloc: Global, reader: &mut R) -> Result<Holder, Error> {
        match Cases::decode(alloc, reader)? {
            OneOf2::First(number) => Ok(Holder::Number(number)),
            OneOf2::Second(name) => Ok(Holder::Name(name)),
        }
    }
}

impl Encode for Holder {
    fn encoded_len(&self) -> Result<Length, Error> {
        self.cases().field_len()
    }

    fn encode<W: Writer>(&self, writer: &mut W) -> Result<(), Error> {
        self.cases().encode_field(writer)
    }
}

impl Element for Holder {
    ghost element = { refl };
}

impl Member for Holder {
    ghost apart = { refl };
}

/// Compares the tags first, and then the contents.
impl DerOrd for Holder {
    fn der_cmp(&self, other: &Self) -> Result<Ordering, Error> {
        cases_cmp(&self.cases(), &other.cases())
    }
}

impl FirstTag for Holder {
    fn first_tag(&self) -> Option<Tag> {
        cases_tag(&self.cases())
    }
}
