//! ResponderId.

ghost use Rattle.std.specs.Prelude.{◌≡◌, refl};
ghost use Rattle.std.proofs.Common.{inl, inr};
ghost use Rattle.der_core.specs.Shapes.{Value};
ghost use Rattle.pki_ocsp.specs.declared.responder_id.ResponderId.TheVariants as cases;

use crate::aliases::KeyHash;
use der_core::describing::{LentField, ReadCase};
use der_core::making::{cases_cmp, cases_tag};
use der_core::{
    AsRead, Choice, Decode, DerOrd, Element, Encode, EncodeRef, Error, Explicit, FirstTag, Length,
    Member, OneOf2, Reader, Shaped, Tag, Writer, case,
};
use std::alloc::Global;
use std::cmp::Ordering;
use x509_cert_reading::Name;

/// ```text
/// ResponderID ::= CHOICE {
///     byName              [1] Name,
///     byKey               [2] KeyHash }
/// ```
#[derive(Debug, Drop, PartialEq, Eq)]
pub enum ResponderId {
    ByName(Name),
    ByKey(KeyHash),
}

type Cases = OneOf2<Explicit<Name, 1>, Explicit<KeyHash, 2>>;

type CasesRef<'a> = OneOf2<Explicit<EncodeRef<'a, Name>, 1>, Explicit<EncodeRef<'a, KeyHash>, 2>>;

impl ResponderId {
    /// Returns a reference to the alternative.
    fn cases<'a>(&'a self) -> CasesRef<'a>
        ensures { ◌≡◌ {A = Value ⟦<CasesRef<'a> as LentField>⟧.shape}
            (⟦<CasesRef<'a> as LentField>⟧.written result)
            (⟦<ResponderId as Shaped>⟧.written self.now) }
    {
        match self {
            ResponderId::ByName(value) => case!(1 of 2: Explicit { value: EncodeRef(value) }),
            ResponderId::ByKey(value) => case!(2 of 2: Explicit { value: EncodeRef(value) }),
        }
    }
}

impl Shaped for ResponderId {
    ghost shape = { ⟦<Cases as Shaped>⟧.shape };

    ghost plain = { λ x. elim x [
      | cases.ByName v ↦ inl (⟦<Name as Shaped>⟧.plain v)
      | cases.ByKey v ↦ inr (⟦<KeyHash as Shaped>⟧.plain v)
    ] };

    ghost written = { λ x. elim x [
      | cases.ByName v ↦ inl (⟦<Name as Shaped>⟧.written v)
      | cases.ByKey v ↦ inr (⟦<KeyHash as Shaped>⟧.written v)
    ] };
}

impl Choice for ResponderId {
    fn can_decode(tag: Tag) -> bool {
        Cases::can_decode(tag)
    }
}

impl<'a, R: Reader<'a>> Decode<'a, R> for ResponderId {
    fn decode(alloc: Global, reader: &mut R) -> Result<ResponderId, Error> {
        match Cases::read_case(alloc, reader)? {
            case!(1 of 2: value) => Ok(ResponderId::ByName(value.value)),
            case!(2 of 2: value) => Ok(ResponderId::ByKey(value.value)),
        }
    }
}

impl Encode for ResponderId {
    fn encoded_len(&self) -> Result<Length, Error> {
        self.cases().field_len()
    }

    fn encode<W: Writer>(&self, writer: &mut W) -> Result<(), Error> {
        self.cases().encode_field(writer)
    }
}

impl Element for ResponderId {
    ghost element = { refl };
}

impl Member for ResponderId {
    ghost apart = { refl };
}

impl AsRead for ResponderId {
    ghost as_read = { λ _. refl };
}

/// Compares the tags first, and then the contents.
impl DerOrd for ResponderId {
    fn der_cmp(&self, other: &Self) -> Result<Ordering, Error> {
        cases_cmp(&self.cases(), &other.cases())
    }
}

impl FirstTag for ResponderId {
    fn first_tag(&self) -> Option<Tag> {
        cases_tag(&self.cases())
    }
}
