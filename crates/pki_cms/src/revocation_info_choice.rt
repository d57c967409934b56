//! RevocationInfoChoice.

ghost use Rattle.std.specs.Prelude.{◌≡◌, refl};
ghost use Rattle.std.proofs.Common.{inl, inr};
ghost use Rattle.der_core.specs.Shapes.{Value};
ghost use Rattle.pki_cms.specs.declared.revocation_info_choice.RevocationInfoChoice.TheVariants as cases;

use crate::other_revocation_info_format::OtherRevocationInfoFormat;
use der_core::describing::{LentField, ReadCase, Whole};
use der_core::making::{cases_cmp, cases_tag};
use der_core::{
    AsRead, Choice, Decode, DerOrd, Element, Encode, EncodeRef, Error, FirstTag, Implicit,
    ImplicitRef, Length, Member, OneOf2, Reader, Shaped, ShapedValue, Tag, Writer, case,
};
use std::alloc::Global;
use std::cmp::Ordering;
use x509_cert_reading::{CertificateList, Raw};

/// ```text
/// RevocationInfoChoice ::= CHOICE {
///     crl CertificateList,
///     other [1] IMPLICIT OtherRevocationInfoFormat }
/// ```
#[derive(Debug, Drop, PartialEq, Eq)]
pub enum RevocationInfoChoice {
    Crl(CertificateList<Raw>),
    Other(OtherRevocationInfoFormat),
}

type Cases = OneOf2<Whole<CertificateList<Raw>>, Implicit<OtherRevocationInfoFormat, 1>>;

type CasesRef<'a> = OneOf2<
    EncodeRef<'a, CertificateList<Raw>>,
    ImplicitRef<'a, OtherRevocationInfoFormat, 1>,
>;

impl RevocationInfoChoice {
    /// Returns a reference to the alternative.
    fn cases<'a>(&'a self) -> CasesRef<'a>
        ensures { ◌≡◌ {A = Value ⟦<CasesRef<'a> as LentField>⟧.shape}
            (⟦<CasesRef<'a> as LentField>⟧.written result)
            (⟦<RevocationInfoChoice as Shaped>⟧.written self.now) }
    {
        match self {
            RevocationInfoChoice::Crl(value) => case!(1 of 2: EncodeRef(value)),
            RevocationInfoChoice::Other(value) => case!(2 of 2: ImplicitRef { value: value }),
        }
    }
}

impl Shaped for RevocationInfoChoice {
    ghost shape = { ⟦<Cases as Shaped>⟧.shape };

    ghost plain = { λ x. elim x [
      | cases.Crl v ↦ inl (⟦<CertificateList<Raw> as Shaped>⟧.plain v)
      | cases.Other v ↦ inr (⟦<OtherRevocationInfoFormat as ShapedValue>⟧.value_plain v)
    ] };

    ghost written = { λ x. elim x [
      | cases.Crl v ↦ inl (⟦<CertificateList<Raw> as Shaped>⟧.written v)
      | cases.Other v ↦ inr (⟦<OtherRevocationInfoFormat as ShapedValue>⟧.value_written v)
    ] };
}

impl Choice for RevocationInfoChoice {
    fn can_decode(tag: Tag) -> bool {
        Cases::can_decode(tag)
    }
}

impl<'a, R: Reader<'a>> Decode<'a, R> for RevocationInfoChoice {
    fn decode(alloc: Global, reader: &mut R) -> Result<RevocationInfoChoice, Error> {
        match Cases::read_case(alloc, reader)? {
            case!(1 of 2: value) => Ok(RevocationInfoChoice::Crl(value.0)),
            case!(2 of 2: value) => Ok(RevocationInfoChoice::Other(value.value)),
        }
    }
}

impl Encode for RevocationInfoChoice {
    fn encoded_len(&self) -> Result<Length, Error> {
        self.cases().field_len()
    }

    fn encode<W: Writer>(&self, writer: &mut W) -> Result<(), Error> {
        self.cases().encode_field(writer)
    }
}

impl Element for RevocationInfoChoice {
    ghost element = { refl };
}

impl Member for RevocationInfoChoice {
    ghost apart = { refl };
}

impl AsRead for RevocationInfoChoice {
    ghost as_read = { λ _. refl };
}

/// Compares the tags first, and then the contents.
impl DerOrd for RevocationInfoChoice {
    fn der_cmp(&self, other: &Self) -> Result<Ordering, Error> {
        cases_cmp(&self.cases(), &other.cases())
    }
}

impl FirstTag for RevocationInfoChoice {
    fn first_tag(&self) -> Option<Tag> {
        cases_tag(&self.cases())
    }
}
