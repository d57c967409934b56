//! CertificateChoices.

ghost use Rattle.std.specs.Prelude.{◌≡◌, refl};
ghost use Rattle.std.proofs.Common.{inl, inr};
ghost use Rattle.der_core.specs.Shapes.{Value};
ghost use Rattle.pki_cms.specs.declared.certificate_choices.CertificateChoices.TheVariants as cases;

use crate::other_certificate_format::OtherCertificateFormat;
use der_core::describing::{LentField, ReadCase, Whole};
use der_core::making::{cases_cmp, cases_tag};
use der_core::{
    AsRead, Choice, Decode, DerOrd, Element, Encode, EncodeRef, Error, FirstTag, Implicit,
    ImplicitRef, Length, Member, OneOf5, Reader, Shaped, ShapedValue, Tag, Writer, case,
};
use der_types_more::SequenceOwned;
use std::alloc::Global;
use std::cmp::Ordering;
use x509_cert_reading::{CertificateInner, Raw};

/// ```text
/// CertificateChoices ::= CHOICE {
///     certificate Certificate,
///     extendedCertificate [0] IMPLICIT ExtendedCertificate,  -- Obsolete
///     v1AttrCert [1] IMPLICIT AttributeCertificateV1,        -- Obsolete
///     v2AttrCert [2] IMPLICIT AttributeCertificateV2,
///     other [3] IMPLICIT OtherCertificateFormat }
/// ```
#[derive(Debug, Drop, PartialEq, Eq)]
pub enum CertificateChoices {
    Certificate(CertificateInner<Raw>),
    ExtendedCertificate(SequenceOwned),
    V1AttrCert(SequenceOwned),
    V2AttrCert(SequenceOwned),
    Other(OtherCertificateFormat),
}

type Cases = OneOf5<
    Whole<CertificateInner<Raw>>,
    Implicit<SequenceOwned, 0>,
    Implicit<SequenceOwned, 1>,
    Implicit<SequenceOwned, 2>,
    Implicit<OtherCertificateFormat, 3>,
>;

type CasesRef<'a> = OneOf5<
    EncodeRef<'a, CertificateInner<Raw>>,
    ImplicitRef<'a, SequenceOwned, 0>,
    ImplicitRef<'a, SequenceOwned, 1>,
    ImplicitRef<'a, SequenceOwned, 2>,
    ImplicitRef<'a, OtherCertificateFormat, 3>,
>;

impl CertificateChoices {
    /// Returns a reference to the alternative.
    fn cases<'a>(&'a self) -> CasesRef<'a>
        ensures { ◌≡◌ {A = Value ⟦<CasesRef<'a> as LentField>⟧.shape}
            (⟦<CasesRef<'a> as LentField>⟧.written result)
            (⟦<CertificateChoices as Shaped>⟧.written self.now) }
    {
        match self {
            CertificateChoices::Certificate(value) => case!(1 of 5: EncodeRef(value)),
            CertificateChoices::ExtendedCertificate(value) => {
                case!(2 of 5: ImplicitRef { value: value })
            }
            CertificateChoices::V1AttrCert(value) => case!(3 of 5: ImplicitRef { value: value }),
            CertificateChoices::V2AttrCert(value) => case!(4 of 5: ImplicitRef { value: value }),
            CertificateChoices::Other(value) => case!(5 of 5: ImplicitRef { value: value }),
        }
    }
}

impl Shaped for CertificateChoices {
    ghost shape = { ⟦<Cases as Shaped>⟧.shape };

    ghost plain = { λ x. elim x [
      | cases.Certificate v ↦ inl (⟦<CertificateInner<Raw> as Shaped>⟧.plain v)
      | cases.ExtendedCertificate v ↦ inr (inl (⟦<SequenceOwned as ShapedValue>⟧.value_plain v))
      | cases.V1AttrCert v ↦ inr (inr (inl (⟦<SequenceOwned as ShapedValue>⟧.value_plain v)))
      | cases.V2AttrCert v ↦ inr (inr (inr (inl (⟦<SequenceOwned as ShapedValue>⟧.value_plain v))))
      | cases.Other v ↦ inr (inr (inr (inr
          (⟦<OtherCertificateFormat as ShapedValue>⟧.value_plain v))))
    ] };

    ghost written = { λ x. elim x [
      | cases.Certificate v ↦ inl (⟦<CertificateInner<Raw> as Shaped>⟧.written v)
      | cases.ExtendedCertificate v ↦ inr (inl (⟦<SequenceOwned as ShapedValue>⟧.value_written v))
      | cases.V1AttrCert v ↦ inr (inr (inl (⟦<SequenceOwned as ShapedValue>⟧.value_written v)))
      | cases.V2AttrCert v ↦ inr (inr (inr (inl
          (⟦<SequenceOwned as ShapedValue>⟧.value_written v))))
      | cases.Other v ↦ inr (inr (inr (inr
          (⟦<OtherCertificateFormat as ShapedValue>⟧.value_written v))))
    ] };
}

impl Choice for CertificateChoices {
    fn can_decode(tag: Tag) -> bool {
        Cases::can_decode(tag)
    }
}

impl<'a, R: Reader<'a>> Decode<'a, R> for CertificateChoices {
    fn decode(alloc: Global, reader: &mut R) -> Result<CertificateChoices, Error> {
        match Cases::read_case(alloc, reader)? {
            case!(1 of 5: value) => Ok(CertificateChoices::Certificate(value.0)),
            case!(2 of 5: value) => Ok(CertificateChoices::ExtendedCertificate(value.value)),
            case!(3 of 5: value) => Ok(CertificateChoices::V1AttrCert(value.value)),
            case!(4 of 5: value) => Ok(CertificateChoices::V2AttrCert(value.value)),
            case!(5 of 5: value) => Ok(CertificateChoices::Other(value.value)),
        }
    }
}

impl Encode for CertificateChoices {
    fn encoded_len(&self) -> Result<Length, Error> {
        self.cases().field_len()
    }

    fn encode<W: Writer>(&self, writer: &mut W) -> Result<(), Error> {
        self.cases().encode_field(writer)
    }
}

impl Element for CertificateChoices {
    ghost element = { refl };
}

impl Member for CertificateChoices {
    ghost apart = { refl };
}

impl AsRead for CertificateChoices {
    ghost as_read = { λ _. refl };
}

/// Compares the tags first, and then the contents.
impl DerOrd for CertificateChoices {
    fn der_cmp(&self, other: &Self) -> Result<Ordering, Error> {
        cases_cmp(&self.cases(), &other.cases())
    }
}

impl FirstTag for CertificateChoices {
    fn first_tag(&self) -> Option<Tag> {
        cases_tag(&self.cases())
    }
}
