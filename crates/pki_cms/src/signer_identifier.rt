//! SignerIdentifier.

ghost use Rattle.std.specs.Prelude.{◌≡◌, refl};
ghost use Rattle.std.proofs.Common.{inl, inr};
ghost use Rattle.der_core.specs.Shapes.{Value};
ghost use Rattle.pki_cms.specs.declared.signer_identifier.SignerIdentifier.TheVariants as cases;

use crate::aliases::SubjectKeyIdentifier;
use crate::issuer_and_serial_number::IssuerAndSerialNumber;
use der_core::describing::{LentField, ReadCase, Whole};
use der_core::making::{cases_cmp, cases_tag};
use der_core::{
    AsRead, Choice, Decode, DerOrd, Element, Encode, EncodeRef, Error, FirstTag, Implicit,
    ImplicitRef, Length, Member, OneOf2, Reader, Shaped, ShapedValue, Tag, Writer, case,
};
use std::alloc::Global;
use std::cmp::Ordering;

/// ```text
/// SignerIdentifier ::= CHOICE {
///     issuerAndSerialNumber IssuerAndSerialNumber,
///     subjectKeyIdentifier [0] SubjectKeyIdentifier }
/// ```
#[derive(Debug, Drop, PartialEq, Eq)]
pub enum SignerIdentifier {
    IssuerAndSerialNumber(IssuerAndSerialNumber),
    SubjectKeyIdentifier(SubjectKeyIdentifier),
}

type Cases = OneOf2<Whole<IssuerAndSerialNumber>, Implicit<SubjectKeyIdentifier, 0>>;

type CasesRef<'a> = OneOf2<
    EncodeRef<'a, IssuerAndSerialNumber>,
    ImplicitRef<'a, SubjectKeyIdentifier, 0>,
>;

impl SignerIdentifier {
    /// Returns a reference to the alternative.
    fn cases<'a>(&'a self) -> CasesRef<'a>
        ensures { ◌≡◌ {A = Value ⟦<CasesRef<'a> as LentField>⟧.shape}
            (⟦<CasesRef<'a> as LentField>⟧.written result)
            (⟦<SignerIdentifier as Shaped>⟧.written self.now) }
    {
        match self {
            SignerIdentifier::IssuerAndSerialNumber(value) => case!(1 of 2: EncodeRef(value)),
            SignerIdentifier::SubjectKeyIdentifier(value) => {
                case!(2 of 2: ImplicitRef { value: value })
            }
        }
    }
}

impl Shaped for SignerIdentifier {
    ghost shape = { ⟦<Cases as Shaped>⟧.shape };

    ghost plain = { λ x. elim x [
      | cases.IssuerAndSerialNumber v ↦ inl (⟦<IssuerAndSerialNumber as Shaped>⟧.plain v)
      | cases.SubjectKeyIdentifier v ↦ inr (⟦<SubjectKeyIdentifier as ShapedValue>⟧.value_plain v)
    ] };

    ghost written = { λ x. elim x [
      | cases.IssuerAndSerialNumber v ↦ inl (⟦<IssuerAndSerialNumber as Shaped>⟧.written v)
      | cases.SubjectKeyIdentifier v ↦ inr (⟦<SubjectKeyIdentifier as ShapedValue>⟧.value_written v)
    ] };
}

impl Choice for SignerIdentifier {
    fn can_decode(tag: Tag) -> bool {
        Cases::can_decode(tag)
    }
}

impl<'a, R: Reader<'a>> Decode<'a, R> for SignerIdentifier {
    fn decode(alloc: Global, reader: &mut R) -> Result<SignerIdentifier, Error> {
        match Cases::read_case(alloc, reader)? {
            case!(1 of 2: value) => Ok(SignerIdentifier::IssuerAndSerialNumber(value.0)),
            case!(2 of 2: value) => Ok(SignerIdentifier::SubjectKeyIdentifier(value.value)),
        }
    }
}

impl Encode for SignerIdentifier {
    fn encoded_len(&self) -> Result<Length, Error> {
        self.cases().field_len()
    }

    fn encode<W: Writer>(&self, writer: &mut W) -> Result<(), Error> {
        self.cases().encode_field(writer)
    }
}

impl Element for SignerIdentifier {
    ghost element = { refl };
}

impl Member for SignerIdentifier {
    ghost apart = { refl };
}

impl AsRead for SignerIdentifier {
    ghost as_read = { λ _. refl };
}

/// Compares the tags first, and then the contents.
impl DerOrd for SignerIdentifier {
    fn der_cmp(&self, other: &Self) -> Result<Ordering, Error> {
        cases_cmp(&self.cases(), &other.cases())
    }
}

impl FirstTag for SignerIdentifier {
    fn first_tag(&self) -> Option<Tag> {
        cases_tag(&self.cases())
    }
}
