//! CertStatus.

ghost use Rattle.std.specs.Prelude.{◌≡◌, refl};
ghost use Rattle.std.proofs.Common.{inl, inr};
ghost use Rattle.der_core.specs.Shapes.{Value};
ghost use Rattle.pki_ocsp.specs.declared.cert_status.CertStatus.TheVariants as cases;

use crate::revoked_info::RevokedInfo;
use der_core::describing::{LentField, ReadCase};
use der_core::making::{cases_cmp, cases_tag};
use der_core::{
    AsRead, Choice, Decode, DerOrd, Element, Encode, Error, FirstTag, Implicit, ImplicitRef,
    Length, Member, OneOf3, Reader, Shaped, ShapedValue, Tag, Writer, case,
};
use std::alloc::Global;
use std::cmp::Ordering;

/// ```text
/// CertStatus ::= CHOICE {
///     good                [0] IMPLICIT NULL,
///     revoked             [1] IMPLICIT RevokedInfo,
///     unknown             [2] IMPLICIT UnknownInfo }
/// ```
#[derive(Debug, Drop, PartialEq, Eq)]
pub enum CertStatus {
    Good,
    Revoked(RevokedInfo),
    Unknown,
}

type Cases = OneOf3<Implicit<(), 0>, Implicit<RevokedInfo, 1>, Implicit<(), 2>>;

type CasesRef<'a> = OneOf3<
    ImplicitRef<'a, (), 0>,
    ImplicitRef<'a, RevokedInfo, 1>,
    ImplicitRef<'a, (), 2>,
>;

impl CertStatus {
    /// Returns a reference to the alternative.
    fn cases<'a>(&'a self) -> CasesRef<'a>
        ensures { ◌≡◌ {A = Value ⟦<CasesRef<'a> as LentField>⟧.shape}
            (⟦<CasesRef<'a> as LentField>⟧.written result)
            (⟦<CertStatus as Shaped>⟧.written self.now) }
    {
        match self {
            CertStatus::Good => case!(1 of 3: ImplicitRef { value: &() }),
            CertStatus::Revoked(value) => case!(2 of 3: ImplicitRef { value: value }),
            CertStatus::Unknown => case!(3 of 3: ImplicitRef { value: &() }),
        }
    }
}

impl Shaped for CertStatus {
    ghost shape = { ⟦<Cases as Shaped>⟧.shape };

    ghost plain = { λ x. elim x [
      | cases.Good ↦ inl (⟦<() as ShapedValue>⟧.value_plain tt)
      | cases.Revoked v ↦ inr (inl (⟦<RevokedInfo as ShapedValue>⟧.value_plain v))
      | cases.Unknown ↦ inr (inr (⟦<() as ShapedValue>⟧.value_plain tt))
    ] };

    ghost written = { λ x. elim x [
      | cases.Good ↦ inl (⟦<() as ShapedValue>⟧.value_written tt)
      | cases.Revoked v ↦ inr (inl (⟦<RevokedInfo as ShapedValue>⟧.value_written v))
      | cases.Unknown ↦ inr (inr (⟦<() as ShapedValue>⟧.value_written tt))
    ] };
}

impl Choice for CertStatus {
    fn can_decode(tag: Tag) -> bool {
        Cases::can_decode(tag)
    }
}

impl<'a, R: Reader<'a>> Decode<'a, R> for CertStatus {
    fn decode(alloc: Global, reader: &mut R) -> Result<CertStatus, Error> {
        match Cases::read_case(alloc, reader)? {
            case!(1 of 3: _) => Ok(CertStatus::Good),
            case!(2 of 3: value) => Ok(CertStatus::Revoked(value.value)),
            case!(3 of 3: _) => Ok(CertStatus::Unknown),
        }
    }
}

impl Encode for CertStatus {
    fn encoded_len(&self) -> Result<Length, Error> {
        self.cases().field_len()
    }

    fn encode<W: Writer>(&self, writer: &mut W) -> Result<(), Error> {
        self.cases().encode_field(writer)
    }
}

impl Element for CertStatus {
    ghost element = { refl };
}

impl Member for CertStatus {
    ghost apart = { refl };
}

impl AsRead for CertStatus {
    ghost as_read = { λ _. refl };
}

/// Compares the tags first, and then the contents.
impl DerOrd for CertStatus {
    fn der_cmp(&self, other: &Self) -> Result<Ordering, Error> {
        cases_cmp(&self.cases(), &other.cases())
    }
}

impl FirstTag for CertStatus {
    fn first_tag(&self) -> Option<Tag> {
        cases_tag(&self.cases())
    }
}
