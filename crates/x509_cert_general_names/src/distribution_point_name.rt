ghost use Rattle.std.specs.Prelude.{◌≡◌, refl};
ghost use Rattle.der_core.specs.Oid.Bound.{Bound};
ghost use Rattle.x509_cert_general_names.specs.GeneralNames.{distribution_point_name};
ghost use Rattle.x509_cert_general_names.specs.GeneralNameViews.{distribution_point_name_plain};

use crate::general_name::GeneralNames;
use der_core::describing::{LentField, ReadCase};
use der_core::making::{cases_cmp, cases_tag};
use der_core::{
    AsRead, Choice, Decode, DerOrd, Element, Encode, Error, FirstTag, Implicit, ImplicitRef,
    Length, Member, OneOf2, Reader, Shaped, Tag, Writer,
};
use std::alloc::Global;
use std::cmp::Ordering;
use x509_cert_names::RelativeDistinguishedName;

/// The name of a distribution point (RFC 5280 4.2.1.13).
///
/// ```text
/// DistributionPointName ::= CHOICE {
///     fullName                 [0] GeneralNames,
///     nameRelativeToCRLIssuer  [1] RelativeDistinguishedName }
/// ```
#[derive(Debug, Drop, PartialEq, Eq)]
pub enum DistributionPointName {
    /// The full name, as general names with the same meaning.
    FullName(GeneralNames),
    /// The RDN that is appended to the name of the CRL's issuer.
    NameRelativeToCRLIssuer(RelativeDistinguishedName),
}

type Cases = OneOf2<Implicit<GeneralNames, 0>, Implicit<RelativeDistinguishedName, 1>>;

type CasesRef<'a> = OneOf2<
    ImplicitRef<'a, GeneralNames, 0>,
    ImplicitRef<'a, RelativeDistinguishedName, 1>,
>;

impl DistributionPointName {
    /// Returns the value as a choice of references, which has the encoding and ordering of a
    /// CHOICE.
    fn cases<'a>(&'a self) -> CasesRef<'a>
        ensures { ⟦<CasesRef<'a> as LentField>⟧.written result
            ≡ distribution_point_name_plain self.now }
    {
        match self {
            Self::FullName(value) => OneOf2::First(ImplicitRef { value }),
            Self::NameRelativeToCRLIssuer(value) => OneOf2::Second(ImplicitRef { value }),
        }
    }
}

impl Shaped for DistributionPointName {
    ghost shape = { distribution_point_name Bound };

    ghost plain = { distribution_point_name_plain };

    ghost written = { distribution_point_name_plain };
}

impl Choice for DistributionPointName {
    fn can_decode(tag: Tag) -> bool {
        Cases::can_decode(tag)
    }
}

impl<'a, R: Reader<'a>> Decode<'a, R> for DistributionPointName {
    fn decode(alloc: Global, reader: &mut R) -> Result<DistributionPointName, Error> {
        match Cases::read_case(alloc, reader)? {
            OneOf2::First(value) => Ok(Self::FullName(value.value)),
            OneOf2::Second(value) => Ok(Self::NameRelativeToCRLIssuer(value.value)),
        }
    }
}

impl Encode for DistributionPointName {
    fn encoded_len(&self) -> Result<Length, Error> {
        self.cases().field_len()
    }

    fn encode<W: Writer>(&self, writer: &mut W) -> Result<(), Error> {
        self.cases().encode_field(writer)
    }
}

impl Element for DistributionPointName {
    ghost element = { refl };
}

impl Member for DistributionPointName {
    ghost apart = { refl };
}

impl AsRead for DistributionPointName {
    ghost as_read = { λ _. refl };
}

/// Compares the tags first, then the contents.
impl DerOrd for DistributionPointName {
    fn der_cmp(&self, other: &Self) -> Result<Ordering, Error> {
        cases_cmp(&self.cases(), &other.cases())
    }
}

impl FirstTag for DistributionPointName {
    fn first_tag(&self) -> Option<Tag> {
        cases_tag(&self.cases())
    }
}
