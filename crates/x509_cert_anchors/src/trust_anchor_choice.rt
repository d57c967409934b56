ghost use Rattle.std.specs.Prelude.{◌≡◌, refl};
ghost use Rattle.der_core.specs.Oid.Bound.{Bound};
ghost use Rattle.der_core.specs.Shapes.{Value};
ghost use Rattle.x509_cert_anchors.specs.Anchors.{trust_anchor_choice, trust_anchor_by};
ghost use Rattle.x509_cert_anchors.specs.AnchorViews.{trust_anchor_plain};

use crate::trust_anchor_info::TrustAnchorInfo;
use der_core::describing::{LentField, ReadCase, Whole};
use der_core::making::{cases_cmp, cases_tag};
use der_core::{
    Choice, Decode, DerOrd, Element, Encode, EncodeRef, Error, Explicit, FirstTag, Length, Member,
    OneOf3, Reader, Shaped, Tag, Writer, case,
};
use std::alloc::Global;
use std::cmp::Ordering;
use x509_cert_certificates::{CertificateInner, TbsCertificateInner};
use x509_cert_policies::cert_parts::{Profile, Rfc5280};

/// A trust anchor (RFC 5914 2).
///
/// ```text
/// TrustAnchorChoice ::= CHOICE {
///     certificate  Certificate,
///     tbsCert      [1] EXPLICIT TBSCertificate,
///     taInfo       [2] EXPLICIT TrustAnchorInfo }
/// ```
#[derive(Drop)]
#[derive_where(Debug, PartialEq, Eq)]
pub enum TrustAnchorChoice<P = Rfc5280> {
    /// A trust anchor given by a certificate.
    Certificate(CertificateInner<P>),
    /// A trust anchor given by a certificate without its signature.
    TbsCertificate(TbsCertificateInner<P>),
    /// A trust anchor given by its key.
    TaInfo(TrustAnchorInfo<P>),
}

type Cases<P> = OneOf3<
    Whole<CertificateInner<P>>,
    Explicit<TbsCertificateInner<P>, 1>,
    Explicit<TrustAnchorInfo<P>, 2>,
>;

type CasesRef<'a, P> = OneOf3<
    EncodeRef<'a, CertificateInner<P>>,
    Explicit<EncodeRef<'a, TbsCertificateInner<P>>, 1>,
    Explicit<EncodeRef<'a, TrustAnchorInfo<P>>, 2>,
>;

impl<P: Profile> TrustAnchorChoice<P> {
    /// Returns the value as a choice of references, which has the encoding and ordering of a
    /// CHOICE.
    fn cases<'a>(&'a self) -> CasesRef<'a, P>
        ensures { ◌≡◌ {A = Value (trust_anchor_choice Bound P.serial_limit)}
            (⟦<CasesRef<'a, P> as LentField>⟧.written result)
            (trust_anchor_by P.respells (trust_anchor_plain self.now)) }
    {
        match self {
            TrustAnchorChoice::Certificate(value) => case!(1 of 3: EncodeRef(value)),
            TrustAnchorChoice::TbsCertificate(value) => {
                case!(2 of 3: Explicit { value: EncodeRef(value) })
            }
            TrustAnchorChoice::TaInfo(value) => case!(3 of 3: Explicit { value: EncodeRef(value) }),
        }
    }
}

impl<P: Profile> Shaped for TrustAnchorChoice<P> {
    ghost shape = { trust_anchor_choice Bound P.serial_limit };

    ghost plain = { trust_anchor_plain };

    ghost written = { λ x. trust_anchor_by P.respells (trust_anchor_plain x) };
}

impl<P: Profile> Choice for TrustAnchorChoice<P> {
    fn can_decode(tag: Tag) -> bool {
        <Cases<P>>::can_decode(tag)
    }
}

impl<'a, R: Reader<'a>, P: Profile> Decode<'a, R> for TrustAnchorChoice<P> {
    fn decode(alloc: Global, reader: &mut R) -> Result<TrustAnchorChoice<P>, Error> {
        match <Cases<P>>::read_case(alloc, reader)? {
            case!(1 of 3: Whole(value)) => Ok(TrustAnchorChoice::Certificate(value)),
            case!(2 of 3: value) => Ok(TrustAnchorChoice::TbsCertificate(value.value)),
            case!(3 of 3: value) => Ok(TrustAnchorChoice::TaInfo(value.value)),
        }
    }
}

impl<P: Profile> Encode for TrustAnchorChoice<P> {
    fn encoded_len(&self) -> Result<Length, Error> {
        self.cases().field_len()
    }

    fn encode<W: Writer>(&self, writer: &mut W) -> Result<(), Error> {
        self.cases().encode_field(writer)
    }
}

impl<P: Profile> Element for TrustAnchorChoice<P> {
    ghost element = { refl };
}

impl<P: Profile> Member for TrustAnchorChoice<P> {
    ghost apart = { refl };
}

/// Compares the tags first, then the contents.
impl<P: Profile> DerOrd for TrustAnchorChoice<P> {
    fn der_cmp(&self, other: &Self) -> Result<Ordering, Error> {
        cases_cmp(&self.cases(), &other.cases())
    }
}

impl<P: Profile> FirstTag for TrustAnchorChoice<P> {
    fn first_tag(&self) -> Option<Tag> {
        cases_tag(&self.cases())
    }
}
