ghost use Rattle.std.specs.Prelude.{◌≡◌, refl};
ghost use Rattle.der_core.specs.Oid.Bound.{Bound};
ghost use Rattle.x509_cert_lists.specs.ListGrammar.{tbs_cert_list_fields};
ghost use Rattle.x509_cert_lists.specs.ListViews.{tbs_cert_list_plain};

use crate::revoked_cert::RevokedCert;
use der_core::describing::{AsRecord, Described, FieldsView, RowUser, Rows};
use der_core::{DecodeFields, Error, Reader, lend, read_row};
use std::alloc::Global;
use x509_cert_names::Name;
use x509_cert_parts::{AlgorithmIdentifier, Extensions, Profile, Rfc5280, Time, Version};

/// The part of a CRL that is signed (RFC 5280 5.1.2).
///
/// Decoding requires a version, but doesn't compare it with the fields that are present. It accepts
/// an empty list of certificates and an empty list of extensions. Dates are encoded as they were
/// decoded, under every profile.
///
/// ```text
/// TBSCertList ::= SEQUENCE {
///     version              Version,
///     signature            AlgorithmIdentifier,
///     issuer               Name,
///     thisUpdate           Time,
///     nextUpdate           Time OPTIONAL,
///     revokedCertificates  SEQUENCE OF RevokedCert OPTIONAL,
///     crlExtensions        [0] EXPLICIT Extensions OPTIONAL }
/// ```
#[derive(Drop)]
#[derive_where(Debug, PartialEq, Eq)]
pub struct TbsCertList<P = Rfc5280> {
    /// The version.
    pub version: Version,
    /// The signature algorithm. RFC 5280 5.1.2.2 requires it to be the one beside the signature;
    /// decoding doesn't compare the two.
    pub signature: AlgorithmIdentifier,
    /// The name of the issuer, who signs the CRL.
    pub issuer: Name,
    /// The date on which the CRL was issued.
    pub this_update: Time,
    /// The date by which the next CRL is issued.
    pub next_update: Option<Time>,
    /// The revoked certificates, in their order.
    pub revoked_certificates: Option<Vec<RevokedCert<P>>>,
    /// The extensions of the CRL, in their order.
    pub crl_extensions: Option<Extensions>,
}

impl<P: Profile> FieldsView for TbsCertList<P> {
    ghost body = { tbs_cert_list_fields Bound P.serial_limit };

    ghost view = { tbs_cert_list_plain };
}

impl<'a, R: Reader<'a>, P: Profile> DecodeFields<'a, R> for TbsCertList<P> {
    fn decode_fields(alloc: Global, reader: &mut R) -> Result<TbsCertList<P>, Error> {
        read_row!(alloc, reader; TbsCertList {
            version, signature, issuer, this_update, next_update, revoked_certificates,
            crl_extensions: explicit 0 optional,
        })
    }
}

impl<P: Profile> Described for TbsCertList<P> {
    type By = AsRecord;
}

impl<P: Profile> Rows for TbsCertList<P> {
    fn with_rows<U: RowUser>(&self, other: &Self, user: &mut U) -> U::Answer {
        lend!(self, other, user;
            version, signature, issuer, this_update, next_update, revoked_certificates,
            crl_extensions: explicit 0 optional)
    }

    ghost apart = { refl };
}
