//! Certificate revocation lists (RFC 5280 5.1).

ghost use Rattle.std.specs.Prelude.{◌≡◌, ◌≢◌, [], IfOk, IfErr, refl};
ghost use Rattle.der_core.specs.Oid.Bound.{Bound};
ghost use Rattle.der_core.specs.Grammar.{read_whole};
ghost use Rattle.der_core.specs.Reading.{Gives};
ghost use Rattle.der_core.specs.Shapes.{Spells};
ghost use Rattle.x509_cert_lists.specs.ListGrammar.{PlainList, certificate_list};
ghost use Rattle.x509_cert_lists.specs.ListGrammar.{certificate_list_fields};
ghost use Rattle.x509_cert_lists.specs.ListViews.{certificate_list_plain};

use crate::tbs_cert_list::TbsCertList;
use der_core::describing::{AsRecord, Described, FieldsView, RowUser, Rows};
use der_core::{DecodeFields, Error, ErrorKind, FromDer, Reader, lend, read_row};
use std::alloc::Global;
use x509_cert_parts::types::BitString;
use x509_cert_parts::{AlgorithmIdentifier, Profile, Rfc5280};

/// A CRL, which lists revoked certificates (RFC 5280 5.1).
///
/// ```text
/// CertificateList ::= SEQUENCE {
///     tbsCertList         TBSCertList,
///     signatureAlgorithm  AlgorithmIdentifier,
///     signatureValue      BIT STRING }
/// ```
#[derive(Drop)]
#[derive_where(Debug, PartialEq, Eq)]
pub struct CertificateList<P = Rfc5280> {
    /// The part that is signed.
    pub tbs_cert_list: TbsCertList<P>,
    /// The signature algorithm. RFC 5280 5.1.1.2 requires it to be the one in the signed part;
    /// decoding doesn't compare the two.
    pub signature_algorithm: AlgorithmIdentifier,
    /// The signature over the encoding of `tbs_cert_list`.
    pub signature: BitString,
}

impl<P: Profile> FieldsView for CertificateList<P> {
    ghost body = { certificate_list_fields Bound P.serial_limit };

    ghost view = { certificate_list_plain };
}

impl<'a, R: Reader<'a>, P: Profile> DecodeFields<'a, R> for CertificateList<P> {
    fn decode_fields(alloc: Global, reader: &mut R) -> Result<CertificateList<P>, Error> {
        read_row!(alloc, reader; CertificateList { tbs_cert_list, signature_algorithm, signature })
    }
}

impl<P: Profile> Described for CertificateList<P> {
    type By = AsRecord;
}

impl<P: Profile> Rows for CertificateList<P> {
    fn with_rows<U: RowUser>(&self, other: &Self, user: &mut U) -> U::Answer {
        lend!(self, other, user; tbs_cert_list, signature_algorithm, signature)
    }

    ghost apart = { refl };
}

impl<P: Profile> CertificateList<P> {
    /// Decodes a CRL from its DER encoding, which must be all of the bytes.
    ///
    /// # Errors
    ///
    /// - The first error that decoding meets (docs/ENCODING.md).
    /// - `OutOfMemory`: memory runs out.
    pub fn from_der(alloc: Global, bytes: &[u8]) -> Result<CertificateList<P>, Error>
        // Accepted bytes are the encoding of the CRL.
        ensures spelled { IfOk result
            (λ l. Spells (certificate_list Bound P.serial_limit) (certificate_list_plain l)
            bytes.now) }
        // If the error isn't that memory ran out, the bytes encode no CRL.
        ensures refused { IfErr result (λ e. e.kind ≢ ErrorKind.OutOfMemory → (l : PlainList)
            → Spells (certificate_list Bound P.serial_limit) l bytes.now → ⊥) }
        // The value or the error is that of the decoder that the specification defines.
        ensures exact { Gives (λ l. (certificate_list_plain l, [])) result
            (read_whole (certificate_list Bound P.serial_limit) bytes.now) }
    {
        FromDer::from_der(alloc, bytes)
    }
}
