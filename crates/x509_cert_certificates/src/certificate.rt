//! X.509 certificates (RFC 5280 4.1).

ghost use Rattle.std.specs.Prelude.{◌≡◌, ◌≢◌, [], false, None, refl, IfOk, IfErr};
ghost use Rattle.der_core.specs.Oid.Bound.{Bound};
ghost use Rattle.der_core.specs.Grammar.{read_whole};
ghost use Rattle.der_core.specs.Reading.{Fails, Gives};
ghost use Rattle.der_core.specs.Shapes.{octets_of, IsValid, Spells};
ghost use Rattle.der_core.specs.Writing.{write};
ghost use Rattle.x509_cert_parts.specs.Views.{algorithm_plain};
ghost use Rattle.x509_cert_certificates.specs.Certificates.{PlainCertificate, certificate};
ghost use Rattle.x509_cert_certificates.specs.Certificates.{certificate_fields, certificate_by};
ghost use Rattle.x509_cert_certificates.specs.Certificates.{tbs, outer_algorithm, signature_bits};
ghost use Rattle.x509_cert_certificates.specs.Views.{certificate_plain, tbs_plain};

use crate::cert_digest::CertDigest;
use crate::tbs_certificate::TbsCertificateInner;
use der_core::describing::{AsRecord, Described, RowUser, Rows};
use der_core::{DecodeFields, Error, ErrorKind, Fields, FromDer, Reader, ToDer, lend, read_row};
use std::alloc::Global;
use x509_cert_parts::types::BitString;
use x509_cert_parts::{AlgorithmIdentifier, Profile, Rfc5280};

/// An X.509 certificate (RFC 5280 4.1). The profile ([`Profile`]) determines which serial numbers
/// are accepted and how dates are encoded: [`Rfc5280`] is the default, and `Raw` accepts every
/// serial number and keeps the form of each date.
///
/// ```text
/// Certificate ::= SEQUENCE {
///     tbsCertificate      TBSCertificate,
///     signatureAlgorithm  AlgorithmIdentifier,
///     signatureValue      BIT STRING }
/// ```
#[derive(Drop)]
#[derive_where(Debug, PartialEq, Eq)]
pub struct CertificateInner<P = Rfc5280> {
    /// The signed part.
    pub(crate) tbs_certificate: TbsCertificateInner<P>,
    /// The signature algorithm. RFC 5280 4.1.1.2 requires it to be the one in the signed part;
    /// decoding doesn't compare the two.
    pub(crate) signature_algorithm: AlgorithmIdentifier,
    /// The issuer's signature over the encoding of the signed part.
    pub(crate) signature: BitString,
}

/// A certificate under the profile of RFC 5280.
pub type Certificate = CertificateInner<Rfc5280>;

impl<P: Profile> Fields for CertificateInner<P> {
    ghost fields = { certificate_fields Bound P.serial_limit };

    ghost fields_plain = { certificate_plain };

    ghost fields_written = { λ c. certificate_by P.respells (certificate_plain c) };
}

impl<'a, R: Reader<'a>, P: Profile> DecodeFields<'a, R> for CertificateInner<P> {
    fn decode_fields(alloc: Global, reader: &mut R) -> Result<CertificateInner<P>, Error> {
        read_row!(alloc, reader; CertificateInner {
            tbs_certificate, signature_algorithm, signature,
        })
    }
}

impl<P: Profile> Described for CertificateInner<P> {
    type By = AsRecord;
}

impl<P: Profile> Rows for CertificateInner<P> {
    fn with_rows<U: RowUser>(&self, other: &Self, user: &mut U) -> U::Answer {
        lend!(self, other, user; tbs_certificate, signature_algorithm, signature)
    }

    ghost apart = { refl };
}

impl<P: Profile> CertificateInner<P> {
    /// Decodes a certificate from its DER encoding, which must be all of the bytes.
    ///
    /// # Examples
    ///
    /// From `crates/example_subject_of_certificate/src/main.rt`:
    ///
    /// ```rust
    /// let certificate = CertificateInner::<Raw>::from_der(alloc, octets)?;
    /// let subject = certificate.tbs_certificate().subject();
    /// ```
    ///
    /// # Errors
    ///
    /// - `OutOfMemory`: memory runs out.
    /// - Any other kind: the first error that decoding meets (docs/ENCODING.md).
    pub fn from_der(alloc: Global, bytes: &[u8]) -> Result<CertificateInner<P>, Error>
        // Accepted bytes are the encoding of the certificate.
        ensures spelled { IfOk result
            (λ c. Spells (certificate Bound P.serial_limit) (certificate_plain c)
            bytes.now) }
        // After any error but `OutOfMemory`, the bytes aren't the encoding of any certificate,
        // within the limits of docs/ENCODING.md.
        ensures refused { IfErr result (λ e. e.kind ≢ ErrorKind.OutOfMemory → (c : PlainCertificate)
            → Spells (certificate Bound P.serial_limit) c bytes.now → ⊥) }
        // The value or the error is that of the decoder that the specification defines.
        ensures exact { Gives (λ c. (certificate_plain c, [])) result
            (read_whole (certificate Bound P.serial_limit) bytes.now) }
    {
        FromDer::from_der(alloc, bytes)
    }

    /// Returns the digest of the certificate's encoding, in which the profile determines the form
    /// of the dates.
    ///
    /// Use the profile `Raw` for fingerprints: it keeps each date as it was decoded. Under
    /// `Rfc5280` a date can be encoded in another form, and then the digest isn't that of the bytes
    /// that were decoded.
    ///
    /// # Errors
    ///
    /// - The errors of `to_der`. If the certificate has an encoding, the only one is that memory
    ///   runs out.
    pub fn hash<D: CertDigest>(&self, alloc: Global) -> Result<Vec<u8>, Error>
        ensures ok { IfOk result (λ d. d.items ≡ D.digest_of (octets_of
            (certificate Bound P.serial_limit)
            (certificate_by P.respells (certificate_plain self.now)))) }
        // If the certificate has an encoding, the only error is that memory runs out.
        ensures valid { IsValid (certificate Bound P.serial_limit)
            (certificate_by P.respells (certificate_plain self.now))
            → IfErr result (λ e. e.kind ≡ ErrorKind.OutOfMemory) }
        // Any other error is the one with which encoding the certificate fails.
        ensures fault { IfErr result (λ e. Fails e.kind (write (certificate Bound P.serial_limit)
            (certificate_by P.respells (certificate_plain self.now))
            (record { written = []; room = None; failed = false }))) }
    {
        let octets = self.to_der(alloc)?;
        Ok(D::digest(alloc, octets.as_slice())?)
    }
}

impl<P> CertificateInner<P> {
    /// Returns the signed part.
    pub fn tbs_certificate(&self) -> &TbsCertificateInner<P>
        ensures { tbs_plain result.now ≡ tbs (certificate_plain self.now) }
    {
        &self.tbs_certificate
    }

    /// Returns the signature algorithm that is given with the signature, outside the signed part.
    pub fn signature_algorithm(&self) -> &AlgorithmIdentifier
        ensures { algorithm_plain result.now ≡ outer_algorithm (certificate_plain self.now) }
    {
        &self.signature_algorithm
    }

    /// Returns the signature.
    pub fn signature(&self) -> &BitString
        ensures { result.now ≡ signature_bits (certificate_plain self.now) }
    {
        &self.signature
    }
}
