ghost use Rattle.std.specs.Prelude.{◌≡◌, refl};
ghost use Rattle.der_core.specs.Oid.Bound.{Bound};
ghost use Rattle.x509_cert_lists.specs.ListGrammar.{revoked_cert_fields};
ghost use Rattle.x509_cert_lists.specs.ListViews.{revoked_cert_plain};

use der_core::describing::{AsRecord, Described, FieldsView, RowUser, Rows};
use der_core::{DecodeFields, Error, Reader, lend, read_row};
use std::alloc::Global;
use x509_cert_parts::{Extensions, Profile, Rfc5280, SerialNumber, Time};

/// An entry of a CRL: a revoked certificate (RFC 5280 5.1.2.6). An empty list of extensions is
/// accepted.
///
/// ```text
/// RevokedCert ::= SEQUENCE {
///     userCertificate     CertificateSerialNumber,
///     revocationDate      Time,
///     crlEntryExtensions  Extensions OPTIONAL }
/// ```
#[derive(Drop)]
#[derive_where(Debug, PartialEq, Eq)]
pub struct RevokedCert<P = Rfc5280> {
    /// The serial number of the certificate.
    pub serial_number: SerialNumber<P>,
    /// The date of the revocation.
    pub revocation_date: Time,
    /// The extensions of the entry, in their order.
    pub crl_entry_extensions: Option<Extensions>,
}

impl<P: Profile> FieldsView for RevokedCert<P> {
    ghost body = { revoked_cert_fields Bound P.serial_limit };

    ghost view = { revoked_cert_plain };
}

impl<'a, R: Reader<'a>, P: Profile> DecodeFields<'a, R> for RevokedCert<P> {
    fn decode_fields(alloc: Global, reader: &mut R) -> Result<RevokedCert<P>, Error> {
        read_row!(alloc, reader; RevokedCert {
            serial_number, revocation_date, crl_entry_extensions,
        })
    }
}

impl<P: Profile> Described for RevokedCert<P> {
    type By = AsRecord;
}

impl<P: Profile> Rows for RevokedCert<P> {
    fn with_rows<U: RowUser>(&self, other: &Self, user: &mut U) -> U::Answer {
        lend!(self, other, user; serial_number, revocation_date, crl_entry_extensions)
    }

    ghost apart = { refl };
}
