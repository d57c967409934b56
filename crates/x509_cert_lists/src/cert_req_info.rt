ghost use Rattle.std.specs.Prelude.{◌≡◌, refl};
ghost use Rattle.der_core.specs.Oid.Bound.{Bound};
ghost use Rattle.x509_cert_lists.specs.ListGrammar.{cert_req_info_fields};
ghost use Rattle.x509_cert_lists.specs.ListViews.{cert_req_info_plain};

use crate::request::Version;
use der_core::describing::{AsRecord, Described, FieldsView, RowUser, Rows};
use der_core::{DecodeFields, Error, InRange, InRangeValue, Reader, lend, read_row};
use std::alloc::Global;
use x509_cert_names::{Attributes, Name};
use x509_cert_parts::SubjectPublicKeyInfo;

/// The part of a CSR that is signed (RFC 2986 4.1). No attribute occurs twice.
///
/// ```text
/// CertificationRequestInfo ::= SEQUENCE {
///     version        INTEGER { v1(0) },
///     subject        Name,
///     subjectPKInfo  SubjectPublicKeyInfo,
///     attributes     [0] IMPLICIT Attributes }
/// ```
#[derive(Debug, Drop, PartialEq, Eq)]
pub struct CertReqInfo {
    /// The version.
    pub version: Version,
    /// The subject, who asks for the certificate.
    pub subject: Name,
    /// The public key of the subject.
    pub public_key: SubjectPublicKeyInfo,
    /// Further attributes, such as the extensions that the certificate should have.
    pub attributes: Attributes,
}

impl FieldsView for CertReqInfo {
    ghost body = { cert_req_info_fields Bound };

    ghost view = { cert_req_info_plain };
}

impl<'a, R: Reader<'a>> DecodeFields<'a, R> for CertReqInfo {
    fn decode_fields(alloc: Global, reader: &mut R) -> Result<CertReqInfo, Error> {
        read_row!(alloc, reader; CertReqInfo {
            version, subject, public_key, attributes: implicit 0,
        })
    }
}

impl Described for CertReqInfo {
    type By = AsRecord;
}

impl Rows for CertReqInfo {
    fn with_rows<U: RowUser>(&self, other: &Self, user: &mut U) -> U::Answer {
        lend!(self, other, user; version, subject, public_key, attributes: implicit 0)
    }

    ghost apart = { refl };
}

impl InRangeValue for CertReqInfo {
    fn value_in_range(&self) {
        self.version.in_range();
        self.subject.in_range();
        self.public_key.in_range();
        self.attributes.value_in_range();
    }
}
