ghost use Rattle.std.specs.Prelude.{◌≡◌, ◌≢◌, [], IfOk, IfErr, refl};
ghost use Rattle.der_core.specs.Oid.Bound.{Bound};
ghost use Rattle.der_core.specs.Grammar.{read_whole};
ghost use Rattle.der_core.specs.Reading.{Gives};
ghost use Rattle.der_core.specs.Shapes.{Spells, Value};
ghost use Rattle.x509_cert_lists.specs.ListGrammar.{cert_req, cert_req_fields};
ghost use Rattle.x509_cert_lists.specs.ListViews.{cert_req_plain};

use crate::cert_req_info::CertReqInfo;
use der_core::describing::{AsRecord, Described, FieldsView, RowUser, Rows};
use der_core::{DecodeFields, Error, ErrorKind, FromDer, Reader, lend, read_row};
use std::alloc::Global;
use x509_cert_parts::AlgorithmIdentifier;
use x509_cert_parts::types::BitString;

/// A CSR, called certification request in RFC 2986 4.2.
///
/// ```text
/// CertificationRequest ::= SEQUENCE {
///     certificationRequestInfo  CertificationRequestInfo,
///     signatureAlgorithm        AlgorithmIdentifier,
///     signature                 BIT STRING }
/// ```
#[derive(Debug, Drop, PartialEq, Eq)]
pub struct CertReq {
    /// The part that is signed.
    pub info: CertReqInfo,
    /// The signature algorithm.
    pub algorithm: AlgorithmIdentifier,
    /// The signature over the encoding of `info`.
    pub signature: BitString,
}

impl FieldsView for CertReq {
    ghost body = { cert_req_fields Bound };

    ghost view = { cert_req_plain };
}

impl<'a, R: Reader<'a>> DecodeFields<'a, R> for CertReq {
    fn decode_fields(alloc: Global, reader: &mut R) -> Result<CertReq, Error> {
        read_row!(alloc, reader; CertReq { info, algorithm, signature })
    }
}

impl Described for CertReq {
    type By = AsRecord;
}

impl Rows for CertReq {
    fn with_rows<U: RowUser>(&self, other: &Self, user: &mut U) -> U::Answer {
        lend!(self, other, user; info, algorithm, signature)
    }

    ghost apart = { refl };
}

impl CertReq {
    /// Decodes a CSR from its DER encoding, which must be all of the bytes.
    ///
    /// # Errors
    ///
    /// - The first error that decoding meets (docs/ENCODING.md).
    /// - `OutOfMemory`: memory runs out.
    pub fn try_from_bytes(alloc: Global, bytes: &[u8]) -> Result<CertReq, Error>
        // Accepted bytes are the encoding of the CSR.
        ensures spelled { IfOk result (λ r. Spells (cert_req Bound) (cert_req_plain r) bytes.now) }
        // If the error isn't that memory ran out, the bytes encode no CSR.
        ensures refused { IfErr result (λ e. e.kind ≢ ErrorKind.OutOfMemory
            → (r : Value (cert_req 0)) → Spells (cert_req Bound) r bytes.now → ⊥) }
        // The value or the error is that of the decoder that the specification defines.
        ensures exact { Gives (λ r. (cert_req_plain r, [])) result
            (read_whole (cert_req Bound) bytes.now) }
    {
        CertReq::from_der(alloc, bytes)
    }
}
