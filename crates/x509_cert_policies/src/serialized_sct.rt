ghost use Rattle.std.specs.Prelude.{◌≡◌, [], IfOk, IfErr};
ghost use Rattle.x509_cert_policies.specs.Forms.{vector, IsValue, octets, Spells, CannotWrite};
ghost use Rattle.x509_cert_policies.specs.Timestamps.{timestamp_form, timestamp_plain};
ghost use Rattle.x509_cert_policies.specs.Wholes.{ReadsNoTimestamp};

use crate::signed_certificate_timestamp::SignedCertificateTimestamp;
use crate::timestamp_error::Error;
use crate::tls_error::TlsError;
use crate::tls_value::TlsValue;
use crate::vectors::{append_vector, read_vector, vector_len};
use std::alloc::Global;

/// A member of a list of timestamps (RFC 6962 3.3): bytes that should be the encoding of a
/// timestamp, but needn't be.
///
/// ```text
/// opaque SerializedSCT<1..2^16-1>;
/// ```
///
/// An empty member is also accepted and encoded.
#[derive(Debug, Drop, PartialEq)]
pub struct SerializedSct {
    /// The bytes of the member.
    data: Vec<u8>,
}

impl SerializedSct {
    /// Returns the member that contains the encoding of this timestamp.
    ///
    /// # Errors
    ///
    /// - `InvalidVectorLength`: a vector in the timestamp has more than 65535 bytes.
    /// - `OutOfMemory`: memory runs out.
    pub fn new(alloc: Global, timestamp: SignedCertificateTimestamp) -> Result<Self, TlsError>
        ensures ok { IfOk result
            (λ s. s.data.items ≡ octets timestamp_form (timestamp_plain timestamp)) }
        ensures value { IfOk result (λ _. IsValue timestamp_form (timestamp_plain timestamp)) }
        ensures err { IfErr result (λ e. CannotWrite timestamp_form (timestamp_plain timestamp) e) }
    {
        let data = timestamp.tls_serialize(alloc)?;
        Ok(SerializedSct { data })
    }

    /// Decodes the timestamp.
    ///
    /// # Errors
    ///
    /// The first error in the bytes is returned, unless memory runs out.
    ///
    /// - `EndOfStream`: the bytes end within the timestamp.
    /// - `UnknownValue`: a number isn't a value of its enumeration.
    /// - `TrailingData`: bytes follow the timestamp.
    /// - `OutOfMemory`: memory runs out.
    pub fn parse_timestamp(&self, alloc: Global) -> Result<SignedCertificateTimestamp, Error>
        ensures ok { IfOk result
            (λ t. Spells timestamp_form (timestamp_plain t) self.now.data.items []) }
        ensures err { IfErr result (λ e. ReadsNoTimestamp self.now.data.items e) }
    {
        let (timestamp, rest) = SignedCertificateTimestamp::tls_deserialize_bytes(
            alloc,
            self.data.as_slice(),
        )?;
        if !rest.is_empty() {
            return Err(Error::Tls(TlsError::TrailingData));
        }
        Ok(timestamp)
    }
}

impl TlsValue for SerializedSct {
    ghost form = { vector };

    ghost plain = { λ x. x.data.items };

    fn tls_deserialize_bytes(alloc: Global, input: &[u8]) -> Result<(Self, &[u8]), TlsError> {
        let (data, rest) = read_vector(alloc, input)?;
        Ok((SerializedSct { data }, rest))
    }

    fn append_to(&self, output: &mut Vec<u8>) -> Result<(), TlsError> {
        append_vector(self.data.as_slice(), output)
    }

    fn tls_serialized_len(&self) -> usize {
        vector_len(self.data.as_slice())
    }
}
