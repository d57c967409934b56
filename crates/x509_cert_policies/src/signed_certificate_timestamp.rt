ghost use Rattle.std.specs.Prelude.{◌≡◌, ◌↔◌, ◌+◌, ◌*◌, ◌<◌, ◌/◌, IsOk, IfOk, IfErr};
ghost use Rattle.x509_cert_parts.specs.Types.Seconds.{unix_seconds, last_second};
ghost use Rattle.x509_cert_policies.specs.Timestamps.{timestamp_form, timestamp_plain};

use crate::digitally_signed::DigitallySigned;
use crate::log_id::LogId;
use crate::tls_error::TlsError;
use crate::tls_value::TlsValue;
use crate::vectors::{append_long, append_vector, read_long, read_vector, vector_len};
use crate::version::Version;
use der_core::{Error, ErrorKind};
use std::alloc::Global;
use x509_cert_parts::types::DateTime;

/// A log's promise to include a certificate (RFC 6962 3.2).
///
/// ```text
/// struct {
///     Version sct_version;
///     LogID id;
///     uint64 timestamp;
///     CtExtensions extensions;
///     digitally-signed struct { .. };
/// } SignedCertificateTimestamp;
///
/// opaque CtExtensions<0..2^16-1>;
/// ```
#[derive(Debug, Drop, PartialEq)]
pub struct SignedCertificateTimestamp {
    /// The version.
    pub version: Version,
    /// The log that issued the timestamp.
    pub log_id: LogId,
    /// The time in milliseconds since 1970-01-01T00:00:00Z, without leap seconds.
    pub timestamp: u64,
    /// Extensions, undecoded. RFC 6962 defines none.
    pub extensions: Vec<u8>,
    /// The log's signature.
    pub signature: DigitallySigned,
}

impl SignedCertificateTimestamp {
    /// Returns the date and time of the timestamp, without fractions of a second.
    ///
    /// # Errors
    ///
    /// - `DateTime`: the timestamp is after 9999-12-31T23:59:59Z.
    pub fn timestamp(&self) -> Result<DateTime, Error>
        ensures range { IsOk result ↔ (self.now.timestamp < (last_second + 1) * 1000) }
        ensures ok { IfOk result (λ d. unix_seconds d ≡ self.now.timestamp / 1000) }
        ensures err { IfErr result (λ e. e.kind ≡ ErrorKind.DateTime) }
    {
        DateTime::from_unix_seconds(self.timestamp / 1000)
    }
}

impl TlsValue for SignedCertificateTimestamp {
    ghost form = { timestamp_form };

    ghost plain = { timestamp_plain };

    fn tls_deserialize_bytes(alloc: Global, input: &[u8]) -> Result<(Self, &[u8]), TlsError> {
        let (version, rest) = Version::tls_deserialize_bytes(alloc, input)?;
        let (log_id, rest) = LogId::tls_deserialize_bytes(alloc, rest)?;
        let (timestamp, rest) = read_long(rest)?;
        let (extensions, rest) = read_vector(alloc, rest)?;
        let (signature, rest) = DigitallySigned::tls_deserialize_bytes(alloc, rest)?;
        let value = SignedCertificateTimestamp {
            version,
            log_id,
            timestamp,
            extensions,
            signature,
        };
        Ok((value, rest))
    }

    #[tactic(auto, using(crate::proofs::Readings::fronts))]
    fn append_to(&self, output: &mut Vec<u8>) -> Result<(), TlsError> {
        self.version.append_to(output)?;
        self.log_id.append_to(output)?;
        append_long(self.timestamp, output)?;
        append_vector(&self.extensions, output)?;
        self.signature.append_to(output)?;
        Ok(())
    }

    #[tactic(auto, using(crate::proofs::Readings::timestamp_length))]
    fn tls_serialized_len(&self) -> usize {
        let fixed = self.version.tls_serialized_len() + self.log_id.tls_serialized_len() + 8;
        fixed
            .saturating_add(vector_len(&self.extensions))
            .saturating_add(self.signature.tls_serialized_len())
    }
}
