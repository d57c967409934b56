ghost use Rattle.x509_cert_policies.specs.Forms.{exactly};

use crate::tls_error::TlsError;
use crate::tls_value::TlsValue;
use std::alloc::Global;

/// The identifier of a log: the SHA-256 digest of its public key (RFC 6962 3.2).
///
/// ```text
/// struct {
///     opaque key_id[32];
/// } LogID;
/// ```
#[derive(Debug, Drop, PartialEq)]
pub struct LogId {
    /// The digest.
    pub key_id: [u8; 32],
}

impl TlsValue for LogId {
    ghost form = { exactly 32 };

    ghost plain = { λ x. x.key_id };

    fn tls_deserialize_bytes(_alloc: Global, input: &[u8]) -> Result<(LogId, &[u8]), TlsError> {
        let Some((key_id, rest)) = input.split_first_chunk::<32>() else {
            return Err(TlsError::EndOfStream);
        };
        Ok((LogId { key_id: *key_id }, rest))
    }

    #[tactic(auto, using(crate::proofs::Readings::fronts))]
    fn append_to(&self, output: &mut Vec<u8>) -> Result<(), TlsError> {
        output.extend_from_slice(&self.key_id)?;
        Ok(())
    }

    fn tls_serialized_len(&self) -> usize {
        32
    }
}
