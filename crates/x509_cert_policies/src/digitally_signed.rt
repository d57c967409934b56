ghost use Rattle.x509_cert_policies.specs.Timestamps.{signed_form, signed_plain};

use crate::signature_and_hash_algorithm::SignatureAndHashAlgorithm;
use crate::tls_error::TlsError;
use crate::tls_value::TlsValue;
use crate::vectors::{append_vector, read_vector, vector_len};
use std::alloc::Global;

/// A signature and its algorithm (RFC 5246 4.7).
///
/// ```text
/// struct {
///     SignatureAndHashAlgorithm algorithm;
///     opaque signature<0..2^16-1>;
/// } DigitallySigned;
/// ```
#[derive(Debug, Drop, PartialEq)]
pub struct DigitallySigned {
    /// The hash algorithm and the signature algorithm.
    pub algorithm: SignatureAndHashAlgorithm,
    /// The bytes of the signature.
    pub signature: Vec<u8>,
}

impl TlsValue for DigitallySigned {
    ghost form = { signed_form };

    ghost plain = { signed_plain };

    fn tls_deserialize_bytes(alloc: Global, input: &[u8]) -> Result<(Self, &[u8]), TlsError> {
        let (algorithm, rest) = SignatureAndHashAlgorithm::tls_deserialize_bytes(alloc, input)?;
        let (signature, rest) = read_vector(alloc, rest)?;
        Ok((
            DigitallySigned {
                algorithm,
                signature,
            },
            rest,
        ))
    }

    #[tactic(auto, using(crate::proofs::Readings::fronts))]
    fn append_to(&self, output: &mut Vec<u8>) -> Result<(), TlsError> {
        self.algorithm.append_to(output)?;
        append_vector(&self.signature, output)?;
        Ok(())
    }

    fn tls_serialized_len(&self) -> usize {
        let algorithm = self.algorithm.tls_serialized_len();
        algorithm.saturating_add(vector_len(&self.signature))
    }
}
