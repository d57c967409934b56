ghost use Rattle.x509_cert_policies.specs.Timestamps.{algorithm_form, algorithms_plain};

use crate::hash_algorithm::HashAlgorithm;
use crate::signature_algorithm::SignatureAlgorithm;
use crate::tls_error::TlsError;
use crate::tls_value::TlsValue;
use std::alloc::Global;

/// The hash algorithm and the signature algorithm of a signature (RFC 5246 7.4.1.4.1).
///
/// ```text
/// struct {
///     HashAlgorithm hash;
///     SignatureAlgorithm signature;
/// } SignatureAndHashAlgorithm;
/// ```
#[derive(Debug, Drop, PartialEq)]
pub struct SignatureAndHashAlgorithm {
    /// The hash algorithm.
    pub hash: HashAlgorithm,
    /// The signature algorithm.
    pub signature: SignatureAlgorithm,
}

impl TlsValue for SignatureAndHashAlgorithm {
    ghost form = { algorithm_form };

    ghost plain = { algorithms_plain };

    fn tls_deserialize_bytes(alloc: Global, input: &[u8]) -> Result<(Self, &[u8]), TlsError> {
        let (hash, rest) = HashAlgorithm::tls_deserialize_bytes(alloc, input)?;
        let (signature, rest) = SignatureAlgorithm::tls_deserialize_bytes(alloc, rest)?;
        Ok((SignatureAndHashAlgorithm { hash, signature }, rest))
    }

    #[tactic(auto, using(crate::proofs::Readings::fronts))]
    fn append_to(&self, output: &mut Vec<u8>) -> Result<(), TlsError> {
        self.hash.append_to(output)?;
        self.signature.append_to(output)?;
        Ok(())
    }

    fn tls_serialized_len(&self) -> usize {
        self.hash.tls_serialized_len() + self.signature.tls_serialized_len()
    }
}
