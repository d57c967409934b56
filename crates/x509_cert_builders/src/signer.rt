//! The trait of signing keys.

use crate::sign_error::SignError;
use rand_core::CryptoRng;
use std::alloc::Global;
use x509_cert_certificates::cert_parts::{AlgorithmIdentifier, SubjectPublicKeyInfo};
use x509_cert_certificates::types::BitString;

/// A signing key, wherever it is stored.
///
/// The key and the algorithm are values of the signer. The ghost member `signs` states which
/// signatures the signer may return for which bytes, with and without a random number generator. If
/// a scheme has several signatures for the same bytes, it contains all of them.
pub trait Signer {
    ghost use Rattle.std.specs.Prelude.{◌≡◌, ℕ, List, IfOk, IfErr};
    ghost use Rattle.x509_cert_certificates.specs.Der.BitStrings.{Bits};
    ghost use Rattle.x509_cert_certificates.specs.CertParts.Grammar.{Algorithm, PublicKey};
    ghost use Rattle.x509_cert_certificates.specs.CertParts.Views.{algorithm_plain, key_plain};
    ghost use Rattle.x509_cert_builders.specs.declared.sign_error.SignError.TheVariants.{Refused};

    /// The public key that verifies the signatures.
    ghost public_key: { Self → PublicKey };

    /// The algorithm of the signatures.
    ghost signs_by: { Self → Algorithm };

    /// The signatures that the signer may return for some bytes.
    ghost signs: { Self → List ℕ → Bits → Type 0 };

    /// The bytes that the signer may refuse to sign.
    ghost may_refuse: { Self → List ℕ → Type 0 };

    /// Returns the public key that verifies the signatures.
    fn key_info(&self) -> &SubjectPublicKeyInfo
        ensures { key_plain result.now ≡ public_key self.now };

    /// Returns the algorithm of the signatures.
    fn algorithm(&self) -> &AlgorithmIdentifier
        ensures { algorithm_plain result.now ≡ signs_by self.now };

    /// Signs these bytes.
    ///
    /// # Errors
    ///
    /// - `Refused`: the signer refuses to sign these bytes, which is possible only for bytes in
    ///   `may_refuse`.
    /// - `OutOfMemory`: memory runs out.
    fn sign(&self, alloc: Global, octets: &[u8]) -> Result<BitString, SignError>
        ensures bits { IfOk result (λ b. signs self.now octets.now b) }
        ensures refused { IfErr result (λ e. e ≡ Refused → may_refuse self.now octets.now) };

    /// Signs these bytes with a random number generator. The default ignores the generator and
    /// calls `sign`.
    ///
    /// # Errors
    ///
    /// - The errors of `sign`.
    fn sign_with_rng<R: CryptoRng>(
        &self,
        alloc: Global,
        _rng: &mut R,
        octets: &[u8],
    ) -> Result<BitString, SignError>
        ensures bits { IfOk result (λ b. signs self.now octets.now b) }
        ensures refused { IfErr result (λ e. e ≡ Refused → may_refuse self.now octets.now) }
    {
        Ok(self.sign(alloc, octets)?)
    }
}
