//! Building and signing a certificate or another signed value.

use crate::build_error::Error;
use crate::signer::Signer;
use rand_core::CryptoRng;
use std::alloc::Global;
use x509_cert_certificates::types::BitString;

/// A builder of a signed value. The signature is one that the signer may return for the encoding of
/// the signed part, which the encoding of the result contains.
pub trait Builder: Sized + Drop {
    ghost use Rattle.std.specs.Prelude.{◌≡◌, ◌⊎◌, ℕ, List, Option, Some, None, IfOk, IfErr, OnOk};
    ghost use Rattle.x509_cert_certificates.specs.Der.BitStrings.{Bits};
    ghost use Rattle.x509_cert_certificates.specs.Der.Shapes.{Shape, Value, octets_of};
    ghost use Rattle.x509_cert_certificates.specs.CertParts.Grammar.{Algorithm, PublicKey};
    ghost use Rattle.x509_cert_builders.specs.Refusals.{IsFailed, IsUnsigned, IsWantOfMemory};
    ghost use Rattle.x509_cert_builders.specs.declared.build_error.Error.{Error};

    /// The type of the result.
    type Output;

    /// The shape of the part that is signed.
    ghost part_shape: { Shape };

    /// The part to be signed, given the state of the builder and the signer's key and algorithm.
    ghost to_sign: { Self → PublicKey → Algorithm → Value part_shape };

    /// What is true of a part that `finalize` made, for example that it has an encoding.
    ghost is_valid: { Self → PublicKey → Algorithm → Type 0 };

    /// The errors that `finalize` may return, apart from `OutOfMemory`.
    ghost faults: { Self → PublicKey → Algorithm → Error → Type 0 };

    /// The part of the last successful `finalize`, if there was one.
    ghost finalized: { Self → Option (Value part_shape) };

    /// What else stays the same in a builder when `finalize` succeeds. By default nothing is
    /// stated. The builders of this crate state that only the part of the last `finalize` changes.
    ghost is_same_otherwise: { Self → Self → Type 0 } = { λ _ _. Unit {0} };

    /// The signature algorithm that `assemble` puts into the result, given the signer's algorithm.
    ghost algorithm_for: { Self → Algorithm → Algorithm };

    /// The signed part of the result.
    ghost signed_part: { Self.Output → Value part_shape };

    /// The bytes of the signed part within the encoding of the result.
    ghost signed_octets: { Self.Output → List ℕ };

    /// The signature algorithm of the result.
    ghost outer_algorithm: { Self.Output → Algorithm };

    /// The signature of the result.
    ghost bits: { Self.Output → Bits };

    /// Returns the bytes to be signed. If the call fails, the builder is unchanged. Otherwise, the
    /// builder keeps the part that the bytes encode, for `assemble`. The builders of this crate
    /// change nothing else; for another builder, `is_same_otherwise` states what else may change.
    ///
    /// A second call for the same signer returns the same bytes. If something is added between the
    /// calls, the second call returns bytes that contain it, too.
    ///
    /// # Errors
    ///
    /// - `Asn1` with `OutOfMemory`: memory runs out.
    /// - The errors that the builder states: those of its profile, and `Asn1` with `Overflow` if a
    ///   length exceeds 2^32 - 1.
    fn finalize<S: Signer>(&mut self, alloc: Global, signer: &S) -> Result<Vec<u8>, Error>
        ensures octets { IfOk result
            (λ v. v.items
            ≡ octets_of part_shape
            (to_sign self.old (S.public_key signer.now) (S.signs_by signer.now))) }
        ensures valid { IfOk result
            (λ _. is_valid self.old (S.public_key signer.now) (S.signs_by signer.now)) }
        ensures left { IfOk result
            (λ _. finalized self.new
            ≡ Some (to_sign self.old (S.public_key signer.now) (S.signs_by signer.now))) }
        ensures bears { IfOk result (λ _. algorithm_for self.new (S.signs_by signer.now)
            ≡ S.signs_by signer.now) }
        ensures otherwise { OnOk result (is_same_otherwise self.old self.new) }
        ensures again { (key : PublicKey) (algorithm : Algorithm) → to_sign self.new key algorithm
            ≡ to_sign self.old key algorithm }
        ensures kept { IfErr result (λ _. self.new ≡ self.old) }
        ensures refused { IfErr result (λ e. IsWantOfMemory e
            ⊎ faults self.old (S.public_key signer.now) (S.signs_by signer.now) e) };

    /// Returns the result: the part of the last `finalize`, with this signature. The builder is
    /// consumed, and nothing is encoded. The signer doesn't sign. `algorithm_for` states the
    /// algorithm of the result: for certificates and CRLs, it is that of the last `finalize`; for
    /// CSRs, it is that of this signer.
    ///
    /// # Errors
    ///
    /// - `Asn1` with `Failed`: `finalize` was never called successfully.
    /// - `Asn1` with `OutOfMemory`: memory runs out.
    fn assemble<S: Signer>(
        self,
        alloc: Global,
        signature: BitString,
        signer: &S,
    ) -> Result<Self::Output, Error>
        ensures part { IfOk result (λ x. finalized self ≡ Some (signed_part x)) }
        ensures octets { IfOk result (λ x. signed_octets x ≡ octets_of part_shape (signed_part x)) }
        ensures algorithm { IfOk result
            (λ x. outer_algorithm x ≡ algorithm_for self (S.signs_by signer.now)) }
        ensures signature { IfOk result (λ x. bits x ≡ signature) }
        ensures unready { finalized self ≡ None → IfErr result IsFailed }
        ensures refused { IfErr result (λ e. IsWantOfMemory e ⊎ (finalized self ≡ None)) };

    /// Builds and signs the result. It consumes the builder.
    ///
    /// # Errors
    ///
    /// - The errors of `finalize` and of `assemble`.
    /// - `Signature`: the signer refuses to sign, or runs out of memory.
    fn build<S: Signer>(mut self, alloc: Global, signer: &S) -> Result<Self::Output, Error>
        ensures part { IfOk result
            (λ x. signed_part x ≡ to_sign self (S.public_key signer.now) (S.signs_by signer.now)) }
        ensures octets { IfOk result (λ x. signed_octets x ≡ octets_of part_shape (signed_part x)) }
        ensures valid { IfOk result
            (λ _. is_valid self (S.public_key signer.now) (S.signs_by signer.now)) }
        ensures algorithm { IfOk result (λ x. outer_algorithm x ≡ S.signs_by signer.now) }
        ensures signed { IfOk result (λ x. S.signs signer.now (signed_octets x) (bits x)) }
        ensures refused { IfErr result (λ e. IsWantOfMemory e
            ⊎ faults self (S.public_key signer.now) (S.signs_by signer.now) e
            ⊎ IsUnsigned (S.may_refuse signer.now
            (octets_of part_shape
            (to_sign self (S.public_key signer.now) (S.signs_by signer.now)))) e) }
    {
        let octets = self.finalize(alloc, signer)?;
        let signature = signer.sign(alloc, octets.as_slice())?;
        Ok(self.assemble(alloc, signature, signer)?)
    }

    /// Builds and signs the result as `build` does, and passes a random number generator to the
    /// signer.
    ///
    /// # Errors
    ///
    /// - The errors of `build`.
    fn build_with_rng<S: Signer, R: CryptoRng>(
        mut self,
        alloc: Global,
        signer: &S,
        rng: &mut R,
    ) -> Result<Self::Output, Error>
        ensures part { IfOk result
            (λ x. signed_part x ≡ to_sign self (S.public_key signer.now) (S.signs_by signer.now)) }
        ensures octets { IfOk result (λ x. signed_octets x ≡ octets_of part_shape (signed_part x)) }
        ensures valid { IfOk result
            (λ _. is_valid self (S.public_key signer.now) (S.signs_by signer.now)) }
        ensures algorithm { IfOk result (λ x. outer_algorithm x ≡ S.signs_by signer.now) }
        ensures signed { IfOk result (λ x. S.signs signer.now (signed_octets x) (bits x)) }
        ensures refused { IfErr result (λ e. IsWantOfMemory e
            ⊎ faults self (S.public_key signer.now) (S.signs_by signer.now) e
            ⊎ IsUnsigned (S.may_refuse signer.now
            (octets_of part_shape
            (to_sign self (S.public_key signer.now) (S.signs_by signer.now)))) e) }
    {
        let octets = self.finalize(alloc, signer)?;
        let signature = signer.sign_with_rng(alloc, rng, octets.as_slice())?;
        Ok(self.assemble(alloc, signature, signer)?)
    }
}
