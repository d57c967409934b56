ghost use Rattle.std.specs.Prelude.{◌≡◌, ◌⊎◌, ◌++◌, ◌∷◌, [], Err, Some, None, IsOk, IfOk, IfErr};
ghost use Rattle.std.specs.Prelude.{OnOk, OnErr};
ghost use Rattle.x509_cert_certificates.specs.Oid.Bound.{Bound};
ghost use Rattle.x509_cert_certificates.specs.Der.Grammar.{plain_option};
ghost use Rattle.x509_cert_certificates.specs.Der.Shapes.{IsValid};
ghost use Rattle.x509_cert_certificates.specs.Views.{certificate_plain, tbs_plain};
ghost use Rattle.x509_cert_certificates.specs.Certificates.{outer_algorithm, signature_bits, tbs};
ghost use Rattle.x509_cert_certificates.specs.Certificates.{tbs_certificate, tbs_public_key};
ghost use Rattle.x509_cert_certificates.specs.CertParts.Views.{algorithm_plain, extensions_plain};
ghost use Rattle.x509_cert_certificates.specs.CertParts.Views.{key_plain};
ghost use Rattle.x509_cert_certificates.specs.CertParts.Views.{validity_plain};
ghost use Rattle.x509_cert_certificates.specs.Assembling.{bare_part, fields_of, signed_part};
ghost use Rattle.x509_cert_certificates.specs.CertParts.SerialNumbers.{serial_octets_max};
ghost use Rattle.x509_cert_builders.specs.SignedParts.{part_shape, written_part};
ghost use Rattle.x509_cert_builders.specs.States.{algorithm_of_last, as_written};
ghost use Rattle.x509_cert_builders.specs.States.{certificate_octets_in_place, part_for};
ghost use Rattle.x509_cert_builders.specs.Refusals.{IsFailed, IsUnwritten, IsWantOfMemory};
ghost use Rattle.x509_cert_builders.specs.Refusals.{IsWantOfMemoryAs};

use crate::added_extensions::joined;
use crate::build_error::Error;
use crate::builder::Builder;
use crate::builder_profile::BuilderProfile;
use crate::identifiers::no_algorithm;
use crate::signed_part::{part_in_range, written};
use crate::signer::Signer;
use std::alloc::Global;
use std::marker::Model;
use x509_cert_certificates::assembling::{
    bare_part, certificate_of, complete, lay_bare, take_extensions,
};
use x509_cert_certificates::cert_parts::{
    AlgorithmIdentifier, Extension, Extensions, SerialNumber, SubjectPublicKeyInfo, Validity,
};
use x509_cert_certificates::der::ErrorKind;
use x509_cert_certificates::laws::signed_part_stands_in_place;
use x509_cert_certificates::types::BitString;
use x509_cert_certificates::{Certificate, TbsCertificate};
use x509_cert_extensions::ToExtension;

/// A builder of certificates (RFC 5280 4.1). Its profile determines the names and some of the
/// extensions. Extensions that are added to the builder come before those of the profile.
///
/// In contracts, its value is a `CertificateState`: the profile, the fields that `new` sets, the
/// extensions that were added, and the part of the last `finalize`.
#[derive(Drop)]
pub struct CertificateBuilder<P> {
    profile: P,
    part: TbsCertificate,
    extensions: Extensions,
    finalized: Option<Finalized>,
}

/// The algorithm and the extensions of the part of the last `finalize`. The other fields of that
/// part are those of the builder.
#[derive(Drop)]
struct Finalized {
    algorithm: AlgorithmIdentifier,
    extensions: Extensions,
}

impl<P> Model for CertificateBuilder<P> {
    ghost use Rattle.x509_cert_builders.specs.States.{CertificateState, certificate_state};

    ghost Value = { CertificateState P };

    ghost view = { certificate_state };
}

impl<P: BuilderProfile + Drop> CertificateBuilder<P> {
    /// Returns a builder of a certificate with this serial number, these dates and this key.
    ///
    /// # Examples
    ///
    /// From `crates/example_build_certificates/src/main.rt`:
    ///
    /// ```rust
    /// pub(crate) fn builder_for<P: BuilderProfile + Drop>(
    ///     alloc: Global,
    ///     profile: P,
    ///     number: u8,
    ///     key: SubjectPublicKeyInfo,
    /// ) -> Result<CertificateBuilder<P>, Error> {
    ///     let serial = SerialNumber::new(alloc, &[number])?;
    ///     let builder = CertificateBuilder::new(alloc, profile, serial, validity()?, key)?;
    ///     Ok(builder)
    /// }
    /// ```
    ///
    /// # Errors
    ///
    /// - The errors of the profile.
    /// - `Asn1` with `OutOfMemory`: memory runs out.
    pub fn new(
        alloc: Global,
        profile: P,
        serial_number: SerialNumber,
        validity: Validity,
        subject_public_key_info: SubjectPublicKeyInfo,
    ) -> Result<CertificateBuilder<P>, Error>
        ensures made { IfOk result (λ b. IfOk (P.subject_name profile) (λ subject. b ≡ record {
          profile = profile;
          fields = record {
            serial = serial_number;
            issuer = P.issuer_name profile subject;
            validity = validity_plain validity;
            subject = subject;
            key = key_plain subject_public_key_info;
          };
          added = [];
          finalized = None;
        })) }
        ensures named { IfOk result (λ _. IsOk (P.subject_name profile)) }
        ensures refused { IfErr result (λ e. IsWantOfMemory e ⊎ P.refuses profile e
            ⊎ (P.subject_name profile ≡ Err e)) }
    {
        let subject = profile.get_subject(alloc)?;
        let issuer = profile.get_issuer(alloc, &subject)?;
        let part = bare_part(
            serial_number,
            no_algorithm(),
            issuer,
            validity,
            subject,
            subject_public_key_info,
        );
        Ok(CertificateBuilder {
            profile,
            part,
            extensions: Vec::new(alloc),
            finalized: None,
        })
    }

    /// Adds the extension that a value is turned into.
    ///
    /// If the call fails, the builder is unchanged.
    ///
    /// # Errors
    ///
    /// - The errors of `ToExtension::to_extension`.
    /// - `OutOfMemory`, converted to `E::Error`: memory runs out.
    pub fn add_extension<E: ToExtension>(
        &mut self,
        alloc: Global,
        extension: E,
    ) -> Result<(), E::Error>
        ensures added { OnOk result
            (self.new
            ≡ record self.old {
              added = self.old.added ++ E.made extension self.old.fields.subject
                  self.old.added ∷ [];
            }) }
        ensures kept { OnErr result (self.new ≡ self.old) }
        ensures refused { IfErr result (λ e. E.refused extension e
            ⊎ IsWantOfMemoryAs E.Error.from_gives e) }
    {
        let made = extension.to_extension(alloc, self.part.subject(), self.extensions.as_slice())?;
        match self.extensions.push(made) {
            Ok(()) => Ok(()),
            Err(error) => Err(E::Error::from(x509_cert_certificates::der::Error::from(error))),
        }
    }
}

/// Returns the extensions that the profile adds to this part for this signer.
///
/// # Errors
///
/// - The errors of the profile.
/// - `Asn1` with `OutOfMemory`: memory runs out.
fn profiled<P: BuilderProfile, S: Signer>(
    alloc: Global,
    profile: &P,
    part: &TbsCertificate,
    signer: &S,
) -> Result<Extensions, Error>
    ensures made { IfOk result
        (λ v. extensions_plain v.items
        ≡ P.extensions profile.now (tbs_public_key (tbs_plain part.now)) (S.public_key signer.now)
        (tbs_plain part.now)) }
    ensures refused { IfErr result (λ e. IsWantOfMemory e ⊎ P.refuses profile.now e) }
{
    let key = part.subject_public_key_info().owned_to_ref();
    let issuer_key = signer.key_info().owned_to_ref();
    Ok(profile.build_extensions(alloc, &key, &issuer_key, part)?)
}

/// Completes the part with the signer's algorithm, the extensions that were added, and those of the
/// profile.
///
/// # Errors
///
/// - The errors of the profile.
/// - `Asn1` with `OutOfMemory`: memory runs out.
fn make_whole<P: BuilderProfile, S: Signer>(
    alloc: Global,
    profile: &P,
    part: &mut TbsCertificate,
    added: &[Extension],
    signer: &S,
) -> Result<(), Error>
    ensures whole { OnOk result
        (tbs_plain part.new ≡ signed_part (fields_of (tbs_plain part.old)) (S.signs_by signer.now)
        (extensions_plain added.now
        ++ P.extensions profile.now (tbs_public_key (tbs_plain part.old)) (S.public_key signer.now)
        (bare_part (fields_of (tbs_plain part.old)) (S.signs_by signer.now)))) }
    ensures fields { fields_of (tbs_plain part.new) ≡ fields_of (tbs_plain part.old) }
    ensures refused { IfErr result (λ e. IsWantOfMemory e ⊎ P.refuses profile.now e) }
{
    lay_bare(part, signer.algorithm().clone(alloc)?);
    let more = profiled(alloc, profile, part, signer)?;
    let extensions = joined(alloc, added, more)?;
    complete(part, extensions);
    Ok(())
}

/// Completes the part with the algorithm and the extensions of the last `finalize`, and returns the
/// algorithm.
///
/// # Errors
///
/// - `Asn1` with `Failed`: `finalize` was never called successfully.
/// - `Asn1` with `OutOfMemory`: memory runs out.
fn put_back(
    alloc: Global,
    part: &mut TbsCertificate,
    finalized: Option<Finalized>,
) -> Result<AlgorithmIdentifier, Error>
    ensures algorithm { IfOk result (λ a. plain_option (λ f. algorithm_plain f.algorithm) finalized
        ≡ Some (algorithm_plain a)) }
    ensures whole { IfOk result
        (λ a. plain_option
        (λ f. signed_part (fields_of (tbs_plain part.old)) (algorithm_plain f.algorithm)
        (extensions_plain f.extensions.items)) finalized ≡ Some (tbs_plain part.new)) }
    ensures unready { finalized ≡ None → IfErr result IsFailed }
    ensures refused { IfErr result (λ e. IsWantOfMemory e ⊎ (finalized ≡ None)) }
{
    let Some(finalized) = finalized else {
        return Err(Error::Asn1(x509_cert_certificates::der::Error::from(ErrorKind::Failed)));
    };
    lay_bare(part, finalized.algorithm.clone(alloc)?);
    complete(part, finalized.extensions);
    Ok(finalized.algorithm)
}

impl<P: BuilderProfile + Drop> Builder for CertificateBuilder<P> {
    type Output = Certificate;

    ghost part_shape = { part_shape };

    ghost to_sign = { part_for P.extensions };

    ghost is_valid = { λ b key algorithm. IsValid part_shape
        (part_for P.extensions b key algorithm) };

    // The profile fails, or the TBSCertificate has no encoding.
    ghost faults = { λ b key algorithm e. P.refuses b.profile e
        ⊎ IsUnwritten (tbs_certificate Bound (Some serial_octets_max))
        (part_for P.extensions b key algorithm) e };

    ghost finalized = { λ b. plain_option written_part b.finalized };

    ghost is_same_otherwise = { λ b c. c ≡ record b { finalized = c.finalized } };

    // The algorithm of a certificate is that of its TBSCertificate (RFC 5280 4.1.1.2).
    ghost algorithm_for = { λ b a. algorithm_of_last b.finalized a };

    ghost signed_part = { λ c. tbs (as_written (certificate_plain c)) };

    ghost signed_octets = { λ c. certificate_octets_in_place (certificate_plain c) };

    ghost outer_algorithm = { λ c. outer_algorithm (certificate_plain c) };

    ghost bits = { λ c. signature_bits (certificate_plain c) };

    #[tactic(auto, using(crate::proofs::Subjects::field_back))]
    fn finalize<S: Signer>(&mut self, alloc: Global, signer: &S) -> Result<Vec<u8>, Error> {
        let added = self.extensions.as_slice();
        make_whole(alloc, &self.profile, &mut self.part, added, signer)?;
        part_in_range(&self.part);
        let octets = written(alloc, &self.part)?;
        let algorithm = signer.algorithm().clone(alloc)?;
        let extensions = take_extensions(alloc, &mut self.part);
        self.finalized = Some(Finalized {
            algorithm,
            extensions,
        });
        Ok(octets)
    }

    fn assemble<S: Signer>(
        self,
        alloc: Global,
        signature: BitString,
        _signer: &S,
    ) -> Result<Certificate, Error> {
        let CertificateBuilder {
            mut part,
            finalized,
            ..
        } = self;
        let signature_algorithm = put_back(alloc, &mut part, finalized)?;
        signed_part_stands_in_place();
        Ok(certificate_of(part, signature_algorithm, signature))
    }
}
