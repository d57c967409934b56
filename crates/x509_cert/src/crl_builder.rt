ghost use Rattle.std.specs.Prelude.{◌≡◌, ◌⊎◌, ◌++◌, ◌∷◌, [], Ok, Err, Some, None, IfOk, IfErr};
ghost use Rattle.std.specs.Prelude.{OnOk, OnErr};
ghost use Rattle.std.specs.Iterator.{IsFinite};
ghost use Rattle.std.specs.Iterator.Runs.{WholeRun};
ghost use Rattle.x509_cert_anchors.specs.Der.Grammar.{plain_list, plain_option};
ghost use Rattle.x509_cert_anchors.specs.Der.Reading.{Gives};
ghost use Rattle.x509_cert_anchors.specs.Der.Shapes.{IsValid};
ghost use Rattle.x509_cert_builders.specs.CertCertificates.Views.{certificate_plain, tbs_plain};
ghost use Rattle.x509_cert_builders.specs.CertCertificates.Certificates.{tbs, tbs_subject};
ghost use Rattle.x509_cert_lists.specs.CertParts.Views.{algorithm_plain, extensions_plain};
ghost use Rattle.x509_cert_lists.specs.CertParts.Views.{key_plain};
ghost use Rattle.x509_cert_lists.specs.CertParts.Views.{time_value};
ghost use Rattle.x509_cert_anchors.specs.CertGeneralNames.GeneralNameViews.{authority_key_identifier_plain};
ghost use Rattle.x509_cert_lists.specs.ListViews.{certificate_list_plain, revoked_cert_plain};
ghost use Rattle.x509_cert_lists.specs.ListViews.{tbs_cert_list_plain};
ghost use Rattle.x509_cert_builders.specs.Refusals.{IsUnwritten, IsWantOfMemory};
ghost use Rattle.x509_cert.specs.Lists.{HasNoExtensions, PlainAuthority, entries};
ghost use Rattle.x509_cert.specs.Lists.{given_or_made, issuing_key, key_extension};
ghost use Rattle.x509_cert.specs.Lists.{list_part, number_extension};
ghost use Rattle.x509_cert.specs.Signed.{octets_in_place};
ghost use Rattle.x509_cert.specs.States.{list_algorithm_of_last, list_of};

use crate::list_laws::signed_part_stands_in_place;
use crate::list_writing::list_written;
use std::alloc::Global;
use std::marker::Model;
use x509_cert_anchors::cert_general_names::AuthorityKeyIdentifier;
use x509_cert_anchors::der::ErrorKind;
use x509_cert_anchors::der::making::{copies_of, copies_of_option};
use x509_cert_builders::cert_certificates::{Certificate, TbsCertificate};
use x509_cert_builders::cert_extensions::{CrlNumber, ToExtension};
use x509_cert_builders::{Builder, Error, Signer};
use x509_cert_lists::cert_names::Name;
use x509_cert_lists::cert_parts::{
    AlgorithmIdentifier, AlgorithmIdentifierRef, Extension, Extensions, Profile, Rfc5280,
    SubjectPublicKeyInfo, SubjectPublicKeyInfoRef, Time, Version,
};
use x509_cert_lists::types::BitString;
use x509_cert_lists::{CertificateList, RevokedCert, TbsCertList};

/// A builder of CRLs (RFC 5280 5.1). The CRL has version 2, a CRL number, and an authority key
/// identifier.
///
/// In contracts, its value is a `ListState`: the fields that are set, and the part of the last
/// `finalize`.
#[derive(Drop)]
pub struct CrlBuilder<P = Rfc5280> {
    issuer: Name,
    this_update: Time,
    next_update: Option<Time>,
    revoked_certificates: Option<Vec<RevokedCert<P>>>,
    crl_extensions: Extensions,
    finalized: Option<TbsCertList<P>>,
}

impl<P> Model for CrlBuilder<P> {
    ghost use Rattle.x509_cert.specs.States.{ListState, list_state};

    ghost Value = { ListState };

    ghost view = { list_state };
}

/// Returns an authority key identifier with only the key identifier of this key.
///
/// # Errors
///
/// - `OutOfMemory`: memory runs out.
fn authority_identifier_of(
    alloc: Global,
    key: &SubjectPublicKeyInfo,
) -> Result<AuthorityKeyIdentifier, x509_cert_anchors::der::Error>
    ensures { Gives authority_key_identifier_plain result
        (Ok (given_or_made (key_plain key.now) None)) }
{
    let algorithm: AlgorithmIdentifierRef<'_> = key.algorithm.owned_to_ref();
    let key: SubjectPublicKeyInfoRef<'_> = SubjectPublicKeyInfoRef {
        algorithm,
        subject_public_key: key.subject_public_key.owned_to_ref(),
    };
    Ok(AuthorityKeyIdentifier::try_from_key(alloc, &key)?)
}

/// Returns the authority key identifier for the CRLs of this issuer: a copy of the one in its
/// certificate or, if there is none, one with only the key identifier of its key.
///
/// # Errors
///
/// - `Failed`: the issuer has two authority key identifiers.
/// - The first error of its authority key identifier.
/// - `OutOfMemory`: memory runs out.
fn issuing_key(
    alloc: Global,
    issuer: &TbsCertificate,
) -> Result<AuthorityKeyIdentifier, x509_cert_anchors::der::Error>
    ensures { Gives authority_key_identifier_plain result (issuing_key (tbs_plain issuer.now)) }
{
    let found = issuer.get_extension::<AuthorityKeyIdentifier>(alloc)?;
    let Some((_, identifier)) = found else {
        let identifier = authority_identifier_of(alloc, issuer.subject_public_key_info())?;
        return Ok(identifier);
    };
    Ok(identifier)
}

/// Returns the extensions of a CRL of this issuer: the CRL number and the authority key identifier.
///
/// # Errors
///
/// - The errors of `issuing_key`.
/// - The error of encoding one of the two extensions: it has no encoding.
/// - `OutOfMemory`: memory runs out.
#[tactic(auto, using(crate::proofs::RequestParts::no_key, crate::proofs::RequestParts::no_number, crate::proofs::RequestParts::no_authority))]
fn own_extensions(
    alloc: Global,
    issuer: &TbsCertificate,
    number: &CrlNumber,
) -> Result<Extensions, x509_cert_anchors::der::Error>
    ensures made { IfOk result (λ v. (key : PlainAuthority)
        × (issuing_key (tbs_plain issuer.now) ≡ Ok key)
        × (extensions_plain v.items ≡ number_extension number.now.0 ∷ key_extension key ∷ [])) }
    ensures refused { IfErr result (λ e. (e.kind ≡ ErrorKind.OutOfMemory)
        ⊎ HasNoExtensions number.now.0 (issuing_key (tbs_plain issuer.now)) e.kind) }
{
    let key = issuing_key(alloc, issuer)?;
    let number = number.to_extension(alloc, issuer.subject(), &[])?;
    let authority = (&key).to_extension(alloc, issuer.subject(), &[])?;
    Ok(Vec::from_array(alloc, [number, authority])?)
}

impl<P: Profile> CrlBuilder<P> {
    /// Returns a builder of a CRL of this issuer, with this date and this number, and without
    /// entries.
    ///
    /// The authority key identifier is a copy of the one in the issuer's certificate. If the
    /// certificate has none, it contains only the key identifier of the issuer's key: the SHA-1
    /// digest of its bytes (RFC 5280 4.2.1.2).
    ///
    /// # Examples
    ///
    /// From `crates/example_build_certificates/src/main.rt`:
    ///
    /// ```rust
    /// let mut builder = CrlBuilder::new_with_this_update(alloc, authority, number, this_update)?;
    /// builder = builder.with_next_update(Some(next_update));
    /// builder.with_certificates(alloc, revoked(alloc)?.into_iter())?;
    /// let list = builder.build(alloc, signer)?;
    /// ```
    ///
    /// # Errors
    ///
    /// - `Failed`: the issuer has two authority key identifiers.
    /// - The first error of its authority key identifier.
    /// - `Overflow`: a length exceeds 2^32 - 1.
    /// - `OutOfMemory`: memory runs out.
    pub fn new_with_this_update(
        alloc: Global,
        issuer: &Certificate,
        crl_number: CrlNumber,
        this_update: Time,
    ) -> Result<CrlBuilder<P>, x509_cert_anchors::der::Error>
        ensures made { IfOk result (λ b. (key : PlainAuthority)
            × (issuing_key (tbs (certificate_plain issuer.now)) ≡ Ok key) × (b ≡ record {
              issuer = tbs_subject (tbs (certificate_plain issuer.now));
              this_update = time_value this_update;
              next_update = None;
              revoked = None;
              extensions = number_extension crl_number.0 ∷ key_extension key ∷ [];
              finalized = None;
            })) }
        ensures refused { IfErr result (λ e. (e.kind ≡ ErrorKind.OutOfMemory)
            ⊎ HasNoExtensions crl_number.0 (issuing_key (tbs (certificate_plain issuer.now)))
            e.kind) }
    {
        let tbs = issuer.tbs_certificate();
        let crl_extensions = own_extensions(alloc, tbs, &crl_number)?;
        let issuer = tbs.subject().clone(alloc)?;
        Ok(CrlBuilder {
            issuer,
            this_update,
            next_update: None,
            revoked_certificates: None,
            crl_extensions,
            finalized: None,
        })
    }

    /// Sets the date by which the next CRL is issued, or removes it.
    pub fn with_next_update(mut self, next_update: Option<Time>) -> CrlBuilder<P>
        ensures { result ≡ record self { next_update = plain_option time_value next_update } }
    {
        self.next_update = next_update;
        self
    }

    /// Appends entries for revoked certificates, in their order. The CRL then has the list of
    /// entries, even if it is empty.
    ///
    /// # Errors
    ///
    /// - `Asn1` with `OutOfMemory`: memory runs out. The builder is unchanged.
    pub fn with_certificates<I: Iterator<Item = RevokedCert<P>>>(
        &mut self,
        alloc: Global,
        revoked: I,
    ) -> Result<(), Error>
        requires { I.can_next revoked × IsFinite (I.remaining revoked) }
        ensures added { OnOk result
            (WholeRun I.next_gives revoked
            (λ run. self.new
            ≡ record self.old {
              revoked = Some (entries self.old.revoked ++ plain_list revoked_cert_plain run.items);
            })) }
        ensures kept { OnErr result (self.new ≡ self.old) }
        ensures refused { IfErr result IsWantOfMemory }
    {
        let more: Vec<RevokedCert<P>> = revoked.collect(alloc)?;
        self.append(more)?;
        Ok(())
    }

    /// Appends entries. The CRL then has the list of entries, even if it is empty.
    ///
    /// # Errors
    ///
    /// - `Asn1` with `OutOfMemory`: memory runs out.
    fn append(&mut self, mut more: Vec<RevokedCert<P>>) -> Result<(), Error>
        ensures added { OnOk result
            (self.new
            ≡ record self.old {
              revoked = Some (entries self.old.revoked ++ plain_list revoked_cert_plain more.items);
            }) }
        ensures kept { OnErr result (self.new ≡ self.old) }
        ensures refused { IfErr result IsWantOfMemory }
    {
        match &mut self.revoked_certificates {
            Some(certificates) => certificates.append(&mut more)?,
            None => self.revoked_certificates = Some(more),
        }
        Ok(())
    }

    /// Returns the part that a signer with this algorithm signs.
    ///
    /// # Errors
    ///
    /// - `Asn1` with `OutOfMemory`: memory runs out.
    fn part_for(
        &self,
        alloc: Global,
        algorithm: &AlgorithmIdentifier,
    ) -> Result<TbsCertList<P>, Error>
        ensures made { IfOk result
            (λ t. tbs_cert_list_plain t ≡ list_of self.now (algorithm_plain algorithm.now)) }
        ensures refused { IfErr result IsWantOfMemory }
    {
        let signature = algorithm.clone(alloc)?;
        let issuer = self.issuer.clone(alloc)?;
        let revoked_certificates = copies_of_option(
            alloc,
            &self.revoked_certificates,
            RevokedCert::clone,
        )?;
        let crl_extensions = copies_of(alloc, self.crl_extensions.as_slice(), Extension::clone)?;
        Ok(TbsCertList {
            version: Version::V2,
            signature,
            issuer,
            this_update: self.this_update,
            next_update: self.next_update,
            revoked_certificates,
            crl_extensions: Some(crl_extensions),
        })
    }
}

impl<P: Profile> Builder for CrlBuilder<P> {
    type Output = CertificateList<P>;

    ghost part_shape = { list_part P.serial_limit };

    ghost to_sign = { λ b _ algorithm. list_of b algorithm };

    // The part has an encoding, for every limit on serial numbers.
    ghost is_valid = { λ b _ algorithm. IsValid (list_part None) (list_of b algorithm) };

    // The part has no encoding.
    ghost faults = { λ b _ algorithm e. IsUnwritten (list_part P.serial_limit) (list_of b algorithm)
        e };

    ghost finalized = { λ b. b.finalized };

    ghost is_same_otherwise = { λ b c. c ≡ record b { finalized = c.finalized } };

    // The algorithm of a CRL is that of its signed part (RFC 5280 5.1.1.2).
    ghost algorithm_for = { λ b a. list_algorithm_of_last b.finalized a };

    ghost signed_part = { λ c. tbs_cert_list_plain c.tbs_cert_list };

    ghost signed_octets = { λ c. octets_in_place (list_part P.serial_limit)
        (certificate_list_plain c) };

    ghost outer_algorithm = { λ c. algorithm_plain c.signature_algorithm };

    ghost bits = { λ c. c.signature };

    fn finalize<S: Signer>(&mut self, alloc: Global, signer: &S) -> Result<Vec<u8>, Error> {
        let part = self.part_for(alloc, signer.algorithm())?;
        let octets = list_written(alloc, &part)?;
        self.finalized = Some(part);
        Ok(octets)
    }

    fn assemble<S: Signer>(
        self,
        alloc: Global,
        signature: BitString,
        _signer: &S,
    ) -> Result<CertificateList<P>, Error> {
        let CrlBuilder { finalized, .. } = self;
        let Some(tbs_cert_list) = finalized else {
            return Err(Error::Asn1(x509_cert_anchors::der::Error::from(ErrorKind::Failed)));
        };
        let signature_algorithm = tbs_cert_list.signature.clone(alloc)?;
        signed_part_stands_in_place();
        Ok(CertificateList {
            tbs_cert_list,
            signature_algorithm,
            signature,
        })
    }
}
