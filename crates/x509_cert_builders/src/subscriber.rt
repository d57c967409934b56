ghost use Rattle.std.specs.Prelude.{◌≡◌, ◌<◌, ◌^◌, bit_or, if◌then◌else◌};
ghost use Rattle.x509_cert_certificates.specs.CertParts.Views.{key_lent};
ghost use Rattle.x509_cert_certificates.specs.CertNames.Views.{name_plain};
ghost use Rattle.x509_cert_builders.specs.Profiles.{subscriber_extensions, subscriber_uses};
ghost use Rattle.x509_cert_builders.specs.Subscribers.{type_subject};

use crate::added_extensions::{add_authority, add_constraints, add_purposes, add_usage};
use crate::build_error::Error;
use crate::builder_profile::BuilderProfile;
use crate::certificate_type::CertificateType;
use crate::identifiers::{elliptic_curve_key, rsa_encryption};
use crate::tls12_options::Tls12Options;
use std::alloc::Global;
use x509_cert_certificates::TbsCertificate;
use x509_cert_certificates::cert_names::Name;
use x509_cert_certificates::cert_parts::{Extensions, SubjectPublicKeyInfoRef};
use x509_cert_certificates::types::FlagSet;
use x509_cert_extensions::{KeyUsage, KeyUsages};

/// The profile of a TLS server's certificate (CA/Browser Forum, Baseline Requirements 7.1.2.7). The
/// domains must be added to the builder as `SubjectAltName`.
#[derive(Drop)]
pub struct Subscriber {
    /// The validation of the subscriber, with its subject.
    pub certificate_type: CertificateType,
    /// The name of the issuer.
    pub issuer: Name,
    /// True if the key may also authenticate a TLS client.
    pub client_auth: bool,
    /// Additional key usages for TLS 1.2.
    pub tls12_options: Tls12Options,
    /// True if an RSA key may also encrypt data.
    pub enable_data_encipherment: bool,
}

/// Returns the usages, and also `more` if `stands` is true.
fn with_use(uses: FlagSet<KeyUsages>, more: KeyUsages, stands: bool) -> FlagSet<KeyUsages>
    requires { more.0 < 2 ^ 9 }
    ensures { result.flags.0 ≡ (if stands then bit_or uses.flags.0 more.0 else uses.flags.0) }
{
    if stands {
        return uses.union(FlagSet::from_flag(more));
    }
    uses
}

impl Subscriber {
    /// Returns the key usage for this key.
    #[tactic(auto, using(crate::proofs::Encodable::joined_uses))]
    fn usage<'a>(&self, key: &SubjectPublicKeyInfoRef<'a>) -> KeyUsage
        ensures { result.0.flags.0 ≡ subscriber_uses self.now.enable_data_encipherment
            self.now.tls12_options.enable_key_encipherment
            self.now.tls12_options.enable_key_agreement
            (key_lent key.now) }
    {
        let is_rsa = key.algorithm.oid == rsa_encryption();
        let is_elliptic = key.algorithm.oid == elliptic_curve_key();
        let options = &self.tls12_options;
        let uses = FlagSet::from_flag(KeyUsages::DigitalSignature);
        let data = self.enable_data_encipherment && is_rsa;
        let uses = with_use(uses, KeyUsages::DataEncipherment, data);
        let keys = options.enable_key_encipherment && is_rsa;
        let uses = with_use(uses, KeyUsages::KeyEncipherment, keys);
        let agreement = options.enable_key_agreement && is_elliptic;
        let uses = with_use(uses, KeyUsages::KeyAgreement, agreement);
        KeyUsage(uses)
    }
}

impl BuilderProfile for Subscriber {
    ghost issuer_name = { λ profile _. name_plain profile.issuer };

    ghost subject_name = { λ profile. type_subject profile.certificate_type };

    ghost extensions = { λ profile key issuer_key _. subscriber_extensions profile.client_auth
        (subscriber_uses profile.enable_data_encipherment
        profile.tls12_options.enable_key_encipherment profile.tls12_options.enable_key_agreement
        key) issuer_key };

    ghost refuses = { λ _ _. ⊥ };

    fn get_issuer(&self, alloc: Global, _subject: &Name) -> Result<Name, Error> {
        Ok(self.issuer.clone(alloc)?)
    }

    /// Returns the subject of a domain-validated subscriber.
    ///
    /// # Errors
    ///
    /// - `Unsupported`: the certificate type isn't `DomainValidated`.
    /// - `Asn1` with `OutOfMemory`: memory runs out.
    fn get_subject(&self, alloc: Global) -> Result<Name, Error> {
        let CertificateType::DomainValidated(validated) = &self.certificate_type else {
            return Err(Error::Unsupported);
        };
        Ok(validated.subject.clone(alloc)?)
    }

    fn build_extensions<'a, 'b>(
        &self,
        alloc: Global,
        spk: &SubjectPublicKeyInfoRef<'a>,
        issuer_spk: &SubjectPublicKeyInfoRef<'b>,
        tbs: &TbsCertificate,
    ) -> Result<Extensions, Error> {
        let subject = tbs.subject();
        let mut extensions = Vec::with_capacity(alloc, 4)?;
        add_authority(alloc, &mut extensions, subject, issuer_spk)?;
        add_purposes(alloc, &mut extensions, subject, self.client_auth)?;
        add_constraints(alloc, &mut extensions, subject, false, None)?;
        let usage = self.usage(spk);
        add_usage(alloc, &mut extensions, subject, usage)?;
        Ok(extensions)
    }
}
