ghost use Rattle.std.specs.Prelude.{Ok, pos};
ghost use Rattle.x509_cert_certificates.specs.Der.Grammar.{plain_option};
ghost use Rattle.x509_cert_certificates.specs.CertNames.Views.{name_plain};
ghost use Rattle.x509_cert_builders.specs.Profiles.{subordinate_extensions};

use crate::added_extensions::{
    add_authority, add_constraints, add_identifier, add_purposes, add_usage, authority_usage,
};
use crate::build_error::Error;
use crate::builder_profile::BuilderProfile;
use std::alloc::Global;
use x509_cert_certificates::TbsCertificate;
use x509_cert_certificates::cert_names::Name;
use x509_cert_certificates::cert_parts::{Extensions, SubjectPublicKeyInfoRef};

/// The profile of a subordinate CA whose key signs certificates of TLS servers (CA/Browser Forum,
/// Baseline Requirements 7.1.2.6).
#[derive(Drop)]
pub struct Subordinate {
    /// The name of the issuer.
    pub issuer: Name,
    /// The name of the CA.
    pub subject: Name,
    /// The greatest number of CAs below this one, if it is limited.
    pub path_len_constraint: Option<u8>,
    /// True if the CA's key also signs OCSP responses.
    pub emits_ocsp_response: bool,
    /// True if the CA also issues certificates to TLS clients.
    pub client_auth: bool,
}

impl BuilderProfile for Subordinate {
    ghost issuer_name = { λ profile _. name_plain profile.issuer };

    ghost subject_name = { λ profile. Ok (name_plain profile.subject) };

    ghost extensions = { λ profile key issuer_key _. subordinate_extensions
        profile.emits_ocsp_response profile.client_auth
        (plain_option (λ n. pos n) profile.path_len_constraint) key issuer_key };

    ghost refuses = { λ _ _. ⊥ };

    fn get_issuer(&self, alloc: Global, _subject: &Name) -> Result<Name, Error> {
        Ok(self.issuer.clone(alloc)?)
    }

    fn get_subject(&self, alloc: Global) -> Result<Name, Error> {
        Ok(self.subject.clone(alloc)?)
    }

    fn build_extensions<'a, 'b>(
        &self,
        alloc: Global,
        spk: &SubjectPublicKeyInfoRef<'a>,
        issuer_spk: &SubjectPublicKeyInfoRef<'b>,
        tbs: &TbsCertificate,
    ) -> Result<Extensions, Error> {
        let subject = tbs.subject();
        let mut extensions = Vec::with_capacity(alloc, 5)?;
        add_authority(alloc, &mut extensions, subject, issuer_spk)?;
        let path_len = self.path_len_constraint;
        add_constraints(alloc, &mut extensions, subject, true, path_len)?;
        let usage = authority_usage(self.emits_ocsp_response);
        add_usage(alloc, &mut extensions, subject, usage)?;
        add_identifier(alloc, &mut extensions, subject, spk)?;
        add_purposes(alloc, &mut extensions, subject, self.client_auth)?;
        Ok(extensions)
    }
}
