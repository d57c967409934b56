ghost use Rattle.std.specs.Prelude.{◌≡◌, Ok, IfOk};
ghost use Rattle.x509_cert_certificates.specs.CertNames.Views.{name_plain};
ghost use Rattle.x509_cert_builders.specs.Naming.{NamesAuthority};
ghost use Rattle.x509_cert_builders.specs.Profiles.{root_extensions};

use crate::added_extensions::{
    add_authority, add_constraints, add_identifier, add_usage, authority_usage,
};
use crate::build_error::Error;
use crate::builder_profile::BuilderProfile;
use crate::naming::ca_certificate_naming;
use std::alloc::Global;
use x509_cert_certificates::TbsCertificate;
use x509_cert_certificates::cert_names::Name;
use x509_cert_certificates::cert_parts::{Extensions, SubjectPublicKeyInfoRef};

/// The profile of a root CA's certificate, which the CA signs itself (CA/Browser Forum, Baseline
/// Requirements 7.1.2.1).
#[derive(Drop)]
pub struct Root {
    /// True if the CA's key also signs OCSP responses.
    pub emits_ocsp_response: bool,
    subject: Name,
}

impl Root {
    /// Returns the profile of a root CA with this name.
    ///
    /// # Errors
    ///
    /// - The errors of `ca_certificate_naming`.
    pub fn new(alloc: Global, emits_ocsp_response: bool, subject: Name) -> Result<Root, Error>
        ensures naming { NamesAuthority (name_plain subject) result }
        ensures subject { IfOk result (λ r. ⟦<Root as BuilderProfile>⟧.subject_name r
            ≡ Ok (name_plain subject)) }
        ensures answers { IfOk result (λ r. r.emits_ocsp_response ≡ emits_ocsp_response) }
    {
        ca_certificate_naming(alloc, &subject)?;
        Ok(Root {
            emits_ocsp_response,
            subject,
        })
    }
}

impl BuilderProfile for Root {
    ghost issuer_name = { λ _ subject. subject };

    ghost subject_name = { λ root. Ok (name_plain root.subject) };

    ghost extensions = { λ root key _ _. root_extensions root.emits_ocsp_response key };

    ghost refuses = { λ _ _. ⊥ };

    fn get_issuer(&self, alloc: Global, subject: &Name) -> Result<Name, Error> {
        Ok(subject.clone(alloc)?)
    }

    fn get_subject(&self, alloc: Global) -> Result<Name, Error> {
        Ok(self.subject.clone(alloc)?)
    }

    fn build_extensions<'a, 'b>(
        &self,
        alloc: Global,
        spk: &SubjectPublicKeyInfoRef<'a>,
        _issuer_spk: &SubjectPublicKeyInfoRef<'b>,
        tbs: &TbsCertificate,
    ) -> Result<Extensions, Error> {
        let subject = tbs.subject();
        let mut extensions = Vec::with_capacity(alloc, 4)?;
        add_authority(alloc, &mut extensions, subject, spk)?;
        add_constraints(alloc, &mut extensions, subject, true, None)?;
        let usage = authority_usage(self.emits_ocsp_response);
        add_usage(alloc, &mut extensions, subject, usage)?;
        add_identifier(alloc, &mut extensions, subject, spk)?;
        Ok(extensions)
    }
}
