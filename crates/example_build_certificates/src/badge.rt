//! A user-defined profile of certificates that are built.

use crate::clearance::Clearance;
use const_oid::AssociatedOid;
use der_core::Shaped;
use std::alloc::Global;
use x509_cert::builder::{BuilderProfile, Error};
use x509_cert::certificate::TbsCertificate;
use x509_cert::ext::{Criticality, Extensions, ToExtension};
use x509_cert::{Name, SubjectPublicKeyInfoRef};

/// The profile of a badge's certificate. One extension contains its clearance.
#[derive(Drop)]
pub struct Badge {
    /// The issuer of the badge.
    pub issuer: Name,
    /// The holder of the badge.
    pub subject: Name,
    /// The clearance of the badge.
    pub clearance: Clearance,
}

impl BuilderProfile for Badge {
    ghost use Rattle.std.specs.Prelude.{[], ◌∷◌, Ok};
    ghost use Rattle.x509_cert.specs.Certificates.{tbs_subject};
    ghost use Rattle.x509_cert.specs.Making.{extension_of};
    ghost use Rattle.x509_cert.specs.Parts.{name_plain};
    ghost use Rattle.x509_cert.specs.Refusals.{IsUnwritten};

    ghost issuer_name = { λ badge _. name_plain badge.issuer };

    ghost subject_name = { λ badge. Ok (name_plain badge.subject) };

    ghost extensions = { λ badge _ _ tbs. extension_of ⟦<Clearance as AssociatedOid>⟧.oid_arcs
        (⟦<Clearance as Criticality>⟧.is_critical badge.clearance (tbs_subject tbs) [])
        ⟦<Clearance as Shaped>⟧.shape (⟦<Clearance as Shaped>⟧.written badge.clearance) ∷ [] };

    // Only memory can run out, because a number always has an encoding.
    ghost refuses = { λ badge e. IsUnwritten ⟦<Clearance as Shaped>⟧.shape
        (⟦<Clearance as Shaped>⟧.written badge.clearance) e };

    fn get_issuer(&self, alloc: Global, _subject: &Name) -> Result<Name, Error> {
        Ok(self.issuer.clone(alloc)?)
    }

    fn get_subject(&self, alloc: Global) -> Result<Name, Error> {
        Ok(self.subject.clone(alloc)?)
    }

    fn build_extensions<'a, 'b>(
        &self,
        alloc: Global,
        _spk: &SubjectPublicKeyInfoRef<'a>,
        _issuer_spk: &SubjectPublicKeyInfoRef<'b>,
        tbs: &TbsCertificate,
    ) -> Result<Extensions, Error> {
        let extension = (&self.clearance).to_extension(alloc, tbs.subject(), &[])?;
        let mut extensions = Vec::new(alloc);
        extensions.push(extension)?;
        Ok(extensions)
    }
}
