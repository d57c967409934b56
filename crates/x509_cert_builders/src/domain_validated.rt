ghost use Rattle.x509_cert_certificates.specs.Der.Copies.{IsCopy};
ghost use Rattle.x509_cert_builders.specs.Subscribers.{domains_plain};

use std::alloc::{AllocError, Global};
use x509_cert_certificates::cert_names::Name;
use x509_cert_certificates::der::making::copies_of;
use x509_cert_extensions::cert_general_names::{GeneralName, GeneralNames};

/// The subject and the domains of a subscriber whose domains, and nothing else, were validated
/// (CA/Browser Forum, Baseline Requirements 7.1.2.7.2). The subject contains only countries and
/// common names.
#[derive(Debug, Drop, PartialEq)]
pub struct DomainValidated {
    pub(crate) subject: Name,
    /// The domains. They are in a certificate only if they are also added to its builder as an
    /// extension.
    pub(crate) names: GeneralNames,
}

impl DomainValidated {
    /// Returns a copy.
    ///
    /// # Errors
    ///
    /// - `AllocError`: memory runs out.
    pub fn clone(&self, alloc: Global) -> Result<DomainValidated, AllocError>
        ensures { IsCopy self.now result domains_plain }
    {
        Ok(DomainValidated {
            subject: self.subject.clone(alloc)?,
            names: copies_of(alloc, self.names.as_slice(), GeneralName::clone)?,
        })
    }
}
