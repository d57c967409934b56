//! Profiles that determine the names and extensions of certificates that are built.

pub use x509_cert_builders::BuilderProfile;

/// Profiles of the CA/Browser Forum's Baseline Requirements.
pub mod cabf {
    pub use x509_cert_builders::{Root, ca_certificate_naming, check_names_encoding};

    /// Profiles for TLS servers and the CAs that issue their certificates.
    pub mod tls {
        pub use x509_cert_builders::{
            CertificateType, DomainValidated, Subordinate, Subscriber, Tls12Options,
        };
    }
}

/// Profiles for devices (IEEE 802.1AR).
pub mod devid {
    pub use x509_cert_builders::{DevId, TpmVersion};

    /// OIDs of the Trusted Computing Group for hardware modules.
    pub mod tcgtpm {
        pub use x509_cert_builders::{tcg_sv_tpm_12, tcg_sv_tpm_20};
    }
}
