//! The contents of extensions (RFC 5280 4.2.1, 4.2.2, 5.2, 5.3).

pub use x509_cert_anchors::cert_general_names::{
    AccessDescription, AuthorityKeyIdentifier, IssuingDistributionPoint, NameConstraints,
};
pub use x509_cert_anchors::policy_types::timestamps::{
    Error, HashAlgorithm, SerializedSct, SignatureAlgorithm, SignatureAndHashAlgorithm,
    SignedCertificateTimestamp, SignedCertificateTimestampList, Version,
};
pub use x509_cert_anchors::policy_types::{
    BasicConstraints, CertificatePolicies, InhibitAnyPolicy, PolicyConstraints, PolicyMapping,
    PolicyMappings, PrivateKeyUsagePeriod,
};
pub use x509_cert_builders::cert_extensions::{
    AuthorityInfoAccessSyntax, BaseCrlNumber, CrlDistributionPoints, CrlNumber, CrlReason,
    ExtendedKeyUsage, FreshestCrl, IssuerAltName, KeyUsage, KeyUsages, SubjectAltName,
    SubjectDirectoryAttributes, SubjectInfoAccessSyntax, SubjectKeyIdentifier,
};

// Signed certificate timestamps (RFC 6962 3).
pub use x509_cert_anchors::policy_types::timestamps as sct;

/// Certificate policies (RFC 5280 4.2.1.4).
pub mod certpolicy {
    pub use x509_cert_anchors::policy_types::{
        CertificatePolicies, CpsUri, DisplayText, NoticeReference, PolicyInformation,
        PolicyQualifierInfo, UserNotice,
    };
}

/// Constraints on certificate chains (RFC 5280 4.2.1.9 to 4.2.1.11).
pub mod constraints {
    pub use x509_cert_anchors::cert_general_names::NameConstraints;
    pub use x509_cert_anchors::policy_types::{BasicConstraints, PolicyConstraints};

    /// Constraints on names (RFC 5280 4.2.1.10).
    pub mod name {
        pub use x509_cert_anchors::cert_general_names::{
            GeneralSubtree, GeneralSubtrees, NameConstraints,
        };
    }
}

/// Extensions of CRLs, and extensions with the locations of CRLs (RFC 5280 4.2.1.13, 5.2, 5.3).
pub mod crl {
    pub use x509_cert_anchors::cert_general_names::IssuingDistributionPoint;
    pub use x509_cert_builders::cert_extensions::{
        BaseCrlNumber, CrlDistributionPoints, CrlNumber, CrlReason, FreshestCrl,
    };

    /// Distribution points (RFC 5280 4.2.1.13, 5.2.5).
    pub mod dp {
        pub use x509_cert_anchors::cert_general_names::{
            DistributionPoint, IssuingDistributionPoint, ReasonFlags, Reasons,
        };
    }
}

/// General names (RFC 5280 4.2.1.6).
pub mod name {
    pub use x509_cert_anchors::cert_general_names::{
        DistributionPointName, EdiPartyName, GeneralName, GeneralNames, HardwareModuleName,
        OtherName,
    };
    pub use x509_cert_lists::cert_names::DirectoryString;
}
