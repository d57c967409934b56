//! X.509 certificates, their extensions, CRLs and CSRs (RFC 5280, RFC 2986), for programs that only
//! decode them.
//!
//! The items are those of `x509_cert` without trust anchors and builders.
#![tactic(auto)]

// Certificates.
pub use x509_cert_certificates::{
    CertDigest, Certificate, CertificateInner, TbsCertificate, TbsCertificateInner,
};
pub use x509_cert_lists::cert_names::{
    Attribute, AttributeType, AttributeTypeAndValue, AttributeValue, Attributes, DirectoryString,
    DistinguishedName, FromAny, Name, NameIter, RdnSequence, RdnSequenceIter,
    RelativeDistinguishedName,
};
pub use x509_cert_lists::cert_parts::{
    AlgorithmIdentifier, AlgorithmIdentifierRef, Extension, Extensions, ExtensionsOf, Profile, Raw,
    Rfc5280, SerialNumber, SubjectPublicKeyInfo, SubjectPublicKeyInfoRef, Time, Validity, Version,
    filter_extensions, get_extension,
};
pub use x509_cert_lists::types::{
    Any, AnyRef, BitString, DateTime, FlagSet, GeneralizedTime, Ia5String, NamedBits, OctetString,
    SetOfIter, SetOfVec, Uint, UtcTime,
};

// Contents of extensions.
pub use x509_cert_extensions::cert_general_names::{
    AccessDescription, AuthorityKeyIdentifier, DistributionPoint, DistributionPointName,
    EdiPartyName, GeneralName, GeneralNames, GeneralSubtree, GeneralSubtrees, HardwareModuleName,
    IssuingDistributionPoint, NameConstraints, OtherName, ReasonFlags, Reasons,
};
pub use x509_cert_extensions::policy_types::{
    BasicConstraints, CertificatePolicies, CpsUri, DisplayText, InhibitAnyPolicy, NoticeReference,
    PolicyConstraints, PolicyInformation, PolicyMapping, PolicyMappings, PolicyQualifierInfo,
    PrivateKeyUsagePeriod, UserNotice, timestamps,
};
pub use x509_cert_extensions::{
    AuthorityInfoAccessSyntax, BaseCrlNumber, Criticality, CrlDistributionPoints, CrlNumber,
    CrlReason, ExtendedKeyUsage, FreshestCrl, IssuerAltName, KeyUsage, KeyUsages, SubjectAltName,
    SubjectDirectoryAttributes, SubjectInfoAccessSyntax, SubjectKeyIdentifier, ToExtension,
};

// CRLs and CSRs.
pub use x509_cert_lists::{
    AsAttribute, CertReq, CertReqInfo, CertificateList, ChallengePassword, ExtensionReq,
    RevokedCert, TbsCertList, TryFromExtensionReq,
};
