//! The types of the ASN.1 module CryptographicMessageSyntax2004, written by `tools/asn1`.
#![tactic(auto)]

mod aliases;
mod certificate_choices;
mod cms_version;
mod content_info;
mod digested_data;
mod encapsulated_content_info;
mod encrypted_content_info;
mod encrypted_data;
pub mod identifiers;
mod issuer_and_serial_number;
pub mod laws;
mod other_certificate_format;
mod other_revocation_info_format;
mod revocation_info_choice;
mod signed_data;
mod signer_identifier;
mod signer_info;

pub use aliases::{
    CertificateSet, ContentEncryptionAlgorithmIdentifier, ContentType, Countersignature, Digest,
    DigestAlgorithmIdentifier, DigestAlgorithmIdentifiers, EncryptedContent, MessageDigest,
    RevocationInfoChoices, SignatureAlgorithmIdentifier, SignatureValue, SignedAttributes,
    SignerInfos, SigningTime, SubjectKeyIdentifier, UnprotectedAttributes, UnsignedAttributes,
};
pub use certificate_choices::CertificateChoices;
pub use cms_version::CmsVersion;
pub use content_info::ContentInfo;
pub use digested_data::DigestedData;
pub use encapsulated_content_info::EncapsulatedContentInfo;
pub use encrypted_content_info::EncryptedContentInfo;
pub use encrypted_data::EncryptedData;
pub use issuer_and_serial_number::IssuerAndSerialNumber;
pub use other_certificate_format::OtherCertificateFormat;
pub use other_revocation_info_format::OtherRevocationInfoFormat;
pub use revocation_info_choice::RevocationInfoChoice;
pub use signed_data::SignedData;
pub use signer_identifier::SignerIdentifier;
pub use signer_info::SignerInfo;
