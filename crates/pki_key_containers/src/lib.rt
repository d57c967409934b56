//! The types of the ASN.1 module AsymmetricKeyPackageModuleV1, written by `tools/asn1`.
#![tactic(auto)]

mod aliases;
mod encrypted_private_key_info;
pub mod identifiers;
pub mod laws;
mod one_asymmetric_key;
mod version;

pub use aliases::{
    AsymmetricKeyPackage, Attributes, EncryptedData, EncryptionAlgorithmIdentifier, PrivateKey,
    PrivateKeyAlgorithmIdentifier, PrivateKeyInfo, PublicKey,
};
pub use encrypted_private_key_info::EncryptedPrivateKeyInfo;
pub use one_asymmetric_key::OneAsymmetricKey;
pub use version::Version;
