//! Types of another name.

use crate::one_asymmetric_key::OneAsymmetricKey;
use der_core::StrictSetOf;
use der_types::{BitString, OctetString};
use der_types_more::OneOrMore;
use x509_cert_reading::{AlgorithmIdentifier, Attribute};

/// ```text
/// AsymmetricKeyPackage ::= SEQUENCE SIZE (1..MAX) OF OneAsymmetricKey
/// ```
pub type AsymmetricKeyPackage = OneOrMore<OneAsymmetricKey>;

/// ```text
/// PrivateKeyInfo ::= OneAsymmetricKey
/// ```
pub type PrivateKeyInfo = OneAsymmetricKey;

/// ```text
/// PrivateKeyAlgorithmIdentifier ::= AlgorithmIdentifier
///     { PUBLIC-KEY,
///       { PrivateKeyAlgorithms } }
/// ```
pub type PrivateKeyAlgorithmIdentifier = AlgorithmIdentifier;

/// ```text
/// PrivateKey ::= OCTET STRING
/// ```
pub type PrivateKey = OctetString;

/// ```text
/// PublicKey ::= BIT STRING
/// ```
pub type PublicKey = BitString;

/// ```text
/// Attributes ::= SET OF Attribute { { OneAsymmetricKeyAttributes } }
/// ```
pub type Attributes = StrictSetOf<Attribute>;

/// ```text
/// EncryptionAlgorithmIdentifier ::= AlgorithmIdentifier
///     { CONTENT-ENCRYPTION,
///       { KeyEncryptionAlgorithms } }
/// ```
pub type EncryptionAlgorithmIdentifier = AlgorithmIdentifier;

/// ```text
/// EncryptedData ::= OCTET STRING
/// ```
pub type EncryptedData = OctetString;
