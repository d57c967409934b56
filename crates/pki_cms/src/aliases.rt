//! Types of another name.

use crate::certificate_choices::CertificateChoices;
use crate::revocation_info_choice::RevocationInfoChoice;
use crate::signer_info::SignerInfo;
use der_core::StrictSetOf;
use der_core::oid::ObjectIdentifier;
use der_types::OctetString;
use x509_cert_reading::{AlgorithmIdentifier, Attribute, Time};

/// ```text
/// ContentType ::= OBJECT IDENTIFIER
/// ```
pub type ContentType = ObjectIdentifier<39>;

/// ```text
/// DigestAlgorithmIdentifiers ::= SET OF DigestAlgorithmIdentifier
/// ```
pub type DigestAlgorithmIdentifiers = StrictSetOf<DigestAlgorithmIdentifier>;

/// ```text
/// SignerInfos ::= SET OF SignerInfo
/// ```
pub type SignerInfos = StrictSetOf<SignerInfo>;

/// ```text
/// SignedAttributes ::= SET SIZE (1..MAX) OF Attribute
/// ```
pub type SignedAttributes = StrictSetOf<Attribute>;

/// ```text
/// UnsignedAttributes ::= SET SIZE (1..MAX) OF Attribute
/// ```
pub type UnsignedAttributes = StrictSetOf<Attribute>;

/// ```text
/// SignatureValue ::= OCTET STRING
/// ```
pub type SignatureValue = OctetString;

/// ```text
/// EncryptedContent ::= OCTET STRING
/// ```
pub type EncryptedContent = OctetString;

/// ```text
/// UnprotectedAttributes ::= SET SIZE (1..MAX) OF Attribute
/// ```
pub type UnprotectedAttributes = StrictSetOf<Attribute>;

/// ```text
/// SubjectKeyIdentifier ::= OCTET STRING
/// ```
pub type SubjectKeyIdentifier = OctetString;

/// ```text
/// Digest ::= OCTET STRING
/// ```
pub type Digest = OctetString;

/// ```text
/// DigestAlgorithmIdentifier ::= AlgorithmIdentifier
/// ```
pub type DigestAlgorithmIdentifier = AlgorithmIdentifier;

/// ```text
/// SignatureAlgorithmIdentifier ::= AlgorithmIdentifier
/// ```
pub type SignatureAlgorithmIdentifier = AlgorithmIdentifier;

/// ```text
/// ContentEncryptionAlgorithmIdentifier ::= AlgorithmIdentifier
/// ```
pub type ContentEncryptionAlgorithmIdentifier = AlgorithmIdentifier;

/// ```text
/// RevocationInfoChoices ::= SET OF RevocationInfoChoice
/// ```
pub type RevocationInfoChoices = StrictSetOf<RevocationInfoChoice>;

/// ```text
/// CertificateSet ::= SET OF CertificateChoices
/// ```
pub type CertificateSet = StrictSetOf<CertificateChoices>;

/// ```text
/// MessageDigest ::= OCTET STRING
/// ```
pub type MessageDigest = OctetString;

/// ```text
/// SigningTime  ::= Time
/// ```
pub type SigningTime = Time;

/// ```text
/// Countersignature ::= SignerInfo
/// ```
pub type Countersignature = SignerInfo;
