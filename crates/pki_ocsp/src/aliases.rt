//! Types of another name.

use crate::preferred_signature_algorithm::PreferredSignatureAlgorithm;
use der_core::oid::ObjectIdentifier;
use der_types::{GeneralizedTime, OctetString};

/// ```text
/// KeyHash ::= OCTET STRING
/// ```
pub type KeyHash = OctetString;

/// ```text
/// UnknownInfo ::= NULL
/// ```
pub type UnknownInfo = ();

/// ```text
/// ArchiveCutoff ::= GeneralizedTime
/// ```
pub type ArchiveCutoff = GeneralizedTime;

/// ```text
/// AcceptableResponses ::= SEQUENCE OF OBJECT IDENTIFIER
/// ```
pub type AcceptableResponses = Vec<ObjectIdentifier<39>>;

/// ```text
/// PreferredSignatureAlgorithms ::= SEQUENCE OF PreferredSignatureAlgorithm
/// ```
pub type PreferredSignatureAlgorithms = Vec<PreferredSignatureAlgorithm>;
