//! Types of another name.

use der_core::oid::ObjectIdentifier;
use pki_cms::ContentInfo;

/// ```text
/// TSAPolicyId ::= OBJECT IDENTIFIER
/// ```
pub type TsaPolicyId = ObjectIdentifier<39>;

/// ```text
/// TimeStampToken ::= ContentInfo
/// ```
pub type TimeStampToken = ContentInfo;
