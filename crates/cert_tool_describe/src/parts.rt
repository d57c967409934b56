//! The fields of certificates, CRLs, CSRs, trust anchors and contents of extensions, of OCSP,
//! signed messages, private keys and timestamps, with the names that their standards give them (RFC
//! 5280 4.1, 4.2, 5.1, 5.2, RFC 2986 4, RFC 5914 2, RFC 6960 4, RFC 5652 3, 5, 10.2, RFC 5958 2, 3,
//! RFC 3161 2.4.2).
//!
//! The tag of a field, whether it is optional, and what is inside it are those of the shape that
//! the decoder uses. The contract of `parts_of` says so.

ghost use Rattle.std.specs.Prelude.{◌≡◌, map};
ghost use Rattle.cert_tool_describe.specs.NodeParts.{inside_of, is_many, names_of, part_plain};
ghost use Rattle.cert_tool_describe.specs.NodeParts.{parts_in};

/// The kind of a value, which determines the fields inside it; `Leaf` if it has no fields with
/// names. An explicit tag has one field, and a CHOICE has its alternatives.
#[derive(Clone, Copy)]
pub enum Node {
    Certificate,
    TbsCertificate,
    Version,
    Algorithm,
    Name,
    RelativeName,
    TypeAndValue,
    Validity,
    Time,
    PublicKey,
    TaggedExtensions,
    Extensions,
    Extension,
    List,
    TbsCertList,
    RevokedCertificates,
    RevokedCertificate,
    Request,
    RequestInfo,
    Attributes,
    Attribute,
    AttributeValues,
    Anchor,
    TaggedTbsCertificate,
    TaggedAnchorInfo,
    AnchorInfo,
    PathControls,
    GeneralNames,
    GeneralName,
    OtherName,
    TaggedValue,
    TaggedName,
    PartyName,
    TaggedString,
    DirectoryString,
    AuthorityKeyIdentifier,
    NameConstraints,
    Subtrees,
    Subtree,
    Points,
    Point,
    TaggedPointName,
    PointName,
    IssuingPoint,
    Accesses,
    Access,
    BasicConstraints,
    PolicyConstraints,
    Mappings,
    Mapping,
    Policies,
    Policy,
    Qualifiers,
    Qualifier,
    UsagePeriod,
    Purposes,
    Features,
    DirectoryAttributes,
    OcspRequest,
    TbsRequest,
    OcspVersion,
    TaggedGeneralName,
    SingleRequests,
    SingleRequest,
    CertId,
    TaggedSignature,
    OcspSignature,
    TaggedCertificates,
    Certificates,
    OcspResponse,
    TaggedResponseBytes,
    ResponseBytes,
    BasicResponse,
    ResponseData,
    ResponderId,
    TaggedOctets,
    SingleResponses,
    SingleResponse,
    CertStatus,
    RevokedInfo,
    TaggedReason,
    TaggedDate,
    Message,
    SignedData,
    Algorithms,
    EncapsulatedContent,
    CertificateSet,
    CertificateChoice,
    OtherFormat,
    RevocationInfos,
    RevocationInfo,
    SignerInfos,
    SignerInfo,
    SignerIdentifier,
    IssuerAndSerial,
    Key,
    EncryptedKey,
    Timestamp,
    StatusInfo,
    FreeText,
    TimestampInfo,
    MessageImprint,
    Accuracy,
    Leaf,
}

/// A field: the first byte of its tag, or `None` if it may have any tag or is a CHOICE; whether it
/// is optional; its name; and what is inside it.
pub type Part = (Option<u8>, bool, &'static str, Node);

const CERTIFICATE: [Part; 3] = [
    (Some(0x30), false, "tbsCertificate", Node::TbsCertificate),
    (Some(0x30), false, "signatureAlgorithm", Node::Algorithm),
    (Some(0x03), false, "signatureValue", Node::Leaf),
];

const TBS_CERTIFICATE: [Part; 10] = [
    (Some(0xa0), true, "version", Node::Version),
    (Some(0x02), false, "serialNumber", Node::Leaf),
    (Some(0x30), false, "signature", Node::Algorithm),
    (Some(0x30), false, "issuer", Node::Name),
    (Some(0x30), false, "validity", Node::Validity),
    (Some(0x30), false, "subject", Node::Name),
    (Some(0x30), false, "subjectPublicKeyInfo", Node::PublicKey),
    (Some(0x81), true, "issuerUniqueID", Node::Leaf),
    (Some(0x82), true, "subjectUniqueID", Node::Leaf),
    (Some(0xa3), true, "extensions", Node::TaggedExtensions),
];

const ALGORITHM: [Part; 2] = [
    (Some(0x06), false, "algorithm", Node::Leaf),
    (None, true, "parameters", Node::Leaf),
];

const TYPE_AND_VALUE: [Part; 2] = [
    (Some(0x06), false, "type", Node::Leaf),
    (None, false, "value", Node::Leaf),
];

const VALIDITY: [Part; 2] = [
    (None, false, "notBefore", Node::Time),
    (None, false, "notAfter", Node::Time),
];

const TIME: [Part; 2] = [
    (Some(0x17), false, "", Node::Leaf),
    (Some(0x18), false, "", Node::Leaf),
];

const PUBLIC_KEY: [Part; 2] = [
    (Some(0x30), false, "algorithm", Node::Algorithm),
    (Some(0x03), false, "subjectPublicKey", Node::Leaf),
];

const EXTENSION: [Part; 3] = [
    (Some(0x06), false, "extnID", Node::Leaf),
    (Some(0x01), true, "critical", Node::Leaf),
    (Some(0x04), false, "extnValue", Node::Leaf),
];

const LIST: [Part; 3] = [
    (Some(0x30), false, "tbsCertList", Node::TbsCertList),
    (Some(0x30), false, "signatureAlgorithm", Node::Algorithm),
    (Some(0x03), false, "signatureValue", Node::Leaf),
];

const TBS_CERT_LIST: [Part; 7] = [
    (Some(0x02), false, "version", Node::Leaf),
    (Some(0x30), false, "signature", Node::Algorithm),
    (Some(0x30), false, "issuer", Node::Name),
    (None, false, "thisUpdate", Node::Time),
    (None, true, "nextUpdate", Node::Time),
    (
        Some(0x30),
        true,
        "revokedCertificates",
        Node::RevokedCertificates,
    ),
    (Some(0xa0), true, "crlExtensions", Node::TaggedExtensions),
];

const REVOKED_CERTIFICATE: [Part; 3] = [
    (Some(0x02), false, "userCertificate", Node::Leaf),
    (None, false, "revocationDate", Node::Time),
    (Some(0x30), true, "crlEntryExtensions", Node::Extensions),
];

const REQUEST: [Part; 3] = [
    (
        Some(0x30),
        false,
        "certificationRequestInfo",
        Node::RequestInfo,
    ),
    (Some(0x30), false, "signatureAlgorithm", Node::Algorithm),
    (Some(0x03), false, "signature", Node::Leaf),
];

const REQUEST_INFO: [Part; 4] = [
    (Some(0x02), false, "version", Node::Leaf),
    (Some(0x30), false, "subject", Node::Name),
    (Some(0x30), false, "subjectPKInfo", Node::PublicKey),
    (Some(0xa0), false, "attributes", Node::Attributes),
];

const ATTRIBUTE: [Part; 2] = [
    (Some(0x06), false, "type", Node::Leaf),
    (Some(0x31), false, "values", Node::AttributeValues),
];

const ANCHOR: [Part; 3] = [
    (Some(0x30), false, "certificate", Node::Certificate),
    (Some(0xa1), false, "tbsCert", Node::TaggedTbsCertificate),
    (Some(0xa2), false, "taInfo", Node::TaggedAnchorInfo),
];

const ANCHOR_INFO: [Part; 7] = [
    (Some(0x02), true, "version", Node::Leaf),
    (Some(0x30), false, "pubKey", Node::PublicKey),
    (Some(0x04), false, "keyId", Node::Leaf),
    (Some(0x0c), true, "taTitle", Node::Leaf),
    (Some(0x30), true, "certPath", Node::PathControls),
    (Some(0xa1), true, "exts", Node::TaggedExtensions),
    (Some(0x82), true, "taTitleLangTag", Node::Leaf),
];

const PATH_CONTROLS: [Part; 6] = [
    (Some(0x30), false, "taName", Node::Name),
    (Some(0xa0), true, "certificate", Node::Certificate),
    (Some(0xa1), true, "policySet", Node::Policies),
    (Some(0x82), true, "policyFlags", Node::Leaf),
    (Some(0xa3), true, "nameConstr", Node::NameConstraints),
    (Some(0x84), true, "pathLenConstraint", Node::Leaf),
];

const GENERAL_NAME: [Part; 8] = [
    (Some(0xa0), false, "otherName", Node::OtherName),
    (Some(0x81), false, "rfc822Name", Node::Leaf),
    (Some(0x82), false, "dNSName", Node::Leaf),
    (Some(0xa4), false, "directoryName", Node::TaggedName),
    (Some(0xa5), false, "ediPartyName", Node::PartyName),
    (Some(0x86), false, "uniformResourceIdentifier", Node::Leaf),
    (Some(0x87), false, "iPAddress", Node::Leaf),
    (Some(0x88), false, "registeredID", Node::Leaf),
];

const OTHER_NAME: [Part; 2] = [
    (Some(0x06), false, "type-id", Node::Leaf),
    (Some(0xa0), false, "value", Node::TaggedValue),
];

const PARTY_NAME: [Part; 2] = [
    (Some(0xa0), true, "nameAssigner", Node::TaggedString),
    (Some(0xa1), false, "partyName", Node::TaggedString),
];

const DIRECTORY_STRING: [Part; 4] = [
    (Some(0x13), false, "", Node::Leaf),
    (Some(0x14), false, "", Node::Leaf),
    (Some(0x0c), false, "", Node::Leaf),
    (Some(0x1e), false, "", Node::Leaf),
];

const AUTHORITY_KEY_IDENTIFIER: [Part; 3] = [
    (Some(0x80), true, "keyIdentifier", Node::Leaf),
    (Some(0xa1), true, "authorityCertIssuer", Node::GeneralNames),
    (Some(0x82), true, "authorityCertSerialNumber", Node::Leaf),
];

const NAME_CONSTRAINTS: [Part; 2] = [
    (Some(0xa0), true, "permittedSubtrees", Node::Subtrees),
    (Some(0xa1), true, "excludedSubtrees", Node::Subtrees),
];

const SUBTREE: [Part; 3] = [
    (None, false, "base", Node::GeneralName),
    (Some(0x80), true, "minimum", Node::Leaf),
    (Some(0x81), true, "maximum", Node::Leaf),
];

const POINT: [Part; 3] = [
    (Some(0xa0), true, "distributionPoint", Node::TaggedPointName),
    (Some(0x81), true, "reasons", Node::Leaf),
    (Some(0xa2), true, "cRLIssuer", Node::GeneralNames),
];

const POINT_NAME: [Part; 2] = [
    (Some(0xa0), false, "fullName", Node::GeneralNames),
    (
        Some(0xa1),
        false,
        "nameRelativeToCRLIssuer",
        Node::RelativeName,
    ),
];

const ISSUING_POINT: [Part; 6] = [
    (Some(0xa0), true, "distributionPoint", Node::TaggedPointName),
    (Some(0x81), true, "onlyContainsUserCerts", Node::Leaf),
    (Some(0x82), true, "onlyContainsCACerts", Node::Leaf),
    (Some(0x83), true, "onlySomeReasons", Node::Leaf),
    (Some(0x84), true, "indirectCRL", Node::Leaf),
    (Some(0x85), true, "onlyContainsAttributeCerts", Node::Leaf),
];

const ACCESS: [Part; 2] = [
    (Some(0x06), false, "accessMethod", Node::Leaf),
    (None, false, "accessLocation", Node::GeneralName),
];

const BASIC_CONSTRAINTS: [Part; 2] = [
    (Some(0x01), true, "cA", Node::Leaf),
    (Some(0x02), true, "pathLenConstraint", Node::Leaf),
];

const POLICY_CONSTRAINTS: [Part; 2] = [
    (Some(0x80), true, "requireExplicitPolicy", Node::Leaf),
    (Some(0x81), true, "inhibitPolicyMapping", Node::Leaf),
];

const MAPPING: [Part; 2] = [
    (Some(0x06), false, "issuerDomainPolicy", Node::Leaf),
    (Some(0x06), false, "subjectDomainPolicy", Node::Leaf),
];

const POLICY: [Part; 2] = [
    (Some(0x06), false, "policyIdentifier", Node::Leaf),
    (Some(0x30), true, "policyQualifiers", Node::Qualifiers),
];

const QUALIFIER: [Part; 2] = [
    (Some(0x06), false, "policyQualifierId", Node::Leaf),
    (None, true, "qualifier", Node::Leaf),
];

const USAGE_PERIOD: [Part; 2] = [
    (Some(0x80), true, "notBefore", Node::Leaf),
    (Some(0x81), true, "notAfter", Node::Leaf),
];

const OCSP_REQUEST: [Part; 2] = [
    (Some(0x30), false, "tbsRequest", Node::TbsRequest),
    (Some(0xa0), true, "optionalSignature", Node::TaggedSignature),
];

const TBS_REQUEST: [Part; 4] = [
    (Some(0xa0), true, "version", Node::OcspVersion),
    (Some(0xa1), true, "requestorName", Node::TaggedGeneralName),
    (Some(0x30), false, "requestList", Node::SingleRequests),
    (
        Some(0xa2),
        true,
        "requestExtensions",
        Node::TaggedExtensions,
    ),
];

const SINGLE_REQUEST: [Part; 2] = [
    (Some(0x30), false, "reqCert", Node::CertId),
    (
        Some(0xa0),
        true,
        "singleRequestExtensions",
        Node::TaggedExtensions,
    ),
];

const CERT_ID: [Part; 4] = [
    (Some(0x30), false, "hashAlgorithm", Node::Algorithm),
    (Some(0x04), false, "issuerNameHash", Node::Leaf),
    (Some(0x04), false, "issuerKeyHash", Node::Leaf),
    (Some(0x02), false, "serialNumber", Node::Leaf),
];

const OCSP_SIGNATURE: [Part; 3] = [
    (Some(0x30), false, "signatureAlgorithm", Node::Algorithm),
    (Some(0x03), false, "signature", Node::Leaf),
    (Some(0xa0), true, "certs", Node::TaggedCertificates),
];

const OCSP_RESPONSE: [Part; 2] = [
    (Some(0x0a), false, "responseStatus", Node::Leaf),
    (Some(0xa0), true, "responseBytes", Node::TaggedResponseBytes),
];

const RESPONSE_BYTES: [Part; 2] = [
    (Some(0x06), false, "responseType", Node::Leaf),
    (Some(0x04), false, "response", Node::Leaf),
];

const BASIC_RESPONSE: [Part; 4] = [
    (Some(0x30), false, "tbsResponseData", Node::ResponseData),
    (Some(0x30), false, "signatureAlgorithm", Node::Algorithm),
    (Some(0x03), false, "signature", Node::Leaf),
    (Some(0xa0), true, "certs", Node::TaggedCertificates),
];

const RESPONSE_DATA: [Part; 5] = [
    (Some(0xa0), true, "version", Node::OcspVersion),
    (None, false, "responderID", Node::ResponderId),
    (Some(0x18), false, "producedAt", Node::Leaf),
    (Some(0x30), false, "responses", Node::SingleResponses),
    (
        Some(0xa1),
        true,
        "responseExtensions",
        Node::TaggedExtensions,
    ),
];

const RESPONDER_ID: [Part; 2] = [
    (Some(0xa1), false, "byName", Node::TaggedName),
    (Some(0xa2), false, "byKey", Node::TaggedOctets),
];

const SINGLE_RESPONSE: [Part; 5] = [
    (Some(0x30), false, "certID", Node::CertId),
    (None, false, "certStatus", Node::CertStatus),
    (Some(0x18), false, "thisUpdate", Node::Leaf),
    (Some(0xa0), true, "nextUpdate", Node::TaggedDate),
    (Some(0xa1), true, "singleExtensions", Node::TaggedExtensions),
];

const CERT_STATUS: [Part; 3] = [
    (Some(0x80), false, "good", Node::Leaf),
    (Some(0xa1), false, "revoked", Node::RevokedInfo),
    (Some(0x82), false, "unknown", Node::Leaf),
];

const REVOKED_INFO: [Part; 2] = [
    (Some(0x18), false, "revocationTime", Node::Leaf),
    (Some(0xa0), true, "revocationReason", Node::TaggedReason),
];

const MESSAGE: [Part; 2] = [
    (Some(0x06), false, "contentType", Node::Leaf),
    (Some(0xa0), false, "content", Node::TaggedValue),
];

const SIGNED_DATA: [Part; 6] = [
    (Some(0x02), false, "version", Node::Leaf),
    (Some(0x31), false, "digestAlgorithms", Node::Algorithms),
    (
        Some(0x30),
        false,
        "encapContentInfo",
        Node::EncapsulatedContent,
    ),
    (Some(0xa0), true, "certificates", Node::CertificateSet),
    (Some(0xa1), true, "crls", Node::RevocationInfos),
    (Some(0x31), false, "signerInfos", Node::SignerInfos),
];

const ENCAPSULATED_CONTENT: [Part; 2] = [
    (Some(0x06), false, "eContentType", Node::Leaf),
    (Some(0xa0), true, "eContent", Node::TaggedOctets),
];

const CERTIFICATE_CHOICE: [Part; 5] = [
    (Some(0x30), false, "certificate", Node::Certificate),
    (Some(0xa0), false, "extendedCertificate", Node::Leaf),
    (Some(0xa1), false, "v1AttrCert", Node::Leaf),
    (Some(0xa2), false, "v2AttrCert", Node::Leaf),
    (Some(0xa3), false, "other", Node::OtherFormat),
];

const OTHER_FORMAT: [Part; 2] = [
    (Some(0x06), false, "format", Node::Leaf),
    (None, false, "value", Node::Leaf),
];

const REVOCATION_INFO: [Part; 2] = [
    (Some(0x30), false, "crl", Node::List),
    (Some(0xa1), false, "other", Node::OtherFormat),
];

const SIGNER_INFO: [Part; 7] = [
    (Some(0x02), false, "version", Node::Leaf),
    (None, false, "sid", Node::SignerIdentifier),
    (Some(0x30), false, "digestAlgorithm", Node::Algorithm),
    (Some(0xa0), true, "signedAttrs", Node::Attributes),
    (Some(0x30), false, "signatureAlgorithm", Node::Algorithm),
    (Some(0x04), false, "signature", Node::Leaf),
    (Some(0xa1), true, "unsignedAttrs", Node::Attributes),
];

const SIGNER_IDENTIFIER: [Part; 2] = [
    (
        Some(0x30),
        false,
        "issuerAndSerialNumber",
        Node::IssuerAndSerial,
    ),
    (Some(0x80), false, "subjectKeyIdentifier", Node::Leaf),
];

const ISSUER_AND_SERIAL: [Part; 2] = [
    (Some(0x30), false, "issuer", Node::Name),
    (Some(0x02), false, "serialNumber", Node::Leaf),
];

const KEY: [Part; 5] = [
    (Some(0x02), false, "version", Node::Leaf),
    (Some(0x30), false, "privateKeyAlgorithm", Node::Algorithm),
    (Some(0x04), false, "privateKey", Node::Leaf),
    (Some(0xa0), true, "attributes", Node::Attributes),
    (Some(0x81), true, "publicKey", Node::Leaf),
];

const ENCRYPTED_KEY: [Part; 2] = [
    (Some(0x30), false, "encryptionAlgorithm", Node::Algorithm),
    (Some(0x04), false, "encryptedData", Node::Leaf),
];

const TIMESTAMP: [Part; 2] = [
    (Some(0x30), false, "status", Node::StatusInfo),
    (Some(0x30), true, "timeStampToken", Node::Message),
];

const STATUS_INFO: [Part; 3] = [
    (Some(0x02), false, "status", Node::Leaf),
    (Some(0x30), true, "statusString", Node::FreeText),
    (Some(0x03), true, "failInfo", Node::Leaf),
];

const TIMESTAMP_INFO: [Part; 10] = [
    (Some(0x02), false, "version", Node::Leaf),
    (Some(0x06), false, "policy", Node::Leaf),
    (Some(0x30), false, "messageImprint", Node::MessageImprint),
    (Some(0x02), false, "serialNumber", Node::Leaf),
    (Some(0x18), false, "genTime", Node::Leaf),
    (Some(0x30), true, "accuracy", Node::Accuracy),
    (Some(0x01), true, "ordering", Node::Leaf),
    (Some(0x02), true, "nonce", Node::Leaf),
    (Some(0xa0), true, "tsa", Node::TaggedGeneralName),
    (Some(0xa1), true, "extensions", Node::Extensions),
];

const MESSAGE_IMPRINT: [Part; 2] = [
    (Some(0x30), false, "hashAlgorithm", Node::Algorithm),
    (Some(0x04), false, "hashedMessage", Node::Leaf),
];

const ACCURACY: [Part; 3] = [
    (Some(0x02), true, "seconds", Node::Leaf),
    (Some(0x80), true, "millis", Node::Leaf),
    (Some(0x81), true, "micros", Node::Leaf),
];

// Returns the fields inside a value, in order; for a list, the field that each member is.
pub fn parts_of(node: Node) -> &'static [Part]
    ensures names { map (λ p. p.2.now) result.now ≡ names_of node }
    ensures parts { map part_plain result.now ≡ parts_in (inside_of node) }
{
    match node {
        Node::Certificate => &CERTIFICATE,
        Node::TbsCertificate => &TBS_CERTIFICATE,
        Node::Version => &[(Some(0x02), false, "", Node::Leaf)],
        Node::Algorithm => &ALGORITHM,
        Node::Name => &[(Some(0x31), false, "an RDN", Node::RelativeName)],
        Node::RelativeName => &[(Some(0x30), false, "an attribute", Node::TypeAndValue)],
        Node::TypeAndValue => &TYPE_AND_VALUE,
        Node::Validity => &VALIDITY,
        Node::Time => &TIME,
        Node::PublicKey => &PUBLIC_KEY,
        Node::TaggedExtensions => &[(Some(0x30), false, "", Node::Extensions)],
        Node::Extensions => &[(Some(0x30), false, "an extension", Node::Extension)],
        Node::Extension => &EXTENSION,
        Node::List => &LIST,
        Node::TbsCertList => &TBS_CERT_LIST,
        Node::RevokedCertificates => &[(Some(0x30), false, "an entry", Node::RevokedCertificate)],
        Node::RevokedCertificate => &REVOKED_CERTIFICATE,
        Node::Request => &REQUEST,
        Node::RequestInfo => &REQUEST_INFO,
        Node::Attributes => &[(Some(0x30), false, "an attribute", Node::Attribute)],
        Node::Attribute => &ATTRIBUTE,
        Node::AttributeValues => &[(None, false, "a value", Node::Leaf)],
        Node::Anchor => &ANCHOR,
        Node::TaggedTbsCertificate => &[(Some(0x30), false, "", Node::TbsCertificate)],
        Node::TaggedAnchorInfo => &[(Some(0x30), false, "", Node::AnchorInfo)],
        Node::AnchorInfo => &ANCHOR_INFO,
        Node::PathControls => &PATH_CONTROLS,
        Node::GeneralNames => &[(None, false, "a name", Node::GeneralName)],
        Node::GeneralName => &GENERAL_NAME,
        Node::OtherName => &OTHER_NAME,
        Node::TaggedValue => &[(None, false, "", Node::Leaf)],
        Node::TaggedName => &[(Some(0x30), false, "", Node::Name)],
        Node::PartyName => &PARTY_NAME,
        Node::TaggedString => &[(None, false, "", Node::DirectoryString)],
        Node::DirectoryString => &DIRECTORY_STRING,
        Node::AuthorityKeyIdentifier => &AUTHORITY_KEY_IDENTIFIER,
        Node::NameConstraints => &NAME_CONSTRAINTS,
        Node::Subtrees => &[(Some(0x30), false, "a subtree", Node::Subtree)],
        Node::Subtree => &SUBTREE,
        Node::Points => &[(Some(0x30), false, "a point", Node::Point)],
        Node::Point => &POINT,
        Node::TaggedPointName => &[(None, false, "", Node::PointName)],
        Node::PointName => &POINT_NAME,
        Node::IssuingPoint => &ISSUING_POINT,
        Node::Accesses => &[(Some(0x30), false, "an access description", Node::Access)],
        Node::Access => &ACCESS,
        Node::BasicConstraints => &BASIC_CONSTRAINTS,
        Node::PolicyConstraints => &POLICY_CONSTRAINTS,
        Node::Mappings => &[(Some(0x30), false, "a mapping", Node::Mapping)],
        Node::Mapping => &MAPPING,
        Node::Policies => &[(Some(0x30), false, "a policy", Node::Policy)],
        Node::Policy => &POLICY,
        Node::Qualifiers => &[(Some(0x30), false, "a qualifier", Node::Qualifier)],
        Node::Qualifier => &QUALIFIER,
        Node::UsagePeriod => &USAGE_PERIOD,
        Node::Purposes => &[(Some(0x06), false, "a key purpose", Node::Leaf)],
        Node::Features => &[(Some(0x02), false, "a feature", Node::Leaf)],
        Node::DirectoryAttributes => &[(Some(0x30), false, "an attribute", Node::Attribute)],
        Node::OcspRequest => &OCSP_REQUEST,
        Node::TbsRequest => &TBS_REQUEST,
        Node::OcspVersion => &[(Some(0x02), false, "", Node::Leaf)],
        Node::TaggedGeneralName => &[(None, false, "", Node::GeneralName)],
        Node::SingleRequests => &[(Some(0x30), false, "a request", Node::SingleRequest)],
        Node::SingleRequest => &SINGLE_REQUEST,
        Node::CertId => &CERT_ID,
        Node::TaggedSignature => &[(Some(0x30), false, "", Node::OcspSignature)],
        Node::OcspSignature => &OCSP_SIGNATURE,
        Node::TaggedCertificates => &[(Some(0x30), false, "", Node::Certificates)],
        Node::Certificates => &[(Some(0x30), false, "a certificate", Node::Certificate)],
        Node::OcspResponse => &OCSP_RESPONSE,
        Node::TaggedResponseBytes => &[(Some(0x30), false, "", Node::ResponseBytes)],
        Node::ResponseBytes => &RESPONSE_BYTES,
        Node::BasicResponse => &BASIC_RESPONSE,
        Node::ResponseData => &RESPONSE_DATA,
        Node::ResponderId => &RESPONDER_ID,
        Node::TaggedOctets => &[(Some(0x04), false, "", Node::Leaf)],
        Node::SingleResponses => &[(Some(0x30), false, "a response", Node::SingleResponse)],
        Node::SingleResponse => &SINGLE_RESPONSE,
        Node::CertStatus => &CERT_STATUS,
        Node::RevokedInfo => &REVOKED_INFO,
        Node::TaggedReason => &[(Some(0x0a), false, "", Node::Leaf)],
        Node::TaggedDate => &[(Some(0x18), false, "", Node::Leaf)],
        Node::Message => &MESSAGE,
        Node::SignedData => &SIGNED_DATA,
        Node::Algorithms => &[(Some(0x30), false, "an algorithm", Node::Algorithm)],
        Node::EncapsulatedContent => &ENCAPSULATED_CONTENT,
        Node::CertificateSet => &[(None, false, "a certificate", Node::CertificateChoice)],
        Node::CertificateChoice => &CERTIFICATE_CHOICE,
        Node::OtherFormat => &OTHER_FORMAT,
        Node::RevocationInfos => &[(None, false, "a CRL", Node::RevocationInfo)],
        Node::RevocationInfo => &REVOCATION_INFO,
        Node::SignerInfos => &[(Some(0x30), false, "a signer", Node::SignerInfo)],
        Node::SignerInfo => &SIGNER_INFO,
        Node::SignerIdentifier => &SIGNER_IDENTIFIER,
        Node::IssuerAndSerial => &ISSUER_AND_SERIAL,
        Node::Key => &KEY,
        Node::EncryptedKey => &ENCRYPTED_KEY,
        Node::Timestamp => &TIMESTAMP,
        Node::StatusInfo => &STATUS_INFO,
        Node::FreeText => &[(Some(0x0c), false, "a text", Node::Leaf)],
        Node::TimestampInfo => &TIMESTAMP_INFO,
        Node::MessageImprint => &MESSAGE_IMPRINT,
        Node::Accuracy => &ACCURACY,
        Node::Leaf => &[],
    }
}

// Returns whether the value is a list.
pub fn is_list(node: Node) -> bool
    ensures { result ≡ is_many (inside_of node) }
{
    match node {
        Node::Name
        | Node::RelativeName
        | Node::Extensions
        | Node::RevokedCertificates
        | Node::Attributes
        | Node::AttributeValues
        | Node::GeneralNames
        | Node::Subtrees
        | Node::Points
        | Node::Accesses
        | Node::Mappings
        | Node::Policies
        | Node::Qualifiers
        | Node::Purposes
        | Node::Features
        | Node::DirectoryAttributes
        | Node::SingleRequests
        | Node::Certificates
        | Node::SingleResponses
        | Node::Algorithms
        | Node::CertificateSet
        | Node::RevocationInfos
        | Node::SignerInfos
        | Node::FreeText => true,
        _ => false,
    }
}
