//! CRLs (RFC 5280 5.1) and CSRs (RFC 2986): decoding and encoding them.
#![tactic(auto)]

mod as_attribute;
mod cert_req;
mod cert_req_info;
mod certificate_list;
mod challenge_password;
mod extension_req;
pub mod laws;
mod list_copies;
pub mod request;
mod revoked_cert;
mod tbs_cert_list;

pub use as_attribute::AsAttribute;
pub use cert_req::CertReq;
pub use cert_req_info::CertReqInfo;
pub use certificate_list::CertificateList;
pub use challenge_password::ChallengePassword;
pub use extension_req::{ExtensionReq, TryFromExtensionReq};
pub use revoked_cert::RevokedCert;
pub use tbs_cert_list::TbsCertList;

/// The items of `x509_cert_names` that the crates above use.
pub mod cert_names {
    pub use x509_cert_names::{
        Attribute, AttributeSet, AttributeType, AttributeTypeAndValue, AttributeValue, Attributes,
        DirectoryString, DistinguishedName, FromAny, Name, NameIter, RdnSequence, RdnSequenceIter,
        RelativeDistinguishedName, laws,
    };
}

/// The items of `x509_cert_parts` that the crates above use.
pub mod cert_parts {
    pub use x509_cert_parts::{
        AlgorithmIdentifier, AlgorithmIdentifierRef, Extension, Extensions, ExtensionsOf, Profile,
        Raw, Rfc5280, SerialNumber, SubjectPublicKeyInfo, SubjectPublicKeyInfoRef, Time, Validity,
        Version, filter_extensions, get_extension, laws,
    };
}

/// The items of `der_core` that the crates above use.
pub mod der {
    pub use der_core::{
        Decode, Error, ErrorKind, FixedTag, FromDer, InRange, Leaf, MAX_LEVELS, SliceReader, Tag,
        ToDer, describing, header_of, making,
    };
}

/// The items of `const_oid` that the crates above use.
pub mod oid {
    pub use der_core::oid::{AssociatedOid, Error, ObjectIdentifier};
}

/// The items of `der_types` that the crates above use.
pub mod types {
    pub use x509_cert_parts::types::{
        Any, AnyRef, BitString, DateTime, FlagSet, GeneralizedTime, Ia5String, NamedBits,
        OctetString, SetOfIter, SetOfVec, Uint, UtcTime,
    };
}
