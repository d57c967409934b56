//! X.509 certificates (RFC 5280 4.1): decoding, encoding and assembling them.
#![tactic(auto)]

pub mod assembling;
mod cert_digest;
mod certificate;
mod certificate_copies;
pub mod laws;
mod tbs_certificate;

pub use cert_digest::CertDigest;
pub use certificate::{Certificate, CertificateInner};
pub use tbs_certificate::{TbsCertificate, TbsCertificateInner};

/// The items of `x509_cert_names` that the crates above use.
pub mod cert_names {
    pub use x509_cert_names::{
        AttributeTypeAndValue, Name, RdnSequence, RelativeDistinguishedName, attribute_types,
    };
}

/// The items of `x509_cert_parts` that the crates above use.
pub mod cert_parts {
    pub use x509_cert_parts::{
        AlgorithmIdentifier, Extension, Extensions, Raw, SerialNumber, SubjectPublicKeyInfo,
        SubjectPublicKeyInfoRef, Validity,
    };
}

/// The items of `der_core` that the crates above use.
pub mod der {
    pub use der_core::{
        Decode, Encode, Error, ErrorKind, Explicit, FromDer, Header, Implicit, InRange, OneOf8,
        SliceReader, ToDer, making,
    };
}

/// The items of `const_oid` that the crates above use.
pub mod oid {
    pub use der_core::oid::ObjectIdentifier;
}

/// The items of `der_types` that the crates above use.
pub mod types {
    pub use x509_cert_parts::types::{
        BitString, FlagSet, Ia5StringRef, OctetString, OctetStringRef,
    };
}
