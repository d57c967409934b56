//! Names (RFC 5280 4.1.2.4) and their string form (RFC 4514).

pub use x509_cert_lists::cert_names::{
    AttributeSet, DistinguishedName, Name, NameIter, RdnSequence, RdnSequenceIter,
    RelativeDistinguishedName,
};
