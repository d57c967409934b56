//! Attributes (RFC 5280 appendix A.1).

pub use x509_cert_lists::cert_names::{
    Attribute, AttributeType, AttributeTypeAndValue, AttributeValue, Attributes,
};
