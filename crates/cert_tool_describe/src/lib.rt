//! Describes certificates, CRLs and CSRs, as lines for readers or as JSON for programs. Crates that
//! describe other values use the functions for their parts.
#![tactic(auto)]

mod algorithms;
mod content_error;
mod content_parts;
mod contents;
mod curves;
mod dates;
mod described;
mod description;
mod error_path;
mod expected_fields;
mod general_names;
mod keys;
mod lists;
mod other_contents;
mod parts;
mod points;
mod policies;
mod requests;
mod resources;
mod timestamps;
mod unsupported;
mod uses;
mod values;

pub use algorithms::{
    add_algorithm, add_algorithm_members, add_bit_row, add_malformed_parameters, add_parameters,
    add_signature,
};
pub use content_error::{Content, ContentError, error_in};
pub use content_parts::parts_of_content;
pub use contents::{add_extension, add_extensions, add_undecoded, begin_extension, content_fault};
pub use dates::{encodes, two};
pub use described::{Describe, DescribeFile, add_content};
pub use description::{add_certificate, add_certificate_item};
pub use error_path::{
    ErrorPath, Inside, Step, content_at, content_place, is_followed, path_into, path_to, place_of,
};
pub use general_names::{add_general_name, kind_of};
pub use keys::{add_bits, add_digests, add_key_parameters, bit_len};
pub use lists::{add_list, add_list_item, reason_name};
pub use parts::{Node, Part, parts_of};
pub use points::add_accesses;
pub use requests::add_request;
pub use unsupported::{
    after_tag, has_shortest_length, is_any, is_number, is_set_of_bits, unsupported_type,
};
pub use uses::{add_date, add_flags};
pub use values::{
    add_name, add_name_members, add_value, any_in, list_in, noted, read, read_members, sequence_in,
};

/// The items of `x509_cert_certificates` that the crates above use.
pub mod cert_certificates {
    pub use x509_cert_certificates::{CertificateInner, TbsCertificateInner};
}

/// The items of `x509_cert_extensions` that the crates above use.
pub mod cert_extensions {
    pub use x509_cert_extensions::{CrlDistributionPoints, KeyUsages};
}

/// The items of `x509_cert_general_names` that the crates above use.
pub mod cert_general_names {
    pub use x509_cert_extensions::cert_general_names::{
        AuthorityKeyIdentifier, GeneralName, GeneralSubtree, IssuingDistributionPoint,
        NameConstraints,
    };
}

/// The items of `x509_cert_kinds` that the crates above use.
pub mod cert_kinds {
    pub use x509_cert_kinds::ExtensionKind;
}

/// The items of `x509_cert_lists` that the crates above use.
pub mod cert_lists {
    pub use x509_cert_lists::{CertReq, CertificateList, RevokedCert, TbsCertList};
}

/// The items of `x509_cert_names` that the crates above use.
pub mod cert_names {
    pub use x509_cert_lists::cert_names::{Attribute, AttributeTypeAndValue, Name, RdnSequence};
}

/// The items of `x509_cert_parts` that the crates above use.
pub mod cert_parts {
    pub use cert_tool_lines::cert_parts::{
        AlgorithmIdentifier, Extension, Extensions, Raw, Time, Validity, Version,
    };
}

/// The items of `der_core` that the crates above use.
pub mod der {
    pub use x509_cert_lists::der::{
        Decode, Error, ErrorKind, FromDer, SliceReader, Tag, ToDer, header_of, making,
    };
}

/// The items of `const_oid` that the crates above use.
pub mod oid {
    pub use x509_cert_lists::oid::{Error, ObjectIdentifier};
}

/// The items of `x509_cert_policies` that the crates above use.
pub mod policy_types {
    pub use x509_cert_extensions::policy_types::{
        BasicConstraints, CertificatePolicies, PolicyConstraints, PolicyMappings,
    };
}

/// The items of `cert_tool_lines` that the crates above use.
pub mod tool_lines {
    pub use cert_tool_lines::{Lines, known_name};
}

/// The items of `der_types` that the crates above use.
pub mod types {
    pub use cert_tool_lines::types::{
        Any, BitString, DateTime, FlagSet, GeneralizedTime, OctetString, Uint,
    };
    pub use x509_cert_lists::types::UtcTime;
}
