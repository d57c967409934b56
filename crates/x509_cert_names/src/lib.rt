//! X.501 names and the attributes in them (RFC 5280 4.1.2.4, appendix A.1), and their string form
//! (RFC 4514).
#![tactic(auto)]

mod attribute;
mod attribute_set;
mod attribute_type_and_value;
pub mod attribute_types;
mod directory_string;
mod from_any;
pub mod laws;
mod members;
mod name;
mod name_iter;
mod rdn_sequence;
mod relative_distinguished_name;
mod value_texts;

pub use attribute::{Attribute, Attributes};
pub use attribute_set::AttributeSet;
pub use attribute_type_and_value::{AttributeType, AttributeTypeAndValue, AttributeValue};
pub use directory_string::DirectoryString;
pub use from_any::FromAny;
pub use name::Name;
pub use name_iter::{NameIter, RdnSequenceIter};
pub use rdn_sequence::{DistinguishedName, RdnSequence};
pub use relative_distinguished_name::RelativeDistinguishedName;
