//! OCTET STRING, BIT STRING, sets of named bits, NULL, and SEQUENCE without decoding. Users import
//! the items of this crate from `der_types`.
#![tactic(auto)]

mod allowed_len;
mod bit_string;
mod bit_string_iter;
mod bit_string_ref;
mod bits;
mod contents_in_range;
mod flag_set;
pub mod laws;
mod null;
mod octet_string;
mod octet_string_ref;
mod ordering;
mod sequence_ref;

pub use allowed_len::AllowedLenBitString;
pub use bit_string::BitString;
pub use bit_string_iter::BitStringIter;
pub use bit_string_ref::{AsBitStringRef, BitStringRef};
pub use flag_set::{FlagSet, NamedBits};
pub use null::Null;
pub use octet_string::OctetString;
pub use octet_string_ref::OctetStringRef;
pub use sequence_ref::{Sequence, SequenceRef};
