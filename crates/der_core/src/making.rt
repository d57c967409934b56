//! Functions for types that implement the traits by hand: decoding and encoding of headers,
//! contents and tagged fields, lengths, copies, and comparison of contents.

ghost use Rattle.std.specs.Prelude.{◌≡◌, ◌↔◌, IsTrue};

pub use crate::contents::{value_cmp_behind, value_cmp_by_contents};
pub use crate::copies::{copies_of, copies_of_option, copy_of_option};
pub use crate::lent_cases::{cases_cmp, cases_tag};
pub use crate::lists::elements_cmp;
pub use crate::order::cmp_behind;
pub use crate::strict_set_of::{check_in_order, place_of, stands_among};
use der_core_coding::core_head::{Error, ErrorKind};
pub use der_core_coding::core_head::{
    header_len, is_constructed, is_same_tag, leading_octet_of, number_of, tag_of_class,
};
pub use der_core_coding::core_octets::{
    encode_header, has_redundant_octet, integer_octets_of, signed_of, slice_len, unsigned_of,
};
pub use der_core_coding::core_values::{
    decode_leaf, decode_leaf_of_tag, encode_members, list_in_range, members_len, octets_in_range,
    read_content, read_fields, text_in_range,
};
pub use der_core_coding::{
    decode_sliced, encode_behind, encode_explicit, encode_implicit, encode_tagged, explicit_of,
    explicit_ref, implicit_of, implicit_ref, is_small, is_zero, leaf_from_der, len_behind,
    optional_explicit, optional_implicit, read_ascending, read_explicit, read_rising, read_whole,
};

/// Returns whether the error is `OutOfMemory`.
pub fn is_out_of_memory(error: &Error) -> bool
    ensures { IsTrue result ↔ (error.now.kind ≡ ErrorKind.OutOfMemory) }
{
    matches!(error.kind, ErrorKind::OutOfMemory)
}
