//! Values that contain no other values.

use crate::questions::{
    Asked, Question, answer_of_converted, answer_of_lent, answer_of_number, answer_of_ordered,
    answer_of_ordered_lent, answer_of_plain, answer_of_value, answer_with_contents,
    answer_with_order,
};
use crate::refusals::Refusal;
use crate::shown::{read, written_in};
use crate::{key_usages, texts};
use const_oid::ObjectIdentifier;
use der_core::making::leaf_from_der;
use der_core::{EncodeValue, Explicit, FixedTag, Implicit, Leaf};
use der_types::{
    BitString, BitStringRef, Int, IntRef, Null, OctetString, OctetStringRef, PrintableString,
    SequenceRef, Uint, UintRef,
};
use std::alloc::Global;

/// Returns the answer for a type that this module names, or that a later module names.
pub fn answer(alloc: Global, kind: &str, question: &Question<'_>) -> Result<String, Refusal> {
    match kind {
        "()" => answer_of_converted::<()>(alloc, question),
        "bool" => answer_of_converted::<bool>(alloc, question),
        "u8" => answer_of_number::<u8>(alloc, question),
        "str" => answer_of_number::<&str>(alloc, question),
        "String" => answer_of_plain::<String>(alloc, question),
        "ObjectIdentifier" => answer_of_number::<ObjectIdentifier<39>>(alloc, question),
        _ => answer_of_integers(alloc, kind, question),
    }
}

/// Returns the answer for an integer of the language.
fn answer_of_integers(
    alloc: Global,
    kind: &str,
    question: &Question<'_>,
) -> Result<String, Refusal> {
    match kind {
        "u16" => answer_of_number::<u16>(alloc, question),
        "u32" => answer_of_number::<u32>(alloc, question),
        "u64" => answer_of_number::<u64>(alloc, question),
        "u128" => answer_of_number::<u128>(alloc, question),
        "i8" => answer_of_number::<i8>(alloc, question),
        "i16" => answer_of_number::<i16>(alloc, question),
        "i32" => answer_of_number::<i32>(alloc, question),
        "i64" => answer_of_number::<i64>(alloc, question),
        "i128" => answer_of_number::<i128>(alloc, question),
        "Box<u8>" => answer_with_contents::<Box<u8>>(alloc, question),
        _ => answer_of_numbers(alloc, kind, question),
    }
}

/// Returns the answer for an integer of any size.
fn answer_of_numbers(
    alloc: Global,
    kind: &str,
    question: &Question<'_>,
) -> Result<String, Refusal> {
    match kind {
        "Int" => answer_with_order::<Int>(alloc, question),
        "IntRef" => answer_of_ordered_lent::<IntRef>(alloc, question),
        "Uint" => answer_of_ordered::<Uint>(alloc, question),
        "UintRef" => answer_of_lent::<UintRef>(alloc, question),
        "Explicit<Uint,0>" => answer_of_value::<Explicit<Uint, 0>>(alloc, question),
        _ => answer_of_strings(alloc, kind, question),
    }
}

/// Returns the answer for a string of bytes or bits.
fn answer_of_strings(
    alloc: Global,
    kind: &str,
    question: &Question<'_>,
) -> Result<String, Refusal> {
    match kind {
        "BitString" => answer_of_bits(alloc, question),
        "BitStringRef" => answer_of_lent::<BitStringRef>(alloc, question),
        "Implicit<BitStringRef,1>" => answer_of_value::<Implicit<BitStringRef, 1>>(alloc, question),
        "KeyUsages" => key_usages::answer(alloc, question),
        "OctetString" => answer_of_ordered::<OctetString>(alloc, question),
        "OctetStringRef" => answer_of_ordered_lent::<OctetStringRef>(alloc, question),
        "Null" => answer_of_lent::<Null>(alloc, question),
        "SequenceRef" => answer_of_ordered_lent::<SequenceRef>(alloc, question),
        _ => texts::answer(alloc, kind, question),
    }
}

/// Returns the answer for bit strings, whose text is their bits.
fn answer_of_bits(alloc: Global, question: &Question<'_>) -> Result<String, Refusal> {
    match question.asked {
        Asked::Text => bits_of(alloc, question.first),
        _ => answer_with_order::<BitString>(alloc, question),
    }
}

/// Decodes a bit string and returns its bits as text.
fn bits_of(alloc: Global, octets: &[u8]) -> Result<String, Refusal> {
    let string: BitString = read(alloc, octets)?;
    let mut text = String::new(alloc);
    for bit in string.bits() {
        text.push(if bit { '1' } else { '0' })?;
    }
    Ok(text)
}

/// Returns the answer for a value that is decoded as one without other values in it.
pub fn answer_of_leaves(alloc: Global, kind: &str, octets: &[u8]) -> Result<String, Refusal> {
    match kind {
        "bool" => leaf_written::<bool>(alloc, octets),
        "ObjectIdentifier" => leaf_written::<ObjectIdentifier<39>>(alloc, octets),
        "Uint" => leaf_written::<Uint>(alloc, octets),
        "BitStringRef" => leaf_written::<BitStringRef>(alloc, octets),
        "PrintableString" => leaf_written::<PrintableString>(alloc, octets),
        _ => Err(Refusal::Unread),
    }
}

/// Decodes a value without others in it, and returns its encoding.
fn leaf_written<'a, T: Leaf<'a> + EncodeValue + FixedTag + Drop>(
    alloc: Global,
    octets: &'a [u8],
) -> Result<String, Refusal> {
    written_in(alloc, leaf_from_der::<T>(alloc, octets))
}
