//! Contents without a tag, and orders by `Ord`.

use crate::refusals::Refusal;
use crate::shown::{hex_of, joined, name_of, named, octets_of, shown};
use const_oid::ObjectIdentifier;
use der_core::{
    BytesOwned, BytesRef, DecodeValue, DerOrd, EncodeValue, EncodeValueRef, FixedTag, FromDer,
    Header, Length, OrdIsValueOrd, SliceReader, StringOwned, StringRef, Tag, ValueOrd,
    value_cmp_by_ord, value_cmp_is_ord,
};
use std::alloc::{AllocError, Global};

/// Answers a question about the contents of a type without a tag of its own.
pub fn answer(alloc: Global, kind: &str, first: &[u8], second: &[u8]) -> Result<String, Refusal> {
    match kind {
        "BytesRef" => answer_as::<BytesRef>(alloc, first, second),
        "BytesOwned" => answer_as::<BytesOwned>(alloc, first, second),
        "StringRef" => answer_as::<StringRef>(alloc, first, second),
        "StringOwned" => answer_as::<StringOwned>(alloc, first, second),
        _ => Err(Refusal::Unread),
    }
}

/// Decodes two contents, and returns their encodings and their order.
fn answer_as<'a, T: DecodeValue<'a, SliceReader<'a>> + EncodeValue + ValueOrd>(
    alloc: Global,
    first: &'a [u8],
    second: &'a [u8],
) -> Result<String, Refusal> {
    let first: T = value_of(alloc, first)?;
    let second: T = value_of(alloc, second)?;
    both_written(alloc, &first, &second)
}

/// Returns the encodings of two contents, and their order.
fn both_written<T: EncodeValue + ValueOrd>(
    alloc: Global,
    first: &T,
    second: &T,
) -> Result<String, Refusal> {
    let order = named(
        alloc,
        EncodeValueRef(first).value_cmp(&EncodeValueRef(second)),
    );
    let orders = joined(content_of(alloc, first), " ", order);
    joined(orders, " ", content_of(alloc, second))
}

/// Decodes a content from all of the bytes.
fn value_of<'a, T: DecodeValue<'a, SliceReader<'a>>>(
    alloc: Global,
    octets: &'a [u8],
) -> Result<T, Refusal> {
    let mut reader = SliceReader::new(octets)?;
    let header = Header::new(Tag::OctetString, Length::try_from(octets.len())?);
    Ok(T::decode_value(alloc, &mut reader, header)?)
}

/// Returns the encoding of the content of a value.
fn content_of<T: EncodeValue>(alloc: Global, value: &T) -> Result<String, Refusal> {
    let mut octets = Vec::new(alloc);
    value.encode_value(&mut octets)?;
    hex_of(alloc, octets.as_slice())
}

/// Returns a copy of owned bytes.
pub fn copy_of_octets(alloc: Global, octets: &[u8]) -> Result<String, Refusal> {
    let held: BytesOwned = value_of(alloc, octets)?;
    copy_written(alloc, held.clone(alloc))
}

/// Returns a copy of an owned text.
pub fn copy_of_text(alloc: Global, octets: &[u8]) -> Result<String, Refusal> {
    let held = StringOwned::from_bytes(alloc, octets)?;
    copy_written(alloc, held.clone(alloc))
}

/// Returns the encoding of a copy without a tag.
fn copy_written<T: EncodeValue + Drop>(
    alloc: Global,
    copy: Result<T, AllocError>,
) -> Result<String, Refusal> {
    content_of(alloc, &copy?)
}

/// Returns the first bytes of owned bytes.
pub fn answer_of_prefixes(alloc: Global, rest: &str) -> Result<String, Refusal> {
    let (octets, len) = rest.split_once(' ').ok_or(Refusal::Unread)?;
    let len = Length::new(len.parse::<u32>()?);
    let octets = octets_of(alloc, octets)?;
    let prefix = BytesRef::new(octets.as_slice())?.prefix(len)?;
    hex_of(alloc, prefix.as_slice())
}

/// Returns three orders of two values: by `Ord`, of their contents and of their encodings.
pub fn answer_by_ord(
    alloc: Global,
    kind: &str,
    first: &[u8],
    second: &[u8],
) -> Result<String, Refusal> {
    match kind {
        "bool" => orders_by_ord::<bool>(alloc, first, second),
        "str" => orders_by_ord::<&str>(alloc, first, second),
        "String" => orders_by_ord::<String>(alloc, first, second),
        "ObjectIdentifier" => orders_by_ord::<ObjectIdentifier<39>>(alloc, first, second),
        _ => Err(Refusal::Unread),
    }
}

/// Decodes two values by DER, and returns their orders by `Ord`.
fn orders_by_ord<
    'a,
    T: DecodeValue<'a, SliceReader<'a>> + EncodeValue + FixedTag + OrdIsValueOrd + ValueOrd,
>(alloc: Global, first: &'a [u8], second: &'a [u8]) -> Result<String, Refusal> {
    let first = T::from_der(alloc, first)?;
    let second = T::from_der(alloc, second)?;
    orders_of(alloc, &first, &second)
}

/// Returns three orders of two values: by `Ord`, of their contents and of their encodings.
fn orders_of<T: EncodeValue + FixedTag + OrdIsValueOrd + ValueOrd>(
    alloc: Global,
    first: &T,
    second: &T,
) -> Result<String, Refusal> {
    let contents = shown(alloc, name_of(value_cmp_by_ord(first, second)));
    let same_contents = named(alloc, value_cmp_is_ord(first, second));
    let both = joined(contents, " ", same_contents);
    joined(both, " ", named(alloc, first.der_cmp(second)))
}
