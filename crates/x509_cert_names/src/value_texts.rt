//! The string form of attribute values (RFC 4514 2.4, 3).

ghost use Rattle.std.specs.Prelude.{◌≡◌, option_map};
ghost use Rattle.std.specs.Fmt.{WritesOnOk};
ghost use Rattle.der_core.specs.Heads.{head_octets};
ghost use Rattle.der_core.specs.Reading.{Gives, GivesNow};
ghost use Rattle.x509_cert_name_texts.specs.Answers.{GivesBy};
ghost use Rattle.x509_cert_name_texts.specs.Escapes.{in_hex};
ghost use Rattle.x509_cert_names.specs.ValueTexts.{tag_for, encoded_value};
ghost use Rattle.x509_cert_names.specs.ValueTexts.{ReadsString, ReadsValue};
ghost use Rattle.x509_cert_names.specs.ValueTexts.{text_of, encoding_of};

use crate::attribute_type_and_value::{AttributeType, AttributeValue};
use crate::attribute_types as types;
use der_core::making::encode_header;
use der_core::{Error, FromDer, Length, SliceWriter, Tag};
use der_types::{Any, Ia5StringRef, PrintableStringRef, TeletexStringRef};
use std::alloc::Global;
use std::fmt;
use x509_cert_name_texts::{from_hex, undo_escapes, write_hex};

/// Returns the tag of an attribute value that is given as a text.
fn tag_for(oid: &AttributeType) -> Tag
    ensures { result ≡ tag_for oid.now }
{
    if *oid == types::country() || *oid == types::serial_number() {
        return Tag::PrintableString;
    }
    if *oid == types::domain_component() || *oid == types::email_address() {
        return Tag::Ia5String;
    }
    Tag::Utf8String
}

/// Decodes a value from the hexadecimal digits of its encoding.
///
/// # Errors
///
/// - `Failed`: the hexadecimal digits are invalid.
/// - `Overflow`: the encoding has 2^32 bytes or more.
/// - The errors of `from_der`.
/// - `OutOfMemory`: memory runs out.
#[tactic(auto, using(crate::proofs::EncodedValues::encoded_is))]
fn encoded_value(alloc: Global, digits: &[u8]) -> Result<AttributeValue, Error>
    ensures { Gives (λ a. a) result (encoded_value digits.now) }
{
    let octets = from_hex(alloc, digits)?;
    Ok(Any::from_der(alloc, octets.as_slice())?)
}

/// Removes the escapes from a text and returns the value with this content and the tag for the
/// type.
///
/// # Errors
///
/// - `Failed`: an escape is invalid.
/// - `Overflow`: the content has 2^32 bytes or more.
/// - `OutOfMemory`: memory runs out.
fn text_value(alloc: Global, oid: &AttributeType, text: &[u8]) -> Result<AttributeValue, Error>
    ensures { GivesBy (λ a. a) result (ReadsString oid.now text.now) }
{
    let octets = undo_escapes(alloc, text)?;
    Ok(Any::new(tag_for(oid), octets)?)
}

/// Parses the value after the `=` of an attribute (RFC 4514 3, `attributeValue`).
///
/// # Errors
///
/// - The errors of `encoded_value` if it begins with `#`, and of `text_value` if it doesn't.
pub(crate) fn value_of(
    alloc: Global,
    oid: &AttributeType,
    text: &[u8],
) -> Result<AttributeValue, Error>
    ensures { GivesBy (λ a. a) result (ReadsValue oid.now text.now) }
{
    match text {
        [b'#', digits @ ..] => encoded_value(alloc, digits),
        _ => text_value(alloc, oid, text),
    }
}

/// Returns the text of a value that decodes as a PrintableString, UTF8String, IA5String or
/// TeletexString, according to its tag.
#[tactic(auto, unfolding(crate::specs::ValueTexts::text_of))]
pub(crate) fn text_of(value: &AttributeValue) -> Option<&str>
    ensures { text_of value.now ≡ option_map (λ text. text.now) result }
{
    match value.tag() {
        Tag::PrintableString => match PrintableStringRef::try_from(value) {
            Ok(text) => Some(text.as_str()),
            Err(_) => None,
        },
        Tag::Utf8String => match <&str>::try_from(value) {
            Ok(text) => Some(text),
            Err(_) => None,
        },
        Tag::Ia5String => match Ia5StringRef::try_from(value) {
            Ok(text) => Some(text.as_str()),
            Err(_) => None,
        },
        Tag::TeletexString => match TeletexStringRef::try_from(value) {
            Ok(text) => Some(text.as_str()),
            Err(_) => None,
        },
        _ => None,
    }
}

/// Writes a header in lowercase hexadecimal.
fn write_head<W: fmt::Write>(tag: Tag, length: Length, f: &mut fmt::Formatter<W>) -> fmt::Result
    ensures { WritesOnOk W.write_str_gives f.old result (in_hex (head_octets tag length.value))
        f.new }
{
    let mut octets = [0u8; 11];
    let mut writer = SliceWriter::new(&mut octets);
    match encode_header(&mut writer, tag, length) {
        Ok(()) => {}
        Err(_) => return Err(fmt::Error),
    }
    match writer.finish() {
        Ok(head) => write_hex(head, f),
        Err(_) => Err(fmt::Error),
    }
}

/// Writes the encoding of a value in lowercase hexadecimal.
pub(crate) fn write_encoding<W: fmt::Write>(
    value: &AttributeValue,
    f: &mut fmt::Formatter<W>,
) -> fmt::Result
    ensures { WritesOnOk W.write_str_gives f.old result (in_hex (encoding_of value.now)) f.new }
{
    let header = value.header();
    write_head(header.tag(), header.length(), f)?;
    write_hex(value.value(), f)
}
