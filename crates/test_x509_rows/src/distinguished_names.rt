//! Answers questions about the content of a name.

use crate::refusals::Refusal;
use crate::shown::{any_written, octets_of, written};
use crate::{name_texts, relative_names, timestamps};
use const_oid::ObjectIdentifier;
use der_core::describing::Described;
use der_core::{Encode, Error, FixedTag, FromDer};
use der_types::{
    BitStringRef, GeneralStringRef, Ia5StringRef, IntRef, OctetStringRef, PrintableStringRef,
    SequenceRef, SetOfRef, UintRef, Utf8StringRef,
};
use std::alloc::Global;
use std::convert::AsStr;
use x509_cert::{
    AnyRef, AttributeTypeAndValue, DateTime, DirectoryString, FromAny, GeneralizedTime, Name,
    UtcTime,
};

/// Answers a question about names and RDNs, or one that another module knows.
pub fn answer(alloc: Global, word: &str, rest: &str) -> Result<String, Refusal> {
    match word {
        "attributes" => attributes(alloc, rest),
        "relative" => relative_names::inserted(alloc, rest),
        "relative-of" => relative_names::made(alloc, rest),
        "relative-members" => relative_names::members(alloc, rest),
        "relative-list" => relative_names::listed(alloc, rest),
        "turned" => relative_names::turned(alloc, rest),
        "name" => name_texts::again(alloc, rest),
        "again" => relative_names::again(alloc, rest),
        _ => timestamps::answer(alloc, word, rest),
    }
}

/// Decodes a name from base 16.
fn name_of(alloc: Global, octets: &str) -> Result<Name, Refusal> {
    let octets = octets_of(alloc, octets)?;
    Ok(name_in(alloc, octets.as_slice())?)
}

/// Decodes a name.
pub fn name_in(alloc: Global, octets: &[u8]) -> Result<Name, Error> {
    Name::from_der(alloc, octets)
}

/// Returns the types and values of a name's attributes.
fn attributes(alloc: Global, octets: &str) -> Result<String, Refusal> {
    let name = name_of(alloc, octets)?;
    attributes_in(alloc, &name)
}

/// Returns the types and values of a decoded name's attributes.
fn attributes_in(alloc: Global, name: &Name) -> Result<String, Refusal> {
    let mut text = String::new(alloc);
    for attribute in name.iter() {
        if !text.is_empty() {
            text.push(' ')?;
        }
        add_attribute(alloc, &mut text, attribute)?;
    }
    Ok(text)
}

/// Appends the type and value of an attribute.
fn add_attribute(
    alloc: Global,
    text: &mut String,
    attribute: &AttributeTypeAndValue,
) -> Result<(), Refusal> {
    text.push_str(attribute.oid.to_string(alloc)?.as_str())?;
    text.push(' ')?;
    text.push_str(any_written(alloc, &attribute.value)?.as_str())?;
    Ok(())
}

/// Returns the first value of a kind in a name.
pub fn first(alloc: Global, which: &str, octets: &str) -> Result<String, Refusal> {
    let name = name_of(alloc, octets)?;
    first_in(alloc, which, &name)
}

/// Returns the first value of a kind in a decoded name.
fn first_in(alloc: Global, which: &str, name: &Name) -> Result<String, Refusal> {
    match which {
        "common-name" => text_of(alloc, name.common_name(alloc)),
        "state" => text_of(alloc, name.state_or_province(alloc)),
        "locality" => text_of(alloc, name.locality(alloc)),
        "organization" => text_of(alloc, name.organization(alloc)),
        "unit" => text_of(alloc, name.organization_unit(alloc)),
        "country" => lent_text(alloc, name.country()),
        "email" => lent_text(alloc, name.email_address()),
        _ => Err(Refusal::Unread),
    }
}

/// Returns the text of a DirectoryString, if there is one.
fn text_of(alloc: Global, text: Result<Option<DirectoryString>, Error>) -> Result<String, Refusal> {
    match text? {
        Some(text) => Ok(text.into_string(alloc)?),
        None => or_none(alloc, None),
    }
}

/// Returns the text that is borrowed from a name, if there is one.
fn lent_text<T: AsStr + Drop>(
    alloc: Global,
    text: Result<Option<T>, Error>,
) -> Result<String, Refusal> {
    match text? {
        Some(text) => or_none(alloc, Some(text.as_str())),
        None => or_none(alloc, None),
    }
}

/// Returns the first value with an OID in a name, decoded as a type.
pub fn by_oid(alloc: Global, kind: &str, rest: &str) -> Result<String, Refusal> {
    let (oid, octets) = rest.split_once(' ').ok_or(Refusal::Unread)?;
    let oid: ObjectIdentifier<39> = oid.parse().ok().ok_or(Refusal::Unread)?;
    let name = name_of(alloc, octets)?;
    by_oid_in(alloc, kind, &name, oid)
}

/// Returns the first value with an OID in a decoded name, decoded as the type with this name.
fn by_oid_in(
    alloc: Global,
    kind: &str,
    name: &Name,
    oid: ObjectIdentifier<39>,
) -> Result<String, Refusal> {
    match kind {
        "AnyRef" => written_of::<AnyRef>(alloc, name, oid),
        "BitStringRef" => described_of::<BitStringRef>(alloc, name, oid),
        "DateTime" => described_of::<DateTime>(alloc, name, oid),
        "DirectoryString" => written_of::<DirectoryString>(alloc, name, oid),
        "GeneralStringRef" => described_of::<GeneralStringRef>(alloc, name, oid),
        "GeneralizedTime" => described_of::<GeneralizedTime>(alloc, name, oid),
        "Ia5StringRef" => described_of::<Ia5StringRef>(alloc, name, oid),
        "IntRef" => described_of::<IntRef>(alloc, name, oid),
        "ObjectIdentifier" => described_of::<ObjectIdentifier<39>>(alloc, name, oid),
        "OctetStringRef" => described_of::<OctetStringRef>(alloc, name, oid),
        "PrintableStringRef" => described_of::<PrintableStringRef>(alloc, name, oid),
        "SequenceRef" => described_of::<SequenceRef>(alloc, name, oid),
        "SetOfRef<u8>" => written_of::<SetOfRef<u8>>(alloc, name, oid),
        "UintRef" => described_of::<UintRef>(alloc, name, oid),
        "UtcTime" => described_of::<UtcTime>(alloc, name, oid),
        "Utf8StringRef" => described_of::<Utf8StringRef>(alloc, name, oid),
        "bool" => written_of::<bool>(alloc, name, oid),
        "str" => described_of::<&str>(alloc, name, oid),
        _ => Err(Refusal::Unread),
    }
}

/// Returns the encoding of the first value with an OID, decoded as a `Described` type.
fn described_of<'a, T: FromAny<'a> + Described + FixedTag + Drop>(
    alloc: Global,
    name: &'a Name,
    oid: ObjectIdentifier<39>,
) -> Result<String, Refusal> {
    written_of::<T>(alloc, name, oid)
}

/// Returns the encoding of the first value with an OID, decoded as a type.
fn written_of<'a, T: FromAny<'a> + Encode + Drop>(
    alloc: Global,
    name: &'a Name,
    oid: ObjectIdentifier<39>,
) -> Result<String, Refusal> {
    match name.by_oid::<T>(alloc, oid)? {
        Some(value) => written(alloc, &value),
        None => or_none(alloc, None),
    }
}

/// Returns a text, or `none`.
fn or_none(alloc: Global, text: Option<&str>) -> Result<String, Refusal> {
    Ok(text.unwrap_or("none").to_string(alloc)?)
}
