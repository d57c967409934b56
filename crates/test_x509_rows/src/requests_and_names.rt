//! Answers questions about CSRs, paths and names.

use crate::profiles;
use crate::questions::{
    Question, answer_of_copied, answer_of_described, answer_of_members, answer_of_ordered_list,
    answer_of_value,
};
use crate::refusals::Refusal;
use crate::shown::{any_written, described, joined, octets_of, read, shown};
use der_core::{FromDer, StrictSetOf};
use std::alloc::Global;
use x509_cert::{
    Attribute, AttributeTypeAndValue, AttributeValue, CertReq, CertReqInfo, Certificate,
    ExtensionReq, Name, RdnSequence, RelativeDistinguishedName,
};

/// Returns the answer for a type that this module names, or that a later module names.
pub fn answer(alloc: Global, kind: &str, question: &Question<'_>) -> Result<String, Refusal> {
    match kind {
        "CertReq" => answer_of_copied(alloc, question, CertReq::clone),
        "CertReqInfo" => answer_of_copied(alloc, question, CertReqInfo::clone),
        "PkiPath" => answer_of_members::<Certificate>(alloc, question),
        "ExtensionReq" => answer_of_ordered_list(
            alloc,
            question,
            ExtensionReq::clone,
            ExtensionReq::default(alloc),
        ),
        _ => answer_of_names(alloc, kind, question),
    }
}

/// Returns the answer for a name or a part of one, or for a later type.
fn answer_of_names(alloc: Global, kind: &str, question: &Question<'_>) -> Result<String, Refusal> {
    match kind {
        "Name" => answer_of_value::<Name>(alloc, question),
        "RdnSequence" => answer_of_ordered_list(
            alloc,
            question,
            RdnSequence::clone,
            RdnSequence::default(alloc),
        ),
        "RelativeDistinguishedName" => answer_of_value::<RelativeDistinguishedName>(
            alloc, question,
        ),
        "AttributeTypeAndValue" => answer_of_described::<AttributeTypeAndValue>(alloc, question),
        "Attribute" => answer_of_copied(alloc, question, Attribute::clone),
        _ => profiles::answer(alloc, kind, question),
    }
}

/// Returns the number of values of an attribute, each of them, and the one at an index.
pub fn values_of(alloc: Global, index: &str, octets: &str) -> Result<String, Refusal> {
    let index = index.parse::<usize>()?;
    let attribute = attribute_of(alloc, octets)?;
    let values = &attribute.values;
    joined(listed(alloc, values), "; ", value_at(alloc, values, index))
}

/// Adds a value to an attribute and returns the encoding of the attribute.
pub fn value_placed(alloc: Global, value: &str, octets: &str) -> Result<String, Refusal> {
    let value = octets_of(alloc, value)?;
    let mut attribute = attribute_of(alloc, octets)?;
    attribute
        .values
        .insert(FromDer::from_der(alloc, value.as_slice())?)?;
    described(alloc, &attribute)
}

/// Decodes an attribute from base 16.
fn attribute_of(alloc: Global, octets: &str) -> Result<Attribute, Refusal> {
    let octets = octets_of(alloc, octets)?;
    Ok(read(alloc, octets.as_slice())?)
}

/// Returns the number of values, and their encodings.
fn listed(alloc: Global, values: &StrictSetOf<AttributeValue>) -> Result<String, Refusal> {
    if values.is_empty() {
        return shown(alloc, "0");
    }
    let mut text = values.len().to_string(alloc)?;
    for value in values.iter() {
        text.push(' ')?;
        text.push_str(any_written(alloc, value)?.as_str())?;
    }
    Ok(text)
}

/// Returns the encoding of the value at an index, if there is one.
fn value_at(
    alloc: Global,
    values: &StrictSetOf<AttributeValue>,
    index: usize,
) -> Result<String, Refusal> {
    match values.get(index) {
        Some(value) => any_written(alloc, value),
        None => shown(alloc, "none"),
    }
}
