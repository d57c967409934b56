//! RDNs that are made of attributes.

use crate::name_texts::name_written;
use crate::refusals::Refusal;
use crate::shown::{described, octets_of, read, written};
use der_core::{Error, FromDer};
use std::alloc::{AllocError, Global};
use x509_cert::name::AttributeSet;
use x509_cert::{AttributeTypeAndValue, Name, RdnSequence, RelativeDistinguishedName, SetOfIter};

/// Returns the result of insertions or pushes, each of which is repeated if memory runs out.
pub fn again(alloc: Global, rest: &str) -> Result<String, Refusal> {
    match rest.split_once(' ') {
        Some(("push", names)) => pushed_again(alloc, names),
        _ => inserted_again(alloc, rest),
    }
}

/// Decodes an attribute from base 16.
fn attribute_of(alloc: Global, word: &str) -> Result<AttributeTypeAndValue, Refusal> {
    let octets = octets_of(alloc, word)?;
    Ok(read(alloc, octets.as_slice())?)
}

/// Decodes attributes from base 16, which are separated by spaces.
fn attributes_of(alloc: Global, words: &str) -> Result<Vec<AttributeTypeAndValue>, Refusal> {
    let mut attributes = Vec::new(alloc);
    for word in words.split(' ') {
        attributes.push(attribute_of(alloc, word)?)?;
    }
    Ok(attributes)
}

/// Returns the RDN into which the attributes are inserted one at a time.
pub fn inserted(alloc: Global, words: &str) -> Result<String, Refusal> {
    let mut name = RelativeDistinguishedName::default(alloc);
    for attribute in attributes_of(alloc, words)? {
        name.insert(attribute)?;
    }
    rdn_written(alloc, &name)
}

/// Returns the encoding of an RDN.
fn rdn_written(alloc: Global, name: &RelativeDistinguishedName) -> Result<String, Refusal> {
    written(alloc, name)
}

/// Returns the encoding of the RDN of a result.
pub fn rdn_written_in(
    alloc: Global,
    name: Result<RelativeDistinguishedName, Error>,
) -> Result<String, Refusal> {
    rdn_written(alloc, &name?)
}

/// Does the same as `inserted`. If memory runs out in an insertion, the name has to be as before,
/// and the insertion is repeated.
fn inserted_again(alloc: Global, words: &str) -> Result<String, Refusal> {
    let mut name = RelativeDistinguishedName::default(alloc);
    for word in words.split(' ') {
        insert_again(alloc, &mut name, word)?;
    }
    rdn_written(alloc, &name)
}

/// Inserts an attribute, with a second call if memory runs out in the first.
fn insert_again(
    alloc: Global,
    name: &mut RelativeDistinguishedName,
    word: &str,
) -> Result<(), Refusal> {
    let before = rdn_written(alloc, name)?;
    let Err(error) = name.insert(attribute_of(alloc, word)?) else {
        return Ok(());
    };
    let Refusal::Memory = Refusal::from(error) else {
        return Err(Refusal::Der(error));
    };
    if rdn_written(alloc, name)?.as_str() != before.as_str() {
        return Err(Refusal::Changed);
    }
    name.insert(attribute_of(alloc, word)?)?;
    Ok(())
}

/// Returns the RDN that is made of all attributes at once.
pub fn made(alloc: Global, words: &str) -> Result<String, Refusal> {
    rdn_written_in(
        alloc,
        RelativeDistinguishedName::try_from_vec(attributes_of(alloc, words)?),
    )
}

/// Decodes an RDN from base 16.
fn relative_name_of(alloc: Global, word: &str) -> Result<RelativeDistinguishedName, Refusal> {
    let octets = octets_of(alloc, word)?;
    Ok(RelativeDistinguishedName::from_der(alloc, octets.as_slice())?)
}

/// Returns the sequence to which the RDNs are pushed. If memory runs out in a push, the sequence
/// has to be as before, and the push is repeated.
fn pushed_again(alloc: Global, words: &str) -> Result<String, Refusal> {
    let mut names = RdnSequence::default(alloc);
    for word in words.split(' ') {
        push_again(alloc, &mut names, word)?;
    }
    name_written(alloc, Ok(Name::hazmat_from_rdn_sequence(names)))
}

/// Pushes an RDN, with a second call if memory runs out in the first.
fn push_again(alloc: Global, names: &mut RdnSequence, word: &str) -> Result<(), Refusal> {
    let before = described(alloc, names)?;
    let Err(AllocError) = names.push(relative_name_of(alloc, word)?) else {
        return Ok(());
    };
    if described(alloc, names)?.as_str() != before.as_str() {
        return Err(Refusal::Changed);
    }
    names.push(relative_name_of(alloc, word)?)?;
    Ok(())
}

/// Reverses the RDNs of a sequence, and returns the encoding of the sequence.
pub fn turned(alloc: Global, octets: &str) -> Result<String, Refusal> {
    let octets = octets_of(alloc, octets)?;
    let mut sequence: RdnSequence = read(alloc, octets.as_slice())?;
    sequence.as_mut().reverse();
    described(alloc, &sequence)
}

/// Returns the number of attributes of an RDN, and their encodings.
pub fn members(alloc: Global, octets: &str) -> Result<String, Refusal> {
    let name = relative_name_of(alloc, octets)?;
    members_in(alloc, name.iter())
}

/// Does the same as `members`, for the list that the RDN is converted to.
pub fn listed(alloc: Global, octets: &str) -> Result<String, Refusal> {
    let set = AttributeSet::from(relative_name_of(alloc, octets)?);
    let attributes = set.into_vec()?;
    members_in(alloc, attributes.as_slice().iter())
}

/// Returns the number of these attributes, and their encodings.
fn members_in(
    alloc: Global,
    members: SetOfIter<'_, AttributeTypeAndValue>,
) -> Result<String, Refusal> {
    let mut text = members.len().to_string(alloc)?;
    for attribute in members {
        text.push(' ')?;
        text.push_str(described(alloc, attribute)?.as_str())?;
    }
    Ok(text)
}
