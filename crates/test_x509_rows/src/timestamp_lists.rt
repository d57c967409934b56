//! Lists of timestamps.

use crate::refusals::Refusal;
use crate::shown::{Dashed, dashed_octets_of, described, read};
use std::alloc::Global;
use std::fmt::Write;
use x509_cert::timestamps::{SerializedSct, SignedCertificateTimestampList, TlsError, TlsValue};

/// Decodes a list of timestamps and returns the bytes of each.
pub fn members_of(alloc: Global, octets: &str) -> Result<String, Refusal> {
    let octets = dashed_octets_of(alloc, octets)?;
    let list: SignedCertificateTimestampList = read(alloc, octets.as_slice())?;
    let members = list.parse_timestamps(alloc)?;
    members_in(alloc, members.as_slice())
}

/// Returns the bytes of each of these timestamps.
fn members_in(alloc: Global, members: &[SerializedSct]) -> Result<String, Refusal> {
    let mut text = String::new(alloc);
    for member in members {
        if !text.is_empty() {
            text.push(' ')?;
        }
        write!(text, "{}", Dashed(member_octets(alloc, member)?.as_slice()))?;
    }
    Ok(text)
}

/// Returns the bytes of a member of a list, which follow a length of two bytes.
fn member_octets(alloc: Global, member: &SerializedSct) -> Result<Vec<u8>, Refusal> {
    let counted = member.tls_serialize(alloc)?;
    match counted.as_slice() {
        [_, _, octets @ ..] => Ok(octets.to_vec(alloc)?),
        _ => Err(Refusal::Length),
    }
}

/// Returns the member of a list with these bytes, which are decoded after a length of two bytes.
pub fn member_of(alloc: Global, octets: &str) -> Result<SerializedSct, Refusal> {
    let octets = dashed_octets_of(alloc, octets)?;
    let Ok(len) = u16::try_from(octets.len()) else {
        return Err(Refusal::Tls(TlsError::InvalidVectorLength));
    };
    let mut counted = len.to_be_bytes().to_vec(alloc)?;
    counted.extend_from_slice(octets.as_slice())?;
    let (member, _) = SerializedSct::tls_deserialize_bytes(alloc, counted.as_slice())?;
    Ok(member)
}

/// Decodes these timestamps, and returns the encoding of the list of their encodings.
pub fn list_read(alloc: Global, members: &str) -> Result<String, Refusal> {
    let mut timestamps = Vec::new(alloc);
    for octets in members.split_whitespace() {
        timestamps.push(read_again(alloc, octets)?)?;
    }
    list_written(alloc, timestamps.as_slice())
}

/// Decodes a timestamp and encodes it again.
fn read_again(alloc: Global, octets: &str) -> Result<SerializedSct, Refusal> {
    let timestamp = member_of(alloc, octets)?.parse_timestamp(alloc)?;
    Ok(SerializedSct::new(alloc, timestamp)?)
}

/// Returns the encoding of the list of timestamps with these bytes.
pub fn list_of(alloc: Global, members: &str) -> Result<String, Refusal> {
    let mut timestamps = Vec::new(alloc);
    for octets in members.split_whitespace() {
        timestamps.push(member_of(alloc, octets)?)?;
    }
    list_written(alloc, timestamps.as_slice())
}

/// Returns the encoding of the list of these timestamps.
fn list_written(alloc: Global, timestamps: &[SerializedSct]) -> Result<String, Refusal> {
    let list = SignedCertificateTimestampList::new(alloc, timestamps)?;
    described(alloc, &list)
}
