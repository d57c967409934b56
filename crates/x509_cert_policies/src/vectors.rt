//! Encoding and decoding numbers in big-endian byte order, and vectors of bytes with a length of
//! two bytes (RFC 5246 4.3, 4.4).

ghost use Rattle.std.specs.Prelude.{◌≡◌, ◌-◌, ◌^◌, min, length, IfOk, IfErr, OnOk, OnErr, ◌<◌};
ghost use Rattle.std.specs.Prelude.{◌++◌, IsNone, IfSome, ◌↔◌};
ghost use Rattle.x509_cert_policies.specs.Forms.{vector, Spells, Refuses, FailsOn, Appends};
ghost use Rattle.x509_cert_policies.specs.Forms.{CannotWrite, StillBegins, octets, short_octets};
ghost use Rattle.x509_cert_policies.specs.Forms.{long};

use crate::tls_error::TlsError;
use std::alloc::Global;

/// Splits the bytes after the vector that they begin with. Returns the content of the vector and
/// the bytes after it.
///
/// # Errors
///
/// - `EndOfStream`: the bytes end within the vector or its length.
pub(crate) fn split_vector(input: &[u8]) -> Result<(&[u8], &[u8]), TlsError>
    ensures ok { IfOk result (λ p. Spells vector p.0.now input.now p.1.now) }
    ensures err { IfErr result (λ e. Refuses vector input.now e) }
{
    let Some((len, behind)) = split_short(input) else {
        return Err(TlsError::EndOfStream);
    };
    let len = usize::from(len);
    if behind.len() < len {
        return Err(TlsError::EndOfStream);
    }
    Ok(behind.split_at(len))
}

/// Decodes the vector that the bytes begin with, and returns it with the bytes after it.
///
/// # Errors
///
/// - `EndOfStream`: the bytes end within the vector or its length.
/// - `OutOfMemory`: memory runs out.
pub(crate) fn read_vector(alloc: Global, input: &[u8]) -> Result<(Vec<u8>, &[u8]), TlsError>
    ensures ok { IfOk result (λ p. Spells vector p.0.items input.now p.1.now) }
    ensures err { IfErr result (λ e. FailsOn vector input.now e) }
{
    let (front, rest) = split_vector(input)?;
    let items = front.to_vec(alloc)?;
    Ok((items, rest))
}

/// Appends the encoding of a vector to `output`.
///
/// # Errors
///
/// - `InvalidVectorLength`: the vector has more than 65535 bytes.
/// - `OutOfMemory`: memory runs out.
#[tactic(auto, unfolding(crate::specs::Forms::short_octets), using(crate::proofs::Readings::fronts))]
pub(crate) fn append_vector(items: &[u8], output: &mut Vec<u8>) -> Result<(), TlsError>
    ensures ok { OnOk result (Appends vector items.now output.old.items output.new.items) }
    ensures err { IfErr result (λ e. CannotWrite vector items.now e) }
    ensures kept { OnErr result (StillBegins output.old.items output.new.items) }
{
    if items.len() > 0xffff {
        return Err(TlsError::InvalidVectorLength);
    }
    let len = items.len() as u16;
    output.extend_from_slice(&len.to_be_bytes())?;
    output.extend_from_slice(items)?;
    Ok(())
}

/// Returns the length of a vector's encoding in bytes, or `usize::MAX` if it is greater.
#[tactic(auto, using(crate::proofs::Readings::vector_length))]
pub(crate) fn vector_len(items: &[u8]) -> usize
    ensures { result ≡ min (length (octets vector items.now)) (2 ^ 64 - 1) }
{
    items.len().saturating_add(2)
}

/// Decodes a number of two bytes. Returns the number and the bytes after it, or `None` if there are
/// fewer than two.
#[tactic(auto, using(crate::proofs::Readings::short_of))]
pub(crate) fn split_short(input: &[u8]) -> Option<(u16, &[u8])>
    ensures some { IfSome result (λ p. input.now ≡ short_octets p.0 ++ p.1.now) }
    ensures none { IsNone result ↔ (length input.now < 2) }
{
    if input.len() < 2 {
        return None;
    }
    let (front, rest) = input.split_at(2);
    let number = u16::from_be_bytes([front[0], front[1]]);
    Some((number, rest))
}

/// Decodes the number of eight bytes that the bytes begin with, and returns it with the bytes after
/// it.
///
/// # Errors
///
/// - `EndOfStream`: there are fewer than eight bytes.
#[tactic(auto, using(crate::proofs::Readings::long_of))]
pub(crate) fn read_long(input: &[u8]) -> Result<(u64, &[u8]), TlsError>
    ensures ok { IfOk result (λ p. Spells long p.0 input.now p.1.now) }
    ensures err { IfErr result (λ e. FailsOn long input.now e) }
{
    if input.len() < 8 {
        return Err(TlsError::EndOfStream);
    }
    let (front, rest) = input.split_at(8);
    let number = u64::from_be_bytes([
        front[0], front[1], front[2], front[3], front[4], front[5], front[6], front[7],
    ]);
    Ok((number, rest))
}

/// Appends a number of eight bytes to `output`.
///
/// # Errors
///
/// - `OutOfMemory`: memory runs out.
#[tactic(auto, unfolding(crate::specs::Forms::long_octets), using(crate::proofs::Readings::fronts))]
pub(crate) fn append_long(number: u64, output: &mut Vec<u8>) -> Result<(), TlsError>
    ensures ok { OnOk result (Appends long number output.old.items output.new.items) }
    ensures err { IfErr result (λ e. CannotWrite long number e) }
    ensures kept { OnErr result (StillBegins output.old.items output.new.items) }
{
    output.extend_from_slice(&number.to_be_bytes())?;
    Ok(())
}
