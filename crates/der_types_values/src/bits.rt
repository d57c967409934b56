//! The bits of bytes. The most significant bit of each byte comes first (X.690 8.6.2).

ghost use Rattle.std.specs.Prelude.{◌≡◌, ◌<◌, ◌*◌, ◌↔◌, length, true, false, IsOk, IfErr};
ghost use Rattle.der_core.specs.Limits.{length_max};
ghost use Rattle.der_core.specs.Heads.{Fits};
ghost use Rattle.der_core.specs.BitStrings.{are_bits, last_octet};
ghost use Rattle.der_types_values.specs.Bits.{bit_at};

use crate::bit_string_ref::BitStringRef;
use der_core::{Error, ErrorKind, Length, Tag};

/// Returns the last byte, or 0 if there is none.
#[tactic(auto, using(crate::proofs::NamedSteps::last_place))]
fn last_of(octets: &[u8]) -> u8
    ensures { result ≡ last_octet octets.now }
{
    match octets {
        [] => 0,
        [.., last] => *last,
    }
}

/// Returns whether this many bits of the bytes can be unused: at most seven, none if there are no
/// bytes, and only zero bits.
pub fn may_be_unused(unused_bits: u8, octets: &[u8]) -> bool
    ensures { result ≡ are_bits unused_bits octets.now }
{
    if octets.is_empty() {
        return unused_bits == 0;
    }
    unused_bits <= BitStringRef::MAX_UNUSED_BITS && last_of(octets) % (1u8 << unused_bits) == 0
}

/// Checks that this many bits of the bytes can be unused, and that there are fewer than 2^32 bytes.
///
/// # Errors
///
/// - `Value`: more than seven bits are unused, or some are although there are no bytes, or an
///   unused bit isn't zero.
/// - `Overflow`: there are 2^32 bytes or more.
pub fn check_bits(unused_bits: u8, octets: &[u8]) -> Result<(), Error>
    ensures bits { IsOk result ↔ ((are_bits unused_bits octets.now ≡ true) × (Fits octets.now)) }
    ensures value { are_bits unused_bits octets.now ≡ false
        → IfErr result (λ e. e.kind ≡ ErrorKind.Value Tag.BitString) }
    ensures long { are_bits unused_bits octets.now ≡ true
        → IfErr result (λ e. (length_max < length octets.now) × (e.kind ≡ ErrorKind.Overflow)) }
{
    if !may_be_unused(unused_bits, octets) {
        return Err(Error::from(ErrorKind::Value {
            tag: Tag::BitString,
        }));
    }
    if octets.len() > Length::MAX.value as usize {
        return Err(Error::from(ErrorKind::Overflow));
    }
    Ok(())
}

/// Returns the bit at an index.
pub fn bit_of(octets: &[u8], index: usize) -> bool
    requires { index < 8 * length octets.now }
    ensures { result ≡ bit_at octets.now index }
{
    octets[index / 8] / (1u8 << (7 - index % 8)) % 2 == 1
}
