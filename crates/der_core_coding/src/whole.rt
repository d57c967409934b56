//! Decoding a value from all bytes, or from a prefix of them.

ghost use Rattle.std.specs.Prelude.{◌≡◌, ◌<◌, ◌^◌, ◌++◌, ℕ, List, length, [], true, false, Ok};
ghost use Rattle.std.specs.Prelude.{◌≢◌, IfOk, IfErr};
ghost use Rattle.der_core_values.specs.CoreHead.Limits.{levels_max};
ghost use Rattle.der_core_values.specs.CoreHead.Heads.{Fits};
ghost use Rattle.der_core_values.specs.CoreHead.Shapes.{Value, Spells, IsValid, octets_of, leaf};
ghost use Rattle.der_core_values.specs.CoreHead.Shapes.{tagged};
ghost use Rattle.der_core_values.specs.CoreHead.Spelling.{is_apart, is_element, are_enough};
ghost use Rattle.der_core_values.specs.CoreHead.Grammar.{read_whole};
ghost use Rattle.der_core_values.specs.CoreHead.Reading.{Gives, GivesNow};
ghost use Rattle.der_core_values.specs.CoreOctets.Fronts.{read_front};
ghost use Rattle.der_core_coding.specs.Wholes.{whole_ber_at};

use crate::slice_reader::SliceReader;
use der_core_values::core_head::{EncodingRules, Error, ErrorKind};
use der_core_values::core_octets::Reader;
use der_core_values::{Decode, FixedTag, Leaf, decode_leaf_of_tag};
use std::alloc::Global;

/// Decodes a value from all bytes.
///
/// # Errors
///
/// The errors of `from_der`.
#[tactic(auto, unfolding(crate::specs::Opened::read_whole))]
pub fn read_whole<'a, T: Decode<'a, SliceReader<'a>>>(
    alloc: Global,
    bytes: &'a [u8],
) -> Result<T, Error>
    ensures { Gives (λ v. (T.plain v, [])) result (read_whole T.shape bytes.now) }
{
    let mut reader = SliceReader::new(bytes)?;
    let value = T::decode(alloc, &mut reader);
    if value.is_ok() && !reader.is_finished() {
        return Err(ErrorKind::TrailingData.at(reader.position()));
    }
    value
}

/// Decodes a value from all bytes. Headers are decoded under BER, and contents as under DER.
#[tactic(auto, unfolding(crate::specs::Wholes::whole_ber_at))]
fn read_whole_by_ber<'a, T: Decode<'a, SliceReader<'a>>>(
    alloc: Global,
    bytes: &'a [u8],
) -> Result<T, Error>
    ensures { Gives (λ v. (T.plain v, [])) result (whole_ber_at T.shape bytes.now) }
{
    let mut reader = SliceReader::new_with_encoding_rules(bytes, EncodingRules::Ber)?;
    let value = T::decode(alloc, &mut reader)?;
    if reader.is_finished() {
        Ok(value)
    } else {
        Err(ErrorKind::TrailingData.at(reader.position()))
    }
}

/// Decodes a value from a prefix of the bytes.
fn read_front<'a, T: Decode<'a, SliceReader<'a>>>(
    alloc: Global,
    bytes: &'a [u8],
) -> Result<(T, &'a [u8]), Error>
    ensures { Gives (λ x. (T.plain x.0, x.1.now)) result (read_front T.shape bytes.now) }
{
    let mut reader = SliceReader::new(bytes)?;
    let value = T::decode(alloc, &mut reader)?;
    Ok((value, reader.remaining()))
}

/// Decodes a value with a primitive content, including its tag, from all bytes.
///
/// # Errors
///
/// The errors of `from_der`. A type that doesn't allocate never returns `OutOfMemory`.
#[tactic(auto, unfolding(crate::specs::Opened::read_whole))]
pub fn leaf_from_der<'a, T: Leaf<'a> + FixedTag>(alloc: Global, bytes: &'a [u8]) -> Result<T, Error>
    ensures exact { Gives (λ v. (T.leaf_plain v, [])) result
        (read_whole (tagged T.fixed_tag (leaf T.kind)) bytes.now) }
    // If the type doesn't allocate, the error is that of the bytes.
    ensures fault { T.takes_memory ≡ false → GivesNow (λ v. (T.leaf_plain v, [])) result
        (read_whole (tagged T.fixed_tag (leaf T.kind)) bytes.now) }
{
    let mut reader = SliceReader::new(bytes)?;
    let value = decode_leaf_of_tag::<SliceReader, T>(alloc, &mut reader)?;
    if reader.is_finished() {
        Ok(value)
    } else {
        Err(ErrorKind::TrailingData.at(reader.position()))
    }
}

/// A type whose values can be decoded from slices.
pub trait FromDer<'a>: Decode<'a, SliceReader<'a>> {
    /// Decodes a value from all bytes.
    ///
    /// # Errors
    ///
    /// - `Overflow`: there are 2^32 bytes or more.
    /// - The first error that decoding meets.
    /// - `TrailingData`: bytes are left after the value.
    /// - `OutOfMemory`: memory runs out.
    ///
    /// # Examples
    ///
    /// From `crates/example_own_types/src/main.rt`:
    ///
    /// ```rust
    /// /// Decodes a ticket. Returns its text and its encoding.
    /// fn of_ticket(alloc: Global, octets: &[u8]) -> Result<String, Error> {
    ///     let ticket = Ticket::from_der(alloc, octets)?;
    ///     let written = hex::encode(alloc, ticket.to_der(alloc)?)?;
    ///     Ok(format!(in alloc; "{ticket:?} {written}")?)
    /// }
    /// ```
    final fn from_der(alloc: Global, bytes: &'a [u8]) -> Result<Self, Error>
        // Accepted bytes are the encoding of the result.
        ensures spelled { is_apart Self.shape ≡ true
            → IfOk result (λ v. Spells Self.shape (Self.plain v) bytes.now) }
        // If the type is unambiguous and needs at most 64 levels, an encoding is accepted, unless
        // memory runs out.
        ensures only { (v : Value Self.shape) → is_apart Self.shape ≡ true
            → are_enough Self.shape levels_max ≡ true
            → Spells Self.shape v bytes.now → Gives Self.plain result (Ok v) }
        // Under the same conditions, the bytes aren't the encoding of any value after any error but
        // `OutOfMemory`.
        ensures refused { is_apart Self.shape ≡ true → are_enough Self.shape levels_max ≡ true
            → IfErr result (λ e. e.kind ≢ ErrorKind.OutOfMemory
            → (v : Value Self.shape) → Spells Self.shape v bytes.now → ⊥) }
        // The result is that of the definition, including the kind of the error.
        ensures exact { Gives (λ v. (Self.plain v, [])) result (read_whole Self.shape bytes.now) }
    {
        read_whole(alloc, bytes)
    }

    /// Decodes a value from a prefix of the bytes, and returns it with the remainder.
    ///
    /// # Errors
    ///
    /// - `Overflow`: there are 2^32 bytes or more.
    /// - The first error that decoding meets.
    /// - `OutOfMemory`: memory runs out.
    final fn from_der_partial(alloc: Global, bytes: &'a [u8]) -> Result<(Self, &'a [u8]), Error>
        // The bytes are the encoding of the value, followed by the remainder.
        ensures spelled { is_apart Self.shape ≡ true → IfOk result (λ x.
            IsValid Self.shape (Self.plain x.0)
            × (bytes.now ≡ octets_of Self.shape (Self.plain x.0) ++ x.1.now)) }
        // An encoding is accepted, whatever follows it, unless memory runs out.
        ensures only { (v : Value Self.shape) (r : List ℕ) → is_element Self.shape ≡ true
            → is_apart Self.shape ≡ true → are_enough Self.shape levels_max ≡ true
            → IsValid Self.shape v → bytes.now ≡ octets_of Self.shape v ++ r → Fits bytes.now
            → Gives {P = Value Self.shape × List ℕ} (λ x. (Self.plain x.0, x.1.now)) result
            (Ok (v, r)) }
        // The result is that of the definition, including the kind of the error.
        ensures exact { Gives (λ x. (Self.plain x.0, x.1.now)) result
            (read_front Self.shape bytes.now) }
    {
        read_front(alloc, bytes)
    }

    /// Decodes a value from all bytes. Headers are decoded under BER (X.690 8.1), which also
    /// accepts indefinite lengths, and contents as under DER. So most encodings that only BER
    /// allows are rejected.
    ///
    /// # Errors
    ///
    /// - `Overflow`: there are 2^32 bytes or more.
    /// - The first error that decoding meets.
    /// - `TrailingData`: bytes are left after the value.
    /// - `OutOfMemory`: memory runs out.
    final fn from_ber(alloc: Global, bytes: &'a [u8]) -> Result<Self, Error>
        ensures { Gives (λ v. (Self.plain v, [])) result (whole_ber_at Self.shape bytes.now) }
    {
        read_whole_by_ber(alloc, bytes)
    }
}

impl<'a, T: Decode<'a, SliceReader<'a>>> FromDer<'a> for T {}
