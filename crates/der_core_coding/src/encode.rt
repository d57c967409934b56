//! Encoding a value into a new vector, into a slice, or after the bytes of a vector.

ghost use Rattle.std.specs.Prelude.{◌≡◌, ◌≤◌, ◌++◌, [], length, take, Ok, None, false, true};
ghost use Rattle.std.specs.Prelude.{IfOk, IfErr, IsOkAnd};
ghost use Rattle.der_core_values.specs.CoreHead.Heads.{Fits};
ghost use Rattle.der_core_values.specs.CoreHead.Ranges.{IsInRange};
ghost use Rattle.der_core_values.specs.CoreHead.Shapes.{IsValid, octets_of};
ghost use Rattle.der_core_values.specs.CoreHead.Reading.{Fails, Gives, GivesNow};
ghost use Rattle.der_core_values.specs.CoreHead.Writing.{write};
ghost use Rattle.der_core_values.specs.CoreOctets.Outputs.{appended, filled};

use crate::slice_writer::SliceWriter;
use der_core_values::Encode;
use der_core_values::core_head::{Error, Length};
use der_core_values::core_octets::{Writer, header_of};
use std::alloc::{AllocError, Global};

/// A writer to a vector of its own. When the header of a value is written first, it allocates for
/// the whole value.
#[derive(Drop)]
struct VecWriter {
    octets: Vec<u8>,
}

impl Writer for VecWriter {
    ghost out = { λ w. record { written = w.octets.items; room = None; failed = false } };

    ghost takes_memory = { true };

    // Inlined, so that a known number of bytes is copied without a call.
    #[inline(always)]
    #[tactic(auto, unfolding(crate::specs::Opened::put))]
    fn write(&mut self, octets: &[u8]) -> Result<(), Error> {
        if self.octets.capacity() - self.octets.len() < octets.len() {
            take_room(&mut self.octets, octets)?;
        }
        self.octets.extend_from_slice(octets)?;
        Ok(())
    }
}

/// Allocates for the value that a header announces, if the vector is empty.
///
/// # Errors
///
/// - `AllocError`: memory runs out.
// Not inlined, because it is called once for a value.
#[inline(never)]
fn take_room(out: &mut Vec<u8>, header: &[u8]) -> Result<(), AllocError>
    ensures { out.new.items ≡ out.old.items }
{
    match header_of(header) {
        Ok((header, len)) if out.is_empty() => {
            out.reserve_exact(len + header.length.value as usize)
        }
        _ => Ok(()),
    }
}

/// Returns the encoding of a value in a new vector.
fn encoded<T: Encode>(alloc: Global, value: &T) -> Result<Vec<u8>, Error>
    ensures { Gives (λ v. record { written = v.items; room = None; failed = false }) result
        (write T.shape (T.written value.now)
        (record { written = []; room = None; failed = false })) }
{
    let octets = Vec::new(alloc);
    let mut out = VecWriter { octets };
    value.encode(&mut out)?;
    Ok(out.octets)
}

/// Encodes a value at the beginning of a slice.
fn fill<'a, T: Encode>(value: &T, bytes: &'a mut [u8]) -> Result<&'a [u8], Error>
    ensures { GivesNow (λ octets. octets.now) result
        (filled (write T.shape (T.written value.now)) (length bytes.entry.now)) }
{
    let mut writer = SliceWriter::new(bytes);
    value.encode(&mut writer)?;
    writer.finish()
}

/// Encodes a value after the bytes of a vector.
fn append<T: Encode>(value: &T, out: &mut Vec<u8>) -> Result<Length, Error>
    ensures exact { IfOk result (λ len. appended T.shape (T.written value.now) out.old.items
        ≡ Ok (len.value, out.new.items)) }
    ensures refused { IfErr result
        (λ e. Fails e.kind (appended T.shape (T.written value.now) out.old.items)) }
    // The earlier bytes of the vector are unchanged. After an error, it has no other bytes.
    ensures kept { take (length out.old.items) out.new.items ≡ out.old.items }
    ensures unchanged { IfErr result (λ _. out.new.items ≡ out.old.items) }
{
    let len = value.encoded_len()?;
    out.reserve_exact(len.value as usize)?;
    let before = out.len();
    match value.encode(out) {
        Ok(()) => Ok(len),
        Err(error) => {
            out.truncate(before);
            Err(error)
        }
    }
}

/// A type whose values can be encoded: into a new vector, into a slice, or after the bytes of a
/// vector.
pub trait ToDer: Encode {
    /// Returns the encoding of the value. It allocates once, for the whole encoding, if the tag has
    /// one byte (measured; no clause states it).
    ///
    /// # Errors
    ///
    /// - `Overflow`: a length exceeds 2^32 - 1.
    /// - `SetOrdering`, `SetDuplicate`: a strict set in the value isn't in ascending order (X.690
    ///   11.6).
    /// - `OutOfMemory`: memory runs out.
    ///
    /// # Examples
    ///
    /// From `crates/example_build_certificates/src/main.rt`:
    ///
    /// ```rust
    /// /// Returns the encoding of a value as a line in base 16.
    /// pub(crate) fn line_of<T: Encode>(alloc: Global, made: &T) -> Result<String, Error> {
    ///     let octets = made.to_der(alloc)?;
    ///     line_in_hex(alloc, octets.as_slice())
    /// }
    /// ```
    final fn to_der(&self, alloc: Global) -> Result<Vec<u8>, Error>
        // The result is the encoding of the value, of at most 2^32 - 1 bytes.
        ensures octets { IfOk result (λ v. (v.items ≡ octets_of Self.shape (Self.written self.now))
            × Fits v.items) }
        // The value is valid if its parts are in their ranges.
        ensures valid { IfOk result (λ _. IsInRange Self.shape (Self.written self.now)
            → IsValid Self.shape (Self.written self.now)) }
        // A valid value is encoded, unless memory runs out.
        ensures spelled { IsValid Self.shape (Self.written self.now)
            → Gives (λ v. v.items) result (Ok (octets_of Self.shape (Self.written self.now))) }
        // The result is that of the definition, including the kind of the error.
        ensures exact { Gives (λ v. record { written = v.items; room = None; failed = false })
            result (write Self.shape (Self.written self.now)
            (record { written = []; room = None; failed = false })) }
    {
        encoded(alloc, self)
    }

    /// Encodes the value at the beginning of a slice, and returns the encoded bytes. It doesn't
    /// allocate.
    ///
    /// # Errors
    ///
    /// - `Overlength`: the slice is too short.
    /// - `Overflow`: a length exceeds 2^32 - 1.
    /// - `SetOrdering`, `SetDuplicate`: a strict set in the value isn't in ascending order (X.690
    ///   11.6).
    final fn encode_to_slice<'a>(&self, bytes: &'a mut [u8]) -> Result<&'a [u8], Error>
        // The result is the encoding of the value, of at most 2^32 - 1 bytes.
        ensures octets { IfOk result (λ octets.
            (octets.now ≡ octets_of Self.shape (Self.written self.now)) × Fits octets.now) }
        // The value is valid if its parts are in their ranges.
        ensures valid { IfOk result (λ _. IsInRange Self.shape (Self.written self.now)
            → IsValid Self.shape (Self.written self.now)) }
        // A valid value is encoded if there is room for its encoding.
        ensures spelled { IsValid Self.shape (Self.written self.now)
            → length (octets_of Self.shape (Self.written self.now)) ≤ length bytes.entry.now
            → IsOkAnd result (λ octets. octets.now ≡ octets_of Self.shape (Self.written self.now)) }
        // The result is that of the definition, including the kind of the error.
        ensures exact { GivesNow (λ octets. octets.now) result
            (filled (write Self.shape (Self.written self.now)) (length bytes.entry.now)) }
    {
        fill(self, bytes)
    }

    /// Encodes the value after the bytes of a vector, and returns the length of the encoding.
    ///
    /// The earlier bytes are unchanged. After an error, nothing was added. It allocates once, for
    /// the whole encoding (measured; no clause states it).
    ///
    /// # Errors
    ///
    /// - `Overflow`: a length exceeds 2^32 - 1.
    /// - `SetOrdering`, `SetDuplicate`: a strict set in the value isn't in ascending order (X.690
    ///   11.6).
    /// - `OutOfMemory`: memory runs out.
    final fn encode_to_vec(&self, out: &mut Vec<u8>) -> Result<Length, Error>
        // The encoding of the value was appended, and the result is its length.
        ensures octets { IfOk result (λ len.
            (out.new.items ≡ out.old.items ++ octets_of Self.shape (Self.written self.now))
            × (len.value ≡ length (octets_of Self.shape (Self.written self.now)))) }
        // The value is valid if its parts are in their ranges.
        ensures valid { IfOk result (λ _. IsInRange Self.shape (Self.written self.now)
            → IsValid Self.shape (Self.written self.now)) }
        // A valid value is encoded, unless memory runs out.
        ensures spelled { IsValid Self.shape (Self.written self.now)
            → Gives (λ len. len.value) result
            (Ok (length (octets_of Self.shape (Self.written self.now)))) }
        ensures exact { IfOk result (λ len.
            appended Self.shape (Self.written self.now) out.old.items
            ≡ Ok (len.value, out.new.items)) }
        ensures refused { IfErr result
            (λ e. Fails e.kind (appended Self.shape (Self.written self.now) out.old.items)) }
        // The earlier bytes of the vector are unchanged. After an error, it has no other bytes.
        ensures kept { take (length out.old.items) out.new.items ≡ out.old.items }
        ensures unchanged { IfErr result (λ _. out.new.items ≡ out.old.items) }
    {
        append(self, out)
    }
}

impl<T: Encode> ToDer for T {}
