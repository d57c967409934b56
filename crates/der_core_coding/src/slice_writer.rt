//! The writer to a slice.

ghost use Rattle.std.specs.Prelude.{◌≡◌, ◌≤◌, ◌<◌, length, [], Some, IfOk, IfErr, IsSomeAnd};
ghost use Rattle.std.specs.Prelude.{IsNone, IsErrAnd, OnOk, OnErr, true, false};
ghost use Rattle.der_core_values.specs.CoreHead.Limits.{IsLength, length_max};
ghost use Rattle.der_core_values.specs.CoreHead.Tags.{implicit_tag};
ghost use Rattle.der_core_values.specs.CoreHead.Shapes.{explicit, octets_of, tagged};
ghost use Rattle.der_core_values.specs.CoreHead.Reading.{GivesNow};
ghost use Rattle.der_core_values.specs.CoreHead.Writing.{write};
ghost use Rattle.der_core_values.specs.CoreOctets.Outputs.{AddsFront, Continues, Encloses, blank};
ghost use Rattle.der_core_coding.specs.Sequences.{RefusesEnclosed, failing};

use crate::tagging::{encode_explicit, encode_implicit};
use der_core_values::core_head::{Error, ErrorKind, Length, Tag, TagMode, TagNumber};
use der_core_values::core_octets::{Writer, encode_header};
use der_core_values::{Encode, EncodeValue, FixedTag};

/// A writer to a slice, which doesn't allocate. It has failed after a write for which there wasn't
/// enough room.
#[derive(Drop)]
pub struct SliceWriter<'a> {
    bytes: &'a mut [u8],
    position: usize,
    failed: bool,
    ghost inside: { position ≤ length bytes.now },
}

impl<'a> SliceWriter<'a> {
    ghost use Rattle.der_core_coding.specs.Slices.{output};

    /// Returns a writer to the whole slice.
    pub fn new(bytes: &'a mut [u8]) -> SliceWriter<'a>
        ensures { output result ≡ blank (length bytes.entry.now) }
    {
        SliceWriter {
            bytes,
            position: 0,
            failed: false,
        }
    }

    /// Returns whether a write has failed.
    pub fn is_failed(&self) -> bool
        ensures { result ≡ (output self.now).failed }
    {
        self.failed
    }

    /// Returns the bytes that were written.
    ///
    /// # Errors
    ///
    /// - `Failed`: a write has failed.
    pub fn finish(self) -> Result<&'a [u8], Error>
        ensures ok { IfOk result (λ octets.
            (octets.now ≡ (output self.entry).written) × ((output self.entry).failed ≡ false)) }
        ensures failed { IfErr result (λ e.
            ((output self.entry).failed ≡ true) × (e.kind ≡ ErrorKind.Failed)) }
    {
        if self.failed {
            return Err(Error::from(ErrorKind::Failed));
        }
        let len = self.position;
        let bytes = self.bytes;
        Ok(&bytes[..len])
    }

    /// Returns an error at the position of the writer, and marks the writer as failed. If the
    /// position is 2^32 or more, the error has none.
    ///
    /// # Errors
    ///
    /// Always the error of this kind.
    pub fn error<T>(&mut self, kind: ErrorKind) -> Result<T, Error>
        ensures kind { IsErrAnd result (λ e. e.kind ≡ kind) }
        ensures place { IsLength (length (output self.old).written) → IfErr result (λ e.
            IsSomeAnd e.position (λ p. p.value ≡ length (output self.old).written)) }
        ensures far { length_max < length (output self.old).written
            → IfErr result (λ e. IsNone e.position) }
        ensures failed { output self.new ≡ failing (output self.old) }
    {
        self.failed = true;
        let position = Length::try_from(self.position).ok();
        Err(Error { kind, position })
    }

    /// Encodes a value. After an error the writer has failed.
    ///
    /// # Errors
    ///
    /// - `Failed`: the writer failed before.
    /// - `Overlength`: there isn't enough room.
    /// - `Overflow`: a length exceeds 2^32 - 1.
    #[tactic(auto, using(crate::proofs::Cited::none_added))]
    pub fn encode<T: Encode>(&mut self, value: &T) -> Result<(), Error>
        ensures writes { (output self.old).failed ≡ false
            → GivesNow (λ _. output self.new) result
            (write T.shape (T.written value.now) (output self.old)) }
        ensures failed { (output self.old).failed ≡ true
            → IsErrAnd result (λ e. e.kind ≡ ErrorKind.Failed)
            × (output self.new ≡ output self.old) }
        ensures refused { OnErr result ((output self.new).failed ≡ true) }
        ensures kept { Continues (output self.old) (output self.new) }
        ensures front { AddsFront (octets_of T.shape (T.written value.now)) (output self.old)
            (output self.new) }
    {
        if self.failed {
            return Err(Error::from(ErrorKind::Failed));
        }
        match value.encode(self) {
            Ok(()) => Ok(()),
            Err(error) => {
                self.failed = true;
                Err(error)
            }
        }
    }

    /// Encodes a value with a context-specific tag, before its own or in place of it (X.690 8.14).
    /// After an error the writer has failed.
    ///
    /// # Errors
    ///
    /// - `Failed`: the writer failed before.
    /// - `Overlength`: there isn't enough room.
    /// - `Overflow`: a length exceeds 2^32 - 1.
    #[tactic(auto, using(crate::proofs::Cited::none_added))]
    pub fn context_specific<T: EncodeValue + FixedTag>(
        &mut self,
        tag_number: TagNumber,
        tag_mode: TagMode,
        value: &T,
    ) -> Result<(), Error>
        ensures explicit { tag_mode ≡ TagMode.Explicit → (output self.old).failed ≡ false
            → GivesNow (λ _. output self.new) result
            (write (explicit tag_number.value (tagged T.fixed_tag T.content))
            (T.value_written value.now) (output self.old)) }
        ensures implicit { tag_mode ≡ TagMode.Implicit → (output self.old).failed ≡ false
            → GivesNow (λ _. output self.new) result
            (write (tagged (implicit_tag tag_number.value T.fixed_tag) T.content)
            (T.value_written value.now) (output self.old)) }
        ensures failed { (output self.old).failed ≡ true
            → IsErrAnd result (λ e. e.kind ≡ ErrorKind.Failed)
            × (output self.new ≡ output self.old) }
        ensures refused { OnErr result ((output self.new).failed ≡ true) }
        ensures kept { Continues (output self.old) (output self.new) }
        ensures front_explicit { tag_mode ≡ TagMode.Explicit → AddsFront
            (octets_of (explicit tag_number.value (tagged T.fixed_tag T.content))
            (T.value_written value.now)) (output self.old) (output self.new) }
        ensures front_implicit { tag_mode ≡ TagMode.Implicit → AddsFront
            (octets_of (tagged (implicit_tag tag_number.value T.fixed_tag) T.content)
            (T.value_written value.now)) (output self.old) (output self.new) }
    {
        if self.failed {
            return Err(Error::from(ErrorKind::Failed));
        }
        let outcome = match tag_mode {
            TagMode::Explicit => encode_explicit(self, tag_number, value),
            TagMode::Implicit => encode_implicit(self, tag_number, value),
        };
        match outcome {
            Ok(()) => Ok(()),
            Err(error) => {
                self.failed = true;
                Err(error)
            }
        }
    }

    /// Writes the header of a SEQUENCE with this length, and calls `f` to write the content. After
    /// an error the writer has failed.
    ///
    /// # Errors
    ///
    /// - `Failed`: the writer failed before.
    /// - `Overlength`: there isn't enough room for the header.
    /// - The error of `f`.
    /// - `Length`: `f` wrote another number of bytes.
    pub fn sequence<F: FnOnce(&mut SliceWriter<'a>) -> Result<(), Error>>(
        &mut self,
        length: Length,
        f: F,
    ) -> Result<(), Error>
        requires { F.IsAlwaysCallable f }
        // The closure was called after the header, and wrote `length` bytes.
        ensures ok { OnOk result
            (Encloses output F.FnOnce f length.value (output self.old) (output self.new)) }
        // The error is that of the header or that of the closure, or the closure wrote another
        // number of bytes. The bytes before the header are unchanged, and what the closure wrote is
        // still there.
        ensures fault { IfErr result (λ e. (output self.old).failed ≡ false → RefusesEnclosed output
            F.FnOnce f length.value (output self.old) (output self.new) e) }
        ensures failed { (output self.old).failed ≡ true
            → IsErrAnd result (λ e. e.kind ≡ ErrorKind.Failed)
            × (output self.new ≡ output self.old) }
        ensures refused { OnErr result ((output self.new).failed ≡ true) }
    {
        if self.failed {
            return Err(Error::from(ErrorKind::Failed));
        }
        match self.sequence_of(length, f) {
            Ok(()) => Ok(()),
            Err(error) => {
                self.failed = true;
                Err(error)
            }
        }
    }

    /// Writes the header of a SEQUENCE with this length, and calls `f` to write the content.
    fn sequence_of<F: FnOnce(&mut SliceWriter<'a>) -> Result<(), Error>>(
        &mut self,
        length: Length,
        f: F,
    ) -> Result<(), Error>
        requires { F.IsAlwaysCallable f }
        ensures ok { OnOk result
            (Encloses output F.FnOnce f length.value (output self.old) (output self.new)) }
        ensures fault { IfErr result (λ e. RefusesEnclosed output
            F.FnOnce f length.value (output self.old) (failing (output self.new)) e) }
    {
        let tag = Tag::Sequence;
        encode_header(self, tag, length)?;
        let start = self.position;
        f(self)?;
        let len = length.value as usize;
        if self.position < start || self.position - start != len {
            return Err(Error::from(ErrorKind::Length { tag }));
        }
        Ok(())
    }
}

impl<'a> Writer for SliceWriter<'a> {
    ghost use Rattle.der_core_coding.specs.Slices.{output};

    ghost out = { output };

    ghost takes_memory = { false };

    #[tactic(auto, unfolding(crate::specs::Opened::put))]
    fn write(&mut self, octets: &[u8]) -> Result<(), Error> {
        if self.failed {
            return Err(Error::from(ErrorKind::Failed));
        }
        let len = octets.len();
        if self.bytes.len() - self.position < len {
            self.failed = true;
            return Err(Error::from(ErrorKind::Overlength));
        }
        let start = self.position;
        self.bytes[start..start + len].copy_from_slice(octets);
        self.position = start + len;
        Ok(())
    }
}
