//! Readers of bytes.

ghost use Rattle.std.specs.Prelude.{◌≡◌, ◌↔◌, ◌+◌, ◌≤◌, ◌<◌, ◌++◌, ℕ, List, IsTrue, length, take};
ghost use Rattle.std.specs.Prelude.{[], slice_get, Ok, OnOk, OnErr, IfOk, IfErr, IsSomeAnd, ◌≢◌};
ghost use Rattle.std.specs.Prelude.{true, false};
ghost use Rattle.der_core_head.specs.Limits.{IsLength, levels_max};
ghost use Rattle.der_core_head.specs.Tags.{IsTag};
ghost use Rattle.der_core_head.specs.Heads.{head_octets, Fits};
ghost use Rattle.der_core_head.specs.Bodies.{head_by, tag_by};
ghost use Rattle.der_core_head.specs.declared.tag.Tag.{Tag};
ghost use Rattle.der_core_head.specs.Shapes.{Body, BodyValue, nested, tagged};
ghost use Rattle.der_core_head.specs.Grammar.{slice_at, byte_at, peek_at, value_at};
ghost use Rattle.der_core_head.specs.Reading.{State, IsDer, Kept, ClosureReads, HandsBack, Reads};
ghost use Rattle.der_core_head.specs.Reading.{ReadsNow, GivesNow, Peeks, Opens, Closes, past};
ghost use Rattle.der_core_head.specs.Reading.{broken, ruled, read_at, read_content_at};
ghost use Rattle.der_core_head.specs.Fronts.{alone};
ghost use Rattle.der_core_octets.specs.Headers.{head_of, wanted_at};
ghost use Rattle.der_core_octets.specs.Nesting.{IsNested, Answered, RefusesNested, IsEnclosed};
ghost use Rattle.der_core_octets.specs.Nesting.{AnsweredIn, RefusesIn};
ghost use Rattle.der_core_octets.specs.Places.{IsAt, encoding_at};

use crate::{
    Header, any_header_of_tag, header_by, short_header_by_both, short_header_of_tag_by_both,
    short_tag_by_both, tag_by,
};
use der_core_head::{EncodingRules, Error, ErrorKind, Length, Tag};
use std::alloc::Global;

/// A source of bytes, with a position and an end. For a nested value, the end is moved to the end
/// of that value (`begin_nested`). At most 64 levels of nesting can be open.
///
/// A reader that returned an error from a call that reads has failed. Each later call that reads
/// returns `Failed`, and `is_failed` returns `true`. A call that peeks doesn't change the reader,
/// even if it returns an error.
pub trait Reader<'r>: Drop {
    /// The abstract state of the reader.
    ghost state: { Self → State };

    /// Returns the encoding rules under which headers are decoded.
    fn encoding_rules(&self) -> EncodingRules
        ensures { result ≡ (state self.now).source.encoding };

    /// Sets the encoding rules under which headers are decoded from now on.
    fn set_encoding_rules(&mut self, encoding_rules: EncodingRules)
        ensures { state self.new ≡ ruled encoding_rules (state self.old) };

    /// Returns the length of the whole input.
    fn input_len(&self) -> Length
        ensures { result.value ≡ (state self.now).source.size };

    /// Returns the position in the whole input.
    fn position(&self) -> Length
        ensures { IsAt result.value (state self.now) };

    /// Returns the number of levels of nesting that may still be opened.
    fn levels_left(&self) -> usize
        ensures left { result ≡ (state self.now).room }
        ensures most { result ≤ levels_max };

    /// Returns whether the reader has failed.
    fn is_failed(&self) -> bool
        ensures { result ≡ (state self.now).failed };

    /// Returns the bytes up to the current end.
    fn remaining(&self) -> &'r [u8]
        ensures rest { result.now ≡ (state self.now).rest }
        ensures short { Fits result.now };

    /// Skips this many bytes, which the caller proves to be left.
    fn skip(&mut self, len: usize)
        requires { len ≤ length (state self.old).rest }
        ensures { state self.new ≡ past len (state self.old) };

    /// Marks the reader as failed.
    fn fail(&mut self)
        ensures { state self.new ≡ broken (state self.old) };

    /// Opens a level of nesting: moves the end to `len` bytes ahead, and returns the number of
    /// bytes by which it moved.
    ///
    /// # Errors
    ///
    /// - `Incomplete`: fewer bytes are left.
    /// - `NestingDepth`: no further level may be opened.
    fn begin_nested(&mut self, len: Length) -> Result<Length, Error>
        ensures { Opens len.value (state self.old) (state self.new) result };

    /// Closes a level of nesting: moves the end back by `behind` bytes, which `begin_nested`
    /// returned. `failed` says whether a call inside the level failed.
    ///
    /// # Errors
    ///
    /// - `TrailingData`: `failed` is false, and bytes are left before the end.
    fn end_nested(&mut self, behind: Length, failed: bool) -> Result<(), Error>
        requires behind { behind.value ≤ length (state self.old).behind }
        requires room { (state self.old).room < levels_max }
        ensures { Closes behind.value failed (state self.old) (state self.new) result };

    /// Returns whether no bytes are left.
    final fn is_finished(&self) -> bool
        ensures { IsTrue result ↔ ((state self.now).rest ≡ []) }
    {
        self.remaining().is_empty()
    }

    /// Returns the number of bytes that are left.
    final fn remaining_len(&self) -> Length
        ensures { result.value ≡ length (state self.now).rest }
    {
        Length::new(self.remaining().len() as u32)
    }

    /// Returns the next byte without consuming it, or `None` if no bytes are left.
    final fn peek_byte(&self) -> Option<u8>
        ensures { result ≡ slice_get (state self.now).rest 0 }
    {
        self.remaining().first().copied()
    }

    /// Returns the next `len` bytes, borrowed from the input.
    ///
    /// # Errors
    ///
    /// - `Incomplete`: fewer bytes are left.
    final fn read_slice(&mut self, len: Length) -> Result<&'r [u8], Error>
        ensures { ReadsNow (λ s. s.now) (state self.old) (state self.new) result
            (slice_at len.value) }
    {
        if self.is_failed() {
            return Err(Error::from(ErrorKind::Failed));
        }
        let octets = self.remaining();
        let len = len.value as usize;
        if octets.len() < len {
            return Err(self.error(ErrorKind::Incomplete));
        }
        self.skip(len);
        Ok(&octets[..len])
    }

    /// Returns the next byte.
    ///
    /// # Errors
    ///
    /// - `Incomplete`: no byte is left.
    final fn read_byte(&mut self) -> Result<u8, Error>
        ensures { ReadsNow (λ b. b) (state self.old) (state self.new) result byte_at }
    {
        if self.is_failed() {
            return Err(Error::from(ErrorKind::Failed));
        }
        let [octet, ..] = self.remaining() else {
            return Err(self.error(ErrorKind::Incomplete));
        };
        self.skip(1);
        Ok(*octet)
    }

    /// Decodes the next header under the reader's encoding rules.
    ///
    /// # Errors
    ///
    /// The errors of `header_of`, and under BER those of `header_ber_of`.
    #[inline(always)]
    final fn read_header(&mut self) -> Result<Header, Error>
        // Under DER, accepted bytes begin with the encoding of the header.
        ensures spelled { IfOk result (λ h. IsDer (state self.old)
            → IsTag h.tag × ((state self.old).rest
            ≡ head_octets h.tag h.length.value ++ (state self.new).rest)) }
        // Under DER, an encoding is accepted, whatever follows it.
        ensures only { (t : Tag) (n : ℕ) (r : List ℕ) → IsDer (state self.old)
            → (state self.old).failed ≡ false → IsTag t → IsLength n
            → (state self.old).rest ≡ head_octets t n ++ r
            → GivesNow head_of result (Ok (record { tag = t; len = n }))
            × ((state self.new).rest ≡ r) }
        // The result is that of the definition, including the kind of the error.
        ensures front { ReadsNow head_of (state self.old) (state self.new) result
            (head_by (state self.old).source.encoding) }
    {
        if !self.is_failed() {
            let octets = self.remaining();
            if let Some((header, len)) = short_header_by_both(octets) {
                self.skip(len);
                return Ok(header);
            }
        }
        let header = read_any_header(self)?;
        Ok(header)
    }

    /// Decodes the next header, under the reader's encoding rules. It must have this tag.
    ///
    /// # Errors
    ///
    /// - The errors of `read_header`.
    /// - `TagUnexpected`: the tag is another one.
    #[inline(always)]
    final fn read_header_of(&mut self, tag: Tag) -> Result<Header, Error>
        ensures front { ReadsNow head_of (state self.old) (state self.new) result
            (wanted_at tag (head_by (state self.old).source.encoding)) }
        ensures tag { IfOk result (λ h. h.tag ≡ tag) }
    {
        if !self.is_failed() {
            if let Some((header, len)) = short_header_of_tag_by_both(tag, self.remaining()) {
                self.skip(len);
                return Ok(header);
            }
        }
        let Header { length, .. } = read_any_header_of(self, tag)?;
        Ok(Header { tag, length })
    }

    /// Returns the next header under the reader's encoding rules, without consuming it.
    ///
    /// # Errors
    ///
    /// The errors of `read_header`. The reader is unchanged by them.
    final fn peek_header(&self) -> Result<Header, Error>
        ensures { Peeks head_of (state self.now) result
            (alone (head_by (state self.now).source.encoding (state self.now).rest)) }
    {
        if self.is_failed() {
            return Err(Error::from(ErrorKind::Failed));
        }
        let front = header_by(self.encoding_rules(), self.remaining());
        match front {
            Ok((header, _)) => Ok(header),
            Err(error) => Err(error.found_at(self.position())),
        }
    }

    /// Returns the next tag under the reader's encoding rules, without consuming it.
    ///
    /// # Errors
    ///
    /// The errors of `tag_of`, and under BER those of `tag_ber_of`. The reader is unchanged by
    /// them.
    final fn peek_tag(&self) -> Result<Tag, Error>
        ensures { Peeks (λ t. t) (state self.now) result
            (alone (tag_by (state self.now).source.encoding (state self.now).rest)) }
    {
        if self.is_failed() {
            return Err(Error::from(ErrorKind::Failed));
        }
        let front = tag_by(self.encoding_rules(), self.remaining());
        match front {
            Ok((tag, _)) => Ok(tag),
            Err(error) => Err(error.found_at(self.position())),
        }
    }

    /// Returns the next tag under the reader's encoding rules, without consuming it, or `None` if
    /// no bytes are left.
    ///
    /// # Errors
    ///
    /// The errors of `peek_tag`. The reader is unchanged by them.
    final fn peek_tag_or_end(&self) -> Result<Option<Tag>, Error>
        ensures { Peeks (λ t. t) (state self.now) result
            (peek_at (state self.now).source.encoding (state self.now).rest) }
    {
        if self.is_failed() {
            return Err(Error::from(ErrorKind::Failed));
        }
        let octets = self.remaining();
        if octets.is_empty() {
            return Ok(None);
        }
        match tag_by(self.encoding_rules(), octets) {
            Ok((tag, _)) => Ok(Some(tag)),
            Err(error) => Err(error.found_at(self.position())),
        }
    }

    /// Returns the next tag under the reader's encoding rules, without consuming it. Use it if a
    /// value is required.
    ///
    /// # Errors
    ///
    /// The errors of `peek_tag`, after which the reader has failed.
    #[inline(always)]
    final fn next_tag(&mut self) -> Result<Tag, Error>
        ensures front { Peeks (λ t. t) (state self.old) result
            (alone (tag_by (state self.old).source.encoding (state self.old).rest)) }
        ensures stays { OnOk result (state self.new ≡ state self.old) }
        ensures failed { OnErr result (state self.new ≡ broken (state self.old)) }
    {
        if !self.is_failed() {
            if let Some(tag) = short_tag_by_both(self.remaining()) {
                return Ok(tag);
            }
        }
        Ok(next_any_tag(self)?)
    }

    /// Returns the next tag under the reader's encoding rules, without consuming it, or `None` if
    /// no bytes are left. Use it if a value is optional.
    ///
    /// # Errors
    ///
    /// The errors of `peek_tag`, after which the reader has failed.
    #[inline(always)]
    final fn next_tag_or_end(&mut self) -> Result<Option<Tag>, Error>
        ensures front { Peeks (λ t. t) (state self.old) result
            (peek_at (state self.old).source.encoding (state self.old).rest) }
        ensures stays { OnOk result (state self.new ≡ state self.old) }
        ensures failed { OnErr result (state self.new ≡ broken (state self.old)) }
    {
        if !self.is_failed() {
            let octets = self.remaining();
            if octets.is_empty() {
                return Ok(None);
            }
            if let Some(tag) = short_tag_by_both(octets) {
                return Ok(Some(tag));
            }
        }
        let tag = next_any_tag(self)?;
        Ok(Some(tag))
    }

    /// Returns a copy of the next bytes.
    ///
    /// # Errors
    ///
    /// - `Incomplete`: fewer bytes are left.
    /// - `OutOfMemory`: memory runs out.
    final fn read_vec(&mut self, alloc: Global, len: Length) -> Result<Vec<u8>, Error>
        ensures { Reads (λ v. v.items) (state self.old) (state self.new) result
            (slice_at len.value) }
    {
        let octets = self.read_slice(len)?;
        match Vec::from_slice(alloc, octets) {
            Ok(copy) => Ok(copy),
            Err(error) => {
                self.fail();
                Err(Error::from(error))
            }
        }
    }

    /// Returns the bytes of the next encoding, including its header, under the reader's encoding
    /// rules. The content isn't decoded.
    ///
    /// # Errors
    ///
    /// - The errors of `read_header`.
    /// - `Incomplete`: fewer content bytes are left.
    final fn tlv_bytes(&mut self) -> Result<&'r [u8], Error>
        ensures { ReadsNow (λ s. s.now) (state self.old) (state self.new) result
            (encoding_at (head_by (state self.old).source.encoding)) }
    {
        if self.is_failed() {
            return Err(Error::from(ErrorKind::Failed));
        }
        let octets = self.remaining();
        let (header, count) = match header_by(self.encoding_rules(), octets) {
            Ok(front) => front,
            Err(error) => {
                self.fail();
                return Err(error.found_at(self.position()));
            }
        };
        let len = header.length.value as usize;
        if octets.len() - count < len {
            return Err(self.error(ErrorKind::Incomplete));
        }
        self.skip(count + len);
        Ok(&octets[..count + len])
    }

    /// Fills the buffer with the next bytes, without consuming them.
    ///
    /// # Errors
    ///
    /// - `Incomplete`: fewer bytes are left. The reader is unchanged.
    final fn peek_into(&self, buffer: &mut [u8]) -> Result<(), Error>
        ensures ok { OnOk result
            ((buffer.new ≡ take (length buffer.old) (state self.now).rest)
            × (length buffer.old ≤ length (state self.now).rest)
            × ((state self.now).failed ≡ false)) }
        ensures err { OnErr result (buffer.new ≡ buffer.old) }
        ensures failed { IfErr result
            (λ e. (state self.now).failed ≡ true → e.kind ≡ ErrorKind.Failed) }
        ensures short { IfErr result
            (λ e. (state self.now).failed ≡ false
            → (length (state self.now).rest < length buffer.old)
            × (e.kind ≡ ErrorKind.Incomplete)) }
    {
        if self.is_failed() {
            return Err(Error::from(ErrorKind::Failed));
        }
        let octets = self.remaining();
        let len = buffer.len();
        if octets.len() < len {
            return Err(ErrorKind::Incomplete.at(self.position()));
        }
        buffer.copy_from_slice(&octets[..len]);
        Ok(())
    }

    /// Fills the buffer with the next bytes.
    ///
    /// # Errors
    ///
    /// - `Incomplete`: fewer bytes are left.
    final fn read_into(&mut self, buffer: &mut [u8]) -> Result<(), Error>
        ensures reads { ReadsNow (λ _. buffer.new) (state self.old) (state self.new) result
            (slice_at (length buffer.old)) }
        ensures err { OnErr result (buffer.new ≡ buffer.old) }
    {
        match self.peek_into(buffer) {
            Ok(()) => {
                self.skip(buffer.len());
                Ok(())
            }
            Err(error) => {
                self.fail();
                Err(error)
            }
        }
    }

    /// Skips this many bytes.
    ///
    /// # Errors
    ///
    /// - `Incomplete`: fewer bytes are left.
    final fn drain(&mut self, amount: Length) -> Result<(), Error>
        ensures { ReadsNow (λ _. take amount.value (state self.old).rest) (state self.old)
            (state self.new) result (slice_at amount.value) }
    {
        if self.is_failed() {
            return Err(Error::from(ErrorKind::Failed));
        }
        let amount = amount.value as usize;
        if self.remaining().len() < amount {
            return Err(self.error(ErrorKind::Incomplete));
        }
        self.skip(amount);
        Ok(())
    }

    /// Returns the position in the whole input.
    final fn offset(&self) -> Length
        ensures { IsAt result.value (state self.now) }
    {
        self.position()
    }

    /// Returns an error at the position of the reader, and marks the reader as failed.
    final fn error(&mut self, kind: ErrorKind) -> Error
        ensures kind { result.kind ≡ kind }
        ensures place { IsSomeAnd result.position (λ p. IsAt p.value (state self.old)) }
        ensures failed { state self.new ≡ broken (state self.old) }
    {
        let position = self.position();
        self.fail();
        Error {
            kind,
            position: Some(position),
        }
    }

    /// Returns whether bytes can be borrowed from the input, which is always `true`.
    final fn can_read_slice() -> bool
        ensures { IsTrue result }
    {
        true
    }

    /// Calls `f` on the reader with its end moved to `len` bytes ahead. `f` must read all of these
    /// bytes.
    ///
    /// # Errors
    ///
    /// - `Incomplete`: fewer bytes are left.
    /// - `NestingDepth`: no further level may be opened.
    /// - The error of `f`.
    /// - `TrailingData`: `f` left bytes unread.
    final fn read_nested<T: Drop, F: FnOnce(&mut Self) -> Result<T, Error>>(
        &mut self,
        len: Length,
        f: F,
    ) -> Result<T, Error>
        requires callable { F.IsAlwaysCallable f }
        // The closure must leave the reader with the same end, at the same or a later position.
        requires hands_back { HandsBack state F.FnOnce f }
        // The bytes were consumed, and the end and the levels are as before.
        ensures moved { OnOk result (IsNested len.value (state self.old) (state self.new)) }
        // The result is that of the closure, which read all bytes before the end.
        ensures ran { IfOk result (λ x. Answered state F.FnOnce f len.value (state self.old) x) }
        ensures kept { OnErr result (Kept (state self.old) (state self.new)) }
        ensures failed { OnErr result ((state self.new).failed ≡ true) }
        ensures refused { IfErr result (RefusesNested state F.FnOnce f len.value (state self.old)) }
        // If the closure decodes a body, this call decodes a content.
        ensures reads { (t : Tag) (b : Body) (view : T → BodyValue b)
            → ClosureReads state F.FnOnce f b view
            → Reads view (state self.old) (state self.new) result
            (value_at (read_content_at (state self.old) (nested b) t) len.value) }
    {
        let behind = self.begin_nested(len)?;
        let outcome = f(self);
        self.end_nested(behind, outcome.is_err())?;
        outcome
    }

    /// Calls `f` on the content after a header that was decoded. `f` must read all of it.
    ///
    /// # Errors
    ///
    /// The errors of `read_nested`.
    final fn read_value<T: Drop, F: FnOnce(&mut Self) -> Result<T, Error>>(
        &mut self,
        header: Header,
        f: F,
    ) -> Result<T, Error>
        requires callable { F.IsAlwaysCallable f }
        requires hands_back { HandsBack state F.FnOnce f }
        ensures moved { OnOk result
            (IsNested header.length.value (state self.old) (state self.new)) }
        ensures ran { IfOk result
            (λ x. Answered state F.FnOnce f header.length.value (state self.old) x) }
        ensures kept { OnErr result (Kept (state self.old) (state self.new)) }
        ensures failed { OnErr result ((state self.new).failed ≡ true) }
        ensures refused { IfErr result
            (RefusesNested state F.FnOnce f header.length.value (state self.old)) }
        ensures reads { (b : Body) (view : T → BodyValue b) → ClosureReads state F.FnOnce f b view
            → Reads view (state self.old) (state self.new) result
            (value_at (read_content_at (state self.old)
            (nested b) header.tag) header.length.value) }
    {
        let value = self.read_nested(header.length, f)?;
        Ok(value)
    }

    /// Calls `f` on the content of the next SEQUENCE. `f` must read all of it.
    ///
    /// # Errors
    ///
    /// - The errors of `read_header`.
    /// - `TagUnexpected`: the tag is another one.
    /// - The errors of `read_nested`.
    final fn sequence<T: Drop, F: FnOnce(&mut Self) -> Result<T, Error>>(
        &mut self,
        f: F,
    ) -> Result<T, Error>
        requires callable { F.IsAlwaysCallable f }
        requires hands_back { HandsBack state F.FnOnce f }
        // Under BER as under DER, the header of a SEQUENCE was next, and it and its content were
        // consumed.
        ensures moved { OnOk result (IsEnclosed Tag.Sequence (state self.old) (state self.new)) }
        // The result is that of the closure, which read all of the content.
        ensures ran { IfOk result
            (λ x. AnsweredIn Tag.Sequence state F.FnOnce f (state self.old) x) }
        ensures kept { Kept (state self.old) (state self.new) }
        ensures failed { OnErr result ((state self.new).failed ≡ true) }
        ensures refused { IfErr result (RefusesIn Tag.Sequence state F.FnOnce f (state self.old)) }
        ensures reads { (b : Body) (view : T → BodyValue b) → ClosureReads state F.FnOnce f b view
            → Reads view (state self.old) (state self.new) result
            (read_at (state self.old) (tagged Tag.Sequence (nested b))) }
    {
        let header = self.read_header_of(Tag::Sequence)?;
        let value = self.read_nested(header.length, f)?;
        Ok(value)
    }

    /// Checks that nothing is left to read.
    ///
    /// # Errors
    ///
    /// - `Failed`: the reader failed before.
    /// - `TrailingData`: bytes are left.
    final fn finish(&self) -> Result<(), Error>
        ensures ok { OnOk result
            (((state self.now).rest ≡ []) × ((state self.now).failed ≡ false)) }
        ensures failed { IfErr result
            (λ e. (state self.now).failed ≡ true → e.kind ≡ ErrorKind.Failed) }
        ensures left { IfErr result
            (λ e. (state self.now).failed ≡ false → ((state self.now).rest ≢ [])
            × (e.kind ≡ ErrorKind.TrailingData)) }
    {
        if self.is_failed() {
            return Err(Error::from(ErrorKind::Failed));
        }
        if !self.is_finished() {
            return Err(ErrorKind::TrailingData.at(self.position()));
        }
        Ok(())
    }
}

/// Returns the next tag, of any form, where a value is required. This isn't inlined into the calls
/// that choose by a tag, so that the usual tags cost little.
///
/// # Errors
///
/// The errors of `peek_tag`, after which the reader has failed.
#[inline(never)]
fn next_any_tag<'r, R: Reader<'r>>(reader: &mut R) -> Result<Tag, Error>
    ensures front { Peeks (λ t. t) (R.state reader.old) result
        (alone (tag_by (R.state reader.old).source.encoding (R.state reader.old).rest)) }
    ensures stays { OnOk result (R.state reader.new ≡ R.state reader.old) }
    ensures failed { OnErr result (R.state reader.new ≡ broken (R.state reader.old)) }
{
    match reader.peek_tag() {
        Ok(tag) => Ok(tag),
        Err(error) => {
            reader.fail();
            Err(error)
        }
    }
}

/// Decodes the next header, of any form. It isn't inlined into the calls that decode headers, so
/// that the usual headers cost little.
///
/// # Errors
///
/// - The errors of `read_header`.
#[inline(never)]
fn read_any_header<'r, R: Reader<'r>>(reader: &mut R) -> Result<Header, Error>
    ensures spelled { IfOk result (λ h. IsDer (R.state reader.old)
        → IsTag h.tag × ((R.state reader.old).rest
        ≡ head_octets h.tag h.length.value ++ (R.state reader.new).rest)) }
    ensures front { ReadsNow head_of (R.state reader.old) (R.state reader.new) result
        (head_by (R.state reader.old).source.encoding) }
{
    if reader.is_failed() {
        return Err(Error::from(ErrorKind::Failed));
    }
    let octets = reader.remaining();
    match header_by(reader.encoding_rules(), octets) {
        Ok((header, len)) => {
            reader.skip(len);
            Ok(header)
        }
        Err(error) => {
            reader.fail();
            Err(error.found_at(reader.position()))
        }
    }
}

/// Decodes the next header, of any form, which must have the expected tag. It isn't inlined into
/// the calls that decode headers, so that the usual headers cost little.
///
/// # Errors
///
/// - The errors of `read_header_of`.
#[inline(never)]
fn read_any_header_of<'r, R: Reader<'r>>(reader: &mut R, tag: Tag) -> Result<Header, Error>
    ensures front { ReadsNow head_of (R.state reader.old) (R.state reader.new) result
        (wanted_at tag (head_by (R.state reader.old).source.encoding)) }
    ensures tag { IfOk result (λ h. h.tag ≡ tag) }
{
    if reader.is_failed() {
        return Err(Error::from(ErrorKind::Failed));
    }
    match any_header_of_tag(reader.encoding_rules(), tag, reader.remaining()) {
        Ok((header, len)) => {
            reader.skip(len);
            Ok(header)
        }
        Err(error) => {
            reader.fail();
            Err(error.found_at(reader.position()))
        }
    }
}
