//! Reading a certificate chain in pieces.
ghost use Rattle.std.specs.Prelude.{◌≡◌, ◌≢◌, ℕ, ◌+◌, ◌<◌, ◌≤◌, ◌^◌, ◌==◌, ◌↔◌, List, [], ◌++◌};
ghost use Rattle.std.specs.Prelude.{length, IsTrue, IsSome, IfSome, IfOk, IfErr, OnOk, OnErr};
ghost use Rattle.x509_cert_certificates.specs.Oid.Bound.{Bound};
ghost use Rattle.cert_desk_bundle.specs.Chains.{joined};
ghost use Rattle.cert_desk_bundle.specs.Streams.{Reads};
ghost use Rattle.cert_desk_bundle.specs.Entries.{IsEntry};
ghost use Rattle.cert_desk_bundle.specs.Steps.{kept_octets, ReadsExtended, ReadsUnchanged, Grows};
ghost use Rattle.cert_desk_bundle.specs.Steps.{Takes};
ghost use Rattle.cert_desk_bundle.specs.Steps.{Advances, TakesFront, Stops, stopped, error_of};
ghost use Rattle.cert_desk_bundle.specs.Steps.{RefusesPiece, RefusesEnd, HasFailed, RefusesInput};

use crate::bundle_error::{BundleError, ReadError};
use crate::entry::Entry;
use crate::fault_kind::FaultKind;
use crate::located::Located;
use crate::rest::Rest;
use crate::standing::Standing;
use cert_desk_io::Input;
use std::alloc::Global;
use std::marker::Model;

/// A certificate chain in DER (RFC 5280 4.1) that arrives in pieces: the concatenated encodings of
/// its certificates.
///
/// The result doesn't depend on how the input is cut. The bundle keeps each certificate with its
/// bytes, and the bytes of a certificate that isn't complete yet, and nothing else.
///
/// Memory is allocated only for bytes that arrived: at most twice their number, but at least 256
/// bytes. A length that a header announces allocates nothing. No contract states this;
/// `tests/rows/hostile.py` measures it.
///
/// # Examples
///
/// From `tools/guide/judge.rt.txt`:
///
/// ```rust
/// /// Reads a chain in one piece. If the chain has an error, the bundle keeps it.
/// fn read(alloc: Global, stream: &[u8]) -> Bundle
///     ensures { result.standing ≢ Standing.Open }
/// {
///     let mut bundle = Bundle::new(alloc, 4096);
///     if let Err(_error) = bundle.feed(stream) {
///         return bundle;
///     }
///     if let Err(_error) = bundle.finish() {
///         return bundle;
///     }
///     bundle
/// }
/// ```
#[derive(Drop)]
pub struct Bundle {
    alloc: Global,
    // The largest length of one certificate.
    limit: u32,
    // The certificates that were decoded, with their bytes.
    located: Vec<Located>,
    // The total length of the certificates.
    end: u64,
    // The bytes of a certificate that isn't complete yet.
    rest: Rest,
    standing: Standing,
}

impl Model for Bundle {
    ghost use Rattle.cert_desk_bundle.specs.Streams.{Kept};

    ghost Value = { Kept };

    ghost use Rattle.cert_desk_bundle.specs.Locations.{kept_of, IsKept};

    ghost view = { kept_of };

    ghost invariant = { IsKept };
}

impl Bundle {
    /// Returns an empty bundle that accepts certificates of up to `limit` bytes, which must be at
    /// least 6. The prover rejects a caller that passes a smaller limit. In a program that isn't
    /// proved, nothing checks it.
    pub fn new(alloc: Global, limit: u32) -> Bundle
        requires { 6 ≤ limit }
        ensures open { result.standing ≡ Standing.Open }
        ensures limit { result.limit ≡ limit }
        ensures empty { Reads Bound result [] }
    {
        Bundle {
            alloc,
            limit,
            located: Vec::new(alloc),
            end: 0,
            rest: Rest::new(alloc),
            standing: Standing::Open,
        }
    }

    /// Returns the number of certificates that were decoded.
    pub fn len(&self) -> usize
        ensures { result ≡ length self.now.certificates }
    {
        self.located.len()
    }

    /// Returns whether no certificate was decoded.
    pub fn is_empty(&self) -> bool
        ensures { result ≡ (length self.now.certificates == 0) }
    {
        self.located.is_empty()
    }

    /// Returns whether the bundle accepts no further piece, because the input has ended or the
    /// bundle has failed.
    pub fn is_ended(&self) -> bool
        ensures { IsTrue result ↔ (self.now.standing ≢ Standing.Open) }
    {
        self.standing != Standing::Open
    }

    /// Returns the state of the bundle.
    pub fn standing(&self) -> Standing
        ensures { result ≡ self.now.standing }
    {
        self.standing
    }

    /// Returns the size limit of one certificate.
    pub fn limit(&self) -> u32
        ensures { result ≡ self.now.limit }
    {
        self.limit
    }

    /// Returns the total length of the certificates that were decoded.
    pub fn end_offset(&self) -> u64
        ensures { result ≡ length (joined Bound self.now.certificates) }
    {
        self.end
    }

    /// Returns the number of bytes that are kept of an incomplete certificate.
    pub fn unfinished(&self) -> usize
        ensures rest { result ≡ length self.now.rest }
        ensures within { result ≤ self.now.limit }
        ensures shut { self.now.standing ≢ Standing.Open → result ≡ 0 }
    {
        self.rest.octets.len()
    }

    /// Reads the next piece of the input, of any length.
    ///
    /// # Errors
    ///
    /// - `Fault`: the input isn't a sequence of certificates. The bundle has failed, the earlier
    ///   certificates stay, and no other bytes are kept.
    /// - `OutOfMemory`: an allocation failed. The bundle has failed in the same way.
    /// - `Failed`: the bundle has ended or failed before. Nothing changes.
    // Inlined, so that a piece of one byte that is kept costs no call.
    #[inline(always)]
    pub fn feed(&mut self, piece: &[u8]) -> Result<(), BundleError>
        ensures limit { self.new.limit ≡ self.old.limit }
        ensures grows { Grows self.old self.new }
        // If the piece is accepted.
        ensures was_open { OnOk result (self.old.standing ≡ Standing.Open) }
        ensures is_open { OnOk result (self.new.standing ≡ Standing.Open) }
        ensures reads { OnOk result (ReadsExtended Bound self.old self.new piece.now) }
        ensures kept { OnOk result (kept_octets Bound self.new ≡ kept_octets Bound self.old
            ++ piece.now) }
        // The certificates have fewer than 2^64 bytes, and the header of the next one, if it is
        // incomplete, has at most five.
        ensures fits { OnOk result (length (kept_octets Bound self.new) < 2 ^ 64 + 5) }
        // If the piece is rejected.
        ensures refused { IfErr result (RefusesPiece Bound self.old self.new piece.now) }
    {
        let Standing::Open = self.standing else {
            return Err(BundleError::Failed);
        };
        if self.rest.keep(piece) {
            return Ok(());
        }
        if self.take_all(piece) {
            return Ok(());
        }
        Err(self.error())
    }

    /// Ends the input, without allocating. A second call changes nothing.
    ///
    /// # Errors
    ///
    /// - `Fault` of kind `Truncated`: the input ends inside a certificate, whose bytes are dropped.
    /// - `Failed`: the bundle has failed before. Nothing changes.
    pub fn finish(&mut self) -> Result<(), BundleError>
        ensures limit { self.new.limit ≡ self.old.limit }
        ensures certificates { self.new.certificates ≡ self.old.certificates }
        // If the input is complete.
        ensures sound { OnOk result (¬ HasFailed self.old.standing) }
        ensures ended { OnOk result (self.new.standing ≡ Standing.Ended) }
        ensures reads { OnOk result (ReadsUnchanged Bound self.old self.new) }
        ensures again { self.old.standing ≡ Standing.Ended → self.new ≡ self.old }
        // If the input isn't complete.
        ensures refused { IfErr result (RefusesEnd Bound self.old self.new) }
    {
        match self.standing {
            Standing::Open => {
                if self.unfinished() > 0 {
                    self.stop(Standing::Faulted(FaultKind::Truncated));
                    return Err(self.error());
                }
                self.stop(Standing::Ended);
                Ok(())
            }
            Standing::Ended => Ok(()),
            Standing::Faulted(_) | Standing::NoMemory | Standing::NoDevice => Err(
                BundleError::Failed,
            ),
        }
    }

    /// Returns the certificate at an index, if there is one.
    pub fn get(&self, place: usize) -> Option<Entry<'_>>
        ensures within { IsSome result ↔ (place < length self.now.certificates) }
        ensures entry { IfSome result (λ e. IsEntry Bound self.now.certificates place e) }
    {
        let Some(located) = self.located.get(place) else {
            return None;
        };
        let (header, signed) = (located.header, located.signed);
        Some(Entry {
            offset: located.offset,
            octets: &located.octets,
            signed: &located.octets[header..header + signed],
            certificate: &located.certificate,
        })
    }

    /// Reads an input to its end or to an error in it, and ends the bundle. It stops reading after
    /// a failed read, after a read whose bytes contain an error, and when memory runs out.
    ///
    /// # Errors
    ///
    /// - `Device`: a read failed. The bundle has failed, too, and the earlier certificates stay.
    /// - `Bundle`: the bundle rejects the input, or its end.
    /// - `Bundle(Failed)`: the bundle has ended or failed before. Nothing is read.
    pub fn read_from<I: Input>(&mut self, input: &mut I) -> Result<(), ReadError>
        ensures limit { self.new.limit ≡ self.old.limit }
        ensures grows { Grows self.old self.new }
        // If the input is read to its end.
        ensures was_open { OnOk result (self.old.standing ≡ Standing.Open) }
        ensures ended { OnOk result (self.new.standing ≡ Standing.Ended) }
        ensures end { OnOk result (I.is_ended input.new) }
        ensures sound { OnOk result (I.failures input.new ≡ I.failures input.old) }
        ensures reads { OnOk result (Takes I.takes input.old input.new Bound self.old self.new) }
        // If the input isn't read to its end.
        ensures refused { IfErr result
            (RefusesInput I.takes I.is_ended I.failures input.old input.new Bound self.old
            self.new) }
    {
        if self.is_ended() {
            return Err(ReadError::Bundle(BundleError::Failed));
        }
        let mut buffer = [0; 4096];
        loop {
            let Ok(count) = input.read(&mut buffer) else {
                self.stop(Standing::NoDevice);
                return Err(ReadError::Device);
            };
            if count == 0 {
                self.finish()?;
                return Ok(());
            }
            self.feed(&buffer[..count])?;
        }
    }

    // Reads a piece until it is consumed or the bundle fails. Returns whether the bundle accepts
    // all of it.
    #[inline(never)]
    fn take_all(&mut self, piece: &[u8]) -> bool
        requires open { self.old.standing ≡ Standing.Open }
        ensures limit { self.new.limit ≡ self.old.limit }
        ensures grows { Grows self.old self.new }
        ensures taken { IsTrue result → Advances Bound self.old self.new piece.now }
        ensures refused { ¬ IsTrue result → RefusesPiece Bound self.old self.new piece.now
            (error_of Bound self.new self.new.standing) }
    {
        // Only for the proof: this does nothing at run time.
        let _ = &self.alloc;
        let mut left = piece;
        while !left.is_empty() {
            match self.take(left) {
                Ok(count) => left = &left[count..],
                Err(standing) => {
                    self.stop(standing);
                    return false;
                }
            }
        }
        true
    }

    // Reads one or more bytes of a nonempty piece. Returns their number, or the state in which the
    // bundle has to stop.
    fn take(&mut self, piece: &[u8]) -> Result<usize, Standing>
        requires some { 0 < length piece.now }
        requires open { self.old.standing ≡ Standing.Open }
        ensures taken { IfOk result (TakesFront Bound self.old self.new piece.now) }
        ensures stops { IfErr result (Stops Bound self.old self.new (self.old.rest ++ piece.now)) }
    {
        let (count, whole) = match self.rest.take(self.alloc, piece, self.end, self.limit) {
            Ok(taken) => taken,
            Err(standing) => {
                self.rest = Rest::new(self.alloc);
                return Err(standing);
            }
        };
        let octets = match whole {
            Some(octets) => octets,
            None => return Ok(count),
        };
        let len = octets.len() as u64;
        let located = match Located::read(self.alloc, self.end, octets) {
            Ok(located) => located,
            Err(standing) => return Err(standing),
        };
        if self.located.push(located).is_err() {
            return Err(Standing::NoMemory);
        }
        self.end += len;
        Ok(count)
    }

    // Stops the bundle in this state and drops the bytes of an incomplete certificate.
    fn stop(&mut self, standing: Standing)
        ensures { self.new ≡ stopped self.old standing }
    {
        self.rest = Rest::new(self.alloc);
        self.standing = standing;
    }

    // Returns the error for the state of the bundle.
    #[inline(always)]
    fn error(&self) -> BundleError
        ensures { result ≡ error_of Bound self.now self.now.standing }
    {
        match self.standing {
            Standing::Faulted(kind) => BundleError::Fault {
                place: self.located.len(),
                offset: self.end,
                kind,
            },
            _ => BundleError::OutOfMemory,
        }
    }
}
