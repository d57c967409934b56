//! The bytes after the last complete certificate of an input.

ghost use Rattle.std.specs.Prelude.{◌≡◌, ◌+◌, ◌<◌, ◌≤◌, [], ◌++◌, length, IsTrue, IfOk, IfErr};
ghost use Rattle.std.specs.Prelude.{OnOk};
ghost use Rattle.cert_desk_bundle.specs.Headers.{Awaits};
ghost use Rattle.cert_desk_bundle.specs.Rests.{IsCompleted, IsTaken, IsUntaken};

use crate::scan::wanted_len;
use crate::standing::Standing;
use std::alloc::{AllocError, Global};
use std::mem;

// The longest header of a certificate: the tag and a length of up to five bytes.
const HEADER_ROOM: usize = 6;

// Up to this capacity, all missing bytes are reserved at once.
const FIRST_ROOM: usize = 256;

/// The bytes of an incomplete certificate.
#[derive(Drop)]
pub struct Rest {
    pub octets: Vec<u8>,
    // The length at which more can be decided, which is 1 if there are no bytes.
    pub wanted: usize,
}

impl Rest {
    // Returns a value without bytes.
    pub fn new(alloc: Global) -> Rest
        ensures octets { result.octets.items ≡ [] }
        ensures wanted { result.wanted ≡ 1 }
    {
        Rest {
            octets: Vec::new(alloc),
            wanted: 1,
        }
    }

    // Keeps a piece of one byte if more bytes are missing and there is capacity for it. Returns
    // whether it was kept.
    #[inline(always)]
    pub fn keep(&mut self, piece: &[u8]) -> bool
        ensures some { IsTrue result → 0 < length piece.now }
        ensures fewer { IsTrue result
            → length self.old.octets.items + length piece.now < self.old.wanted }
        ensures kept { IsTrue result → self.new.octets.items ≡ self.old.octets.items ++ piece.now }
        ensures wanted { self.new.wanted ≡ self.old.wanted }
        ensures left { ¬ IsTrue result → self.new ≡ self.old }
    {
        let [octet] = piece else {
            return false;
        };
        let len = self.octets.len();
        if len + 1 >= self.wanted || len == self.octets.capacity() {
            return false;
        }
        self.octets.push(*octet).is_ok()
    }

    // Consumes one or more bytes of a nonempty piece. Returns their number, and the bytes of the
    // certificate that they complete, if they do. These bytes are moved if some of them were kept
    // before, and copied otherwise.
    pub fn take(
        &mut self,
        alloc: Global,
        piece: &[u8],
        offset: u64,
        limit: u32,
    ) -> Result<(usize, Option<Vec<u8>>), Standing>
        requires room { 6 ≤ limit }
        requires some { 0 < length piece.now }
        requires awaits { Awaits limit offset self.old.octets.items self.old.wanted }
        ensures taken { IfOk result
            (λ r. IsTaken limit offset self.old self.new piece.now r.0 r.1) }
        ensures untaken { IfErr result
            (IsUntaken limit offset (self.old.octets.items ++ piece.now)) }
    {
        if self.wanted == 1 {
            return self.begin(alloc, piece, offset, limit);
        }
        let missing = self.wanted - self.octets.len();
        if piece.len() < missing {
            if self.append(piece).is_err() {
                return Err(Standing::NoMemory);
            }
            return Ok((piece.len(), None));
        }
        match self.complete(alloc, &piece[..missing], offset, limit) {
            Ok(whole) => Ok((missing, whole)),
            Err(standing) => Err(standing),
        }
    }

    // Consumes bytes when none are kept: those of a complete certificate, or the whole piece.
    fn begin(
        &mut self,
        alloc: Global,
        piece: &[u8],
        offset: u64,
        limit: u32,
    ) -> Result<(usize, Option<Vec<u8>>), Standing>
        requires room { 6 ≤ limit }
        requires some { 0 < length piece.now }
        requires awaits { Awaits limit offset self.old.octets.items self.old.wanted }
        requires none { self.old.wanted ≡ 1 }
        ensures taken { IfOk result
            (λ r. IsTaken limit offset self.old self.new piece.now r.0 r.1) }
        ensures untaken { IfErr result
            (IsUntaken limit offset (self.old.octets.items ++ piece.now)) }
    {
        let wanted = match wanted_len(piece, offset, limit) {
            Ok(wanted) => wanted,
            Err(kind) => return Err(Standing::Faulted(kind)),
        };
        if piece.len() < wanted {
            self.wanted = wanted;
            if self.append(piece).is_err() {
                return Err(Standing::NoMemory);
            }
            return Ok((piece.len(), None));
        }
        let Ok(octets) = Vec::from_slice(alloc, &piece[..wanted]) else {
            return Err(Standing::NoMemory);
        };
        Ok((wanted, Some(octets)))
    }

    // Appends bytes that are missing. If there isn't enough capacity, reserves it for all that are
    // missing, but at most for twice the new length, or for `FIRST_ROOM` bytes.
    fn append(&mut self, octets: &[u8]) -> Result<(), AllocError>
        requires missing { length self.old.octets.items + length octets.now ≤ self.old.wanted }
        ensures appended { OnOk result (self.new.octets.items ≡ self.old.octets.items
            ++ octets.now) }
        ensures wanted { self.new.wanted ≡ self.old.wanted }
    {
        let len = self.octets.len() + octets.len();
        if self.octets.capacity() < len {
            let most = len.saturating_add(len).max(FIRST_ROOM);
            let room = self.wanted.max(HEADER_ROOM).min(most);
            self.octets.reserve_exact(room - self.octets.len())?;
        }
        self.octets.extend_from_slice(octets)
    }

    // Appends exactly the bytes that were missing, and returns the bytes of the certificate if it
    // is complete now.
    fn complete(
        &mut self,
        alloc: Global,
        front: &[u8],
        offset: u64,
        limit: u32,
    ) -> Result<Option<Vec<u8>>, Standing>
        requires room { 6 ≤ limit }
        requires awaits { Awaits limit offset self.old.octets.items self.old.wanted }
        requires all { length self.old.octets.items + length front.now ≡ self.old.wanted }
        ensures completed { IfOk result
            (IsCompleted limit offset (self.old.octets.items ++ front.now) self.new) }
        ensures untaken { IfErr result
            (IsUntaken limit offset (self.old.octets.items ++ front.now)) }
    {
        if self.append(front).is_err() {
            return Err(Standing::NoMemory);
        }
        let wanted = match wanted_len(&self.octets, offset, limit) {
            Ok(wanted) => wanted,
            Err(kind) => return Err(Standing::Faulted(kind)),
        };
        if self.octets.len() < wanted {
            self.wanted = wanted;
            return Ok(None);
        }
        self.octets.shrink_to_fit();
        let whole = mem::replace(self, Rest::new(alloc));
        Ok(Some(whole.octets))
    }
}
