//! Reading and writing frames: a length of four bytes, and as many bytes of content.

ghost use Rattle.std.specs.Prelude.{◌≡◌, ◌<◌, ◌≤◌, ◌^◌, ◌⊎◌, ◌↔◌, ℕ, List, ◌++◌, length, IfOk};
ghost use Rattle.std.specs.Prelude.{IfErr, IfSome, IsNone, OnOk};
ghost use Rattle.std.specs.Option.{option_map};
ghost use Rattle.cert_desk_io.specs.Devices.{source};
ghost use Rattle.cert_desk_io.specs.declared.frame_error.FrameError.TheVariants as errors;
ghost use Rattle.cert_desk_io.specs.Frames.{IsNext, IsStopped, IsTaken, IsUnread, frame};
ghost use Rattle.cert_desk_io.specs.Frames.{number_octets};

use crate::Input;
use crate::frame_error::FrameError;
use std::alloc::Global;

// Reads up to `count` bytes of an input, and fewer only if the input ends before.
fn take_octets<I: Input>(alloc: Global, input: &mut I, count: usize) -> Result<Vec<u8>, FrameError>
    ensures taken { IfOk result
        (λ octets. IsTaken (source I.takes I.is_ended I.failures input.old input.new) count
        octets.items) }
    ensures stopped { IfErr result
        (IsStopped (source I.takes I.is_ended I.failures input.old input.new)) }
{
    let mut octets = Vec::new(alloc);
    let mut buffer = [0; 4096];
    'reads: while octets.len() < count {
        let room = (count - octets.len()).min(buffer.len());
        let Ok(taken) = input.read(&mut buffer[..room]) else {
            return Err(FrameError::Device);
        };
        if taken == 0 {
            return Ok(octets);
        }
        if octets.extend_from_slice(&buffer[..taken]).is_err() {
            return Err(FrameError::OutOfMemory);
        }
    }
    Ok(octets)
}

// Splits off the big-endian number in the first four bytes. Returns `None` if there are fewer than
// four bytes.
fn split_number(octets: &[u8]) -> Option<(u32, &[u8])>
    ensures some { IfSome result (λ p. octets.now ≡ number_octets p.0 ++ p.1.now) }
    ensures bound { IfSome result (λ p. p.0 < 2 ^ 32) }
    ensures none { IsNone result ↔ (length octets.now < 4) }
{
    if octets.len() < 4 {
        return None;
    }
    let (front, rest) = octets.split_at(4);
    let number = u32::from_be_bytes([front[0], front[1], front[2], front[3]]);
    Some((number, rest))
}

/// Reads a frame whose content has at most `most` bytes. Returns the content, or `None` if the
/// input ends where the frame would begin.
///
/// # Errors
///
/// - `TooLong`: the content has more than `most` bytes. Only its length was read.
/// - `Cut`: the input ends within the frame.
/// - `Device`: a read failed.
/// - `OutOfMemory`: memory runs out.
///
/// A failed read isn't tried again.
pub fn read_frame<I: Input>(
    alloc: Global,
    input: &mut I,
    most: u32,
) -> Result<Option<Vec<u8>>, FrameError>
    ensures next { IfOk result
        (λ got. IsNext (source I.takes I.is_ended I.failures input.old input.new) most
        (option_map (λ content. content.items) got)) }
    ensures unread { IfErr result
        (IsUnread (source I.takes I.is_ended I.failures input.old input.new) most) }
{
    let front = take_octets(alloc, input, 4)?;
    if front.is_empty() {
        return Ok(None);
    }
    let Some((count, _)) = split_number(front.as_slice()) else {
        return Err(FrameError::Cut);
    };
    if count > most {
        return Err(FrameError::TooLong);
    }
    let content = take_octets(alloc, input, count as usize)?;
    if content.len() < count as usize {
        return Err(FrameError::Cut);
    }
    Ok(Some(content))
}

/// Returns the content of the frame with which the bytes begin, and the bytes after the frame.
/// Returns `None` if they don't begin with a complete frame.
pub fn split_frame(octets: &[u8]) -> Option<(&[u8], &[u8])>
    ensures some { IfSome result (λ p. octets.now ≡ frame p.0.now ++ p.1.now) }
    ensures short { IfSome result (λ p. length p.0.now < 2 ^ 32) }
    ensures none { IsNone result → (content rest : List ℕ) → length content < 2 ^ 32
        → octets.now ≡ frame content ++ rest → ⊥ }
{
    let Some((count, rest)) = split_number(octets) else {
        return None;
    };
    let count = count as usize;
    if rest.len() < count {
        return None;
    }
    Some(rest.split_at(count))
}

/// Appends a frame with this content to `octets`.
///
/// # Errors
///
/// - `TooLong`: the content has 2^32 bytes or more.
/// - `OutOfMemory`: memory runs out.
///
/// After an error, `octets` may end with a part of the frame.
pub fn append_frame(content: &[u8], octets: &mut Vec<u8>) -> Result<(), FrameError>
    ensures put { OnOk result (octets.new.items ≡ octets.old.items ++ frame content.now) }
    ensures short { OnOk result (length content.now < 2 ^ 32) }
    ensures refused { IfErr result (λ error. ((error ≡ errors.TooLong)
        × (2 ^ 32 ≤ length content.now)) ⊎ (error ≡ errors.OutOfMemory)) }
{
    if content.len() >= 1 << 32 {
        return Err(FrameError::TooLong);
    }
    let count = content.len() as u32;
    if octets.extend_from_slice(&count.to_be_bytes()).is_err() {
        return Err(FrameError::OutOfMemory);
    }
    if octets.extend_from_slice(content).is_err() {
        return Err(FrameError::OutOfMemory);
    }
    Ok(())
}
