//! Reads a file that should contain one value in DER. If other bytes follow the value, at most
//! 66 KiB of them are read, so a file without an end is rejected, too.

ghost use Rattle.std.specs.Prelude.{◌≡◌, ◌≤◌, ◌<◌, ◌^◌, length, IfOk, IfErr};
ghost use Rattle.cert_tool_explain.specs.DeskIo.Devices.{source};
ghost use Rattle.cert_tool_explain.specs.DeskIo.Whole.{IsUnread, most_octets};
ghost use Rattle.cert_tool.specs.OneValue.{IsReadIf, IsValueRead, has_surplus, value_size};

use cert_tool_explain::desk_io::{Input, ReadAllError, read_all};
use std::alloc::Global;

// The number of bytes after a value that an explanation uses.
const MOST_SURPLUS: usize = 65536;

// Returns the size of the value with which these bytes begin.
fn value_size(octets: &[u8]) -> u64
    requires { 6 ≤ length octets.now }
    ensures size { result ≡ value_size octets.now }
    ensures bound { result < 2 ^ 33 }
{
    let first = octets[1];
    if first < 128 {
        return 2 + u64::from(first);
    }
    let (a, b) = (u64::from(octets[2]), u64::from(octets[3]));
    let (c, d) = (u64::from(octets[4]), u64::from(octets[5]));
    if first == 129 {
        return 3 + a;
    }
    if first == 130 {
        return 4 + (a * 256 + b);
    }
    if first == 131 {
        return 5 + (a * 65536 + (b * 256 + c));
    }
    if first == 132 {
        return 6 + (a * 16777216 + (b * 65536 + (c * 256 + d)));
    }
    2
}

// Returns whether more bytes follow the first value than an explanation uses.
fn has_surplus(octets: &[u8]) -> bool
    ensures { result ≡ has_surplus octets.now }
{
    if octets.len() <= MOST_SURPLUS {
        return false;
    }
    value_size(octets) + (MOST_SURPLUS as u64) < octets.len() as u64
}

// Reads an input to its end, or until too many bytes follow the first value.
#[tactic(auto, using(crate::proofs::ValueSizes::none_is_few))]
fn read_value<I: Input>(alloc: Global, input: &mut I) -> Result<Vec<u8>, ReadAllError>
    ensures read { IfOk result (λ octets. IsValueRead
        (source I.takes I.is_ended I.failures input.old input.new) octets.items) }
    ensures unread { IfErr result
        (IsUnread (source I.takes I.is_ended I.failures input.old input.new) most_octets) }
{
    let most = u32::MAX as usize;
    let mut octets = Vec::new(alloc);
    let mut buffer = [0; 2048];
    loop {
        let room = (most + 1 - octets.len()).min(buffer.len());
        let Ok(count) = input.read(&mut buffer[..room]) else {
            return Err(ReadAllError::Device);
        };
        if count == 0 {
            return Ok(octets);
        }
        if octets.extend_from_slice(&buffer[..count]).is_err() {
            return Err(ReadAllError::OutOfMemory);
        }
        if octets.len() > most {
            return Err(ReadAllError::TooMuch);
        }
        if has_surplus(octets.as_slice()) {
            return Ok(octets);
        }
    }
}

// Reads an input to its end, which may have at most 2^32 - 1 bytes. If `is_one`, the input should
// contain one value, and reading ends when too many bytes follow it.
pub(crate) fn read_if<I: Input>(
    alloc: Global,
    is_one: bool,
    input: &mut I,
) -> Result<Vec<u8>, ReadAllError>
    ensures read { IfOk result (λ octets. IsReadIf is_one
        (source I.takes I.is_ended I.failures input.old input.new) octets.items) }
    ensures unread { IfErr result
        (IsUnread (source I.takes I.is_ended I.failures input.old input.new) most_octets) }
{
    if is_one {
        return read_value(alloc, input);
    }
    read_all(alloc, input, u32::MAX)
}
