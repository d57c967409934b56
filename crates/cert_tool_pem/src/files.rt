//! Decodes files that are DER or PEM.
ghost use Rattle.std.specs.Prelude.{◌≡◌, ◌≢◌, ℕ, List, [], ◌∷◌, IfOk, IfErr, OnErr, OnOk, Some};
ghost use Rattle.std.specs.Prelude.{◌⊎◌, true, false};
ghost use Rattle.cert_desk_io.specs.Devices.{Fails, source};
ghost use Rattle.cert_desk_io.specs.Whole.{IsUnread, IsWhole};
ghost use Rattle.cert_tool_pem.specs.FileReading.{IsBegun, IsFirst, most_after_first};
ghost use Rattle.cert_tool_pem.specs.FileInputs.{front_of, rest_of};
ghost use Rattle.cert_tool_pem.specs.DecodedFiles.{IsFileError, IsDecodedFile, most_text};
ghost use Rattle.cert_tool_pem.specs.Pem.{is_reversed};

use crate::blocks::octets_in;
use crate::file_error::FileError;
use crate::file_input::FileInput;
use crate::pem_error::PemError;
use crate::wanted::{Wanted, is_reversed};
use cert_desk_io::{DeviceError, Input, ReadAllError, read_all};
use std::alloc::Global;

/// The maximum number of bytes of a text: 64 MiB.
pub const MOST_TEXT: u32 = 1 << 26;

// The first byte of a SEQUENCE (X.690 8.9). Each value that the program decodes begins with it.
const SEQUENCE: u8 = 0x30;

// The beginning of a file.
#[derive(Drop)]
enum Begun {
    // The file is empty.
    Empty,
    // The first byte is that of DER, and nothing else was read.
    Der,
    // The file is a text with these bytes.
    Text(Vec<u8>),
}

// Reads the first byte of a file, if it has one.
fn first_of<I: Input>(input: &mut I) -> Result<Option<u8>, DeviceError>
    ensures first { IfOk result
        (IsFirst (source I.takes I.is_ended I.failures input.old input.new)) }
    ensures failed { OnErr result
        (Fails (source I.takes I.is_ended I.failures input.old input.new) []) }
{
    let mut buffer = [0; 1];
    let count = input.read(&mut buffer)?;
    if count == 0 {
        return Ok(None);
    }
    Ok(Some(buffer[0]))
}

// Reads the remaining bytes of a file after the first one.
fn read_text<I: Input>(alloc: Global, first: u8, input: &mut I) -> Result<Vec<u8>, ReadAllError>
    ensures whole { IfOk result (λ text. (rest : List ℕ) × (text.items ≡ first ∷ rest)
        × IsWhole (source I.takes I.is_ended I.failures input.old input.new) most_after_first
        rest) }
    ensures unread { IfErr result
        (IsUnread (source I.takes I.is_ended I.failures input.old input.new) most_after_first) }
{
    let rest = read_all(alloc, input, MOST_TEXT - 1)?;
    let mut text = Vec::new(alloc);
    if text.push(first).is_err() {
        return Err(ReadAllError::OutOfMemory);
    }
    if text.extend_from_slice(rest.as_slice()).is_err() {
        return Err(ReadAllError::OutOfMemory);
    }
    Ok(text)
}

// Reads the first byte of a file, and all of it if it doesn't begin as DER does.
fn begin<I: Input>(alloc: Global, input: &mut I) -> Result<Begun, ReadAllError>
    ensures begun { IfOk result
        (IsBegun (source I.takes I.is_ended I.failures input.old input.new)) }
    ensures unread { IfErr result
        (IsUnread (source I.takes I.is_ended I.failures input.old input.new) most_text) }
{
    let first = match first_of(input) {
        Ok(Some(first)) => first,
        Ok(None) => return Ok(Begun::Empty),
        Err(_) => return Err(ReadAllError::Device),
    };
    if first != SEQUENCE {
        let text = read_text(alloc, first, input)?;
        return Ok(Begun::Text(text));
    }
    Ok(Begun::Der)
}

// Returns an input of the first byte of DER, followed by the remaining file.
fn der_input<I: Input + Drop>(
    alloc: Global,
    wanted: Wanted,
    input: I,
) -> Result<FileInput<I>, FileError>
    ensures front { IfOk result (λ made. front_of made ≡ 48 ∷ []) }
    ensures rest { IfOk result (λ made. rest_of made ≡ Some input) }
    ensures order { OnOk result (is_reversed wanted ≡ false) }
    ensures stopped { IfErr result (λ error. ((error ≡ FileError.NotText)
        × (is_reversed wanted ≡ true)) ⊎ (error ≡ FileError.OutOfMemory)) }
{
    if is_reversed(wanted) {
        return Err(FileError::NotText);
    }
    let mut front = Vec::new(alloc);
    if front.push(SEQUENCE).is_err() {
        return Err(FileError::OutOfMemory);
    }
    Ok(FileInput::new(front, Some(input)))
}

// Returns an input of the DER that a file contains, directly or as PEM.
fn value_input<I: Input + Drop>(
    alloc: Global,
    wanted: Wanted,
    input: I,
) -> Result<FileInput<I>, FileError>
    requires { wanted ≢ Wanted.Lines }
    ensures stands { IfOk result (λ made. (new : I)
        × IsDecodedFile wanted (source I.takes I.is_ended I.failures input new) made) }
    ensures unmeant { IfErr result (λ error. (new : I)
        × IsFileError wanted (source I.takes I.is_ended I.failures input new) error) }
{
    let mut input = input;
    let text = match begin(alloc, &mut input) {
        Ok(Begun::Empty) => return Ok(FileInput::new(Vec::new(alloc), Some(input))),
        Ok(Begun::Der) => return der_input(alloc, wanted, input),
        Ok(Begun::Text(text)) => text,
        Err(ReadAllError::TooMuch) => return Err(FileError::TooMuch),
        Err(ReadAllError::Device) => return Err(FileError::Device),
        Err(ReadAllError::OutOfMemory) => return Err(FileError::OutOfMemory),
    };
    match octets_in(alloc, wanted, text.as_slice()) {
        Ok(octets) => Ok(FileInput::new(octets, None)),
        Err(PemError::Line { number, fault }) => Err(FileError::Refused {
            text,
            number,
            fault,
        }),
        Err(PemError::OutOfMemory) => Err(FileError::OutOfMemory),
    }
}

/// Returns an input of the DER that an opened file contains, directly or as PEM.
///
/// A file that begins with the byte `30`, a file of lines and an empty file are returned as they
/// are; at most the first byte is read. Any other file is read to its end, and its PEM blocks are
/// decoded by [`octets_in`]. To reverse the order of the certificates, the file must be PEM.
///
/// # Errors
///
/// - `TooMuch`: a file that isn't DER has more than `MOST_TEXT` bytes.
/// - `Device`: a read fails.
/// - `OutOfMemory`: an allocation fails.
/// - `NotText`: the order must be reversed, and the file is DER.
/// - `Refused`: a block is malformed, or has an unexpected label.
pub fn input_of<I: Input + Drop>(
    alloc: Global,
    wanted: Wanted,
    input: I,
) -> Result<FileInput<I>, FileError>
    ensures stands { IfOk result (λ made. (new : I)
        × IsDecodedFile wanted (source I.takes I.is_ended I.failures input new) made) }
    ensures unmeant { IfErr result (λ error. (new : I)
        × IsFileError wanted (source I.takes I.is_ended I.failures input new) error) }
{
    match wanted {
        Wanted::Lines => Ok(FileInput::new(Vec::new(alloc), Some(input))),
        _ => value_input(alloc, wanted, input),
    }
}
