//! Decodes the PEM blocks of a text (RFC 7468).
ghost use Rattle.std.specs.Prelude.{◌≡◌, IfOk, IfErr, OnOk, Ok, map, reverse};
ghost use Rattle.std.specs.List.{concat};
ghost use Rattle.cert_tool_pem.specs.Pem.{begin_block, decoded, end_block, ended, step};
ghost use Rattle.cert_tool_pem.specs.Pem.{add_text, in_order, nothing_read, octets_of};
ghost use Rattle.cert_tool_pem.specs.Pem.{text_octets, values_of};
ghost use Rattle.cert_tool_pem.specs.PemReading.{FailsBy, reading_plain};

use crate::pem_error::PemError;
use crate::pem_fault::PemFault;
use crate::pem_lines::{begun_by, ended_by, has_boundary, lines_of, trimmed};
use crate::wanted::{Wanted, is_reversed, wants};
use base64::DecodeAllocError;
use base64::engine::general_purpose::STANDARD;
use std::alloc::{AllocError, Global};

// The state after some lines: the values of the blocks before them, and, inside of a block, its
// label, the number of its BEGIN line, and its base64 so far.
#[derive(Drop)]
struct Reading<'a> {
    values: Vec<Vec<u8>>,
    label: Option<&'a [u8]>,
    start: u64,
    text: Vec<u8>,
}

// Decodes the base64 of the block that begins at this line.
#[tactic(auto, unfolding(crate::specs::Pem::decoded))]
fn decoded(alloc: Global, text: &[u8], start: u64) -> Result<Vec<u8>, PemError>
    ensures read { IfOk result (λ octets. decoded text.now start ≡ Ok octets.items) }
    ensures refused { IfErr result (FailsBy (decoded text.now start)) }
{
    match STANDARD.decode(alloc, text) {
        Ok(octets) => Ok(octets),
        Err(DecodeAllocError::OutOfMemory) => Err(PemError::OutOfMemory),
        Err(DecodeAllocError::DecodeError(_)) => Err(PemError::Line {
            number: start,
            fault: PemFault::NotBase64,
        }),
    }
}

impl<'a> Reading<'a> {
    // Returns the state before the first line.
    fn new(alloc: Global) -> Reading<'a>
        ensures { reading_plain result ≡ nothing_read }
    {
        Reading {
            values: Vec::new(alloc),
            label: None,
            start: 0,
            text: Vec::new(alloc),
        }
    }

    // Handles a BEGIN line with this label.
    fn begin_block(&mut self, wanted: Wanted, number: u64, label: &'a [u8]) -> Result<(), PemError>
        ensures read { OnOk result (begin_block wanted number label.now (reading_plain self.old)
            ≡ Ok (reading_plain self.new)) }
        ensures refused { IfErr result
            (FailsBy (begin_block wanted number label.now (reading_plain self.old))) }
    {
        if self.label.is_some() {
            return Err(PemError::Line {
                number: self.start,
                fault: PemFault::NoEnd,
            });
        }
        if !wants(wanted, label) {
            return Err(PemError::Line {
                number,
                fault: PemFault::OtherKind,
            });
        }
        self.label = Some(label);
        self.start = number;
        Ok(())
    }

    // Handles an END line with this label.
    fn end_block(&mut self, alloc: Global, number: u64, label: &[u8]) -> Result<(), PemError>
        ensures read { OnOk result (end_block number label.now (reading_plain self.old)
            ≡ Ok (reading_plain self.new)) }
        ensures refused { IfErr result
            (FailsBy (end_block number label.now (reading_plain self.old))) }
    {
        let Some(begun) = self.label else {
            return Err(PemError::Line {
                number,
                fault: PemFault::NoBegin,
            });
        };
        if begun != label {
            return Err(PemError::Line {
                number,
                fault: PemFault::OtherEnd,
            });
        }
        let octets = decoded(alloc, self.text.as_slice(), self.start)?;
        if self.values.push(octets).is_err() {
            return Err(PemError::OutOfMemory);
        }
        self.label = None;
        self.text.clear();
        Ok(())
    }

    // Handles any other line.
    fn add_text(&mut self, line: &[u8]) -> Result<(), PemError>
        ensures read { OnOk result (add_text line.now (reading_plain self.old)
            ≡ Ok (reading_plain self.new)) }
        ensures refused { IfErr result (FailsBy (add_text line.now (reading_plain self.old))) }
    {
        if self.label.is_none() {
            return Ok(());
        }
        if self.text.extend_from_slice(trimmed(line)).is_err() {
            return Err(PemError::OutOfMemory);
        }
        Ok(())
    }

    // Handles the line with this number.
    fn add_line(
        &mut self,
        alloc: Global,
        wanted: Wanted,
        number: u64,
        line: &'a [u8],
    ) -> Result<(), PemError>
        ensures read { OnOk result (step wanted number line.now (reading_plain self.old)
            ≡ Ok (reading_plain self.new)) }
        ensures refused { IfErr result
            (FailsBy (step wanted number line.now (reading_plain self.old))) }
    {
        if let Some(label) = begun_by(line) {
            self.begin_block(wanted, number, label)?;
            return Ok(());
        }
        if let Some(label) = ended_by(line) {
            self.end_block(alloc, number, label)?;
            return Ok(());
        }
        self.add_text(line)?;
        Ok(())
    }

    // Handles the end of the text, and returns the values.
    fn end(self) -> Result<Vec<Vec<u8>>, PemError>
        ensures read { IfOk result (λ values. ended (reading_plain self.entry)
            ≡ Ok (map (λ value. value.items) values.items)) }
        ensures refused { IfErr result (FailsBy (ended (reading_plain self.entry))) }
    {
        let Reading {
            values,
            label,
            start,
            ..
        } = self;
        if label.is_some() {
            return Err(PemError::Line {
                number: start,
                fault: PemFault::NoEnd,
            });
        }
        Ok(values)
    }
}

// Returns the values of the blocks in these lines.
fn values_of(alloc: Global, wanted: Wanted, lines: &[&[u8]]) -> Result<Vec<Vec<u8>>, PemError>
    ensures read { IfOk result (λ values. values_of wanted (map (λ line. line.now) lines.now)
        ≡ Ok (map (λ value. value.items) values.items)) }
    ensures refused { IfErr result
        (FailsBy (values_of wanted (map (λ line. line.now) lines.now))) }
{
    let mut reading = Reading::new(alloc);
    let mut number = 0u64;
    for line in lines {
        number = number.saturating_add(1);
        if let Err(error) = reading.add_line(alloc, wanted, number, line) {
            return Err(error);
        }
    }
    let values = reading.end()?;
    Ok(values)
}

// Concatenates the values.
fn joined(alloc: Global, values: &[Vec<u8>]) -> Result<Vec<u8>, AllocError>
    ensures { IfOk result (λ octets. octets.items
        ≡ concat (map (λ value. value.items) values.now)) }
{
    let mut octets = Vec::new(alloc);
    for value in values {
        octets.extend_from_slice(value.as_slice())?;
    }
    Ok(octets)
}

// Concatenates the values, the last one first.
fn joined_back(alloc: Global, values: &[Vec<u8>]) -> Result<Vec<u8>, AllocError>
    ensures { IfOk result (λ octets. octets.items
        ≡ concat (reverse (map (λ value. value.items) values.now))) }
{
    let mut octets = Vec::new(alloc);
    let mut left = values.len();
    while left > 0 {
        left -= 1;
        octets.extend_from_slice(values[left].as_slice())?;
    }
    Ok(octets)
}

// Concatenates the values in the order that `wanted` asks for.
fn in_order(alloc: Global, wanted: Wanted, values: &[Vec<u8>]) -> Result<Vec<u8>, AllocError>
    ensures { IfOk result (λ octets. octets.items
        ≡ in_order wanted (map (λ value. value.items) values.now)) }
{
    if is_reversed(wanted) {
        joined_back(alloc, values)
    } else {
        joined(alloc, values)
    }
}

// Returns the concatenated values of the blocks in these lines.
fn blocks_in(alloc: Global, wanted: Wanted, lines: &[&[u8]]) -> Result<Vec<u8>, PemError>
    ensures read { IfOk result (λ octets.
        octets_of wanted (values_of wanted (map (λ line. line.now) lines.now))
        ≡ Ok octets.items) }
    ensures refused { IfErr result
        (FailsBy (octets_of wanted (values_of wanted (map (λ line. line.now) lines.now)))) }
{
    let values = match values_of(alloc, wanted, lines) {
        Ok(values) => values,
        Err(error) => return Err(error),
    };
    match in_order(alloc, wanted, values.as_slice()) {
        Ok(octets) => Ok(octets),
        Err(_) => Err(PemError::OutOfMemory),
    }
}

/// Returns the concatenated values of the PEM blocks in a text, or the text itself if no line of it
/// begins or ends a block.
///
/// A block begins with the line `-----BEGIN LABEL-----` and ends with `-----END LABEL-----`; white
/// space at either end of a line is ignored. The lines between them are base64 with padding. The
/// lines outside of blocks may contain anything.
///
/// # Errors
///
/// - `Line`: the first block that has an unexpected label, isn't complete, or isn't base64.
/// - `OutOfMemory`: an allocation fails.
pub fn octets_in(alloc: Global, wanted: Wanted, text: &[u8]) -> Result<Vec<u8>, PemError>
    ensures read { IfOk result (λ octets. text_octets wanted text.now ≡ Ok octets.items) }
    ensures refused { IfErr result (FailsBy (text_octets wanted text.now)) }
{
    let Ok(lines) = lines_of(alloc, text) else {
        return Err(PemError::OutOfMemory);
    };
    if has_boundary(lines.as_slice()) {
        return blocks_in(alloc, wanted, lines.as_slice());
    }
    match Vec::from_slice(alloc, text) {
        Ok(octets) => Ok(octets),
        Err(_) => Err(PemError::OutOfMemory),
    }
}
