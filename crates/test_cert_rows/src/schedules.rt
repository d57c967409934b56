//! The sizes of the pieces that inputs and outputs move, and the calls that fail.

ghost use Rattle.std.specs.Prelude.{◌≡◌, nat_lt};
ghost use Rattle.std.specs.List.{list_all};
ghost use Rattle.cert_desk_checking.specs.DeskIo.Pieces.{ArePieceSizes};

use crate::refusal::Refusal;
use crate::words::number_of;
use cert_desk::{MemoryInput, MemoryOutput};
use std::alloc::Global;

/// The sizes of the first pieces, and the number of the call that fails, with 1 for the first.
#[derive(Drop)]
pub struct Schedule {
    sizes: Vec<usize>,
    failing: Option<u64>,
    ghost pieces: { ArePieceSizes sizes.items },
}

impl Schedule {
    /// Parses a schedule.
    pub fn parse(alloc: Global, word: &str) -> Result<Schedule, Refusal> {
        let (pieces, failing) = match word.split_once('!') {
            Some((pieces, call)) => (pieces, Some(u64::from(number_of(call)?))),
            None => (word, None),
        };
        let sizes = numbers(alloc, pieces)?;
        if !are_sizes(sizes.as_slice()) {
            return Err(Refusal::Unread);
        }
        Ok(Schedule { sizes, failing })
    }

    /// Returns an input over these bytes that moves them by the schedule.
    pub fn input<'a>(&'a self, octets: &'a [u8]) -> MemoryInput<'a> {
        MemoryInput::new(octets, self.sizes.as_slice(), self.failing)
    }

    /// Returns an output into this memory that moves bytes by the schedule.
    pub fn output<'a>(&'a self, room: &'a mut [u8]) -> MemoryOutput<'a> {
        MemoryOutput::new(room, self.sizes.as_slice(), self.failing)
    }
}

/// The schedules of the input and the two outputs of a run.
#[derive(Drop)]
pub struct Devices {
    pub input: Schedule,
    pub output: Schedule,
    pub errors: Schedule,
}

impl Devices {
    /// Parses the schedules of a word, which are separated by slashes.
    pub fn parse(alloc: Global, word: &str) -> Result<Devices, Refusal> {
        let (input, rest) = word.split_once('/').ok_or(Refusal::Unread)?;
        let (output, errors) = rest.split_once('/').ok_or(Refusal::Unread)?;
        Ok(Devices {
            input: Schedule::parse(alloc, input)?,
            output: Schedule::parse(alloc, output)?,
            errors: Schedule::parse(alloc, errors)?,
        })
    }
}

// Parses numbers that are separated by commas; `-` means none.
fn numbers(alloc: Global, word: &str) -> Result<Vec<usize>, Refusal> {
    if word == "-" {
        return Ok(Vec::new(alloc));
    }
    word.split(',')
        .map(|number| -> Result<usize, Refusal> { Ok(number_of(number)? as usize) })
        .try_collect(alloc)
}

// Returns whether each size is at least 1.
fn are_sizes(sizes: &[usize]) -> bool
    ensures { result ≡ list_all (λ size. nat_lt 0 size) sizes.now }
{
    sizes.iter().all(|size| *size > 0)
}
