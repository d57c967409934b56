//! Inputs that are part of a request.
ghost use Rattle.std.specs.Prelude.{List, ℕ, IfSome, IsNone};
ghost use Rattle.cert_tool.specs.SentInputs.{IsInputOf};

use crate::host_files::ErrorReasons;
use cert_tool_explain::desk_io::{MemoryInput, NamedInputs, OpenError, split_frame};
use std::io;
use std::io::ErrorKind;

/// The inputs of a request: frames of names and contents, in turn.
#[derive(Clone, Copy)]
pub struct RequestInputs<'a> {
    /// The frames.
    pub parts: &'a [u8],
}

impl<'a> NamedInputs<MemoryInput<'a>> for RequestInputs<'a> {
    ghost use Rattle.cert_tool_explain.specs.DeskIo.Memory.{octets_left};
    ghost use Rattle.cert_tool.specs.SentInputs.{HasNoInput, IsInputOf};

    ghost is_opened = { λ sent name input. IsInputOf name (octets_left input) sent.parts.now };

    ghost is_unopened = { λ sent name error. HasNoInput name sent.parts.now error };

    fn open(&self, name: &str) -> Result<MemoryInput<'a>, OpenError> {
        match find(name.as_bytes(), self.parts) {
            Some(octets) => Ok(MemoryInput::new(octets, &[], None)),
            None => Err(OpenError::Device),
        }
    }

    fn has_failed(&self, _input: &MemoryInput<'a>) -> bool {
        false
    }
}

impl ErrorReasons for RequestInputs<'_> {
    fn last_error(&self) -> Option<io::Error> {
        if are_whole(self.parts) {
            return None;
        }
        let reason = "the files of the request don't end at the end of a frame";
        Some(io::Error::new(ErrorKind::UnexpectedEof, reason))
    }
}

// Returns whether the bytes are a sequence of frames of names and contents.
fn are_whole(parts: &[u8]) -> bool {
    let mut left = parts;
    'inputs: while let Some((_, after)) = split_frame(left) {
        let Some((_, others)) = split_frame(after) else {
            return false;
        };
        left = others;
    }
    left.is_empty()
}

// Returns the content of the first input with this name.
fn find<'a>(name: &[u8], parts: &'a [u8]) -> Option<&'a [u8]>
    ensures found { IfSome result (λ octets. IsInputOf name.now octets.now parts.now) }
    ensures missing { IsNone result → (octets : List ℕ) → IsInputOf name.now octets parts.now → ⊥ }
{
    let mut left = parts;
    'inputs: while let Some((this, after)) = split_frame(left) {
        let Some((octets, others)) = split_frame(after) else {
            return None;
        };
        if this == name {
            return Some(octets);
        }
        left = others;
    }
    None
}
