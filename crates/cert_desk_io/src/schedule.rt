//! The sizes of the pieces that an input or an output in memory moves, and the call that fails.

ghost use Rattle.std.specs.Prelude.{◌≡◌, ◌<◌, ◌↔◌, ◌⊎◌, drop, IsNone, IfSome, OnSome, IfNone};
ghost use Rattle.cert_desk_io.specs.Pieces.{ArePieceSizes, after_call, next_piece};

// The sizes of the next pieces, and the number of the call that fails, with 1 for the next call.
#[derive(Drop)]
pub(crate) struct Schedule<'a> {
    pub(crate) pieces: &'a [usize],
    pub(crate) failing_call: Option<u64>,
    ghost sizes: { ArePieceSizes pieces.now },
}

impl<'a> Schedule<'a> {
    pub(crate) fn new(pieces: &'a [usize], failing_call: Option<u64>) -> Schedule<'a>
        requires { ArePieceSizes pieces.now }
        ensures pieces { result.pieces.now ≡ pieces.now }
        ensures failing { result.failing_call ≡ failing_call }
    {
        Schedule {
            pieces,
            failing_call,
        }
    }

    // Returns the number of bytes that the next call moves, of at most `most`, or `None` if the
    // call fails. A call also fails if `most` is 0. A failed call uses no size up.
    pub(crate) fn next(&mut self, most: usize) -> Option<usize>
        ensures fails { IsNone result ↔ ((self.old.failing_call ≡ Some 1) ⊎ (most ≡ 0)) }
        ensures moves { IfSome result (λ count. count ≡ next_piece self.old.pieces.now most) }
        ensures some { IfSome result (λ count. 0 < count) }
        ensures used { OnSome result (self.new.pieces.now ≡ drop 1 self.old.pieces.now) }
        ensures unused { IfNone result (self.new.pieces.now ≡ self.old.pieces.now) }
        ensures counted { self.new.failing_call ≡ after_call self.old.failing_call }
    {
        let fails = self.failing_call == Some(1);
        self.failing_call = self.failing_call.map(|call| call.saturating_sub(1));
        if fails || most == 0 {
            return None;
        }
        match self.pieces {
            [] => Some(most),
            [size, rest @ ..] => {
                self.pieces = rest;
                Some(most.min(*size))
            }
        }
    }
}
