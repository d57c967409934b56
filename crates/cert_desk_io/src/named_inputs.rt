//! Inputs that are opened by their names.

ghost use Rattle.std.specs.Prelude.{⊤, ℕ, List, IfOk, IfErr};
ghost use Rattle.cert_desk_io.specs.declared.named_inputs.OpenError.{OpenError};

/// Why an input can't be opened.
#[derive(Clone, Copy, Debug, PartialEq, Eq)]
pub enum OpenError {
    /// There is no input with this name, or it can't be read.
    Device,
    /// Memory ran out.
    OutOfMemory,
}

/// Inputs that are opened by their names, as files are.
pub trait NamedInputs<I> {
    /// This input was opened by this name, and nothing has been read from it.
    ghost is_opened: { Self → List ℕ → I → Type 0 };

    /// No input was opened by this name, for this reason. An impl that leaves it out says nothing
    /// about the reason.
    ghost is_unopened: { Self → List ℕ → OpenError → Type 0 } = { λ _ _ _. ⊤ };

    /// Opens the input with this name.
    ///
    /// # Errors
    ///
    /// - `Device`: there is no such input, or it can't be read.
    /// - `OutOfMemory`: memory runs out.
    fn open(&self, name: &str) -> Result<I, OpenError>
        ensures opened { IfOk result (λ input. is_opened self.now name.now input) }
        ensures unopened { IfErr result (λ error. is_unopened self.now name.now error) };

    /// Returns whether a read of this input has failed. The result is only a hint: no clause says
    /// when it is true.
    fn has_failed(&self, input: &I) -> bool;
}
