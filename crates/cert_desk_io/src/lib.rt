//! Inputs and outputs, and the exit statuses and messages that every program shares.
//!
//! An [`Input`] gives bytes and an [`Output`] accepts them, in pieces of any size. Their contracts
//! say which bytes moved, in which order, and how many calls failed. So the code above is proved
//! once for all of them:
//!
//! - [`FromRead`] and [`ToWrite`] make an input of a reader and an output of a writer.
//! - [`MemoryInput`] and [`MemoryOutput`] are over memory, for tests.
//! - [`NamedInputs`] are opened by their names. [`HostFiles`] are the files of the operating
//!   system.
//!
//! The crate also has the messages on errors that every run writes, and the [`ExitStatus`] of a
//! run. It depends on no other crate.
#![tactic(auto)]

pub mod device_error;
pub mod exit_status;
mod frame_error;
mod frames;
pub mod host;
pub mod inputs;
pub mod memory_inputs;
pub mod memory_outputs;
pub mod named_inputs;
pub mod outputs;
pub mod read_all_error;
pub mod readers;
mod schedule;
pub mod telling;
pub mod writers;

pub use device_error::DeviceError;
pub use exit_status::ExitStatus;
pub use frame_error::FrameError;
pub use frames::{append_frame, read_frame, split_frame};
pub use host::{HostFiles, HostReader, words_of};
pub use inputs::{Input, read_all};
pub use memory_inputs::MemoryInput;
pub use memory_outputs::MemoryOutput;
pub use named_inputs::{NamedInputs, OpenError};
pub use outputs::{Output, write_all};
pub use read_all_error::ReadAllError;
pub use readers::FromRead;
pub use telling::{answer, complain, tell_device, tell_memory, tell_unopened};
pub use writers::ToWrite;
