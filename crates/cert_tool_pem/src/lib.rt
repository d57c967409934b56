//! Reads files that are DER or PEM.
//!
//! A file that begins with the byte `30`, as DER does, is read as a stream, without changes. Any
//! other file is read to its end; if it has PEM blocks (RFC 7468), they are decoded and
//! concatenated in the order of the file, and else its bytes are returned as they are. [`input_of`]
//! decodes an opened file, and returns a [`FileInput`].
#![tactic(auto)]

mod blocks;
mod file_error;
mod file_input;
mod files;
pub mod laws;
mod pem_error;
mod pem_fault;
mod pem_lines;
mod wanted;

pub use blocks::octets_in;
pub use file_error::FileError;
pub use file_input::FileInput;
pub use files::{MOST_TEXT, input_of};
pub use pem_error::PemError;
pub use pem_fault::PemFault;
pub use pem_lines::label_at;
pub use wanted::Wanted;
