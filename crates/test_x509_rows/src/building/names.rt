//! Names and the rules for them.

use crate::building::refusals::Refusal;
use std::alloc::Global;
use x509_cert::Name;
use x509_cert::builder::{ca_certificate_naming, check_names_encoding};

/// Returns whether a name keeps the rules for all names.
pub fn answer(alloc: Global, repeats: bool, text: &str) -> Result<String, Refusal> {
    let name = Name::from_str(alloc, text)?;
    check_names_encoding(alloc, &name, repeats)?;
    Ok("ok".to_string(alloc)?)
}

/// Returns whether a name is allowed for a CA.
pub fn answer_of_authority(alloc: Global, text: &str) -> Result<String, Refusal> {
    let name = Name::from_str(alloc, text)?;
    ca_certificate_naming(alloc, &name)?;
    Ok("ok".to_string(alloc)?)
}
