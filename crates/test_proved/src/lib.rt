//! Tests that need code: of OIDs, of the coding core and of typed values (states after errors,
//! closures and iterators), and of readers and writers that fail. Tests that are tables, and those
//! of memory that runs out, are in `test_der_rows` and `test_cert_rows`.
#![tactic(auto)]

#[cfg(test)]
mod coding_core;
#[cfg(test)]
mod devices;
#[cfg(test)]
mod members;
#[cfg(test)]
mod sets;
#[cfg(test)]
mod strings;
#[cfg(test)]
mod tagged_fields;
#[cfg(test)]
mod values;
