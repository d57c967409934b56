//! Parsed orders files.

use crate::files::file_of;
use crate::refusal::Refusal;
use crate::words::Octets;
use cert_desk::{Order, orders_in};
use std::alloc::{AllocError, Global};
use std::fmt::Write;

/// Returns the number of orders of a file, and each of them, or why the file can't be parsed.
pub fn answer(alloc: Global, text: &str) -> Result<String, Refusal> {
    let file = file_of(alloc, text)?;
    let orders = match orders_in(alloc, file.as_slice()) {
        Ok(orders) => orders,
        Err(error) => return Ok(format!(in alloc; "{error}")?),
    };
    let mut answer = format!(in alloc; "ok {}", orders.len())?;
    for order in &orders {
        tell(order, &mut answer)?;
    }
    Ok(answer)
}

/// Writes an order.
fn tell(order: &Order, answer: &mut String) -> Result<(), AllocError> {
    let serial = Octets(order.serial.as_slice());
    let key = Octets(order.key.subject_public_key.raw_bytes());
    write!(
        answer,
        "; {:?} {:?} {:?} {serial} {key}",
        order.name, order.not_before, order.not_after
    )?;
    write!(
        answer,
        " {:?} {:?} {} {}",
        order.path_len, order.dns, order.client_auth, order.ocsp
    )
}
