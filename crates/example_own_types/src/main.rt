//! User-defined types. Decodes a ticket or a booking from each line of standard input (DER in base
//! 16), and prints its contents and its encoding.
#![tactic(auto)]

mod booking;
mod fare;
mod holder;
mod seat;
mod ticket;

use booking::Booking;
use der_core::{Error, FromDer, ToDer};
use std::alloc::Global;
use std::io;
use ticket::Ticket;

fn main(rt: HostRuntime) -> io::Result<()> {
    for line in rt.lines(rt.alloc()) {
        match answer(rt.alloc(), line?.as_str()) {
            Ok(text) => println!(rt; "{text}")?,
            Err(error) => println!(rt; "refused {:?}", error.kind)?,
        }
    }
    Ok(())
}

/// Decodes the ticket or the booking on a line. Returns its text and its encoding.
fn answer(alloc: Global, line: &str) -> Result<String, Error> {
    let Ok(octets) = hex::decode(alloc, line) else {
        return Ok(format!(in alloc; "?")?);
    };
    // A ticket begins with its seat, which is an INTEGER.
    if matches!(octets.as_slice(), [_, _, 2, ..]) {
        return of_ticket(alloc, octets.as_slice());
    }
    of_booking(alloc, octets.as_slice())
}

/// Decodes a ticket. Returns its text and its encoding.
fn of_ticket(alloc: Global, octets: &[u8]) -> Result<String, Error> {
    let ticket = Ticket::from_der(alloc, octets)?;
    let written = hex::encode(alloc, ticket.to_der(alloc)?)?;
    Ok(format!(in alloc; "{ticket:?} {written}")?)
}

/// Decodes a booking. Returns its text and its encoding.
fn of_booking(alloc: Global, octets: &[u8]) -> Result<String, Error> {
    let booking = Booking::from_der(alloc, octets)?;
    let written = hex::encode(alloc, booking.to_der(alloc)?)?;
    Ok(format!(in alloc; "{booking:?} {written}")?)
}
