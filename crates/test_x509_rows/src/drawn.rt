//! Answers questions about serial numbers with random bytes.

use crate::given_words::GivenWords;
use crate::refusals::Refusal;
use crate::shown::{octets_of, serial_written_in};
use rand_chacha::ChaCha20Rng;
use rand_core::SeedableRng;
use std::alloc::Global;
use x509_cert::{Rfc5280, SerialNumber};

/// Returns the encoding of the serial number that a generator returns.
pub fn generated(alloc: Global, kind: &str, octets: &str) -> Result<String, Refusal> {
    let octets = octets_of(alloc, octets)?;
    match kind {
        "words" => {
            let mut generator = GivenWords {
                left: octets.as_slice(),
            };
            serial_written_in(
                alloc,
                SerialNumber::<Rfc5280>::generate(alloc, &mut generator),
            )
        }
        "chacha20" => {
            let seed = <[u8; 32]>::try_from(octets.as_slice()).map_err(|_| Refusal::Unread)?;
            let mut generator = ChaCha20Rng::from_seed(seed);
            serial_written_in(
                alloc,
                SerialNumber::<Rfc5280>::generate(alloc, &mut generator),
            )
        }
        _ => Err(Refusal::Unread),
    }
}

/// Returns the encoding of the serial number with a prefix and that many bytes of a generator of
/// given words.
pub fn drawn(alloc: Global, prefix: &str, values: &str) -> Result<String, Refusal> {
    let (count, octets) = values.split_once(' ').ok_or(Refusal::Unread)?;
    let count: usize = count.parse()?;
    let prefix = match prefix {
        "-" => Vec::new(alloc),
        _ => octets_of(alloc, prefix)?,
    };
    let octets = octets_of(alloc, octets)?;
    let mut generator = GivenWords {
        left: octets.as_slice(),
    };
    let serial = SerialNumber::<Rfc5280>::generate_with_prefix(
        alloc,
        prefix.as_slice(),
        count,
        &mut generator,
    );
    serial_written_in(alloc, serial)
}
