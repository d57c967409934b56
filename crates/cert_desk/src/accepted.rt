//! Accepted orders.

use cert_desk_listing::cert_names::Name;
use cert_desk_orders::Order;
use cert_desk_orders::cert_parts::{SerialNumber, Validity};

/// An accepted order, with the values that its texts encode.
#[derive(Drop)]
pub(crate) struct Accepted<'a> {
    pub(crate) order: &'a Order,
    pub(crate) subject: Name,
    pub(crate) serial_number: SerialNumber,
    pub(crate) validity: Validity,
}
