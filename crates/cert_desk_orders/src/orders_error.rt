//! The errors of an orders file.
ghost use Rattle.std.specs.Prelude.{◌≡◌};
ghost use Rattle.cert_desk_orders.specs.declared.orders_error.OrdersError.TheVariants.{OutOfMemory};

use std::alloc::{AllocError, AllocFailed};
use thiserror::Error;

/// Why an orders file can't be parsed.
#[derive(Clone, Copy, Debug, PartialEq, Eq, Error)]
pub enum OrdersError {
    /// The number of the first wrong line, counted from 1.
    #[error("line {0} is faulty")]
    Line(u64),
    /// Memory ran out.
    #[error("out of memory")]
    OutOfMemory,
}

impl From<AllocError> for OrdersError {
    ghost from_gives = { λ _ e. e ≡ OutOfMemory };

    fn from(_error: AllocError) -> OrdersError {
        OrdersError::OutOfMemory
    }
}

impl<T: Drop> From<AllocFailed<T>> for OrdersError {
    ghost from_gives = { λ _ e. e ≡ OutOfMemory };

    fn from(_error: AllocFailed<T>) -> OrdersError {
        OrdersError::OutOfMemory
    }
}
