//! INTEGER of any size, UTCTime and GeneralizedTime. Users import the items of this crate from
//! `der_types`.
#![tactic(auto)]

mod date_text;
mod date_time;
mod dates_in_range;
mod fewest;
mod generalized_time;
mod int;
mod int_ref;
mod kept_octets;
pub mod laws;
mod numbers_in_range;
mod ordering;
pub mod time_laws;
mod uint;
mod uint_ref;
mod utc_time;

pub use date_text::const_contains_u8;
pub use date_time::DateTime;
pub use generalized_time::GeneralizedTime;
pub use int::Int;
pub use int_ref::{AsIntRef, IntRef};
pub use kept_octets::KeptOctets;
pub use uint::Uint;
pub use uint_ref::{AsUintRef, UintRef};
pub use utc_time::UtcTime;
