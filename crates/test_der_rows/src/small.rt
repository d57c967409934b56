//! A user-defined type of integers from 0 to 255.

ghost use Rattle.std.specs.Prelude.{pos};
ghost use Rattle.der_types.specs.Integers.{unsigned};

use der_core::describing::{AsInteger, Described, Ordered};
use der_core::making::unsigned_of;
use der_core::{Error, Integer, Tag};

/// An integer from 0 to 255.
#[derive(Clone, Copy, Default, PartialEq, Eq, PartialOrd, Ord, Hash)]
pub struct Small(u8);

impl Described for Small {
    type By = AsInteger;
}

impl Integer for Small {
    ghost numbers = { unsigned 8 };

    ghost number = { λ n. pos n.0 };

    fn from_integer(tag: Tag, octets: &[u8]) -> Result<Small, Error> {
        let number = unsigned_of(tag, octets, 8)?;
        Ok(Small(number as u8))
    }

    fn sign_and_bits(&self) -> (bool, u128) {
        (false, u128::from(self.0))
    }
}

impl Ordered for Small {}
