//! Laws about dates.
//!
//! Each law is the contract of a function that does nothing.

ghost use Rattle.std.specs.Prelude.{◌≡◌, true};
ghost use Rattle.std.specs.Ordering.{nat_cmp};
ghost use Rattle.der_core.specs.Dates.{Civil, is_civil};
ghost use Rattle.der_types_numbers.specs.DateTexts.{date_text};
ghost use Rattle.der_types_numbers.specs.Seconds.{unix_seconds};

use crate::date_time::DateTime;
use crate::generalized_time::GeneralizedTime;
use crate::utc_time::UtcTime;
use std::cmp::Ord;

/// Dates are ordered by their numbers of seconds, and so are the values of UTCTime and
/// GeneralizedTime.
#[tactic(auto, using(crate::proofs::SecondsOrders::seconds_cmp))]
pub fn order_is_that_of_seconds()
    ensures dates { (c d : Civil) → is_civil c ≡ true → is_civil d ≡ true
        → ⟦<DateTime as Ord>⟧.cmp c d ≡ nat_cmp (unix_seconds c) (unix_seconds d) }
    ensures utc_times { (c d : Civil) → is_civil c ≡ true → is_civil d ≡ true
        → ⟦<UtcTime as Ord>⟧.cmp c d ≡ nat_cmp (unix_seconds c) (unix_seconds d) }
    ensures generalized_times { (c d : Civil) → is_civil c ≡ true → is_civil d ≡ true
        → ⟦<GeneralizedTime as Ord>⟧.cmp c d ≡ nat_cmp (unix_seconds c) (unix_seconds d) }
{}

/// Two dates with the same number of seconds, or the same text, are equal.
pub fn one_date()
    ensures by_seconds { (c d : Civil) → is_civil c ≡ true → is_civil d ≡ true
        → unix_seconds c ≡ unix_seconds d → c ≡ d }
    ensures by_text { (c d : Civil) → is_civil c ≡ true → is_civil d ≡ true
        → date_text c ≡ date_text d → c ≡ d }
{}
