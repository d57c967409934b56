//! Impls that state that dates are in range: each is a date of the calendar, and through 2049 for
//! UTCTime.

use crate::date_time::DateTime;
use crate::generalized_time::GeneralizedTime;
use crate::utc_time::UtcTime;
use der_core::InRangeValue;

impl InRangeValue for DateTime {
    fn value_in_range(&self) {
        GeneralizedTime::from_date_time(*self).value_in_range();
    }
}

impl InRangeValue for UtcTime {
    fn value_in_range(&self) {
        let _date = self.to_date_time();
    }
}

impl InRangeValue for GeneralizedTime {
    fn value_in_range(&self) {
        let _date = self.to_date_time();
    }
}
