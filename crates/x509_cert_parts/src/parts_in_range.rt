//! Impls of `InRange`: the OIDs, bytes and dates in algorithms, keys, extensions and validities are
//! in range. `SerialNumber` has no such impl, since it may be longer than its profile accepts.

use crate::algorithm_identifier::AlgorithmIdentifier;
use crate::extension::Extension;
use crate::subject_public_key_info::SubjectPublicKeyInfo;
use crate::time::Time;
use der_core::{InRange, InRangeValue, WithDefault};

impl InRangeValue for AlgorithmIdentifier {
    fn value_in_range(&self) {
        self.oid.in_range();
        self.parameters.in_range();
    }
}

impl InRangeValue for SubjectPublicKeyInfo {
    fn value_in_range(&self) {
        self.algorithm.in_range();
        self.subject_public_key.in_range();
    }
}

impl InRangeValue for Extension {
    fn value_in_range(&self) {
        let critical = WithDefault {
            value: self.critical,
        };
        self.extn_id.in_range();
        critical.in_range();
        self.extn_value.in_range();
    }
}

impl InRange for Time {
    fn in_range(&self) {
        match self {
            Time::UtcTime(date) => date.in_range(),
            Time::GeneralTime(date) => date.in_range(),
        }
    }
}
