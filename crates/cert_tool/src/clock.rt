//! The clock that `--at now` reads.

ghost use Rattle.std.specs.Prelude.{⊤, ℕ, Option};

use std::time::{SystemTime, UNIX_EPOCH};

/// A clock that returns the time in seconds since 1970-01-01T00:00:00Z.
pub trait UnixClock {
    /// The clock may return this: a number of seconds since 1970-01-01T00:00:00Z, or nothing.
    ghost tells: { Self → Option ℕ → Type 0 };

    /// Returns the seconds since 1970-01-01T00:00:00Z, or `None` if the clock can't be read or
    /// shows an earlier time.
    fn seconds(&self) -> Option<u64>
        ensures told { tells self.now result };
}

/// The system's clock.
#[derive(Drop)]
pub struct HostClock<'a> {
    rt: &'a HostRuntime,
}

impl<'a> HostClock<'a> {
    /// Returns the system's clock.
    pub fn new(rt: &'a HostRuntime) -> HostClock<'a> {
        HostClock { rt }
    }
}

impl UnixClock for HostClock<'_> {
    ghost tells = { λ _ _. ⊤ };

    fn seconds(&self) -> Option<u64> {
        let Ok(now) = SystemTime::now(self.rt) else {
            return None;
        };
        match now.duration_since(UNIX_EPOCH) {
            Ok(passed) => Some(passed.as_secs()),
            Err(_) => None,
        }
    }
}
