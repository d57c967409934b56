//! The number of certificates by which a certification path may still grow.
ghost use Rattle.std.specs.Prelude.{◌≡◌, suc, not, ◌||◌};
ghost use Rattle.std.specs.Option.{is_some, option_map};
ghost use Rattle.cert_desk_rules.specs.Findings.{add_place, no_places, shorter};
ghost use Rattle.cert_desk_rules.specs.Paths.{is_within};

/// A limit for the certificates that may follow and that count for path lengths (RFC 5280 4.2.1.9,
/// 6.1.4 (l), (m)): there may be fewer than `below` of them, or any number if `below` is `None`. If
/// `below` is 0, there are too many already.
#[derive(Clone, Copy)]
pub struct PathRoom {
    below: Option<u16>,
}

impl PathRoom {
    /// Returns the state before the first certificate, without a limit.
    pub fn new() -> PathRoom
        ensures { result ≡ no_places }
    {
        PathRoom { below: None }
    }

    /// Returns whether there is a limit, so that it matters which certificates count.
    pub fn is_limited(&self) -> bool
        ensures { result ≡ is_some self.now.below }
    {
        self.below.is_some()
    }

    /// Returns whether one more certificate is allowed, which counts or doesn't.
    pub fn admits(&self, counts: bool) -> bool
        ensures { result ≡ (not counts || is_within 2 self.now.below) }
    {
        if !counts {
            return true;
        }
        match self.below {
            Some(below) => 2 <= below,
            None => true,
        }
    }

    /// Adds one certificate, which counts or doesn't, and may have a path length.
    pub fn add(&mut self, counts: bool, path_len: Option<u8>)
        ensures { self.new ≡ add_place self.old counts path_len }
    {
        let below = match self.below {
            Some(below) if counts => Some(below.saturating_sub(1)),
            below => below,
        };
        self.below = nearer(below, path_len);
    }
}

// Returns the smaller one of two limits: fewer than `below`, and at most a path length.
fn nearer(below: Option<u16>, path_len: Option<u8>) -> Option<u16>
    ensures { result ≡ shorter below (option_map suc path_len) }
{
    match (below, path_len) {
        (below, None) => below,
        (None, Some(most)) => Some(most as u16 + 1),
        (Some(below), Some(most)) => Some(below.min(most as u16 + 1)),
    }
}
