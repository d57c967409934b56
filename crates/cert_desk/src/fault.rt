//! Why an order is rejected.

ghost use Rattle.std.specs.Prelude.{◌≡◌};
ghost use Rattle.cert_desk.specs.Refusals.{fault_at};

use crate::issue_error::IssueError;
use x509_cert_builders::Error;

/// Why an order is rejected, whatever its index.
#[derive(Drop)]
pub(crate) enum Fault {
    /// The text isn't a name.
    Name,
    /// The name isn't allowed for a root CA.
    RootName(Error),
    /// The name has an attribute that is neither a country nor a common name.
    SubscriberName,
    /// The serial number has no bytes, or its DER content would have more than 20.
    Serial,
    /// A text isn't a date, or the validity period ends before it starts.
    Dates,
    /// The order for an end entity has no DNS name, or one that isn't ASCII.
    DnsName,
    /// The signer's key isn't that of the order.
    KeyMismatch,
    /// Memory ran out.
    OutOfMemory,
}

impl Fault {
    /// Returns the error for the order at an index.
    pub(crate) fn at(self, place: usize) -> IssueError
        ensures { result ≡ fault_at place self }
    {
        match self {
            Fault::Name => IssueError::Name { place },
            Fault::RootName(error) => IssueError::RootName { place, error },
            Fault::SubscriberName => IssueError::SubscriberName { place },
            Fault::Serial => IssueError::Serial { place },
            Fault::Dates => IssueError::Dates { place },
            Fault::DnsName => IssueError::DnsName { place },
            Fault::KeyMismatch => IssueError::KeyMismatch { place },
            Fault::OutOfMemory => IssueError::OutOfMemory,
        }
    }
}
