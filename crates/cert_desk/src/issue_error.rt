//! The errors of issuing a chain.

use thiserror::Error;
use x509_cert_builders as builder;

/// Why no chain is issued. `place` is the index of the order, counted from 0.
#[derive(Debug, Drop, Error)]
pub enum IssueError {
    /// There are no orders.
    #[error("there is no order")]
    NoOrders,
    /// The number of signers is wrong. A single order needs one signer, and more orders need one
    /// for each order but the last.
    #[error("signers and orders don't fit together")]
    SignerCount,
    /// The text isn't a name.
    #[error("order {place}: the name isn't read")]
    Name { place: usize },
    /// The name isn't allowed for a root CA.
    #[error("order {place}: {error}")]
    RootName { place: usize, error: builder::Error },
    /// The name has an attribute that is neither a country nor a common name.
    #[error("order {place}: an attribute may not stand there")]
    SubscriberName { place: usize },
    /// The serial number has no bytes, or its DER content would have more than 20.
    #[error("order {place}: the serial number")]
    Serial { place: usize },
    /// A text isn't a date, or the validity period ends before it starts.
    #[error("order {place}: the dates")]
    Dates { place: usize },
    /// There is no DNS name, or one that isn't ASCII.
    #[error("order {place}: the DNS names")]
    DnsName { place: usize },
    /// The signer's key isn't that of the order.
    #[error("order {place}: the signer has another key")]
    KeyMismatch { place: usize },
    /// The signer refuses to sign the TBSCertificate.
    #[error("order {place}: the signer refuses")]
    Signer { place: usize },
    /// A length exceeds 2^32 - 1.
    #[error("order {place}: too long")]
    TooLong { place: usize },
    /// Memory ran out, in this call or in a signer.
    #[error("out of memory")]
    OutOfMemory,
}
