//! Why a certificate breaks a rule.

/// Why a certificate breaks a rule, for rules that can be broken in several ways. Extensions are
/// counted from 0, in the order of the certificate.
#[derive(Clone, Copy, Debug, PartialEq, Eq)]
pub enum Reason {
    /// The extension at this index breaks the rule: it can't be decoded; it is critical and isn't
    /// processed; it is an extKeyUsage without the key purpose of the check; or it is a keyUsage
    /// without `keyCertSign`.
    Extension(usize),
    /// The extensions at these two indexes have the same OID.
    Twins {
        /// The index of the first one.
        first: usize,
        /// The index of the second one.
        second: usize,
    },
    /// No basic constraints make the subject a CA (RFC 5280 4.2.1.9).
    NoConstraints,
    /// More certificates follow than the path length of the certificate at this index allows.
    PathLength {
        /// The index of that certificate, which is before the rejected one.
        place: usize,
    },
}
