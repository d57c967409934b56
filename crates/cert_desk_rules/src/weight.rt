//! The facts about one extension that the rules need.

/// The facts about an extension that the rules of a chain need (RFC 5280 4.2.1). Only four kinds of
/// extensions are checked, which are listed here.
#[derive(Clone, Copy)]
pub enum Weight {
    /// The extension is of no checked kind. In the words of RFC 5280, it isn't processed.
    Unweighed,
    /// The extension is of a checked kind, but can't be decoded.
    Malformed,
    /// A keyUsage (RFC 5280 4.2.1.3), which allows signing certificates if `certifies`.
    KeyUsage { certifies: bool },
    /// A subjectAltName (RFC 5280 4.2.1.6). The rules only require that it can be decoded.
    AlternativeNames,
    /// Basic constraints (RFC 5280 4.2.1.9).
    Constraints { ca: bool, path_len: Option<u8> },
    /// An extKeyUsage (RFC 5280 4.2.1.12). If `serves`, it lists the key purpose of the check or
    /// `anyExtendedKeyUsage`.
    Purposes { serves: bool },
}
