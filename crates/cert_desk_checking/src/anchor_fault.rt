//! The errors of a trust anchor in a file.
ghost use Rattle.std.specs.Prelude.{Some};
ghost use Rattle.cert_desk_checking.specs.Lines.{fault_name};

use std::fmt;

/// Why a trust anchor in a file is rejected.
#[derive(Clone, Copy, Debug, PartialEq, Eq)]
pub enum AnchorFault {
    /// The bytes don't begin with a trust anchor (RFC 5914 2).
    Malformed,
    /// The trust anchor is a key without a name.
    NoName,
    /// The trust anchor is a key with conditions on certification paths besides the name (RFC 5914
    /// 2.5).
    PathControls,
}

impl fmt::Display for AnchorFault {
    ghost output = { λ fault. Some (fault_name fault) };

    fn fmt<W: fmt::Write>(&self, f: &mut fmt::Formatter<W>) -> fmt::Result {
        let name = match self {
            AnchorFault::Malformed => "malformed",
            AnchorFault::NoName => "no name",
            AnchorFault::PathControls => "path controls",
        };
        f.write_str(name)
    }
}
