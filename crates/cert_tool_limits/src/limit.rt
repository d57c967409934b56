//! The limits that no rule of path validation checks.

ghost use Rattle.std.specs.Prelude.{Some};
ghost use Rattle.cert_tool_limits.specs.Limits.{limit_name};

use cert_desk_rules::Rule;
use std::fmt;

/// A limit that a chain breaks, though it keeps every rule of path validation.
#[derive(Clone, Copy, Debug, PartialEq, Eq)]
pub enum Limit {
    /// The end-entity certificate isn't issued for the host (RFC 9525 6).
    WrongHost,
    /// The end entity's key usage isn't consistent with the key purpose (RFC 5280 4.2.1.12).
    WrongKeyUsage,
    /// A certificate has nameConstraints, which aren't checked (4.2.1.10).
    ConstrainedNames,
    /// The trust anchor has nameConstraints.
    AnchorConstrainedNames,
    /// The trust anchor breaks this rule of certificates.
    Anchor(Rule),
}

impl fmt::Display for Limit {
    ghost output = { λ limit. Some (limit_name limit) };

    fn fmt<W: fmt::Write>(&self, f: &mut fmt::Formatter<W>) -> fmt::Result {
        match self {
            Limit::WrongHost => f.write_str("WrongHost"),
            Limit::WrongKeyUsage => f.write_str("WrongKeyUsage"),
            Limit::ConstrainedNames => f.write_str("ConstrainedNames"),
            Limit::AnchorConstrainedNames => f.write_str("AnchorConstrainedNames"),
            Limit::Anchor(rule) => write!(f, "Anchor{rule}"),
        }
    }
}
