//! The rules for the certificates of a chain (RFC 5280 6.1).
ghost use Rattle.std.specs.Prelude.{◌≡◌, Some};
ghost use Rattle.cert_desk_rules.specs.Judging.{number, rule_name};

use std::fmt;

/// The rules that a certificate of a chain can break, in the order in which they are checked (RFC
/// 5280 6.1).
#[derive(Clone, Copy, Debug, PartialEq, Eq)]
pub enum Rule {
    /// `signature` in the TBSCertificate differs from `signatureAlgorithm` (RFC 5280 4.1.1.2).
    AlgorithmsDiffer,
    /// Two extensions have the same OID (RFC 5280 4.2).
    DuplicateExtension,
    /// A keyUsage, subjectAltName, basicConstraints or extKeyUsage can't be decoded.
    MalformedExtension,
    /// A critical extension isn't a keyUsage, subjectAltName, basicConstraints or extKeyUsage, so
    /// it isn't processed (RFC 5280 4.2).
    UnweighedCritical,
    /// The issuer's name doesn't match: it isn't the subject of the certificate before or, for the
    /// first certificate, the name of any trust anchor (RFC 5280 6.1.3 (a)(4)). Names are compared
    /// by their bytes.
    WrongIssuer,
    /// The validation time is before the validity period (RFC 5280 6.1.3 (a)(2)).
    NotYetValid,
    /// The validation time is after the validity period (RFC 5280 6.1.3 (a)(2)).
    Expired,
    /// An extKeyUsage has neither the key purpose of the check nor anyExtendedKeyUsage (RFC 5280
    /// 4.2.1.12).
    AgainstPurpose,
    /// The certificate isn't the last, and isn't that of a CA whose key may sign certificates (RFC
    /// 5280 6.1.4 (k), (n)).
    NotAuthority,
    /// The certification path is longer than an earlier certificate allows (RFC 5280 6.1.4 (l),
    /// (m)).
    PathTooLong,
    /// The signature verifier doesn't accept the signature over the TBSCertificate under the
    /// issuer's key (RFC 5280 6.1.3 (a)(1)).
    WrongSignature,
}

/// All rules, in the order in which they are checked.
pub const RULES: [Rule; 11] = [
    Rule::AlgorithmsDiffer,
    Rule::DuplicateExtension,
    Rule::MalformedExtension,
    Rule::UnweighedCritical,
    Rule::WrongIssuer,
    Rule::NotYetValid,
    Rule::Expired,
    Rule::AgainstPurpose,
    Rule::NotAuthority,
    Rule::PathTooLong,
    Rule::WrongSignature,
];

impl fmt::Display for Rule {
    ghost output = { λ rule. Some (rule_name rule) };

    fn fmt<W: fmt::Write>(&self, f: &mut fmt::Formatter<W>) -> fmt::Result {
        let name = match self {
            Rule::AlgorithmsDiffer => "AlgorithmsDiffer",
            Rule::DuplicateExtension => "DuplicateExtension",
            Rule::MalformedExtension => "MalformedExtension",
            Rule::UnweighedCritical => "UnweighedCritical",
            Rule::WrongIssuer => "WrongIssuer",
            Rule::NotYetValid => "NotYetValid",
            Rule::Expired => "Expired",
            Rule::AgainstPurpose => "AgainstPurpose",
            Rule::NotAuthority => "NotAuthority",
            Rule::PathTooLong => "PathTooLong",
            Rule::WrongSignature => "WrongSignature",
        };
        f.write_str(name)
    }
}

/// Returns the number of a rule, from 1 to 11, in the order in which rules are checked. C programs
/// get this number.
pub fn rule_number(rule: Rule) -> u64
    ensures { result ≡ number rule }
{
    match rule {
        Rule::AlgorithmsDiffer => 1,
        Rule::DuplicateExtension => 2,
        Rule::MalformedExtension => 3,
        Rule::UnweighedCritical => 4,
        Rule::WrongIssuer => 5,
        Rule::NotYetValid => 6,
        Rule::Expired => 7,
        Rule::AgainstPurpose => 8,
        Rule::NotAuthority => 9,
        Rule::PathTooLong => 10,
        Rule::WrongSignature => 11,
    }
}
