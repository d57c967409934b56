//! Findings: the facts about all extensions of a certificate that the rules need.
ghost use Rattle.std.specs.Prelude.{◌≡◌, ◌&&◌, ◌||◌};
ghost use Rattle.cert_desk_rules.specs.Findings.{add, no_findings, shorter};

use crate::weight::Weight;

/// The findings about a certificate's extensions.
#[derive(Clone, Copy)]
pub struct Findings {
    /// A keyUsage, subjectAltName, basicConstraints or extKeyUsage can't be decoded.
    pub malformed: bool,
    /// A critical extension is none of these four.
    pub unweighed_critical: bool,
    /// Each extKeyUsage lists the key purpose of the check, or `anyExtendedKeyUsage` (RFC 5280
    /// 4.2.1.12).
    pub serves: bool,
    /// An extension makes the subject a CA (RFC 5280 4.2.1.9).
    pub ca: bool,
    /// Each keyUsage allows signing certificates (RFC 5280 4.2.1.3).
    pub certifies: bool,
    /// The least `pathLenConstraint`, if there is one.
    pub path_len: Option<u8>,
}

impl Findings {
    /// Returns the findings about no extensions.
    pub fn none() -> Findings
        ensures { result ≡ no_findings }
    {
        Findings {
            malformed: false,
            unweighed_critical: false,
            serves: true,
            ca: false,
            certifies: true,
            path_len: None,
        }
    }

    /// Adds the findings about one more extension.
    pub fn add(&mut self, critical: bool, weight: Weight)
        ensures { self.new ≡ add self.old critical weight }
    {
        match weight {
            Weight::Unweighed => {
                self.unweighed_critical = self.unweighed_critical || critical;
            }
            Weight::Malformed => self.malformed = true,
            Weight::KeyUsage { certifies } => self.certifies = self.certifies && certifies,
            Weight::AlternativeNames => {}
            Weight::Constraints { ca, path_len } => {
                self.ca = self.ca || ca;
                self.path_len = shorter(self.path_len, path_len);
            }
            Weight::Purposes { serves } => self.serves = self.serves && serves,
        }
    }

    /// Returns whether the certificate is the last one, or that of a CA whose key may sign
    /// certificates.
    pub fn may_issue(&self, is_last: bool) -> bool
        ensures { result ≡ (is_last || (self.now.ca && self.now.certifies)) }
    {
        is_last || (self.ca && self.certifies)
    }
}

/// Returns the smaller of two path lengths, either of which may be absent.
pub fn shorter(one: Option<u8>, other: Option<u8>) -> Option<u8>
    ensures { result ≡ shorter one other }
{
    match (one, other) {
        (None, length) => length,
        (length, None) => length,
        (Some(one), Some(other)) => Some(if one <= other { one } else { other }),
    }
}
