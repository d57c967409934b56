//! The rules that a certificate keeps at its position in a chain.
ghost use Rattle.std.specs.Prelude.{◌≡◌};
ghost use Rattle.cert_desk_rules.specs.KeptRules.{IsFirstOf, IsFirstUnsignedOf, kept_by};

use crate::rule::Rule;

/// The result of checking each rule for a certificate at its position in a chain. A field is true
/// if the certificate keeps the rule.
#[derive(Clone, Copy, Debug, PartialEq, Eq)]
pub struct KeptRules {
    /// Both signature algorithms are the same ([`Rule::AlgorithmsDiffer`]).
    pub one_algorithm: bool,
    /// No two extensions have the same OID ([`Rule::DuplicateExtension`]).
    pub distinct: bool,
    /// Each keyUsage, subjectAltName, basicConstraints and extKeyUsage can be decoded
    /// ([`Rule::MalformedExtension`]).
    pub well_formed: bool,
    /// Each critical extension is one of these four ([`Rule::UnweighedCritical`]).
    pub known: bool,
    /// The issuer's name matches ([`Rule::WrongIssuer`]).
    pub linked: bool,
    /// The validation time isn't before the validity period ([`Rule::NotYetValid`]).
    pub begun: bool,
    /// The validation time isn't after the validity period ([`Rule::Expired`]).
    pub lasting: bool,
    /// The key purpose is allowed ([`Rule::AgainstPurpose`]).
    pub serving: bool,
    /// The certificate is the last one, or that of a CA whose key may sign certificates
    /// ([`Rule::NotAuthority`]).
    pub issuing: bool,
    /// The certification path is within the path lengths ([`Rule::PathTooLong`]).
    pub within_lengths: bool,
    /// The signature verifier accepts the signature ([`Rule::WrongSignature`]).
    pub signed: bool,
}

impl KeptRules {
    /// Returns whether the certificate keeps a rule.
    pub fn keeps(&self, rule: Rule) -> bool
        ensures { result ≡ kept_by self.now rule }
    {
        match rule {
            Rule::AlgorithmsDiffer => self.one_algorithm,
            Rule::DuplicateExtension => self.distinct,
            Rule::MalformedExtension => self.well_formed,
            Rule::UnweighedCritical => self.known,
            Rule::WrongIssuer => self.linked,
            Rule::NotYetValid => self.begun,
            Rule::Expired => self.lasting,
            Rule::AgainstPurpose => self.serving,
            Rule::NotAuthority => self.issuing,
            Rule::PathTooLong => self.within_lengths,
            Rule::WrongSignature => self.signed,
        }
    }

    /// Returns the first rule that the certificate breaks, in the order in which rules are checked.
    pub fn first_broken(&self) -> Option<Rule>
        ensures { IsFirstOf self.now result }
    {
        if let Some(rule) = self.first_before_signature() {
            return Some(rule);
        }
        if !self.signed {
            return Some(Rule::WrongSignature);
        }
        None
    }

    /// Returns the first rule that the certificate breaks, of those that need no signature
    /// verifier.
    pub fn first_before_signature(&self) -> Option<Rule>
        ensures { IsFirstUnsignedOf self.now result }
    {
        if !self.one_algorithm {
            return Some(Rule::AlgorithmsDiffer);
        }
        if !self.distinct {
            return Some(Rule::DuplicateExtension);
        }
        if !self.well_formed {
            return Some(Rule::MalformedExtension);
        }
        if !self.known {
            return Some(Rule::UnweighedCritical);
        }
        if !self.linked {
            return Some(Rule::WrongIssuer);
        }
        if !self.begun {
            return Some(Rule::NotYetValid);
        }
        if !self.lasting {
            return Some(Rule::Expired);
        }
        if !self.serving {
            return Some(Rule::AgainstPurpose);
        }
        if !self.issuing {
            return Some(Rule::NotAuthority);
        }
        if !self.within_lengths {
            return Some(Rule::PathTooLong);
        }
        None
    }
}
