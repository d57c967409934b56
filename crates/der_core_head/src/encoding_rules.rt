//! Encoding rules.

ghost use Rattle.std.specs.Prelude.{◌≡◌, ◌↔◌, IsTrue, Some};
ghost use Rattle.der_core_head.specs.declared.encoding_rules.EncodingRules.TheVariants.{Ber, Der};
ghost use Rattle.der_core_head.specs.ModeNames.{rules_name, rules_named};
ghost use Rattle.der_core_head.specs.Reading.{GivesNow};

use crate::error::{Error, ErrorKind};
use std::fmt;
use std::str::FromStr;

/// The rules under which bytes are decoded (X.690 8, 10).
#[derive(Clone, Copy, Debug, PartialEq, Eq, PartialOrd, Ord, Hash)]
pub enum EncodingRules {
    /// The basic encoding rules: lengths may be indefinite.
    Ber,
    /// The distinguished encoding rules: one encoding for each value.
    Der,
}

impl EncodingRules {
    /// Returns whether these are the basic encoding rules.
    pub fn is_ber(self) -> bool
        ensures { IsTrue result ↔ (self ≡ Ber) }
    {
        matches!(self, EncodingRules::Ber)
    }

    /// Returns whether these are the distinguished encoding rules.
    pub fn is_der(self) -> bool
        ensures { IsTrue result ↔ (self ≡ Der) }
    {
        matches!(self, EncodingRules::Der)
    }
}

/// The default is `DER`.
impl Default for EncodingRules {
    ghost is_default = { λ rules. rules ≡ Der };

    fn default() -> EncodingRules {
        EncodingRules::Der
    }
}

/// Parses `BER`, `ber`, `DER` and `der`. Anything else is the error `EncodingRules`.
impl FromStr for EncodingRules {
    type Err = Error;

    ghost from_str_gives = { λ text r. GivesNow (λ rules. rules) r (rules_named text) };

    fn from_str(s: &str) -> Result<EncodingRules, Error> {
        if s == "BER" || s == "ber" {
            Ok(EncodingRules::Ber)
        } else if s == "DER" || s == "der" {
            Ok(EncodingRules::Der)
        } else {
            Err(Error::from(ErrorKind::EncodingRules))
        }
    }
}

impl fmt::Display for EncodingRules {
    ghost output = { λ rules. Some (rules_name rules) };

    fn fmt<W: fmt::Write>(&self, f: &mut fmt::Formatter<W>) -> fmt::Result {
        match self {
            EncodingRules::Ber => f.write_str("BER"),
            EncodingRules::Der => f.write_str("DER"),
        }
    }
}
