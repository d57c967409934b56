//! The modes of tags.

ghost use Rattle.std.specs.Prelude.{◌≡◌, Some};
ghost use Rattle.der_core_head.specs.declared.tag_mode.TagMode.TheVariants.{Explicit};
ghost use Rattle.der_core_head.specs.ModeNames.{mode_name, mode_named};
ghost use Rattle.der_core_head.specs.Reading.{GivesNow};

use crate::error::{Error, ErrorKind};
use std::fmt;
use std::str::FromStr;

/// The way in which a tag relates to the tag of the type (X.690 8.14).
#[derive(Clone, Copy, Debug, PartialEq, Eq, PartialOrd, Ord, Hash)]
pub enum TagMode {
    /// The tag is encoded before that of the type.
    Explicit,
    /// The tag replaces that of the type.
    Implicit,
}

/// The default is `EXPLICIT`.
impl Default for TagMode {
    ghost is_default = { λ mode. mode ≡ Explicit };

    fn default() -> TagMode {
        TagMode::Explicit
    }
}

/// Parses `EXPLICIT`, `explicit`, `IMPLICIT` and `implicit`. Anything else is `TagModeUnknown`.
impl FromStr for TagMode {
    type Err = Error;

    ghost from_str_gives = { λ text r. GivesNow (λ mode. mode) r (mode_named text) };

    fn from_str(s: &str) -> Result<TagMode, Error> {
        if s == "EXPLICIT" || s == "explicit" {
            Ok(TagMode::Explicit)
        } else if s == "IMPLICIT" || s == "implicit" {
            Ok(TagMode::Implicit)
        } else {
            Err(Error::from(ErrorKind::TagModeUnknown))
        }
    }
}

impl fmt::Display for TagMode {
    ghost output = { λ mode. Some (mode_name mode) };

    fn fmt<W: fmt::Write>(&self, f: &mut fmt::Formatter<W>) -> fmt::Result {
        match self {
            TagMode::Explicit => f.write_str("EXPLICIT"),
            TagMode::Implicit => f.write_str("IMPLICIT"),
        }
    }
}
