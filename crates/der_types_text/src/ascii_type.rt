//! Character string types whose characters are ASCII.

ghost use Rattle.std.specs.Prelude.{◌≡◌, ◌<◌, ℕ, true};
ghost use Rattle.der_core.specs.TagTypes.Tag.{Tag};
ghost use Rattle.der_core.specs.Texts.{Repertoire, is_within};

use der_core::Tag;

/// A character string type whose characters are ASCII, one byte each (X.680 41, X.690 8.23). It
/// states its tag and its characters.
pub trait AsciiType {
    /// The tag of the type.
    ghost string_tag: { Tag };

    /// The bytes of its characters.
    ghost repertoire: { Repertoire };

    /// Returns the tag of the type.
    fn tag() -> Tag
        ensures { result ≡ string_tag };

    /// Returns the name of the type, with which the `Debug` text of its values begins.
    fn name() -> &'static str;

    /// Returns whether a byte is a character of the type.
    fn has_character(octet: u8) -> bool
        ensures { result ≡ is_within repertoire octet };

    /// All characters are ASCII.
    ghost is_ascii: { (b : ℕ) → is_within repertoire b ≡ true → b < 128 };
}
