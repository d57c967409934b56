//! The classes of tags.

ghost use Rattle.std.specs.Prelude.{◌≡◌, ◌*◌, ◌/◌, Some};
ghost use Rattle.der_core_head.specs.Classes.{class_number};
ghost use Rattle.der_core_head.specs.TagNames.{class_name};

use std::fmt;

/// The bits of the universal class in the first byte of a tag (X.690 8.1.2.2, table 1).
pub const CLASS_UNIVERSAL: u8 = 0x00;

/// The class bits of tags of the application class.
pub const CLASS_APPLICATION: u8 = 0x40;

/// The class bits of tags of the context-specific class.
pub const CLASS_CONTEXT_SPECIFIC: u8 = 0x80;

/// The class bits of tags of the private class.
pub const CLASS_PRIVATE: u8 = 0xc0;

/// The class of a tag: the two highest bits of its first byte (X.690 8.1.2.2).
#[derive(Clone, Copy, Debug, PartialEq, Eq, PartialOrd, Ord, Hash)]
pub enum Class {
    /// Types that mean the same everywhere.
    Universal,
    /// Types that an application defines.
    Application,
    /// Types whose meaning depends on the type that contains them.
    ContextSpecific,
    /// Types that an organization defines.
    Private,
}

impl Class {
    /// Returns the bits of the class in the first byte of a tag. All other bits are zero.
    pub fn bits(&self) -> u8
        ensures { result ≡ 64 * class_number self.now }
    {
        match self {
            Class::Universal => CLASS_UNIVERSAL,
            Class::Application => CLASS_APPLICATION,
            Class::ContextSpecific => CLASS_CONTEXT_SPECIFIC,
            Class::Private => CLASS_PRIVATE,
        }
    }

    /// Returns the class of a tag with this first byte. The six lower bits are ignored.
    pub fn from_bits(bits: u8) -> Class
        ensures { class_number result ≡ bits / 64 }
    {
        match bits / 64 {
            0 => Class::Universal,
            1 => Class::Application,
            2 => Class::ContextSpecific,
            _ => Class::Private,
        }
    }
}

impl From<u8> for Class {
    ghost from_gives = { λ bits class. class_number class ≡ bits / 64 };

    fn from(bits: u8) -> Class {
        Class::from_bits(bits)
    }
}

impl fmt::Display for Class {
    ghost output = { λ class. Some (class_name class) };

    fn fmt<W: fmt::Write>(&self, f: &mut fmt::Formatter<W>) -> fmt::Result {
        match self {
            Class::Universal => f.write_str("UNIVERSAL"),
            Class::Application => f.write_str("APPLICATION"),
            Class::ContextSpecific => f.write_str("CONTEXT-SPECIFIC"),
            Class::Private => f.write_str("PRIVATE"),
        }
    }
}
