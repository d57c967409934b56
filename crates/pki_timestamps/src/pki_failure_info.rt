//! PkiFailureInfo.

ghost use Rattle.std.specs.Prelude.{⊤, [], ◌∷◌, codes, refl};
ghost use Rattle.bitflags.specs.Sets.{known_from};

use bitflags::{Flag, Flags, bitflag_items};
use der_types::{FlagSet, NamedBits};

/// The named bits of PKIFailureInfo, the first the lowest.
#[derive(Clone, Copy, Debug, PartialEq, Eq)]
pub struct PkiFailureInfoBits(u32);

bitflag_items! {
    impl PkiFailureInfoBits: u32 {
        const BadAlg = 1;
        const Bit1 = 2;
        const BadRequest = 4;
        const Bit3 = 8;
        const Bit4 = 16;
        const BadDataFormat = 32;
        const Bit6 = 64;
        const Bit7 = 128;
        const Bit8 = 256;
        const Bit9 = 512;
        const Bit10 = 1024;
        const Bit11 = 2048;
        const Bit12 = 4096;
        const Bit13 = 8192;
        const TimeNotAvailable = 16384;
        const UnacceptedPolicy = 32768;
        const UnacceptedExtension = 65536;
        const AddInfoNotAvailable = 131072;
        const Bit18 = 262144;
        const Bit19 = 524288;
        const Bit20 = 1048576;
        const Bit21 = 2097152;
        const Bit22 = 4194304;
        const Bit23 = 8388608;
        const Bit24 = 16777216;
        const SystemFailure = 33554432;
    }
}

impl Flags for PkiFailureInfoBits {
    type Bits = u32;

    ghost exact = { ⊤ };

    ghost table = { (codes "BadAlg", 1)
        ∷ (codes "Bit1", 2)
        ∷ (codes "BadRequest", 4)
        ∷ (codes "Bit3", 8)
        ∷ (codes "Bit4", 16)
        ∷ (codes "BadDataFormat", 32)
        ∷ (codes "Bit6", 64)
        ∷ (codes "Bit7", 128)
        ∷ (codes "Bit8", 256)
        ∷ (codes "Bit9", 512)
        ∷ (codes "Bit10", 1024)
        ∷ (codes "Bit11", 2048)
        ∷ (codes "Bit12", 4096)
        ∷ (codes "Bit13", 8192)
        ∷ (codes "TimeNotAvailable", 16384)
        ∷ (codes "UnacceptedPolicy", 32768)
        ∷ (codes "UnacceptedExtension", 65536)
        ∷ (codes "AddInfoNotAvailable", 131072)
        ∷ (codes "Bit18", 262144)
        ∷ (codes "Bit19", 524288)
        ∷ (codes "Bit20", 1048576)
        ∷ (codes "Bit21", 2097152)
        ∷ (codes "Bit22", 4194304)
        ∷ (codes "Bit23", 8388608)
        ∷ (codes "Bit24", 16777216)
        ∷ (codes "SystemFailure", 33554432)
        ∷ [] };

    ghost set_of = { λ x. x.0 };

    fn flags<'a>() -> &'a [Flag<PkiFailureInfoBits>] {
        PkiFailureInfoBits::FLAGS
    }

    fn bits(&self) -> u32 {
        self.0
    }

    fn from_bits_retain(bits: u32) -> PkiFailureInfoBits {
        PkiFailureInfoBits(bits)
    }
}

impl NamedBits for PkiFailureInfoBits {
    ghost names = { 26 };

    fn names() -> u32 {
        26
    }

    fn to_number(&self) -> u64 {
        u64::from(self.0)
    }

    fn from_number(number: u64) -> PkiFailureInfoBits {
        PkiFailureInfoBits(number as u32)
    }

    ghost stated = { tt };

    ghost known = { unfold known_from in refl };
}

/// A bit after the last name is rejected.
///
/// ```text
/// PKIFailureInfo ::= BIT STRING {
///     badAlg               (0),
///       -- unrecognized or unsupported Algorithm Identifier
///     badRequest           (2),
///       -- transaction not permitted or supported
///     badDataFormat        (5),
///       -- the data submitted has the wrong format
///     timeNotAvailable    (14),
///       -- the TSA's time source is not available
///     unacceptedPolicy    (15),
///       -- the requested TSA policy is not supported by the TSA.
///     unacceptedExtension (16),
///       -- the requested extension is not supported by the TSA.
///     addInfoNotAvailable (17),
///       -- the additional information requested could not be understood
///       -- or is not available
///     systemFailure       (25)
///       -- the request cannot be handled due to system failure
/// }
/// ```
pub type PkiFailureInfo = FlagSet<PkiFailureInfoBits>;
