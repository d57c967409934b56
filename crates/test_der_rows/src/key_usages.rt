//! Named bits: the key usages of certificates (RFC 5280 4.2.1.3).

ghost use Rattle.std.specs.Prelude.{⊤, [], ◌∷◌, codes, refl};
ghost use Rattle.bitflags.specs.Sets.{known_from};

use crate::questions::{Asked, Question, answer_with_contents};
use crate::refusals::Refusal;
use crate::shown::read;
use bitflags::{Flag, Flags};
use der_types::{FlagSet, NamedBits};
use std::alloc::{AllocError, Global};

/// Key usages, with the first one in the lowest bit.
#[derive(Clone, Copy)]
pub struct KeyUsages(u16);

impl KeyUsages {
    const DIGITAL_SIGNATURE: KeyUsages = KeyUsages(1);

    const NON_REPUDIATION: KeyUsages = KeyUsages(2);

    const KEY_ENCIPHERMENT: KeyUsages = KeyUsages(4);

    const DATA_ENCIPHERMENT: KeyUsages = KeyUsages(8);

    const KEY_AGREEMENT: KeyUsages = KeyUsages(16);

    const KEY_CERT_SIGN: KeyUsages = KeyUsages(32);

    const CRL_SIGN: KeyUsages = KeyUsages(64);

    const ENCIPHER_ONLY: KeyUsages = KeyUsages(128);

    const DECIPHER_ONLY: KeyUsages = KeyUsages(256);

    const FLAGS: &'static [Flag<KeyUsages>] = &[
        Flag {
            name: "DIGITAL_SIGNATURE",
            value: KeyUsages::DIGITAL_SIGNATURE,
        },
        Flag {
            name: "NON_REPUDIATION",
            value: KeyUsages::NON_REPUDIATION,
        },
        Flag {
            name: "KEY_ENCIPHERMENT",
            value: KeyUsages::KEY_ENCIPHERMENT,
        },
        Flag {
            name: "DATA_ENCIPHERMENT",
            value: KeyUsages::DATA_ENCIPHERMENT,
        },
        Flag {
            name: "KEY_AGREEMENT",
            value: KeyUsages::KEY_AGREEMENT,
        },
        Flag {
            name: "KEY_CERT_SIGN",
            value: KeyUsages::KEY_CERT_SIGN,
        },
        Flag {
            name: "CRL_SIGN",
            value: KeyUsages::CRL_SIGN,
        },
        Flag {
            name: "ENCIPHER_ONLY",
            value: KeyUsages::ENCIPHER_ONLY,
        },
        Flag {
            name: "DECIPHER_ONLY",
            value: KeyUsages::DECIPHER_ONLY,
        },
    ];
}

impl Flags for KeyUsages {
    type Bits = u16;

    ghost exact = { ⊤ };

    ghost table = { (codes "DIGITAL_SIGNATURE", 1) ∷ (codes "NON_REPUDIATION", 2)
        ∷ (codes "KEY_ENCIPHERMENT", 4) ∷ (codes "DATA_ENCIPHERMENT", 8)
        ∷ (codes "KEY_AGREEMENT", 16) ∷ (codes "KEY_CERT_SIGN", 32) ∷ (codes "CRL_SIGN", 64)
        ∷ (codes "ENCIPHER_ONLY", 128) ∷ (codes "DECIPHER_ONLY", 256) ∷ [] };

    ghost set_of = { λ k. k.0 };

    fn flags<'a>() -> &'a [Flag<KeyUsages>] {
        KeyUsages::FLAGS
    }

    fn bits(&self) -> u16 {
        self.0
    }

    fn from_bits_retain(bits: u16) -> KeyUsages {
        KeyUsages(bits)
    }
}

impl NamedBits for KeyUsages {
    ghost names = { 9 };

    fn names() -> u32 {
        9
    }

    fn to_number(&self) -> u64 {
        u64::from(self.0)
    }

    fn from_number(number: u64) -> KeyUsages {
        KeyUsages(number as u16)
    }

    ghost stated = { tt };

    ghost known = { unfold known_from in refl };
}

/// Returns the answer for sets of key usages, whose text is their names.
pub fn answer(alloc: Global, question: &Question<'_>) -> Result<String, Refusal> {
    match question.asked {
        Asked::Text => Ok(names_of(alloc, read(alloc, question.first)?)?),
        _ => answer_with_contents::<FlagSet<KeyUsages>>(alloc, question),
    }
}

/// Returns the names of a set, in the order of their bits.
fn names_of(alloc: Global, usages: FlagSet<KeyUsages>) -> Result<String, AllocError> {
    let mut names = String::new(alloc);
    for flag in KeyUsages::FLAGS {
        if usages.contains(flag.value) {
            if !names.is_empty() {
                names.push(' ')?;
            }
            names.push_str(flag.name)?;
        }
    }
    Ok(names)
}

/// Parses the names of a set. `ALL` means all of them.
pub fn named(names: &str) -> Result<FlagSet<KeyUsages>, Refusal> {
    let mut usages = FlagSet::empty();
    for name in names.split_whitespace() {
        usages = usages.union(usage(name)?);
    }
    Ok(usages)
}

/// Returns the set with one name, or with all.
fn usage(name: &str) -> Result<FlagSet<KeyUsages>, Refusal> {
    let usage = match name {
        "ALL" => return Ok(FlagSet::full()),
        "DIGITAL_SIGNATURE" => KeyUsages::DIGITAL_SIGNATURE,
        "NON_REPUDIATION" => KeyUsages::NON_REPUDIATION,
        "KEY_ENCIPHERMENT" => KeyUsages::KEY_ENCIPHERMENT,
        "DATA_ENCIPHERMENT" => KeyUsages::DATA_ENCIPHERMENT,
        "KEY_AGREEMENT" => KeyUsages::KEY_AGREEMENT,
        "KEY_CERT_SIGN" => KeyUsages::KEY_CERT_SIGN,
        "CRL_SIGN" => KeyUsages::CRL_SIGN,
        "ENCIPHER_ONLY" => KeyUsages::ENCIPHER_ONLY,
        "DECIPHER_ONLY" => KeyUsages::DECIPHER_ONLY,
        _ => return Err(Refusal::Unread),
    };
    Ok(FlagSet::from_flag(usage))
}
