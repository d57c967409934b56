//! The types `KeyUsage` and `KeyUsages`.

ghost use Rattle.std.specs.Prelude.{◌≡◌, ⊤, refl};
ghost use Rattle.bitflags.specs.Sets.{known_from};
ghost use Rattle.x509_cert_extensions.specs.NamedBits as bits;
ghost use Rattle.x509_cert_extensions.specs.NamedBits.{bit_of, has_bit, key_usage_flags};

use bitflags::{Flag, Flags, bitflag_items};
use x509_cert_policies::der::describing::{AsField, Described, Ordered, Wraps};
use x509_cert_policies::types::{FlagSet, NamedBits};

/// A usage of a key as a bit (RFC 5280 4.2.1.3). The first bit of the BIT STRING is the least
/// significant one.
#[derive(Clone, Copy, Debug, PartialEq, Eq)]
pub struct KeyUsages(u16);

bitflag_items! {
    impl KeyUsages: u16 {
        const DigitalSignature = 1;
        const NonRepudiation = 2;
        const KeyEncipherment = 4;
        const DataEncipherment = 8;
        const KeyAgreement = 16;
        const KeyCertSign = 32;
        const CRLSign = 64;
        const EncipherOnly = 128;
        const DecipherOnly = 256;
    }
}

impl Flags for KeyUsages {
    type Bits = u16;

    ghost exact = { ⊤ };

    ghost table = { key_usage_flags };

    ghost set_of = { λ x. x.0 };

    fn flags<'a>() -> &'a [Flag<KeyUsages>] {
        KeyUsages::FLAGS
    }

    fn bits(&self) -> u16 {
        self.0
    }

    fn from_bits_retain(bits: u16) -> KeyUsages {
        KeyUsages(bits)
    }
}

impl NamedBits for KeyUsages {
    ghost names = { 9 };

    fn names() -> u32 {
        9
    }

    fn to_number(&self) -> u64 {
        u64::from(self.0)
    }

    fn from_number(number: u64) -> KeyUsages {
        KeyUsages(number as u16)
    }

    ghost stated = { tt };

    ghost known = { unfold known_from in refl };
}

/// The usages of a certificate's key (RFC 5280 4.2.1.3).
///
/// ```text
/// KeyUsage ::= BIT STRING {
///     digitalSignature (0), nonRepudiation (1), keyEncipherment (2), dataEncipherment (3),
///     keyAgreement (4), keyCertSign (5), cRLSign (6), encipherOnly (7), decipherOnly (8) }
/// ```
#[derive(Clone, Copy, Debug, PartialEq, Eq)]
pub struct KeyUsage(pub FlagSet<KeyUsages>);

impl KeyUsage {
    /// Returns whether the key may verify signatures other than those on certificates and CRLs.
    pub fn digital_signature(&self) -> bool
        ensures { result ≡ has_bit (bit_of bits.digital_signature) self.now.0.flags.0 }
    {
        self.0.contains(KeyUsages::DigitalSignature)
    }

    /// Returns whether the key may verify signatures that the signer can't deny later.
    pub fn non_repudiation(&self) -> bool
        ensures { result ≡ has_bit (bit_of bits.non_repudiation) self.now.0.flags.0 }
    {
        self.0.contains(KeyUsages::NonRepudiation)
    }

    /// Returns whether the key may encrypt other keys.
    pub fn key_encipherment(&self) -> bool
        ensures { result ≡ has_bit (bit_of bits.key_encipherment) self.now.0.flags.0 }
    {
        self.0.contains(KeyUsages::KeyEncipherment)
    }

    /// Returns whether the key may encrypt data directly.
    pub fn data_encipherment(&self) -> bool
        ensures { result ≡ has_bit (bit_of bits.data_encipherment) self.now.0.flags.0 }
    {
        self.0.contains(KeyUsages::DataEncipherment)
    }

    /// Returns whether the key may be used for key agreement.
    pub fn key_agreement(&self) -> bool
        ensures { result ≡ has_bit (bit_of bits.key_agreement) self.now.0.flags.0 }
    {
        self.0.contains(KeyUsages::KeyAgreement)
    }

    /// Returns whether the key may verify signatures on certificates.
    pub fn key_cert_sign(&self) -> bool
        ensures { result ≡ has_bit (bit_of bits.key_cert_sign) self.now.0.flags.0 }
    {
        self.0.contains(KeyUsages::KeyCertSign)
    }

    /// Returns whether the key may verify signatures on CRLs.
    pub fn crl_sign(&self) -> bool
        ensures { result ≡ has_bit (bit_of bits.crl_sign) self.now.0.flags.0 }
    {
        self.0.contains(KeyUsages::CRLSign)
    }

    /// Returns whether the key may only encrypt data during key agreement.
    pub fn encipher_only(&self) -> bool
        ensures { result ≡ has_bit (bit_of bits.encipher_only) self.now.0.flags.0 }
    {
        self.0.contains(KeyUsages::EncipherOnly)
    }

    /// Returns whether the key may only decrypt data during key agreement.
    pub fn decipher_only(&self) -> bool
        ensures { result ≡ has_bit (bit_of bits.decipher_only) self.now.0.flags.0 }
    {
        self.0.contains(KeyUsages::DecipherOnly)
    }
}

impl Described for KeyUsage {
    type By = AsField<FlagSet<KeyUsages>>;
}

impl Wraps<FlagSet<KeyUsages>> for KeyUsage {
    ghost inner = { λ x. x.0 };

    fn inner(&self) -> &FlagSet<KeyUsages> {
        &self.0
    }

    ghost made = { λ _ _ e. e };
}

impl Ordered for KeyUsage {}

impl From<FlagSet<KeyUsages>> for KeyUsage {
    ghost from_gives = { λ v x. x.0 ≡ v };

    fn from(value: FlagSet<KeyUsages>) -> KeyUsage {
        KeyUsage(value)
    }
}

impl From<KeyUsage> for FlagSet<KeyUsages> {
    ghost from_gives = { λ x v. v ≡ x.0 };

    fn from(value: KeyUsage) -> FlagSet<KeyUsages> {
        value.0
    }
}

impl AsRef<FlagSet<KeyUsages>> for KeyUsage {
    fn as_ref(&self) -> &FlagSet<KeyUsages>
        ensures { result.now ≡ self.now.0 }
    {
        &self.0
    }
}

impl AsMut<FlagSet<KeyUsages>> for KeyUsage {
    ghost use Rattle.std.specs.Borrow.{sem, Lends, u16 as number_row};
    ghost use Rattle.std.specs.contracts.prelude.U16BitAnd.TheImpl.{ghosts as and_of};
    ghost use Rattle.std.specs.contracts.prelude.U16BitOr.TheImpl.{ghosts as or_of};
    ghost use Rattle.std.specs.contracts.prelude.U16BitXor.TheImpl.{ghosts as xor_of};
    ghost use Rattle.std.specs.contracts.prelude.U16Not.TheImpl.{ghosts as not_of};
    ghost use Rattle.std.specs.contracts.prelude.U16PartialEq.TheImpl.{ghosts as eq_of};
    ghost use Rattle.bitflags.specs.contracts.traits.U16Bits.TheImpl.{ghosts as bits_of};
    ghost use Rattle.x509_cert_policies.specs.Types.FlagSetContracts.FlagSet.{the_row as set_row};
    ghost use Rattle.x509_cert_extensions.specs.contracts.key_usage.KeyUsages.{the_row as usages_row};
    ghost use Rattle.x509_cert_extensions.specs.contracts.key_usage.KeyUsagesFlags.TheImpl.{ghosts as flags_of};
    ghost use Rattle.x509_cert_extensions.specs.contracts.key_usage.KeyUsagesNamedBits.TheImpl.{ghosts as names_of};
    ghost use Rattle.x509_cert_extensions.specs.contracts.key_usage.KeyUsage.{the_row};

    fn as_mut(&mut self) -> &mut FlagSet<KeyUsages>
        ensures* writes_back { sem 𝓛 (Lends the_row
            (set_row usages_row number_row names_of flags_of bits_of eq_of and_of or_of xor_of
            not_of) self.entry result (λ w. record { 0 = w })) }
        ensures value { result.now ≡ self.old.0 }
    {
        &mut self.0
    }
}
