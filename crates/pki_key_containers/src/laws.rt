//! Laws about the types. Each law is the contract of a function that does nothing.

ghost use Rattle.std.specs.Prelude.{◌≡◌, true};
ghost use Rattle.der_core.specs.Limits.{levels_max};
ghost use Rattle.der_core.specs.Spelling.{are_enough};

use crate::*;
use der_core::Shaped;

/// No value of these types has more levels of nesting than a reader allows, so decoding accepts all
/// of their encodings.
pub fn types_are_within_levels()
    ensures asymmetric_key_package { are_enough
        ⟦<AsymmetricKeyPackage as Shaped>⟧.shape levels_max ≡ true }
    ensures attributes { are_enough ⟦<Attributes as Shaped>⟧.shape levels_max ≡ true }
    ensures encrypted_private_key_info { are_enough
        ⟦<EncryptedPrivateKeyInfo as Shaped>⟧.shape levels_max ≡ true }
    ensures one_asymmetric_key { are_enough
        ⟦<OneAsymmetricKey as Shaped>⟧.shape levels_max ≡ true }
    ensures version { are_enough ⟦<Version as Shaped>⟧.shape levels_max ≡ true }
{}

/// Values of these types are encoded as they are decoded. So the encoding of a value decodes to
/// this value, if its parts are in range.
pub fn values_are_encoded_as_decoded()
    ensures asymmetric_key_package { ⟦<AsymmetricKeyPackage as Shaped>⟧.written
        ≡ ⟦<AsymmetricKeyPackage as Shaped>⟧.plain }
    ensures attributes { ⟦<Attributes as Shaped>⟧.written ≡ ⟦<Attributes as Shaped>⟧.plain }
    ensures encrypted_private_key_info { ⟦<EncryptedPrivateKeyInfo as Shaped>⟧.written
        ≡ ⟦<EncryptedPrivateKeyInfo as Shaped>⟧.plain }
    ensures one_asymmetric_key { ⟦<OneAsymmetricKey as Shaped>⟧.written
        ≡ ⟦<OneAsymmetricKey as Shaped>⟧.plain }
    ensures version { ⟦<Version as Shaped>⟧.written ≡ ⟦<Version as Shaped>⟧.plain }
{}
