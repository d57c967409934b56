ghost use Rattle.std.specs.Prelude.{◌≡◌};

use x509_cert_policies::der::describing::{AsField, Described, Ordered, Wraps};
use x509_cert_policies::types::Uint;

/// The number of the CRL to which a delta CRL lists the changes (RFC 5280 5.2.4).
///
/// ```text
/// BaseCRLNumber ::= CRLNumber
/// ```
#[derive(Debug, Drop, PartialEq, Eq)]
pub struct BaseCrlNumber(pub Uint);

impl Described for BaseCrlNumber {
    type By = AsField<Uint>;
}

impl Wraps<Uint> for BaseCrlNumber {
    ghost inner = { λ x. x.0 };

    fn inner(&self) -> &Uint {
        &self.0
    }

    ghost made = { λ _ _ e. e };
}

impl Ordered for BaseCrlNumber {}

impl From<Uint> for BaseCrlNumber {
    ghost from_gives = { λ v x. x.0 ≡ v };

    fn from(value: Uint) -> BaseCrlNumber {
        BaseCrlNumber(value)
    }
}

impl From<BaseCrlNumber> for Uint {
    ghost from_gives = { λ x v. v ≡ x.0 };

    fn from(value: BaseCrlNumber) -> Uint {
        value.0
    }
}

impl AsRef<Uint> for BaseCrlNumber {
    fn as_ref(&self) -> &Uint
        ensures { result.now ≡ self.now.0 }
    {
        &self.0
    }
}

impl AsMut<Uint> for BaseCrlNumber {
    ghost use Rattle.std.specs.Borrow.{sem, Lends};
    ghost use Rattle.x509_cert_policies.specs.Types.UintContracts.Uint.{the_row as inner_row};
    ghost use Rattle.x509_cert_extensions.specs.contracts.base_crl_number.BaseCrlNumber.{the_row};

    fn as_mut(&mut self) -> &mut Uint
        ensures* writes_back { sem 𝓛 (Lends the_row inner_row self.entry result
            (λ w. record { 0 = w })) }
        ensures value { result.now ≡ self.old.0 }
    {
        &mut self.0
    }
}
