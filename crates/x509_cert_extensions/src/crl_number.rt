ghost use Rattle.std.specs.Prelude.{◌≡◌, pos, Ok};
ghost use Rattle.x509_cert_policies.specs.Der.Reading.{Gives};

use std::alloc::Global;
use x509_cert_policies::der::describing::{AsField, Described, Ordered, Wraps};
use x509_cert_policies::der::making::integer_octets_of;
use x509_cert_policies::der::{Error, Leaf, Tag};
use x509_cert_policies::types::Uint;

/// The number of a CRL (RFC 5280 5.2.3).
///
/// ```text
/// CRLNumber ::= INTEGER (0..MAX)
/// ```
#[derive(Debug, Drop, PartialEq, Eq)]
pub struct CrlNumber(pub Uint);

impl CrlNumber {
    /// Returns the extension with this number. A CRL number may have up to 20 bytes (RFC 5280
    /// 5.2.3); `From<Uint>` accepts those of more than 16.
    ///
    /// # Errors
    ///
    /// - `OutOfMemory`: memory runs out.
    pub fn try_from_u128(alloc: Global, number: u128) -> Result<CrlNumber, Error>
        ensures { Gives (λ n. pos n.0) result (Ok (pos number)) }
    {
        let (octets, start) = integer_octets_of(false, number);
        let inner = Uint::from_content(alloc, Tag::Integer, &octets[start..])?;
        Ok(CrlNumber(inner))
    }
}

impl Described for CrlNumber {
    type By = AsField<Uint>;
}

impl Wraps<Uint> for CrlNumber {
    ghost inner = { λ x. x.0 };

    fn inner(&self) -> &Uint {
        &self.0
    }

    ghost made = { λ _ _ e. e };
}

impl Ordered for CrlNumber {}

impl From<Uint> for CrlNumber {
    ghost from_gives = { λ v x. x.0 ≡ v };

    fn from(value: Uint) -> CrlNumber {
        CrlNumber(value)
    }
}

impl From<CrlNumber> for Uint {
    ghost from_gives = { λ x v. v ≡ x.0 };

    fn from(value: CrlNumber) -> Uint {
        value.0
    }
}

impl AsRef<Uint> for CrlNumber {
    fn as_ref(&self) -> &Uint
        ensures { result.now ≡ self.now.0 }
    {
        &self.0
    }
}

impl AsMut<Uint> for CrlNumber {
    ghost use Rattle.std.specs.Borrow.{sem, Lends};
    ghost use Rattle.x509_cert_policies.specs.Types.UintContracts.Uint.{the_row as inner_row};
    ghost use Rattle.x509_cert_extensions.specs.contracts.crl_number.CrlNumber.{the_row};

    fn as_mut(&mut self) -> &mut Uint
        ensures* writes_back { sem 𝓛 (Lends the_row inner_row self.entry result
            (λ w. record { 0 = w })) }
        ensures value { result.now ≡ self.old.0 }
    {
        &mut self.0
    }
}
