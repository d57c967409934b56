//! Conversions between tagged fields of a row and fields of a record.

ghost use Rattle.std.specs.Prelude.{◌≡◌};
ghost use Rattle.der_core_values.specs.CoreHead.Grammar.{plain_option};

use crate::encode_ref::EncodeRef;
use crate::explicit::Explicit;
use crate::implicit::{Implicit, ImplicitRef};

/// Returns the value of a field with an implicit tag.
pub fn implicit_of<T, const N: u32>(field: Option<Implicit<T, N>>) -> Option<T>
    ensures { result ≡ plain_option (λ f. f.value) field }
{
    Some(field?.value)
}

/// Returns the value of a field with an explicit tag.
pub fn explicit_of<T, const N: u32>(field: Option<Explicit<T, N>>) -> Option<T>
    ensures { result ≡ plain_option (λ f. f.value) field }
{
    Some(field?.value)
}

/// Returns a field with an implicit tag that borrows the value.
pub fn implicit_ref<'a, T, const N: u32>(value: &'a Option<T>) -> Option<ImplicitRef<'a, T, N>>
    ensures { plain_option (λ r. r.value.now) result ≡ value.now }
{
    let value = value.as_ref()?;
    Some(ImplicitRef { value })
}

/// Returns a field with an explicit tag that borrows the value.
pub fn explicit_ref<'a, T, const N: u32>(
    value: &'a Option<T>,
) -> Option<Explicit<EncodeRef<'a, T>, N>>
    ensures { plain_option (λ f. f.value.0.now) result ≡ value.now }
{
    let value = EncodeRef(value.as_ref()?);
    Some(Explicit { value })
}
