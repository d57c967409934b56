//! Iterating over the extensions with one OID.

ghost use Rattle.std.specs.Prelude.{◌≡◌};
ghost use Rattle.x509_cert_parts.specs.ExtensionSearch.{of_identifier};
ghost use Rattle.x509_cert_parts.specs.Views.{extensions_plain};

use crate::extension::Extension;
use crate::extension_search::next_of;
use der_core::oid::AssociatedOid;
use der_core::{Decode, Error, FromDer, SliceReader};
use std::alloc::Global;
use std::marker::PhantomData;

/// An iterator over the extensions with the OID of `T`, in their order. Each item is whether the
/// extension is critical and its value, or the error of decoding it.
#[derive(Drop)]
pub struct ExtensionsOf<'a, T> {
    alloc: Global,
    left: &'a [Extension],
    value: PhantomData<T>,
}

/// Returns an iterator over the extensions with the OID of `T`.
pub fn filter_extensions<'a, T: AssociatedOid>(
    alloc: Global,
    extensions: &'a [Extension],
) -> ExtensionsOf<'a, T>
    ensures { result.left.now ≡ extensions.now }
{
    ExtensionsOf {
        alloc,
        left: extensions,
        value: PhantomData,
    }
}

impl<'a, T: AssociatedOid + Decode<'a, SliceReader<'a>>> Iterator for ExtensionsOf<'a, T> {
    ghost use Rattle.std.specs.Iterator.{item_count};
    ghost use Rattle.x509_cert_parts.specs.ExtensionSearch.{YieldsFirstValue, of_identifier};
    ghost use Rattle.x509_cert_parts.specs.Views.{extensions_plain};

    type Item = Result<(bool, T), Error>;

    ghost next_gives = { YieldsFirstValue T.shape (λ x. (x.0, T.plain x.1))
        (λ it. of_identifier T.oid_arcs (extensions_plain it.left.now)) };

    ghost remaining = { item_count
        (λ it. of_identifier T.oid_arcs (extensions_plain it.left.now)) };

    fn next(&mut self) -> Option<Result<(bool, T), Error>> {
        let Some((extension, left)) = next_of(T::associated_oid(), self.left) else {
            self.left = &[];
            return None;
        };
        self.left = left;
        match T::from_der(self.alloc, extension.extn_value.as_bytes()) {
            Ok(value) => Some(Ok((extension.critical, value))),
            Err(error) => Some(Err(error)),
        }
    }
}
