//! Looking up extensions by OID.

ghost use Rattle.std.specs.Prelude.{◌≡◌};
ghost use Rattle.der_core.specs.Grammar.{plain_option};
ghost use Rattle.der_core.specs.Reading.{Gives};
ghost use Rattle.x509_cert_parts.specs.ExtensionSearch.{of_identifier, only_value, with_first};
ghost use Rattle.x509_cert_parts.specs.Views.{extension_plain, extensions_plain};

use crate::extension::Extension;
use der_core::oid::{AssociatedOid, ObjectIdentifier};
use der_core::{Decode, Error, ErrorKind, FromDer, SliceReader};
use std::alloc::Global;

/// Finds the only extension with the OID of `T`, and decodes its content. Returns whether the
/// extension is critical and its value, or `None` if there is no such extension.
///
/// # Errors
///
/// - `Failed`: there are two such extensions, which RFC 5280 4.2 forbids.
/// - The errors of decoding the content of the extension as a `T`.
/// - `OutOfMemory`: memory runs out.
pub fn get_extension<'a, T: AssociatedOid + Decode<'a, SliceReader<'a>>>(
    alloc: Global,
    extensions: &'a [Extension],
) -> Result<Option<(bool, T)>, Error>
    ensures { Gives (plain_option (λ x. (x.0, T.plain x.1))) result
        (only_value T.shape T.oid_arcs (extensions_plain extensions.now)) }
{
    let Some((extension, left)) = next_of(T::associated_oid(), extensions) else {
        return Ok(None);
    };
    if next_of(T::associated_oid(), left).is_some() {
        return Err(Error::from(ErrorKind::Failed));
    }
    let value = T::from_der(alloc, extension.extn_value.as_bytes())?;
    Ok(Some((extension.critical, value)))
}

/// Returns the first extension with this OID and the extensions after it, or `None` if there is
/// none.
pub fn next_of<'a>(
    identifier: ObjectIdentifier<39>,
    extensions: &'a [Extension],
) -> Option<(&'a Extension, &'a [Extension])>
    ensures { of_identifier identifier (extensions_plain extensions.now)
        ≡ with_first
        (plain_option
        (λ x. (extension_plain x.0.now, of_identifier identifier (extensions_plain x.1.now)))
        result) }
{
    for place in 0..extensions.len() {
        if extensions[place].extn_id == identifier {
            return Some((&extensions[place], &extensions[place + 1..]));
        }
    }
    None
}
