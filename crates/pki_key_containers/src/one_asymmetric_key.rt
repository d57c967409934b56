//! OneAsymmetricKey.

ghost use Rattle.std.specs.Prelude.{refl};
ghost use Rattle.der_core.specs.Grammar.{plain_option};

use crate::aliases::{Attributes, PrivateKey, PrivateKeyAlgorithmIdentifier, PublicKey};
use crate::version::Version;
use der_core::describing::{AsRecord, Described, FieldRow, FieldsView, RowUser, Rows};
use der_core::{DecodeFields, Error, Implicit, Reader, Shaped, ShapedValue, lend, read_row};
use std::alloc::Global;

/// Other fields are rejected.
///
/// ```text
/// OneAsymmetricKey ::= SEQUENCE {
///     version                   Version,
///     privateKeyAlgorithm       PrivateKeyAlgorithmIdentifier,
///     privateKey                PrivateKey,
///     attributes            [0] Attributes OPTIONAL,
///     ...,
///     [[2: publicKey        [1] PublicKey OPTIONAL ]],
///     ...
/// }
/// ```
#[derive(Debug, Drop, PartialEq, Eq)]
pub struct OneAsymmetricKey {
    pub version: Version,
    pub private_key_algorithm: PrivateKeyAlgorithmIdentifier,
    pub private_key: PrivateKey,
    pub attributes: Option<Attributes>,
    pub public_key: Option<PublicKey>,
}

type Row = (
    Version,
    (
        PrivateKeyAlgorithmIdentifier,
        (
            PrivateKey,
            (
                Option<Implicit<Attributes, 0>>,
                (Option<Implicit<PublicKey, 1>>, ()),
            ),
        ),
    ),
);

impl Described for OneAsymmetricKey {
    type By = AsRecord;
}

impl FieldsView for OneAsymmetricKey {
    ghost body = { ⟦<Row as FieldRow>⟧.fields };

    ghost view = { λ r. (
      ⟦<Version as Shaped>⟧.plain r.version,
      (
        ⟦<PrivateKeyAlgorithmIdentifier as Shaped>⟧.plain r.private_key_algorithm,
        (
          ⟦<PrivateKey as Shaped>⟧.plain r.private_key,
          (
            plain_option ⟦<Attributes as ShapedValue>⟧.value_plain r.attributes,
            (plain_option ⟦<PublicKey as ShapedValue>⟧.value_plain r.public_key, tt),
          ),
        ),
      ),
    ) };
}

impl<'a, R: Reader<'a>> DecodeFields<'a, R> for OneAsymmetricKey {
    fn decode_fields(alloc: Global, reader: &mut R) -> Result<OneAsymmetricKey, Error> {
        read_row!(alloc, reader; OneAsymmetricKey {
            version, private_key_algorithm, private_key, attributes: implicit 0 optional,
            public_key: implicit 1 optional,
        })
    }
}

impl Rows for OneAsymmetricKey {
    fn with_rows<U: RowUser>(&self, other: &Self, user: &mut U) -> U::Answer {
        lend!(self, other, user;
            version, private_key_algorithm, private_key, attributes: implicit 0 optional,
            public_key: implicit 1 optional)
    }

    ghost apart = { refl };
}
