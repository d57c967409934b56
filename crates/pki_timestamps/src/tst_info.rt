//! TstInfo.

ghost use Rattle.std.specs.Prelude.{refl};
ghost use Rattle.der_core.specs.Grammar.{plain_option};

use crate::accuracy::Accuracy;
use crate::aliases::TsaPolicyId;
use crate::message_imprint::MessageImprint;
use crate::tst_info_version::TstInfoVersion;
use der_core::describing::{AsRecord, Described, FieldRow, FieldsView, RowUser, Rows};
use der_core::{
    DecodeFields, Error, Explicit, Implicit, Reader, Shaped, ShapedValue, WithDefault, lend,
    read_row,
};
use der_types::{GeneralizedTime, Int};
use std::alloc::Global;
use x509_cert_reading::{Extensions, GeneralName};

/// ```text
/// TSTInfo ::= SEQUENCE  {
///     version                      INTEGER  { v1(1) },
///     policy                       TSAPolicyId,
///     messageImprint               MessageImprint,
///       -- MUST have the same value as the similar field in
///       -- TimeStampReq
///     serialNumber                 INTEGER,
///      -- Time-Stamping users MUST be ready to accommodate integers
///      -- up to 160 bits.
///     genTime                      GeneralizedTime,
///     accuracy                     Accuracy                 OPTIONAL,
///     ordering                     BOOLEAN             DEFAULT FALSE,
///     nonce                        INTEGER                  OPTIONAL,
///       -- MUST be present if the similar field was present
///       -- in TimeStampReq.  In that case it MUST have the same value.
///     tsa                          [0] GeneralName          OPTIONAL,
///     extensions                   [1] IMPLICIT Extensions  OPTIONAL   }
/// ```
#[derive(Debug, Drop, PartialEq, Eq)]
pub struct TstInfo {
    pub version: TstInfoVersion,
    pub policy: TsaPolicyId,
    pub message_imprint: MessageImprint,
    pub serial_number: Int,
    pub gen_time: GeneralizedTime,
    pub accuracy: Option<Accuracy>,
    pub ordering: bool,
    pub nonce: Option<Int>,
    pub tsa: Option<GeneralName>,
    pub extensions: Option<Extensions>,
}

type Row = (
    TstInfoVersion,
    (
        TsaPolicyId,
        (
            MessageImprint,
            (
                Int,
                (
                    GeneralizedTime,
                    (
                        Option<Accuracy>,
                        (
                            WithDefault<bool>,
                            (
                                Option<Int>,
                                (
                                    Option<Explicit<GeneralName, 0>>,
                                    (Option<Implicit<Extensions, 1>>, ()),
                                ),
                            ),
                        ),
                    ),
                ),
            ),
        ),
    ),
);

impl Described for TstInfo {
    type By = AsRecord;
}

impl FieldsView for TstInfo {
    ghost body = { ⟦<Row as FieldRow>⟧.fields };

    ghost view = { λ r. (
      ⟦<TstInfoVersion as Shaped>⟧.plain r.version,
      (
        ⟦<TsaPolicyId as Shaped>⟧.plain r.policy,
        (
          ⟦<MessageImprint as Shaped>⟧.plain r.message_imprint,
          (
            ⟦<Int as Shaped>⟧.plain r.serial_number,
            (
              ⟦<GeneralizedTime as Shaped>⟧.plain r.gen_time,
              (
                plain_option ⟦<Accuracy as Shaped>⟧.plain r.accuracy,
                (
                  ⟦<bool as Shaped>⟧.plain r.ordering,
                  (
                    plain_option ⟦<Int as Shaped>⟧.plain r.nonce,
                    (
                      plain_option ⟦<GeneralName as Shaped>⟧.plain r.tsa,
                      (plain_option ⟦<Extensions as ShapedValue>⟧.value_plain r.extensions, tt),
                    ),
                  ),
                ),
              ),
            ),
          ),
        ),
      ),
    ) };
}

impl<'a, R: Reader<'a>> DecodeFields<'a, R> for TstInfo {
    fn decode_fields(alloc: Global, reader: &mut R) -> Result<TstInfo, Error> {
        read_row!(alloc, reader; TstInfo {
            version, policy, message_imprint, serial_number, gen_time, accuracy, ordering: default,
            nonce, tsa: explicit 0 optional, extensions: implicit 1 optional,
        })
    }
}

impl Rows for TstInfo {
    fn with_rows<U: RowUser>(&self, other: &Self, user: &mut U) -> U::Answer {
        lend!(self, other, user;
            version, policy, message_imprint, serial_number, gen_time, accuracy, ordering: default,
            nonce, tsa: explicit 0 optional, extensions: implicit 1 optional)
    }

    ghost apart = { refl };
}
