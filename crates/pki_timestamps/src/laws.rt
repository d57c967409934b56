//! Laws about the types. Each law is the contract of a function that does nothing.

ghost use Rattle.std.specs.Prelude.{◌≡◌, true};
ghost use Rattle.der_core.specs.Limits.{levels_max};
ghost use Rattle.der_core.specs.Spelling.{are_enough};

use crate::*;
use der_core::Shaped;

/// No value of these types has more levels of nesting than a reader allows, so decoding accepts all
/// of their encodings.
pub fn types_are_within_levels()
    ensures accuracy { are_enough ⟦<Accuracy as Shaped>⟧.shape levels_max ≡ true }
    ensures message_imprint { are_enough ⟦<MessageImprint as Shaped>⟧.shape levels_max ≡ true }
    ensures pki_failure_info { are_enough ⟦<PkiFailureInfo as Shaped>⟧.shape levels_max ≡ true }
    ensures pki_status { are_enough ⟦<PkiStatus as Shaped>⟧.shape levels_max ≡ true }
    ensures pki_status_info { are_enough ⟦<PkiStatusInfo as Shaped>⟧.shape levels_max ≡ true }
    ensures time_stamp_req { are_enough ⟦<TimeStampReq as Shaped>⟧.shape levels_max ≡ true }
    ensures time_stamp_req_version { are_enough
        ⟦<TimeStampReqVersion as Shaped>⟧.shape levels_max ≡ true }
    ensures time_stamp_resp { are_enough ⟦<TimeStampResp as Shaped>⟧.shape levels_max ≡ true }
    ensures tst_info { are_enough ⟦<TstInfo as Shaped>⟧.shape levels_max ≡ true }
    ensures tst_info_version { are_enough ⟦<TstInfoVersion as Shaped>⟧.shape levels_max ≡ true }
{}

/// Values of these types are encoded as they are decoded. So the encoding of a value decodes to
/// this value, if its parts are in range.
pub fn values_are_encoded_as_decoded()
    ensures accuracy { ⟦<Accuracy as Shaped>⟧.written ≡ ⟦<Accuracy as Shaped>⟧.plain }
    ensures message_imprint { ⟦<MessageImprint as Shaped>⟧.written
        ≡ ⟦<MessageImprint as Shaped>⟧.plain }
    ensures pki_failure_info { ⟦<PkiFailureInfo as Shaped>⟧.written
        ≡ ⟦<PkiFailureInfo as Shaped>⟧.plain }
    ensures pki_status { ⟦<PkiStatus as Shaped>⟧.written ≡ ⟦<PkiStatus as Shaped>⟧.plain }
    ensures pki_status_info { ⟦<PkiStatusInfo as Shaped>⟧.written
        ≡ ⟦<PkiStatusInfo as Shaped>⟧.plain }
    ensures time_stamp_req { ⟦<TimeStampReq as Shaped>⟧.written
        ≡ ⟦<TimeStampReq as Shaped>⟧.plain }
    ensures time_stamp_req_version { ⟦<TimeStampReqVersion as Shaped>⟧.written
        ≡ ⟦<TimeStampReqVersion as Shaped>⟧.plain }
    ensures time_stamp_resp { ⟦<TimeStampResp as Shaped>⟧.written
        ≡ ⟦<TimeStampResp as Shaped>⟧.plain }
    ensures tst_info { ⟦<TstInfo as Shaped>⟧.written ≡ ⟦<TstInfo as Shaped>⟧.plain }
    ensures tst_info_version { ⟦<TstInfoVersion as Shaped>⟧.written
        ≡ ⟦<TstInfoVersion as Shaped>⟧.plain }
{}
