//! Decodes values.
ghost use Rattle.std.specs.Prelude.{◌≢◌, IfOk, IfErr};
ghost use Rattle.cert_tool_describe.specs.Oid.Bound.{Bound};
ghost use Rattle.cert_tool_describe.specs.Der.ErrorTypes.ErrorKind.TheVariants.{OutOfMemory};
ghost use Rattle.cert_tool_describe.specs.Der.Shapes.{Spells};
ghost use Rattle.cert_tool_describe.specs.CertNames.Names.{name};
ghost use Rattle.cert_tool_describe.specs.CertNames.Views.{name_plain};
ghost use Rattle.cert_tool_describe.specs.CertCertificates.Certificates.{raw_certificate};
ghost use Rattle.cert_tool_describe.specs.CertCertificates.Views.{certificate_plain};
ghost use Rattle.cert_tool_describe.specs.CertLists.ListGrammar.{cert_req};
ghost use Rattle.cert_tool_describe.specs.CertLists.ListViews.{certificate_list_plain};
ghost use Rattle.cert_tool_describe.specs.CertLists.ListViews.{cert_req_plain};
ghost use Rattle.cert_desk_listing.specs.Parts.{raw_certificate_list};
ghost use Rattle.cert_desk_answers.specs.DeskRules.Rooms.{IsLack};
ghost use Rattle.cert_desk_c.specs.Values.{IsNoCertificate, IsNoList, IsNoName, IsNoRequest};

use cert_desk_listing::desk_io::ExitStatus;
use cert_tool_describe::cert_certificates::CertificateInner;
use cert_tool_describe::cert_lists::{CertReq, CertificateList};
use cert_tool_describe::cert_names::Name;
use cert_tool_describe::cert_parts::Raw;
use cert_tool_describe::der::making::is_out_of_memory;
use cert_tool_describe::der::{Error, FromDer};
use std::alloc::Global;

/// Returns the status of an error.
pub(crate) fn lack(error: &Error) -> ExitStatus
    ensures { IsLack (error.now.kind ≢ OutOfMemory) result }
{
    if is_out_of_memory(error) {
        return ExitStatus::Memory;
    }
    ExitStatus::Faulty
}

/// Decodes a certificate, or returns the status.
pub(crate) fn certificate_of(
    alloc: Global,
    octets: &[u8],
) -> Result<CertificateInner<Raw>, ExitStatus>
    ensures spelled { IfOk result
        (λ c. Spells (raw_certificate Bound) (certificate_plain c) octets.now) }
    ensures refused { IfErr result (IsLack (IsNoCertificate octets.now)) }
{
    match CertificateInner::<Raw>::from_der(alloc, octets) {
        Ok(certificate) => Ok(certificate),
        Err(error) => Err(lack(&error)),
    }
}

/// Decodes a CRL, or returns the status.
pub(crate) fn list_of(alloc: Global, octets: &[u8]) -> Result<CertificateList<Raw>, ExitStatus>
    ensures spelled { IfOk result
        (λ l. Spells (raw_certificate_list Bound) (certificate_list_plain l) octets.now) }
    ensures refused { IfErr result (IsLack (IsNoList octets.now)) }
{
    CertificateList::<Raw>::from_der(alloc, octets).map_err(|error| lack(&error))
}

/// Decodes a CSR, or returns the status.
pub(crate) fn request_of(alloc: Global, octets: &[u8]) -> Result<CertReq, ExitStatus>
    ensures spelled { IfOk result (λ r. Spells (cert_req Bound) (cert_req_plain r) octets.now) }
    ensures refused { IfErr result (IsLack (IsNoRequest octets.now)) }
{
    CertReq::try_from_bytes(alloc, octets).map_err(|error| lack(&error))
}

/// Decodes a name, or returns the status.
pub(crate) fn name_of(alloc: Global, octets: &[u8]) -> Result<Name, ExitStatus>
    ensures spelled { IfOk result (λ n. Spells (name Bound) (name_plain n) octets.now) }
    ensures refused { IfErr result (IsLack (IsNoName octets.now)) }
{
    Name::from_der(alloc, octets).map_err(|error| lack(&error))
}
