//! Remarks on a certificate in its chain: what no rule forbids, but the issuer may not have
//! intended.

use crate::certificate_remarks::{add_certificate_remarks, add_malformed_remarks, certificate_at};
use crate::chain_entry::ChainEntry;
use crate::remark_lines::{Subject, begin_remark, end_at};
use cert_tool_describe::tool_lines::Lines;

// Adds a remark if a certificate is valid after the certificate before it has expired.
fn add_date_remark(lines: &mut Lines, subject: &Subject<'_>, place: &ChainEntry<'_>) {
    let Some(before) = place.before() else {
        return;
    };
    let this = &place.certificate.tbs_certificate().validity().not_after;
    let earlier = &before.validity().not_after;
    if this.to_date_time().unix_seconds() > earlier.to_date_time().unix_seconds() {
        begin_remark(lines);
        lines.show("it is valid until ", this, ", and its issuer until ");
        lines.show("", earlier, "");
        end_at(lines, "", "outlives-issuer", subject, "validity.notAfter");
    }
}

// Adds a remark if an earlier certificate has the same issuer and serial number (RFC 5280 4.1.2.2).
fn add_twin_remark(lines: &mut Lines, subject: &Subject<'_>, twin: Option<usize>) {
    if let Some(number) = twin {
        begin_remark(lines);
        lines.show(
            "certificate ",
            number as u64,
            " has the same issuer and serial number",
        );
        end_at(lines, "", "serial-number-twice", subject, "serialNumber");
    }
}

// Adds the remarks on a certificate. `twin` is the index of the last earlier certificate with the
// same issuer and serial number. `reported` is the index of the malformed extension that a broken
// rule reports.
pub(crate) fn add_remarks(
    lines: &mut Lines,
    place: &ChainEntry<'_>,
    twin: Option<usize>,
    reported: Option<usize>,
) {
    let subject = certificate_at(place.octets, place.offset);
    add_date_remark(lines, &subject, place);
    add_twin_remark(lines, &subject, twin);
    add_malformed_remarks(lines, &subject, place.extensions(), "extensions", reported);
    add_certificate_remarks(lines, &subject, place.certificate.tbs_certificate());
}
