//! Trust anchors: why they can't be decoded, and which of their fields no rule checks.

use crate::add_fault;
use crate::unchecked_extensions::is_of_policies;
use cert_desk_checking::cert_anchors::TrustAnchorChoice;
use cert_tool_describe::Node;
use cert_tool_describe::cert_certificates::TbsCertificateInner;
use cert_tool_describe::cert_names::Name;
use cert_tool_describe::cert_parts::{Extension, Extensions, Raw, Validity};
use cert_tool_describe::der::{Decode, Error, FromDer, SliceReader};
use cert_tool_describe::tool_lines::Lines;

/// Begins the entry of the trust anchor at this offset.
pub fn begin_anchor(lines: &mut Lines, offset: u64) {
    lines.entry("anchor at octet");
    lines.count_member("octet", offset);
}

/// Which trust anchors are included, and what is checked of them.
#[derive(Clone, Copy)]
pub struct Scope<'a> {
    /// The name of those that are included, or `None` if all are.
    pub issuer: Option<&'a Name>,
    /// Whether `--strict` checks the dates, and the extensions other than policies.
    pub is_strict: bool,
}

impl<'a> Scope<'a> {
    /// Returns the scope of all trust anchors, without `--strict`.
    pub fn all() -> Scope<'a> {
        Scope {
            issuer: None,
            is_strict: false,
        }
    }
}

// Adds the names of the extensions that aren't checked, in one line, if there are any.
fn add_kinds(lines: &mut Lines, extensions: &[Extension], is_strict: bool) {
    let mut before = "";
    for extension in extensions {
        if !is_strict || is_of_policies(extension) {
            if before.is_empty() {
                lines.item("not judged:");
                lines.begin();
            }
            lines.identifier(before, &extension.extn_id, "");
            before = ", ";
        }
    }
    if !before.is_empty() {
        lines.end();
    }
}

// Adds the validity period, in one line.
fn add_dates(lines: &mut Lines, validity: &Validity<Raw>) {
    lines.item("not judged:");
    lines.begin();
    lines.show("its dates, from ", &validity.not_before, " until ");
    lines.show("", &validity.not_after, "");
    lines.end();
}

// Adds the extensions of a trust anchor that aren't checked.
fn add_extensions(lines: &mut Lines, extensions: Option<&Extensions>, is_strict: bool) {
    if let Some(extensions) = extensions {
        add_kinds(lines, extensions.as_slice(), is_strict);
    }
}

// Adds the unchecked fields of a trust anchor that is a certificate.
fn add_certified(lines: &mut Lines, signed: &TbsCertificateInner<Raw>, is_strict: bool) {
    if !is_strict {
        add_dates(lines, signed.validity());
    }
    add_extensions(lines, signed.extensions(), is_strict);
}

// Adds the unchecked fields of a trust anchor.
fn add_beyond(lines: &mut Lines, anchor: &TrustAnchorChoice<Raw>, is_strict: bool) {
    lines.list("unjudged");
    match anchor {
        TrustAnchorChoice::Certificate(certificate) => {
            add_certified(lines, certificate.tbs_certificate(), is_strict);
        }
        TrustAnchorChoice::TbsCertificate(signed) => add_certified(lines, signed, is_strict),
        TrustAnchorChoice::TaInfo(info) => {
            add_extensions(lines, info.extensions.as_ref(), is_strict);
        }
    }
    lines.end_list();
}

// Returns the name of a trust anchor, if it has one.
fn name_of(anchor: &TrustAnchorChoice<Raw>) -> Option<&Name> {
    match anchor {
        TrustAnchorChoice::Certificate(certificate) => {
            Some(certificate.tbs_certificate().subject())
        }
        TrustAnchorChoice::TbsCertificate(signed) => Some(signed.subject()),
        TrustAnchorChoice::TaInfo(info) => match &info.cert_path {
            Some(path) => Some(&path.ta_name),
            None => None,
        },
    }
}

// Returns whether a name is that of the issuer, or no issuer is given.
fn is_of(name: Option<&Name>, issuer: Option<&Name>) -> bool {
    match (name, issuer) {
        (_, None) => true,
        (Some(name), Some(issuer)) => name.has_octets_of(issuer),
        (None, Some(_)) => false,
    }
}

// A value that has fields that no rule checks.
trait Unjudged {
    // Adds the unchecked fields of the value at this offset, if it is included.
    fn add_unchecked(&self, lines: &mut Lines, offset: u64, scope: Scope<'_>);
}

impl Unjudged for TrustAnchorChoice<Raw> {
    fn add_unchecked(&self, lines: &mut Lines, offset: u64, scope: Scope<'_>) {
        let name = name_of(self);
        if is_of(name, scope.issuer) {
            begin_anchor(lines, offset);
            if let Some(name) = name {
                lines.tail(", ");
                lines.key("subject");
                lines.name_value(name);
            }
            add_beyond(lines, self, scope.is_strict);
            lines.close();
        }
    }
}

// Decodes the value at the beginning of the bytes, which are at this offset of the file, and adds
// its unchecked fields. Returns the bytes after it. The function is generic because the proof of a
// function that holds a trust anchor takes long.
fn add_front<'a, T: Decode<'a, SliceReader<'a>> + Unjudged + Drop>(
    lines: &mut Lines,
    octets: &'a [u8],
    offset: u64,
    scope: Scope<'_>,
) -> Result<&'a [u8], Error> {
    match T::from_der_partial(lines.alloc, octets) {
        Ok((value, behind)) => {
            value.add_unchecked(lines, offset, scope);
            Ok(behind)
        }
        Err(error) => Err(error),
    }
}

// Does this for a trust anchor.
fn add_first<'a>(
    lines: &mut Lines,
    octets: &'a [u8],
    offset: u64,
    scope: Scope<'_>,
) -> Result<&'a [u8], Error> {
    add_front::<TrustAnchorChoice<Raw>>(lines, octets, offset, scope)
}

/// Adds the unchecked fields of each trust anchor that is included.
pub fn add_unchecked(lines: &mut Lines, octets: &[u8], scope: Scope<'_>) {
    let mut rest = octets;
    for _ in 0..octets.len() {
        if rest.is_empty() {
            break;
        }
        let offset = octets.len().saturating_sub(rest.len());
        match add_first(lines, rest, offset as u64, scope) {
            Ok(behind) => rest = behind,
            Err(error) => {
                lines.note(error.kind);
                break;
            }
        }
    }
}

/// Adds why these bytes, which are at this offset of the file, don't begin with a trust anchor.
pub fn add_anchor_fault(lines: &mut Lines, octets: &[u8], offset: u64) {
    if let Err(error) = add_first(lines, octets, offset, Scope::all()) {
        add_fault(lines, octets, offset, Node::Anchor, &error);
    }
}
