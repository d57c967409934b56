//! Remarks on general names that aren't well formed (RFC 5280 4.2.1.6).

use crate::remark_lines::{Subject, add_where, begin_remark, end_text};
use cert_tool_describe::cert_general_names::GeneralName;
use cert_tool_describe::tool_lines::Lines;
use cert_tool_describe::{Inside, add_general_name, kind_of};

// Returns whether bytes are a label of a host name (RFC 1034 3.5, RFC 1123 2.1).
fn is_label(label: &[u8]) -> bool {
    let (Some(first), Some(last)) = (label.first(), label.last()) else {
        return false;
    };
    for octet in label {
        if !octet.is_ascii_alphanumeric() && *octet != b'-' {
            return false;
        }
    }
    *first != b'-' && *last != b'-' && label.len() <= 63
}

// Returns whether a text is a host name. Its first label may be `*` (RFC 6125 6.4.3).
fn is_host(text: &str) -> bool {
    let mut is_first = true;
    for label in text.split('.') {
        if !is_label(label.as_bytes()) && !(is_first && label == "*" && label.len() < text.len()) {
            return false;
        }
        is_first = false;
    }
    text.len() <= 253
}

// Returns whether a text has a space, or another byte that no mail address and no URI contains.
fn has_blank(text: &str) -> bool {
    for octet in text.as_bytes() {
        if !octet.is_ascii_graphic() || *octet == b'<' || *octet == b'>' {
            return true;
        }
    }
    false
}

// Returns whether a text is in quotes, between which spaces are allowed.
fn is_quoted(text: &str) -> bool {
    for octet in text.as_bytes() {
        if !octet.is_ascii_graphic() && *octet != b' ' {
            return false;
        }
    }
    text.len() > 1 && text.starts_with('"') && text.ends_with('"')
}

// Returns whether a text is the local part of a mailbox, quoted or not.
fn is_local_part(text: &str) -> bool {
    let is_atom = !text.is_empty() && !text.contains('@') && !text.contains('"');
    is_quoted(text) || (is_atom && !has_blank(text))
}

// Returns whether a text is a mailbox: a local part, `@`, and a host name or an address literal in
// brackets (RFC 5321 4.1.2).
fn is_mailbox(text: &str) -> bool {
    match text.rsplit_once('@') {
        Some((local, host)) => {
            is_local_part(local) && !has_blank(host) && (is_host(host) || host.starts_with('['))
        }
        None => false,
    }
}

// Returns whether a text is the scheme of a URI (RFC 3986 3.1).
fn is_scheme(text: &str) -> bool {
    for octet in text.as_bytes() {
        if !octet.is_ascii_alphanumeric() && *octet != b'+' && *octet != b'-' && *octet != b'.' {
            return false;
        }
    }
    matches!(text.as_bytes(), [first, ..] if first.is_ascii_alphabetic())
}

// Returns the part of a text before the first `end`, or the whole text if there is none.
fn before(text: &str, end: char) -> &str {
    match text.split_once(end) {
        Some((front, _)) => front,
        None => text,
    }
}

// Returns whether a text is empty or decimal digits.
fn is_port(text: &str) -> bool {
    for octet in text.as_bytes() {
        if !octet.is_ascii_digit() {
            return false;
        }
    }
    true
}

// Returns whether an authority has a host (RFC 3986 3.2), between the user information and the
// port.
fn has_host(authority: &str) -> bool {
    let server = match authority.rsplit_once('@') {
        Some((_, server)) => server,
        None => authority,
    };
    if server.starts_with('[') {
        return server.contains(']');
    }
    match server.split_once(':') {
        Some((host, port)) => is_host(host) && !host.starts_with('*') && is_port(port),
        None => is_host(server) && !server.starts_with('*'),
    }
}

// Returns whether a text is a URI with a scheme and a part after it. If it has an authority, that
// must have a host.
fn is_resource(text: &str) -> bool {
    let Some((scheme, rest)) = text.split_once(':') else {
        return false;
    };
    let has_authority = match rest.strip_prefix("//") {
        Some(rest) => has_host(before(before(before(rest, '/'), '?'), '#')),
        None => true,
    };
    is_scheme(scheme) && !rest.is_empty() && !has_blank(rest) && has_authority
}

// Returns whether a name is well formed.
fn is_well_formed(name: &GeneralName) -> bool {
    match name {
        GeneralName::DnsName(host) => is_host(host.as_str()),
        GeneralName::Rfc822Name(address) => is_mailbox(address.as_str()),
        GeneralName::UniformResourceIdentifier(resource) => is_resource(resource.as_str()),
        GeneralName::IpAddress(octets) => {
            let len = octets.as_bytes().len();
            len == 4 || len == 16
        }
        _ => true,
    }
}

// Adds a remark if the name, which begins at this offset, isn't well formed.
fn add_name_remark(lines: &mut Lines, subject: &Subject<'_>, place: usize, name: &GeneralName) {
    begin_remark(lines);
    lines.push("this name isn't well formed");
    end_text(lines, "RFC 5280 4.2.1.6");
    lines.tail(": ");
    match name {
        GeneralName::IpAddress(octets) => {
            lines.word("IP address of");
            lines.count_member("len", octets.as_bytes().len() as u64);
            lines.word("octets");
        }
        _ => add_general_name(lines, name),
    }
    let (_, key) = kind_of(name);
    add_where(lines, "name-form", subject, key, place);
}

// Adds the remarks on the names of an extension.
pub fn add_name_remarks(lines: &mut Lines, subject: &Subject<'_>, listed: &[GeneralName]) {
    let mut places = Inside::of(subject.octets, subject.inner);
    for name in listed {
        let place = places.next();
        if !is_well_formed(name) {
            add_name_remark(lines, subject, place, name);
        }
    }
}
