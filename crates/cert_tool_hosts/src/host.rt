//! A host that a client connects to.

ghost use Rattle.std.specs.Prelude.{◌≡◌, option_map, IfNone, IfSome};
ghost use Rattle.std.specs.List.{after_first, before_first, list_all, slice_split};
ghost use Rattle.std.specs.Option.{is_some};
ghost use Rattle.std.specs.Str.{str_eq_ignore_ascii_case};
ghost use Rattle.std.specs.declared.net.ip_addr.IpAddr.{IpAddr};
ghost use Rattle.cert_tool_hosts.specs.declared.host.Host.{Host};
ghost use Rattle.cert_tool_hosts.specs.Hosts.{IsAddress, IsHost, before_bracket, has_more, in_brackets};
ghost use Rattle.cert_tool_hosts.specs.Hosts.{is_address_of, is_dns_name, is_dot};
ghost use Rattle.cert_tool_hosts.specs.Hosts.{is_label, is_name_octet, is_name_of, is_wildcard_of};

use std::net::{IpAddr, Ipv6Addr};

// The maximum number of bytes of a label, and of a DNS name as text (RFC 1035 2.3.4).
const LONGEST_LABEL: usize = 63;

const LONGEST_NAME: usize = 253;

/// A host that a client connects to: what RFC 9525 calls a reference identity.
#[derive(Clone, Copy)]
pub enum Host<'a> {
    /// A DNS name in ASCII, without a trailing dot.
    Dns(&'a str),
    /// An IPv4 or IPv6 address.
    Address(IpAddr),
}

// Returns whether a label may contain this byte.
fn is_name_octet(octet: u8) -> bool
    ensures { result ≡ is_name_octet octet }
{
    octet.is_ascii_alphanumeric() || octet == b'-' || octet == b'_'
}

// Returns whether a label may contain each of these bytes.
fn are_name_octets(octets: &[u8]) -> bool
    ensures { result ≡ list_all is_name_octet octets.now }
{
    octets.iter().all(|octet| is_name_octet(*octet))
}

// Returns whether a text is a label of a DNS name.
fn is_label(label: &str) -> bool
    ensures { result ≡ is_label label.now }
{
    !label.is_empty() && label.len() <= LONGEST_LABEL && are_name_octets(label.as_bytes())
}

// Returns whether the parts between the dots are labels of a DNS name.
fn are_labels(text: &str) -> bool
    ensures { result ≡ list_all is_label (slice_split is_dot text.now) }
{
    text.split('.').all(|label| is_label(label))
}

// Returns whether a text is a DNS name.
fn is_dns_name(text: &str) -> bool
    ensures { result ≡ is_dns_name text.now }
{
    text.len() <= LONGEST_NAME && are_labels(text)
}

// Returns the leftmost label of a name and the remaining labels, if there are any.
fn parts_of(name: &str) -> Option<(&str, &str)>
    ensures leftmost { IfSome result (λ parts. parts.0.now ≡ before_first is_dot name.now) }
    ensures others { IfSome result (λ parts. parts.1.now ≡ after_first is_dot name.now) }
    ensures more { is_some result ≡ has_more name.now }
{
    name.split_once('.')
}

// Returns whether two texts are equal but for the case of ASCII letters.
fn is_same(one: &str, other: &str) -> bool
    ensures { result ≡ str_eq_ignore_ascii_case one.now other.now }
{
    one.eq_ignore_ascii_case(other)
}

// Returns whether a presented name is a wildcard that matches the leftmost label of a host's name.
fn is_wildcard_of(name: &str, presented: &str) -> bool
    ensures { result ≡ is_wildcard_of name.now presented.now }
{
    let Some((_, others)) = parts_of(name) else {
        return false;
    };
    let Some((label, domain)) = parts_of(presented) else {
        return false;
    };
    label == "*" && is_same(domain, others)
}

// Returns the text before the bracket `]` at its end.
fn before_bracket(text: &[u8]) -> Option<&[u8]>
    ensures { option_map (λ inner. inner.now) result ≡ before_bracket text.now }
{
    if !text.ends_with(b"]") {
        return None;
    }
    Some(&text[..text.len() - 1])
}

// Returns the text between brackets.
fn in_brackets(text: &[u8]) -> Option<&[u8]>
    ensures { option_map (λ inner. inner.now) result ≡ in_brackets text.now }
{
    if !text.starts_with(b"[") {
        return None;
    }
    before_bracket(&text[1..])
}

// Parses an IPv4 address, or an IPv6 address, which may be in brackets.
fn address_in(text: &[u8]) -> Option<IpAddr>
    ensures read { IfSome result (IsAddress text.now) }
    ensures none { IfNone result ((address : IpAddr) → IsAddress text.now address → ⊥) }
{
    if let Ok(address) = IpAddr::parse_ascii(text) {
        return Some(address);
    }
    let Some(inner) = in_brackets(text) else {
        return None;
    };
    match Ipv6Addr::parse_ascii(inner) {
        Ok(address) => Some(IpAddr::V6(address)),
        Err(_) => None,
    }
}

impl<'a> Host<'a> {
    /// Parses a host: an IPv4 or IPv6 address, or else a DNS name. An IPv6 address may be in
    /// brackets, as in URIs. A DNS name has labels of 1 to 63 letters, digits, `-` and `_`, and at
    /// most 253 bytes. An internationalized name must be given with its A-labels (`xn--..`).
    pub fn parse(text: &'a str) -> Option<Host<'a>>
        ensures read { IfSome result (IsHost text.now) }
        ensures none { IfNone result ((host : Host) → IsHost text.now host → ⊥) }
    {
        if let Some(address) = address_in(text.as_bytes()) {
            return Some(Host::Address(address));
        }
        if !is_dns_name(text) {
            return None;
        }
        Some(Host::Dns(text))
    }

    /// Returns whether a dNSName of a certificate matches this host (RFC 9525 6.3). The case of
    /// ASCII letters is ignored, and `*` as the whole leftmost label matches exactly one label.
    pub fn has_name(&self, presented: &str) -> bool
        ensures { result ≡ is_name_of self.now presented.now }
    {
        match self {
            Host::Dns(name) => { is_same(presented, name) || is_wildcard_of(name, presented) }
            Host::Address(_) => false,
        }
    }

    /// Returns whether an iPAddress of a certificate is this host's address (RFC 9525 6.4).
    pub fn has_address(&self, presented: &[u8]) -> bool
        ensures { result ≡ is_address_of self.now presented.now }
    {
        match self {
            Host::Dns(_) => false,
            Host::Address(IpAddr::V4(address)) => address.octets().as_slice() == presented,
            Host::Address(IpAddr::V6(address)) => address.octets().as_slice() == presented,
        }
    }
}
