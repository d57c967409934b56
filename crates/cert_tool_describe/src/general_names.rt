//! Prints general names (RFC 5280 4.2.1.6).

ghost use Rattle.std.specs.Prelude.{◌≡◌, length};

use crate::described::Describe;
use crate::values::{add_name_members, add_value};
use cert_tool_lines::Lines;
use std::alloc::Global;
use std::net::{Ipv4Addr, Ipv6Addr};
use x509_cert_extensions::cert_general_names::{EdiPartyName, GeneralName};
use x509_cert_lists::cert_names::DirectoryString;
use x509_cert_lists::der::Error;
use x509_cert_lists::der::making::read_whole;

// Adds an IPv4 address.
fn add_short(lines: &mut Lines, octets: &[u8], behind: &str)
    requires { length octets.now ≡ 4 }
{
    let mut address = [0; 4];
    address.copy_from_slice(octets);
    lines.show("", Ipv4Addr::from(address), behind);
}

// Adds an IPv6 address.
fn add_long(lines: &mut Lines, octets: &[u8], behind: &str)
    requires { length octets.now ≡ 16 }
{
    let mut address = [0; 16];
    address.copy_from_slice(octets);
    lines.show("", Ipv6Addr::from(address), behind);
}

// Adds an address, or an address with its mask (RFC 5280 4.2.1.10).
fn add_address(lines: &mut Lines, octets: &[u8]) {
    if octets.len() == 4 {
        add_short(lines, octets, "");
    } else if octets.len() == 8 {
        add_short(lines, &octets[..4], "/");
        add_short(lines, &octets[4..], "");
    } else if octets.len() == 16 {
        add_long(lines, octets, "");
    } else if octets.len() == 32 {
        add_long(lines, &octets[..16], "/");
        add_long(lines, &octets[16..], "");
    } else {
        lines.push("octets ");
        lines.pairs("", octets, Some(b':'));
    }
}

// Adds a member with the text of a DirectoryString of any string type.
fn add_string(lines: &mut Lines, key: &str, text: &DirectoryString) {
    lines.key(key);
    match text {
        DirectoryString::BmpString(wide) => match wide.to_string(lines.alloc) {
            Ok(text) => lines.plain_value(text.as_str()),
            Err(_) => lines.fail(),
        },
        _ => lines.plain_value(text.as_str()),
    }
}

// Adds the name of a party, and the authority that assigned it.
fn add_party(lines: &mut Lines, party: &EdiPartyName) {
    add_string(lines, "partyName", &party.party_name);
    if let Some(assigner) = &party.name_assigner {
        lines.word("assigned by");
        add_string(lines, "nameAssigner", assigner);
    }
}

/// Returns the words and the JSON key for the kind of a name.
pub fn kind_of(name: &GeneralName) -> (&'static str, &'static str) {
    match name {
        GeneralName::Rfc822Name(_) => ("email", "rfc822Name"),
        GeneralName::DnsName(_) => ("DNS", "dNSName"),
        GeneralName::UniformResourceIdentifier(_) => ("URI", "uniformResourceIdentifier"),
        GeneralName::EdiPartyName(_) => ("party", "ediPartyName"),
        GeneralName::IpAddress(_) => ("IP", "iPAddress"),
        GeneralName::DirectoryName(_) => ("name", "directoryName"),
        GeneralName::RegisteredId(_) => ("identifier", "registeredID"),
        GeneralName::OtherName(_) => ("other", "otherName"),
    }
}

// Adds the members of a name that is a structure.
fn add_members(lines: &mut Lines, name: &GeneralName) {
    match name {
        GeneralName::EdiPartyName(party) => add_party(lines, party),
        GeneralName::DirectoryName(name) => add_name_members(lines, name),
        GeneralName::RegisteredId(identifier) => lines.members_of(identifier),
        GeneralName::OtherName(other) => {
            lines.members_of(&other.type_id);
            add_value(lines, &other.value);
        }
        _ => {}
    }
}

/// Adds a name of any kind, as a member with the key of that kind.
pub fn add_general_name(lines: &mut Lines, name: &GeneralName) {
    let (word, key) = kind_of(name);
    lines.word(word);
    lines.key(key);
    match name {
        GeneralName::Rfc822Name(address) => lines.plain_value(address.as_str()),
        GeneralName::DnsName(host) => lines.plain_value(host.as_str()),
        GeneralName::UniformResourceIdentifier(resource) => lines.plain_value(resource.as_str()),
        GeneralName::IpAddress(octets) => {
            lines.begin();
            add_address(lines, octets.as_bytes());
            lines.end();
        }
        _ => {
            lines.open();
            add_members(lines, name);
            lines.close();
        }
    }
}

// Adds a line for each name, which begins with this word.
pub fn add_general_names(lines: &mut Lines, word: &str, key: &str, listed: &[GeneralName]) {
    lines.list(key);
    for name in listed {
        lines.item(word);
        lines.brace();
        add_general_name(lines, name);
        lines.end_brace();
    }
    lines.end_list();
}

impl Describe for Vec<GeneralName> {
    fn read_content(alloc: Global, octets: &[u8]) -> Result<Vec<GeneralName>, Error> {
        read_whole(alloc, octets)
    }

    fn describe(&self, lines: &mut Lines) {
        add_general_names(lines, "", "names", self.as_slice());
    }
}
