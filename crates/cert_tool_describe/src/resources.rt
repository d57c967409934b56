//! Prints IP address blocks and autonomous system numbers (RFC 3779).

use crate::values::{add_value, any_in, are_tagged, inside, noted, sequence_in};
use cert_tool_lines::Lines;
use cert_tool_lines::types::{Any, BitString};
use std::net::{Ipv4Addr, Ipv6Addr};
use x509_cert_lists::der::making::read_whole;
use x509_cert_lists::der::{ErrorKind, Tag};

// Returns the bytes of an address that begins with these bits. The other bits are those of `fill`.
fn address_of(bits: &BitString, fill: u8) -> [u8; 16] {
    let mut address = [fill; 16];
    let rest = fill & !(0xffu8 << (bits.unused_bits() & 7));
    for (place, octet) in bits.raw_bytes().iter().enumerate() {
        if place < 16 {
            address[place] = *octet;
            if place + 1 == bits.raw_bytes().len() {
                address[place] = *octet | rest;
            }
        }
    }
    address
}

// Returns whether an address family is IPv4.
fn is_short(family: &[u8]) -> bool {
    matches!(family, [0, 1, ..])
}

// Adds the address of a family that begins with these bits. The other bits are those of `fill`.
fn add_address(lines: &mut Lines, family: &[u8], bits: &BitString, fill: u8) {
    let address = address_of(bits, fill);
    if is_short(family) {
        let [a, b, c, d, ..] = address;
        lines.show("", Ipv4Addr::new(a, b, c, d), "");
    } else {
        lines.show("", Ipv6Addr::from(address), "");
    }
}

// Returns the bits of an address, if the value is an address of the family.
fn address_in(lines: &mut Lines, family: &[u8], value: &Any) -> Option<BitString> {
    let bits = value.decode_as::<BitString>(lines.alloc);
    let most = if is_short(family) { 32 } else { 128 };
    match noted(lines, bits) {
        Some(bits) if bits.bit_len() <= most => Some(bits),
        _ => None,
    }
}

// Adds a line with an address prefix. Returns whether the value is one.
fn add_prefix(lines: &mut Lines, family: &[u8], value: &Any) -> bool {
    let Some(bits) = address_in(lines, family, value) else {
        return false;
    };
    lines.item("");
    lines.begin();
    add_address(lines, family, &bits, 0);
    lines.show("/", bits.bit_len() as u64, "");
    lines.end();
    true
}

// Adds a line with an address range. Returns whether the values are one.
fn add_range(lines: &mut Lines, family: &[u8], least: &Any, most: &Any) -> bool {
    let Some(least) = address_in(lines, family, least) else {
        return false;
    };
    let Some(most) = address_in(lines, family, most) else {
        return false;
    };
    lines.item("");
    lines.begin();
    add_address(lines, family, &least, 0);
    lines.push("-");
    add_address(lines, family, &most, 0xff);
    lines.end();
    true
}

// Adds a malformed item: its value, after a word.
fn add_no_item(lines: &mut Lines, word: &str, value: &Any) {
    lines.entry(word);
    add_value(lines, value);
    lines.malformed("malformed", ErrorKind::Failed);
    lines.close();
}

// Adds a line with an address prefix or an address range.
fn add_addresses(lines: &mut Lines, family: &[u8], value: &Any) {
    let is_told = match inside(lines, value).as_slice() {
        [least, most] => add_range(lines, family, least, most),
        _ => add_prefix(lines, family, value),
    };
    if !is_told {
        add_no_item(lines, "", value);
    }
}

// Returns the name of an address family whose addresses are printed.
fn family_name(family: &[u8]) -> &'static str {
    match family {
        [0, 1] | [0, 1, _] => "IPv4",
        [0, 2] | [0, 2, _] => "IPv6",
        _ => "",
    }
}

// Adds the lines of the addresses of a family.
fn add_family(lines: &mut Lines, family: &[u8], choice: &Any) {
    lines.text_member("addressFamily", family_name(family));
    if let [_, _, safi] = family {
        lines.word("SAFI");
        lines.count_member("safi", u64::from(*safi));
    }
    if choice.is_null() {
        lines.mark("inherit", "inherit", true);
        return;
    }
    lines.list("addresses");
    match sequence_in(lines, choice) {
        Some(values) => {
            for value in &values {
                add_addresses(lines, family, value);
            }
        }
        None => add_no_item(lines, "", choice),
    }
    lines.end_list();
}

// Adds the lines of an IPAddressFamily.
fn add_block(lines: &mut Lines, block: &Any) {
    lines.entry("");
    match inside(lines, block).as_slice() {
        [family, choice]
            if family.tag() == Tag::OctetString && !family_name(family.value()).is_empty() => {
            add_family(lines, family.value(), choice);
        }
        _ => add_value(lines, block),
    }
    lines.close();
}

// Adds the lines of IPAddrBlocks (RFC 3779 2.2.3). Returns whether the bytes can be decoded.
pub fn add_descriptions(lines: &mut Lines, octets: &[u8]) -> bool {
    let Some(blocks) = any_in(lines, octets) else {
        return false;
    };
    lines.list("addressBlocks");
    for block in &blocks {
        add_block(lines, block);
    }
    lines.end_list();
    true
}

// Returns an autonomous system number or a routing domain identifier.
fn system_in(lines: &mut Lines, value: &Any) -> Option<u32> {
    let number = value.decode_as::<u32>(lines.alloc);
    noted(lines, number)
}

// Adds a line with a number or a range of numbers. Returns whether the values are one.
fn add_numbers(lines: &mut Lines, word: &str, least: &Any, most: Option<&Any>) -> bool {
    let Some(first) = system_in(lines, least) else {
        return false;
    };
    let last = match most {
        Some(most) => match system_in(lines, most) {
            Some(last) => Some(last),
            None => return false,
        },
        None => None,
    };
    lines.item(word);
    lines.begin();
    lines.show("", u64::from(first), "");
    if let Some(last) = last {
        lines.show("-", u64::from(last), "");
    }
    lines.end();
    true
}

// Adds the lines of the numbers of one kind.
fn add_systems_of(lines: &mut Lines, word: &str, choice: &Any) {
    if choice.is_null() {
        lines.item(word);
        lines.text("inherit");
        return;
    }
    let Some(values) = sequence_in(lines, choice) else {
        add_no_item(lines, word, choice);
        return;
    };
    for value in &values {
        let is_told = match inside(lines, value).as_slice() {
            [least, most] => add_numbers(lines, word, least, Some(most)),
            _ => add_numbers(lines, word, value, None),
        };
        if !is_told {
            add_no_item(lines, word, value);
        }
    }
}

// Adds the lines of the numbers in a field.
fn add_field(lines: &mut Lines, word: &str, key: &str, field: &Any) {
    lines.list(key);
    let choice = read_whole::<Any>(lines.alloc, field.value());
    match noted(lines, choice) {
        Some(choice) => add_systems_of(lines, word, &choice),
        None => add_no_item(lines, word, field),
    }
    lines.end_list();
}

// Adds the lines of ASIdentifiers (RFC 3779 3.2.3). Returns whether the bytes can be decoded.
pub fn add_systems(lines: &mut Lines, octets: &[u8]) -> bool {
    let Some(fields) = any_in(lines, octets) else {
        return false;
    };
    if !are_tagged(fields.as_slice(), 2) {
        return false;
    }
    for field in &fields {
        if field.tag().number().value == 0 {
            add_field(lines, "AS", "asnum", field);
        } else {
            add_field(lines, "routing domain", "rdi", field);
        }
    }
    true
}
