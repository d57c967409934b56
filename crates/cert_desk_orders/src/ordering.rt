//! Builds an order from its lines.
ghost use Rattle.std.specs.Prelude.{◌≡◌, ◌<◌, length, map, codes, string_bytes};
ghost use Rattle.std.specs.Prelude.{IfOk, IsSome, None, Some};
ghost use Rattle.std.specs.Option.{option_and_then};
ghost use Rattle.cert_desk_orders.specs.OrderValues.{key_in, length_in, octets_in};
ghost use Rattle.x509_cert_parts.specs.Views.{key_plain};
ghost use Rattle.cert_desk_orders.specs.OrderReading.{lines_plain};
ghost use Rattle.cert_desk_orders.specs.OrdersFile.{SayOrder, order_fault, value_of, values_of};

use crate::line::{Line, stands, value_of};
use crate::line_values;
use crate::order::Order;
use std::alloc::{AllocError, Global};
use x509_cert_parts::SubjectPublicKeyInfo;

// Returns the value of the first line with this word.
fn text_of(alloc: Global, lines: &[Line<'_>], word: &str) -> Result<String, AllocError>
    requires { IsSome (value_of word.now (lines_plain lines.now)) }
    ensures { IfOk result (λ text. value_of word.now (lines_plain lines.now)
        ≡ Some (string_bytes text)) }
{
    let Some(value) = value_of(lines, word) else {
        unreachable!()
    };
    String::from_str(alloc, value)
}

// Returns the bytes of the serial number.
fn serial_of(alloc: Global, lines: &[Line<'_>]) -> Result<Vec<u8>, AllocError>
    requires { IsSome
        (option_and_then octets_in (value_of (codes "serial") (lines_plain lines.now))) }
    ensures { IfOk result (λ serial.
        option_and_then octets_in (value_of (codes "serial") (lines_plain lines.now))
        ≡ Some serial.items) }
{
    let Some(value) = value_of(lines, "serial") else {
        unreachable!()
    };
    let Some(serial) = line_values::octets_of(alloc, value)? else {
        unreachable!()
    };
    Ok(serial)
}

// Returns the public key.
fn key_of(alloc: Global, lines: &[Line<'_>]) -> Result<SubjectPublicKeyInfo, AllocError>
    requires { IsSome (option_and_then key_in (value_of (codes "key") (lines_plain lines.now))) }
    ensures { IfOk result (λ key.
        option_and_then key_in (value_of (codes "key") (lines_plain lines.now))
        ≡ Some (key_plain key)) }
{
    let Some(value) = value_of(lines, "key") else {
        unreachable!()
    };
    let Some(key) = line_values::key_of(alloc, value)? else {
        unreachable!()
    };
    Ok(key)
}

// Returns the path length, if there is one.
fn length_of(lines: &[Line<'_>]) -> Option<u8>
    ensures { result ≡ option_and_then length_in (value_of (codes "path") (lines_plain lines.now)) }
{
    let Some(value) = value_of(lines, "path") else {
        return None;
    };
    line_values::length_of(value)
}

// Returns the DNS names.
fn names_of(alloc: Global, lines: &[Line<'_>]) -> Result<Vec<String>, AllocError>
    ensures { IfOk result (λ names. values_of (codes "dns") (lines_plain lines.now)
        ≡ map string_bytes names.items) }
{
    let mut names = Vec::new(alloc);
    for line in lines {
        if let Some(name) = line.value_if("dns") {
            names.push(String::from_str(alloc, name)?)?;
        }
    }
    Ok(names)
}

// Returns the order with these lines, none of which is wrong.
pub(crate) fn order_of(alloc: Global, lines: &[Line<'_>]) -> Result<Order, AllocError>
    requires some { 0 < length lines.now }
    requires sound { order_fault (lines_plain lines.now) ≡ None }
    ensures { IfOk result (SayOrder (lines_plain lines.now)) }
{
    let name = text_of(alloc, lines, "name")?;
    let not_before = text_of(alloc, lines, "from")?;
    let not_after = text_of(alloc, lines, "until")?;
    let serial = serial_of(alloc, lines)?;
    let dns = names_of(alloc, lines)?;
    let key = key_of(alloc, lines)?;
    Ok(Order {
        name,
        serial,
        not_before,
        not_after,
        key,
        path_len: length_of(lines),
        dns,
        client_auth: stands(lines, "client"),
        ocsp: stands(lines, "ocsp"),
    })
}
