//! Parses orders files.
ghost use Rattle.std.specs.Prelude.{◌≡◌, ◌<◌, ◌≤◌, length, map, IfErr, IfOk, None, OnOk};
ghost use Rattle.cert_desk_orders.specs.OrderReading.{IsFaultIn, lines_plain, order_len};
ghost use Rattle.cert_desk_orders.specs.OrdersFile.{SayOrder, SayOrders, SaysOrders, by_order};
ghost use Rattle.cert_desk_orders.specs.OrdersFile.{faulty_line, first_fault, order_fault};

use crate::faults::order_fault;
use crate::line::{Line, lines_of};
use crate::order::Order;
use crate::ordering::order_of;
use crate::orders_error::OrdersError;
use std::alloc::{AllocError, Global};

// Returns the number of lines of the first order.
fn order_len(lines: &[Line<'_>]) -> usize
    requires { 0 < length lines.now }
    ensures length { result ≡ order_len (lines_plain lines.now) }
    ensures within { result ≤ length lines.now }
{
    match lines[1..].iter().position(|line| line.has("order")) {
        Some(others) => others + 1,
        None => lines.len(),
    }
}

// Returns the lines of each order.
pub(crate) fn grouped<'b, 'a>(
    alloc: Global,
    lines: &'b [Line<'a>],
) -> Result<Vec<&'b [Line<'a>]>, AllocError>
    ensures { IfOk result (λ orders. map (λ order. lines_plain order.now) orders.items
        ≡ by_order (lines_plain lines.now)) }
{
    let mut orders = Vec::new(alloc);
    let mut start = 0;
    'orders: while start < lines.len() {
        let rest = &lines[start..];
        let length = order_len(rest);
        orders.push(&rest[..length])?;
        start += length;
    }
    Ok(orders)
}

// Parses one order.
fn read_order(alloc: Global, lines: &[Line<'_>]) -> Result<Order, OrdersError>
    requires { 0 < length lines.now }
    ensures sound { OnOk result (order_fault (lines_plain lines.now) ≡ None) }
    ensures said { IfOk result (SayOrder (lines_plain lines.now)) }
    ensures refused { IfErr result (IsFaultIn (order_fault (lines_plain lines.now))) }
{
    if let Some(number) = order_fault(alloc, lines)? {
        return Err(OrdersError::Line(number));
    }
    let order = order_of(alloc, lines)?;
    Ok(order)
}

// Parses the orders of several lines.
fn read_orders(alloc: Global, lines: &[Line<'_>]) -> Result<Vec<Order>, OrdersError>
    ensures sound { OnOk result (first_fault (by_order (lines_plain lines.now)) ≡ None) }
    ensures said { IfOk result
        (λ orders. SayOrders (by_order (lines_plain lines.now)) orders.items) }
    ensures refused { IfErr result (IsFaultIn (first_fault (by_order (lines_plain lines.now)))) }
{
    let mut orders = Vec::new(alloc);
    let mut start = 0;
    'orders: while start < lines.len() {
        let rest = &lines[start..];
        let length = order_len(rest);
        let order = read_order(alloc, &rest[..length])?;
        orders.push(order)?;
        start += length;
    }
    Ok(orders)
}

/// Parses an orders file.
///
/// Each line ends with LF or the file. Empty lines are skipped. Every other line is in UTF-8, and
/// consists of a word and, after one space, a value. `order`, without a value, begins an order. Its
/// other words follow in any order:
///
/// | Word | Value | How often |
/// |---|---|---|
/// | `name` | the subject (RFC 4514) | once |
/// | `from`, `until` | the dates, as text | once |
/// | `serial` | the bytes of the serial number in base 16 | once |
/// | `key` | a SubjectPublicKeyInfo (RFC 5280 4.1.2.7) in base 16 | once |
/// | `path` | the path length in decimal, up to 255 | at most once |
/// | `client`, `ocsp` | none, and no space | at most once |
/// | `dns` | a DNS name | any number of times |
///
/// # Errors
///
/// - `Line`: a line is wrong. Its number is reported, counted from 1, and that of the first one if
///   there are several. A line is wrong if its word is unknown, its value isn't allowed, its word
///   occurs too often, or it comes before the first order. The line `order` is wrong if the order
///   lacks a word.
/// - `OutOfMemory`: memory runs out.
pub fn orders_in(alloc: Global, octets: &[u8]) -> Result<Vec<Order>, OrdersError>
    ensures said { IfOk result (λ orders. SaysOrders octets.now orders.items) }
    ensures refused { IfErr result (IsFaultIn (faulty_line octets.now)) }
{
    let lines = lines_of(alloc, octets)?;
    let orders = read_orders(alloc, lines.as_slice())?;
    Ok(orders)
}
