//! Printing object identifiers as dotted text.

ghost use Rattle.std.specs.Prelude.{◌≡◌, ◌≤◌, ℕ, true, is_ok, length};
ghost use Rattle.std.specs.Fmt.{WritesOnOk};
ghost use Rattle.const_oid.specs.Bound.{Bound};
ghost use Rattle.const_oid.specs.IdentifierOctets.{read_identifier};
ghost use Rattle.const_oid.specs.Arcs.{arcs_of};
ghost use Rattle.const_oid.specs.DottedText.{decimal, dot_decimal, dotted};
ghost use Rattle.std.specs.List.{flat_map};
ghost use Rattle.const_oid.specs.References.{remaining_arcs};

use crate::arcs::Arcs;
use crate::error::Arc;
use crate::object_identifier::ObjectIdentifier;
use crate::object_identifier_ref::ObjectIdentifierRef;
use std::{fmt, str};

/// Writes the arcs of an encoded identifier in decimal, separated by dots.
fn write_dotted<W: fmt::Write>(octets: &[u8], f: &mut fmt::Formatter<W>) -> fmt::Result
    requires { is_ok (read_identifier Bound (length octets.now) octets.now) ≡ true }
    ensures { WritesOnOk W.write_str_gives f.old result (dotted (arcs_of octets.now)) f.new }
{
    let mut arcs = Arcs::of(octets);
    let Some(first) = arcs.next() else {
        return Ok(());
    };
    f.write_str(first_text(first))?;
    write_later(arcs, f)
}

/// Writes a dot and the decimal digits of each remaining arc.
fn write_later<W: fmt::Write>(mut arcs: Arcs<'_>, f: &mut fmt::Formatter<W>) -> fmt::Result
    ensures { WritesOnOk W.write_str_gives f.old result
        (flat_map dot_decimal (remaining_arcs arcs.entry)) f.new }
{
    while let Some(arc) = arcs.next() {
        write_dot_decimal(arc, f)?;
    }
    Ok(())
}

/// Returns the text of a first arc, which is one digit.
#[tactic(auto, using(crate::proofs::DottedLaws::one_digit))]
fn first_text(first: Arc) -> &'static str
    requires { first ≤ 2 }
    ensures { result.now ≡ decimal first }
{
    match first {
        0 => "0",
        1 => "1",
        _ => "2",
    }
}

/// Writes a dot and an arc in decimal. Most arcs have one digit or two, which are written directly.
#[tactic(auto, using(crate::proofs::DottedLaws::short_dots))]
fn write_dot_decimal<W: fmt::Write>(arc: Arc, f: &mut fmt::Formatter<W>) -> fmt::Result
    ensures { WritesOnOk W.write_str_gives f.old result (dot_decimal arc) f.new }
{
    if arc < 10 {
        return write_ascii(&[b'.', b'0' + arc as u8], f);
    }
    if arc < 100 {
        let arc = arc as u8;
        return write_ascii(&[b'.', b'0' + arc / 10, b'0' + arc % 10], f);
    }
    write_long(arc, f)
}

/// Writes a dot and an arc of any size in decimal.
fn write_long<W: fmt::Write>(arc: Arc, f: &mut fmt::Formatter<W>) -> fmt::Result
    ensures { WritesOnOk W.write_str_gives f.old result (dot_decimal arc) f.new }
{
    write!(f, ".{arc}")
}

/// Writes ASCII bytes.
fn write_ascii<W: fmt::Write>(octets: &[u8], f: &mut fmt::Formatter<W>) -> fmt::Result
    ensures { WritesOnOk W.write_str_gives f.old result octets.now f.new }
{
    match str::from_utf8(octets) {
        Ok(text) => f.write_str(text),
        Err(_) => Err(fmt::Error),
    }
}

impl fmt::Display for ObjectIdentifierRef<'_> {
    ghost use Rattle.std.specs.Prelude.{Some};
    ghost use Rattle.const_oid.specs.DottedText.{dotted};
    ghost use Rattle.const_oid.specs.References.{reference_arcs};

    ghost output = { λ oid. Some (dotted (reference_arcs oid)) };

    fn fmt<W: fmt::Write>(&self, f: &mut fmt::Formatter<W>) -> fmt::Result {
        write_dotted(self.as_bytes(), f)
    }
}

impl<const MAX_SIZE: usize> fmt::Display for ObjectIdentifier<MAX_SIZE> {
    ghost use Rattle.std.specs.Prelude.{Some};
    ghost use Rattle.const_oid.specs.DottedText.{dotted};

    ghost output = { λ arcs. Some (dotted arcs) };

    fn fmt<W: fmt::Write>(&self, f: &mut fmt::Formatter<W>) -> fmt::Result {
        self.as_oid_ref().fmt(f)
    }
}

impl fmt::Debug for ObjectIdentifierRef<'_> {
    fn fmt<W: fmt::Write>(&self, f: &mut fmt::Formatter<W>) -> fmt::Result {
        write!(f, "ObjectIdentifierRef({self})")
    }
}

impl<const MAX_SIZE: usize> fmt::Debug for ObjectIdentifier<MAX_SIZE> {
    fn fmt<W: fmt::Write>(&self, f: &mut fmt::Formatter<W>) -> fmt::Result {
        write!(f, "ObjectIdentifier({self})")
    }
}
