//! Object identifiers: their bytes, texts and arcs.

use crate::refusals::Refusal;
use crate::shown::{debugged, hex_of, name_of, octets_of, shown};
use const_oid::{Arc, Database, ObjectIdentifier, ObjectIdentifierRef};
use std::alloc::Global;
use std::fmt::Display;
use std::num::ParseIntError;

type Identifier = ObjectIdentifier<39>;

/// Answers a question with one of these words.
pub fn answer(alloc: Global, word: &str, rest: &str) -> Result<String, Refusal> {
    match word {
        "oid" => octets_in(alloc, rest.parse()),
        "oid-arcs" => of_arcs(alloc, rest),
        "oid-octets" => of_octets(alloc, rest),
        "oid-ref" => debug_of(alloc, rest),
        "oid-ref-order" => order_of_refs(alloc, rest),
        "oid-name" | "oid-names" | "oid-named" | "oid-resolved" => named(alloc, word, rest),
        _ => of_text(alloc, word, rest),
    }
}

/// Returns the content bytes of an OID.
fn octets_in(alloc: Global, outcome: const_oid::Result<Identifier>) -> Result<String, Refusal> {
    hex_of(alloc, outcome?.as_bytes())
}

/// Returns the OID with these content bytes.
fn of_octets(alloc: Global, digits: &str) -> Result<String, Refusal> {
    let octets = octets_of(alloc, digits)?;
    shown(alloc, Identifier::try_from(octets.as_slice())?)
}

/// Returns the `Debug` output of the borrowed OID with these content bytes.
fn debug_of(alloc: Global, digits: &str) -> Result<String, Refusal> {
    let octets = octets_of(alloc, digits)?;
    debugged(alloc, Ok(ObjectIdentifierRef::try_from(octets.as_slice())?))
}

/// Returns the content bytes of the OID with these arcs, which are separated by spaces.
fn of_arcs(alloc: Global, text: &str) -> Result<String, Refusal> {
    let mut arcs = Vec::new(alloc);
    for arc in text.split_whitespace() {
        arcs.push(arc.parse::<Arc>()?)?;
    }
    octets_in(alloc, Identifier::from_arcs(arcs.iter().copied()))
}

/// Answers a question about the OID with a text, and about the rest of the question.
fn of_text(alloc: Global, word: &str, rest: &str) -> Result<String, Refusal> {
    let (text, other) = rest.split_once(' ').unwrap_or((rest, ""));
    let identifier = Identifier::new(text)?;
    match word {
        "oid-arc" => arc_of(alloc, &identifier, other.parse()),
        "oid-child" => child_of(alloc, &identifier, other.parse()),
        "oid-counted" => counted(alloc, &identifier, other.parse()),
        "oid-len" => shown(alloc, identifier.len()),
        "oid-order" => order_with(alloc, &identifier, Identifier::new(other)),
        "oid-parent" => or_none(alloc, identifier.parent()),
        "oid-starts" => starts_with(alloc, &identifier, Identifier::new(other)),
        _ => Err(Refusal::Unread),
    }
}

/// Returns the arc at an index.
fn arc_of(
    alloc: Global,
    identifier: &Identifier,
    place: Result<usize, ParseIntError>,
) -> Result<String, Refusal> {
    or_none(alloc, identifier.arc(place?))
}

/// Returns the OID with one more arc.
fn child_of(
    alloc: Global,
    identifier: &Identifier,
    arc: Result<Arc, ParseIntError>,
) -> Result<String, Refusal> {
    shown(alloc, identifier.push_arc(arc?)?)
}

/// Returns the order of two OIDs.
fn order_with(
    alloc: Global,
    identifier: &Identifier,
    other: const_oid::Result<Identifier>,
) -> Result<String, Refusal> {
    shown(alloc, name_of(identifier.cmp(&other?)))
}

/// Returns whether an OID starts with another one.
fn starts_with(
    alloc: Global,
    identifier: &Identifier,
    other: const_oid::Result<Identifier>,
) -> Result<String, Refusal> {
    shown(alloc, identifier.starts_with(other?))
}

/// Returns the parent, the number of its arcs, and whether at most that many bytes were tested for
/// it.
fn counted(
    alloc: Global,
    identifier: &Identifier,
    most: Result<u32, ParseIntError>,
) -> Result<String, Refusal> {
    let most = most?;
    let (Some(parent), tests) = identifier.parent_counted() else {
        return shown(alloc, "none");
    };
    let len = parent.len();
    let within = tests <= most;
    Ok(format!(in alloc; "{parent} {len} {within}")?)
}

/// Returns the order of two OIDs that are borrowed as bytes.
fn order_of_refs(alloc: Global, rest: &str) -> Result<String, Refusal> {
    let (first, second) = rest.split_once(' ').ok_or(Refusal::Unread)?;
    let first = octets_of(alloc, first)?;
    let second = octets_of(alloc, second)?;
    order_of_octets(alloc, first.as_slice(), second.as_slice())
}

/// Returns the order of the borrowed OIDs with these content bytes.
fn order_of_octets(alloc: Global, first: &[u8], second: &[u8]) -> Result<String, Refusal> {
    let first = ObjectIdentifierRef::from_bytes(first)?;
    let second = ObjectIdentifierRef::from_bytes(second)?;
    shown(alloc, name_of(first.cmp(&second)))
}

/// Returns the answer of a database with three entries.
fn named(alloc: Global, word: &str, text: &str) -> Result<String, Refusal> {
    let common_name = Identifier::from_bytes_unwrap(&[0x55, 4, 3]);
    let country_name = Identifier::from_bytes_unwrap(&[0x55, 4, 6]);
    let entries = [
        (&common_name, "CN"),
        (&country_name, "C"),
        (&common_name, "commonName"),
    ];
    told(alloc, word, text, &Database::new(&entries))
}

/// Returns the answer of a database.
fn told(alloc: Global, word: &str, text: &str, database: &Database<'_>) -> Result<String, Refusal> {
    match word {
        "oid-name" => or_none(alloc, database.by_oid(&Identifier::new(text)?)),
        "oid-named" => or_none(alloc, database.by_name(text)),
        "oid-resolved" => shown(alloc, database.resolve(text)?),
        _ => names_of(alloc, &Identifier::new(text)?, database),
    }
}

/// Returns the names of an OID, separated by spaces.
fn names_of(
    alloc: Global,
    identifier: &Identifier,
    database: &Database<'_>,
) -> Result<String, Refusal> {
    let mut names = String::new(alloc);
    for name in database.find_names_for_oid(*identifier) {
        if !names.is_empty() {
            names.push_str(" ")?;
        }
        names.push_str(name)?;
    }
    Ok(names)
}

/// Returns the text of a value, or `none`.
fn or_none<T: Display + Drop>(alloc: Global, value: Option<T>) -> Result<String, Refusal> {
    match value {
        Some(value) => shown(alloc, value),
        None => shown(alloc, "none"),
    }
}
