//! Finds the fields of a value that are allowed at a position inside it.

use crate::parts::{Node, Part, is_list, parts_of};

/// A TLV that matches a field: the field's name and, for a CHOICE, the name of the alternative
/// (each may be empty), and what is inside it.
#[derive(Clone, Copy)]
pub struct MatchedField {
    pub name: &'static str,
    pub choice: &'static str,
    pub node: Node,
}

// Returns the alternative of a CHOICE with this first tag byte: its name and what is inside it.
fn chosen(choice: Node, first: u8) -> Option<(&'static str, Node)> {
    for part in parts_of(choice) {
        let (tag, _, name, node) = *part;
        if tag == Some(first) {
            return Some((name, node));
        }
    }
    None
}

// Returns the match of a field with the first tag byte of a TLV.
fn matched_field(part: &Part, first: u8) -> Option<MatchedField> {
    let (tag, _, name, node) = *part;
    let choice = "";
    match (tag, node) {
        (Some(octet), _) if octet == first => Some(MatchedField { name, choice, node }),
        (Some(_), _) => None,
        (None, Node::Leaf) => Some(MatchedField { name, choice, node }),
        (None, node) => match chosen(node, first) {
            Some((choice, node)) => Some(MatchedField { name, choice, node }),
            None => None,
        },
    }
}

/// The fields that are allowed at a position, and after it.
#[derive(Clone, Copy)]
pub struct Fields {
    parts: &'static [Part],
    is_list: bool,
    // The index of the first field that may be next.
    from: usize,
}

impl Fields {
    // Returns these fields, from the first one on.
    pub fn new(parts: &'static [Part], is_list: bool) -> Fields {
        Fields {
            parts,
            is_list,
            from: 0,
        }
    }

    // Returns the fields of a value, at its beginning.
    pub fn of(node: Node) -> Fields {
        Fields::new(parts_of(node), is_list(node))
    }

    // Returns whether the fields of the value have names.
    pub fn is_named(&self) -> bool {
        !self.parts.is_empty()
    }

    // Returns the fields that may be next: up to the first one that is required.
    pub fn next(&self) -> &'static [Part] {
        let Some(rest) = self.parts.get(self.from..) else {
            return &[];
        };
        let mut count = 0usize;
        for part in rest {
            count = count.saturating_add(1);
            let (_, is_optional, _, _) = *part;
            if !is_optional {
                break;
            }
        }
        match rest.get(..count) {
            Some(next) => next,
            None => rest,
        }
    }

    // Returns whether one of these fields is required.
    pub fn is_required(&self) -> bool {
        match self.next() {
            [.., last] => {
                let (_, is_optional, _, _) = *last;
                !self.is_list && !is_optional
            }
            [] => false,
        }
    }

    // Matches the first tag byte of a TLV with the next fields. Returns the match and the fields
    // that may follow, or `None` if no field matches.
    pub fn take(&self, first: u8) -> Option<(MatchedField, Fields)> {
        let mut from = self.from;
        for part in self.next() {
            from = from.saturating_add(1);
            if let Some(taken) = matched_field(part, first) {
                let behind = Fields {
                    parts: self.parts,
                    is_list: self.is_list,
                    from: if self.is_list { 0 } else { from },
                };
                return Some((taken, behind));
            }
        }
        None
    }
}
