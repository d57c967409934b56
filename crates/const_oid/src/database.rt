//! Databases of object identifiers and their names, over a slice that the caller provides.

ghost use Rattle.std.specs.Prelude.{◌≡◌, ℕ, List, Option};

use crate::{ObjectIdentifier, Result};

/// An object identifier and its name.
pub type Entry<'a> = (&'a ObjectIdentifier<39>, &'a str);

/// A database of object identifiers and their names.
///
/// An identifier or a name may occur in several entries. A lookup returns the first match.
#[derive(Clone, Copy)]
pub struct Database<'a> {
    entries: &'a [Entry<'a>],
}

/// An iterator over the names of one identifier, in the order of the entries.
#[derive(Clone, Copy, Drop)]
pub struct Names<'a> {
    entries: &'a [Entry<'a>],
    passed: usize,
    oid: ObjectIdentifier<39>,
}

impl<'a> Database<'a> {
    ghost use Rattle.std.specs.Prelude.{◌≡◌, option_map, IfErr};
    ghost use Rattle.const_oid.specs.Databases.{entries_of, remaining_names};
    ghost use Rattle.const_oid.specs.Names.{names_of, first, by_name, resolved};
    ghost use Rattle.const_oid.specs.TextReading.{read_text};
    ghost use Rattle.const_oid.specs.TextFaults.{IsTextFault};
    ghost use Rattle.const_oid.specs.Bound.{Bound, max_size};
    ghost use Rattle.std.specs.Result.{result_map_both};

    /// Returns a database of these entries.
    #[inline]
    pub const fn new(entries: &'a [Entry<'a>]) -> Self
        ensures { entries_of result ≡ entries.now }
    {
        Database { entries }
    }

    /// Returns an iterator over the names of an identifier, in the order of the entries.
    #[inline]
    pub fn find_names_for_oid(&self, oid: ObjectIdentifier<39>) -> Names<'a>
        ensures { remaining_names result ≡ names_of oid (entries_of self.now) }
    {
        Names {
            entries: self.entries,
            passed: 0,
            oid,
        }
    }

    /// Returns the first name of an identifier.
    pub fn by_oid(&self, oid: &ObjectIdentifier<39>) -> Option<&'a str>
        ensures { option_map (λ name. name.now) result
            ≡ first (names_of oid.now (entries_of self.now)) }
    {
        self.find_names_for_oid(*oid).next()
    }

    /// Returns the identifier of the first entry with this name. The comparison ignores ASCII case.
    pub fn by_name(&self, name: &str) -> Option<&'a ObjectIdentifier<39>>
        ensures { option_map (λ oid. oid.now) result ≡ by_name name.now (entries_of self.now) }
    {
        for i in 0..self.entries.len() {
            let (oid, known) = self.entries[i];
            if known.eq_ignore_ascii_case(name) {
                return Some(oid);
            }
        }
        None
    }

    /// Parses a dotted text and returns the first name of its identifier, or the text itself if the
    /// identifier has no name.
    ///
    /// # Errors
    ///
    /// The errors of `ObjectIdentifier::new`.
    pub fn resolve<'b>(&self, oid: &'b str) -> Result<&'b str>
    where
        'a: 'b,
        ensures name { result_map_both (λ name. name.now) (λ e. e) result
            ≡ resolved oid.now (entries_of self.now) (read_text Bound max_size oid.now) }
        ensures fault { IfErr result (λ e. IsTextFault Bound max_size oid.now e) }
    {
        let identifier = ObjectIdentifier::<39>::new(oid)?;
        match self.by_oid(&identifier) {
            Some(name) => Ok(name),
            None => Ok(oid),
        }
    }
}

impl<'a> Iterator for Names<'a> {
    ghost use Rattle.std.specs.Iterator.{YieldsFirstBy, item_count};
    ghost use Rattle.const_oid.specs.Databases.{remaining_names};

    type Item = &'a str;

    ghost next_gives = { YieldsFirstBy (λ name. name.now) remaining_names };

    ghost remaining = { item_count remaining_names };

    fn next(&mut self) -> Option<&'a str> {
        while self.passed < self.entries.len() {
            let (known, name) = self.entries[self.passed];
            self.passed += 1;
            if *known == self.oid {
                return Some(name);
            }
        }
        None
    }
}
