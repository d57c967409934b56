//! Building an object identifier from its arcs, one after another.

ghost use Rattle.std.specs.Prelude.{◌≡◌, ℕ, ◌↔◌, [], IsTrue, MatchResult, Result, Ok, Err};
ghost use Rattle.const_oid.specs.ArcLists.{add_arc, whole_arcs};

use crate::error::{Arc, Error, Result};
use crate::object_identifier::ObjectIdentifier;
use std::marker::Model;

/// The arcs collected so far: none, only a first arc, or those of an identifier. In contracts, its
/// value is the list of these arcs.
#[derive(Drop)]
pub(crate) struct Encoder<const MAX_SIZE: usize> {
    first: Option<u8>,
    identifier: Option<ObjectIdentifier<MAX_SIZE>>,
}

impl<const MAX_SIZE: usize> Model for Encoder<MAX_SIZE> {
    ghost use Rattle.std.specs.Prelude.{ℕ, List};
    ghost use Rattle.const_oid.specs.ArcLists.{arcs_so_far, IsSoFar};

    ghost Value = { List ℕ };

    ghost view = { λ e. arcs_so_far e.first e.identifier };

    ghost invariant = { λ e. IsSoFar e.first e.identifier };
}

impl<const MAX_SIZE: usize> Encoder<MAX_SIZE> {
    /// Returns an encoder without arcs.
    pub(crate) fn new() -> Self
        ensures { result ≡ [] }
    {
        Encoder {
            first: None,
            identifier: None,
        }
    }

    /// Returns whether there is no arc yet.
    pub(crate) fn is_empty(&self) -> bool
        ensures { IsTrue result ↔ (self.now ≡ []) }
    {
        self.first.is_none()
    }

    /// Appends an arc.
    ///
    /// # Errors
    ///
    /// - `ArcInvalid`: the arc is a first arc above 2, or a second arc above 39.
    /// - `Length`: the encoding exceeds the capacity.
    pub(crate) fn add(&mut self, arc: Arc) -> Result<()>
        ensures { MatchResult result
            (λ _. add_arc MAX_SIZE self.old arc ≡ Ok self.new)
            (λ e. add_arc MAX_SIZE self.old arc ≡ Err e) }
    {
        if let Some(identifier) = &mut self.identifier {
            return identifier.push(arc);
        }
        let Some(first) = self.first else {
            if arc > 2 {
                return Err(Error::ArcInvalid { arc });
            }
            self.first = Some(arc as u8);
            return Ok(());
        };
        if arc >= 40 {
            return Err(Error::ArcInvalid { arc });
        }
        let root = ObjectIdentifier::from_bytes_sized(&[40 * first + arc as u8])?;
        self.identifier = Some(root);
        Ok(())
    }

    /// Returns the identifier.
    ///
    /// # Errors
    ///
    /// - `Empty`: there are fewer than two arcs.
    #[tactic(auto, using(crate::proofs::EncodingLaws::finished))]
    pub(crate) fn finish(self) -> Result<ObjectIdentifier<MAX_SIZE>>
        ensures { result ≡ whole_arcs self.entry }
    {
        self.identifier.ok_or(Error::Empty)
    }
}
