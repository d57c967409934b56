ghost use Rattle.std.specs.Prelude.{◌≡◌, List, ◌∷◌, ◌++◌, ◌==◌, [], length, reverse, vec_len, OnOk};
ghost use Rattle.std.specs.Prelude.{Some, OnErr, IfErr, flat_map};
ghost use Rattle.std.specs.Fmt.{WritesOnOk};
ghost use Rattle.std.specs.Slice.Iter.{iter_rest};
ghost use Rattle.der_core.specs.Oid.Bound.{Bound};
ghost use Rattle.der_core.specs.Grammar.{plain_list};
ghost use Rattle.der_core.specs.Copies.{IsCopy};
ghost use Rattle.x509_cert_name_texts.specs.Answers.{GivesBy};
ghost use Rattle.x509_cert_names.specs.NameTexts.{ReadsName, ReadsEncoding, relative_printed};
ghost use Rattle.x509_cert_names.specs.NameTexts.{name_printed, printed_behind};
ghost use Rattle.x509_cert_names.specs.Names.{name};
ghost use Rattle.x509_cert_names.specs.declared.attribute_type_and_value.AttributeTypeAndValue.{AttributeTypeAndValue};
ghost use Rattle.x509_cert_names.specs.Pairs.{relative_plain};
ghost use Rattle.x509_cert_names.specs.Views.{sequence_plain};

use crate::members::copy_of;
use crate::name_iter::RdnSequenceIter;
use crate::relative_distinguished_name::RelativeDistinguishedName;
use der_core::describing::{AsField, Described, Ordered, Wraps};
use der_core::{Error, ToDer};
use std::alloc::{AllocError, Global};
use std::fmt;
use x509_cert_name_texts::read_pieces;

/// A sequence of RDNs, the most general first (RFC 5280 4.1.2.4).
///
/// ```text
/// RDNSequence ::= SEQUENCE OF RelativeDistinguishedName
/// ```
#[derive(Debug, Drop, PartialEq, Eq, Hash)]
pub struct RdnSequence {
    relative_names: Vec<RelativeDistinguishedName>,
}

/// A name that isn't wrapped in the CHOICE `Name` (RFC 5280 4.1.2.4).
///
/// ```text
/// DistinguishedName ::= RDNSequence
/// ```
pub type DistinguishedName = RdnSequence;

impl RdnSequence {
    /// Parses a sequence of RDNs in its string form (RFC 4514 2.1, 3).
    ///
    /// The RDNs are separated by commas, and the last one in the text is the first in the sequence.
    /// A comma or a `+` is a separator if the number of backslashes before it is even. The empty
    /// text is the empty sequence.
    ///
    /// # Errors
    ///
    /// - The error of the first RDN from the left that is rejected
    ///   (`RelativeDistinguishedName::from_str`).
    /// - `OutOfMemory`: memory runs out.
    pub fn from_str(alloc: Global, text: &str) -> Result<RdnSequence, Error>
        ensures { GivesBy (λ s. s.relative_names.items) result (ReadsName Bound text.now) }
    {
        if text.is_empty() {
            return Ok(RdnSequence::default(alloc));
        }
        let mut relative_names: Vec<RelativeDistinguishedName> = read_pieces(alloc, text, b',')?;
        relative_names.reverse();
        Ok(RdnSequence { relative_names })
    }

    /// Parses a sequence of RDNs as `from_str` does and returns its encoding.
    ///
    /// # Errors
    ///
    /// - The errors of `from_str` and of `to_der`.
    pub fn encode_from_string(alloc: Global, text: &str) -> Result<Vec<u8>, Error>
        ensures { GivesBy (λ octets. octets.items) result
            (ReadsEncoding (name Bound) (plain_list relative_plain) (ReadsName Bound text.now)) }
    {
        let sequence = RdnSequence::from_str(alloc, text)?;
        let octets = sequence.to_der(alloc)?;
        Ok(octets)
    }

    /// Returns a copy.
    ///
    /// # Errors
    ///
    /// - `AllocError`: memory runs out.
    pub fn clone(&self, alloc: Global) -> Result<RdnSequence, AllocError>
        ensures { IsCopy self.now result sequence_plain }
    {
        let relative_names = copy_of(alloc, self.relative_names.as_slice())?;
        Ok(RdnSequence { relative_names })
    }

    /// Returns the empty sequence.
    pub fn default(alloc: Global) -> RdnSequence
        ensures { result.relative_names.items ≡ [] }
    {
        RdnSequence {
            relative_names: Vec::new(alloc),
        }
    }

    /// Returns whether the sequence is empty.
    pub fn is_empty(&self) -> bool
        ensures { result ≡ (length self.now.relative_names.items == 0) }
    {
        self.relative_names.is_empty()
    }

    /// Returns the number of RDNs.
    pub fn len(&self) -> usize
        ensures { result ≡ length self.now.relative_names.items }
    {
        self.relative_names.len()
    }

    /// Returns an iterator over the RDNs, the most general first.
    pub fn iter(&self) -> RdnSequenceIter<'_>
        ensures { iter_rest result ≡ self.now.relative_names.items }
    {
        self.relative_names.as_slice().iter()
    }

    /// Appends an RDN, which becomes the most specific.
    ///
    /// # Errors
    ///
    /// - `AllocError`: memory runs out. The sequence is unchanged.
    pub fn push(&mut self, name: RelativeDistinguishedName) -> Result<(), AllocError>
        ensures ok { OnOk result (self.new.relative_names.items ≡ self.old.relative_names.items
            ++ name
            ∷ []) }
        ensures err { OnErr result (self.new.relative_names.items ≡ self.old.relative_names.items) }
    {
        self.relative_names.push(name)?;
        Ok(())
    }
}

impl Described for RdnSequence {
    type By = AsField<Vec<RelativeDistinguishedName>>;
}

impl Wraps<Vec<RelativeDistinguishedName>> for RdnSequence {
    ghost inner = { λ x. x.relative_names };

    fn inner(&self) -> &Vec<RelativeDistinguishedName> {
        &self.relative_names
    }

    ghost made = { λ _ _ e. e };
}

/// Compares the encodings of the RDNs, one after another.
impl Ordered for RdnSequence {}

/// Writes the RDNs with commas between them, the last RDN first (RFC 4514 2.1).
impl fmt::Display for RdnSequence {
    ghost output = { λ s. Some (name_printed s.relative_names.items) };

    fn fmt<W: fmt::Write>(&self, f: &mut fmt::Formatter<W>) -> fmt::Result {
        write_names(self.relative_names.as_slice(), f)
    }
}

/// Writes RDNs with commas between them, the last RDN first.
fn write_names<W: fmt::Write>(
    names: &[RelativeDistinguishedName],
    f: &mut fmt::Formatter<W>,
) -> fmt::Result
    ensures { WritesOnOk W.write_str_gives f.old result (name_printed names.now) f.new }
{
    let Some((last, before)) = names.split_last() else {
        return Ok(());
    };
    fmt::Display::fmt(last, f)?;
    write_before(before, f)
}

/// Writes a comma and an RDN.
fn write_next<W: fmt::Write>(
    name: &RelativeDistinguishedName,
    f: &mut fmt::Formatter<W>,
) -> fmt::Result
    ensures { WritesOnOk W.write_str_gives f.old result
        (printed_behind 44 relative_printed name.now)
        f.new }
{
    write!(f, ",{name}")
}

/// Writes a comma before each RDN, the last RDN first.
fn write_before<W: fmt::Write>(
    names: &[RelativeDistinguishedName],
    f: &mut fmt::Formatter<W>,
) -> fmt::Result
    ensures { WritesOnOk W.write_str_gives f.old result
        (flat_map (printed_behind 44 relative_printed) (reverse names.now)) f.new }
{
    let mut left = names;
    while let Some((last, before)) = left.split_last() {
        write_next(last, f)?;
        left = before;
    }
    Ok(())
}

/// Copies the value with its own allocator.
impl Clone for RdnSequence {
    ghost is_clone = { λ x y. y.relative_names.items ≡ x.relative_names.items };

    fn clone(&self) -> Result<RdnSequence, AllocError> {
        let alloc = *self.relative_names.allocator();
        let relative_names = copy_of(alloc, self.relative_names.as_slice())?;
        Ok(RdnSequence { relative_names })
    }
}

/// Returns the sequence of these RDNs, which are in order from the most general.
impl From<Vec<RelativeDistinguishedName>> for RdnSequence {
    ghost from_gives = { λ names sequence. sequence.relative_names ≡ names };

    fn from(relative_names: Vec<RelativeDistinguishedName>) -> RdnSequence {
        RdnSequence { relative_names }
    }
}

/// Returns the list of RDNs.
impl AsRef<Vec<RelativeDistinguishedName>> for RdnSequence {
    fn as_ref(&self) -> &Vec<RelativeDistinguishedName>
        ensures { result.now ≡ self.now.relative_names }
    {
        &self.relative_names
    }
}

/// Returns the list of RDNs for changes.
impl AsMut<Vec<RelativeDistinguishedName>> for RdnSequence {
    ghost use Rattle.std.specs.Borrow.{sem, Lends};
    ghost use Rattle.der_core.specs.Rows.{list_row};
    ghost use Rattle.x509_cert_names.specs.contracts.relative_distinguished_name.RelativeDistinguishedName.{the_row as member_row};
    ghost use Rattle.x509_cert_names.specs.contracts.rdn_sequence.RdnSequence.{the_row};

    fn as_mut(&mut self) -> &mut Vec<RelativeDistinguishedName>
        ensures* writes_back { sem 𝓛 (Lends the_row (list_row member_row) self.entry result
            (λ w. record { relative_names = w })) }
        ensures value { result.now ≡ self.old.relative_names }
    {
        &mut self.relative_names
    }
}

/// Converts the sequence to a list, the most general RDN first.
impl From<RdnSequence> for Vec<RelativeDistinguishedName> {
    ghost from_gives = { λ sequence names. names ≡ sequence.relative_names };

    fn from(sequence: RdnSequence) -> Vec<RelativeDistinguishedName> {
        sequence.relative_names
    }
}
