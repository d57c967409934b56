//! The laws of decoding and encoding, for every shape.
//!
//! Each law is the contract of a function that does nothing.

ghost use Rattle.std.specs.Prelude.{◌≡◌, ◌≢◌, ◌↔◌, ◌≤◌, ◌<◌, ◌⊎◌, ℕ, List, [], ◌++◌, length, take};
ghost use Rattle.std.specs.Prelude.{drop, true, false, None, Ok, Err};
ghost use Rattle.der_core_head.specs.Limits.{IsLength, levels_max};
ghost use Rattle.der_core_head.specs.Octets.{IsOctets};
ghost use Rattle.der_core_head.specs.declared.error.ErrorKind.{ErrorKind};
ghost use Rattle.der_core_head.specs.declared.error.ErrorKind.TheVariants.{Incomplete};
ghost use Rattle.der_core_head.specs.declared.tag.Tag.{Tag};
ghost use Rattle.der_core_head.specs.Tags.{IsTag, tag_octets};
ghost use Rattle.der_core_head.specs.Heads.{Head, Fits, head_at, head_octets};
ghost use Rattle.der_core_head.specs.Shapes.{Shape, Value, IsValid, begins, octets_of};
ghost use Rattle.der_core_head.specs.Bounds.{IsOf, IsValidUnder, identifiers_of, AreBelow};
ghost use Rattle.der_core_head.specs.Bounds.{HoldsLarge};
ghost use Rattle.der_core_head.specs.Spelling.{is_apart, is_element, are_enough};
ghost use Rattle.der_core_head.specs.Grammar.{read};
ghost use Rattle.der_core_head.specs.Ranges.{IsInRange};
ghost use Rattle.der_core_head.specs.Writing.{Out, write};
ghost use Rattle.der_core_head.specs.Bodies.{IsIndefiniteBody, SpellsHead, body_len_at};
ghost use Rattle.der_core_head.specs.Bodies.{head_ber_at};

/// No encoding is a prefix of another, and no two values have the same encoding (X.690 10, 11).
///
/// This holds for each shape that has a header and unambiguous first tags, however many levels of
/// nesting it has.
#[tactic(auto, using(crate::proofs::OneEncoding::one_value))]
pub fn apart_is_lawful()
    ensures { (s : Shape) (v w : Value s) (r t : List ℕ) → is_element s ≡ true → is_apart s ≡ true
        → IsValid s v → IsValid s w → octets_of s v ++ r ≡ octets_of s w ++ t
        → (v ≡ w) × (r ≡ t) }
{}

/// A value that was decoded is valid, and the bytes are its encoding, followed by the remainder.
///
/// This holds for unambiguous shapes and inputs of at most 2^32 - 1 bytes, and for optional values
/// and defaults, too.
pub fn read_is_spelled()
    ensures valid { (s : Shape) (room : ℕ) (w : List ℕ) (v : Value s) (r : List ℕ)
        → is_apart s ≡ true
        → IsOctets w → Fits w → read s room w ≡ Ok (v, r) → IsValid s v }
    ensures octets { (s : Shape) (room : ℕ) (w : List ℕ) (v : Value s) (r : List ℕ)
        → is_apart s ≡ true
        → IsOctets w → Fits w → read s room w ≡ Ok (v, r) → w ≡ octets_of s v ++ r }
{}

/// The encoding of a valid value decodes to that value and the remainder, whatever follows it.
///
/// This holds for each unambiguous shape that has a header and whose levels of nesting suffice.
#[tactic(auto, using(crate::proofs::Complete::complete_element))]
pub fn spelled_is_read()
    ensures { (s : Shape) (room : ℕ) (v : Value s) (r : List ℕ) → is_element s ≡ true
        → is_apart s ≡ true → are_enough s room ≡ true
        → IsValid s v → read s room (octets_of s v ++ r) ≡ Ok (v, r) }
{}

/// Bytes that decode with some levels of nesting decode to the same value with more levels.
#[tactic(auto, using(crate::proofs::Complete::more_read))]
pub fn more_levels_read_alike()
    ensures { (s : Shape) (room more : ℕ) (w : List ℕ) (v : Value s) (r : List ℕ) → room ≤ more
        → read s room w ≡ Ok (v, r) → read s more w ≡ Ok (v, r) }
{}

/// Encoding appends the encoding of the value, whose length is at most the greatest length. The
/// value is valid if its parts are in their ranges.
///
/// So a value that is too long is rejected. A value in range is also rejected if a set in it isn't
/// in order (X.690 11.6).
#[tactic(auto, using(crate::proofs::Written::as_written))]
pub fn written_is_spelled()
    ensures octets { (s : Shape) (v : Value s) (o z : Out) → write s v o ≡ Ok z
        → (z.written ≡ o.written ++ octets_of s v) × Fits (octets_of s v) }
    ensures valid { (s : Shape) (v : Value s) (o z : Out) → write s v o ≡ Ok z → IsInRange s v
        → IsValid s v }
{}

/// A valid value is encoded if the writer has no limit.
#[tactic(auto, using(crate::proofs::Written::written))]
pub fn valid_is_written()
    ensures { (s : Shape) (v : Value s) (w : List ℕ) → IsValid s v
        → write s v (record { written = w; room = None; failed = false })
        ≡ Ok (record { written = w ++ octets_of s v; room = None; failed = false }) }
{}

/// If a value whose parts are in their ranges is encoded, the bytes decode to that value and the
/// remainder, whatever follows them.
///
/// This holds for each unambiguous shape that has a header and whose levels of nesting suffice.
#[tactic(auto, using(crate::proofs::Written::as_written))]
pub fn written_is_read()
    ensures { (s : Shape) (room : ℕ) (v : Value s) (o z : Out) (r : List ℕ) → is_element s ≡ true
        → is_apart s ≡ true → are_enough s room ≡ true
        → IsInRange s v → o.written ≡ [] → write s v o ≡ Ok z
        → read s room (z.written ++ r) ≡ Ok (v, r) }
{}

/// A header that is decoded is the encoding of the result, and the encoding of a header decodes to
/// it, whatever follows (X.690 8.1.2, 8.1.3, 10.1).
pub fn headers_are_spelled()
    ensures spelled { (h : Head) (r w : List ℕ) → IsOctets w → head_at w ≡ Ok (h, r)
        → (w ≡ head_octets h.tag h.len ++ r) × IsTag h.tag × IsLength h.len }
    ensures read { (t : Tag) (n : ℕ) (r : List ℕ) → IsTag t → IsLength n
        → head_at (head_octets t n ++ r) ≡ Ok (record { tag = t; len = n }, r) }
{}

/// More bytes don't change a header: the header at the beginning of some bytes stays the header
/// when more bytes follow, and an error stays the error, unless it is `Incomplete`.
#[tactic(auto, using(crate::proofs::LeafLaws::headers_stay))]
pub fn headers_stay()
    ensures read { (h : Head) (r w more : List ℕ) → head_at w ≡ Ok (h, r)
        → head_at (w ++ more) ≡ Ok (h, r ++ more) }
    ensures fault { (k : ErrorKind) (w more : List ℕ) → head_at w ≡ Err k → k ≢ Incomplete
        → head_at (w ++ more) ≡ Err k }
{}

/// The encoding of a value, if it isn't empty, begins with one of the first tags of its shape.
#[tactic(auto, using(crate::proofs::Complete::field_first))]
pub fn values_begin_as_stated()
    ensures { (s : Shape) (v : Value s) → is_apart s ≡ true → IsValid s v
        → (octets_of s v ≡ [])
        ⊎ ((t : Tag) × (w : List ℕ) × (octets_of s v ≡ tag_octets t ++ w) × IsTag t
        × (begins s t ≡ true)) }
{}

/// Under BER, too, a header that is decoded is the encoding of the result, and the encoding of a
/// header decodes to it. What DER accepts, BER accepts (X.690 8.1.2, 8.1.3, 8.1.5).
pub fn ber_headers_are_spelled()
    ensures spelled { (h : Head) (r w : List ℕ) → IsOctets w → head_ber_at w ≡ Ok (h, r)
        → SpellsHead h r w }
    ensures read { (h : Head) (r w : List ℕ) → SpellsHead h r w → head_ber_at w ≡ Ok (h, r) }
    ensures der { (h : Head) (r w : List ℕ) → head_at w ≡ Ok (h, r) → head_ber_at w ≡ Ok (h, r) }
{}

/// A body of indefinite length has at least the two bytes that end it, and where it ends doesn't
/// depend on what follows it (X.690 8.1.3.6, 8.1.5).
#[tactic(auto, using(crate::proofs::BodyLaws::body_ends))]
pub fn bodies_end_themselves()
    ensures least { (k : ℕ) (b : List ℕ) → IsIndefiniteBody k b → 2 ≤ length b }
    ensures body { (b more : List ℕ) → IsIndefiniteBody levels_max b → Fits b
        → body_len_at (b ++ more) ≡ Ok (length b) }
    ensures header { (h : Head) (n : ℕ) (w more : List ℕ) → IsOctets w → n ≤ length w
        → head_ber_at w ≡ Ok (h, drop n w)
        → head_ber_at (take n w ++ (take h.len (drop n w) ++ more))
        ≡ Ok (h, take h.len (drop n w) ++ more) }
{}

/// A value is valid under a bound of arcs if and only if it is valid in the shape with this bound
/// and no other.
#[tactic(auto, using(crate::proofs::BoundLaws::own))]
pub fn bounds_are_those_of_shapes()
    ensures { (bound : ℕ) (s : Shape) (v : Value s) → IsOf bound s
        → IsValid s v ↔ IsValidUnder bound s v }
{}

/// A value that has an encoding under one bound of arcs has the same encoding under a larger bound.
#[tactic(auto, using(crate::proofs::BoundLaws::wider))]
pub fn wider_bounds_keep_encodings()
    ensures { (small large : ℕ) (s : Shape) (v : Value s) → small ≤ large → IsValidUnder small s v
        → IsValidUnder large s v }
{}

/// A value that has an encoding under one bound of arcs has one under another bound, if each arc of
/// its object identifiers is below that bound. So a value without an encoding under that bound has
/// an arc that isn't below it. If the bound is at least 40, the converse holds, too, because every
/// second arc is below 40.
#[tactic(auto, using(crate::proofs::BoundLaws::large_arcs))]
pub fn new_values_hold_large_arcs()
    ensures narrow { (small large : ℕ) (s : Shape) (v : Value s) → IsValidUnder large s v
        → AreBelow small (identifiers_of s v) → IsValidUnder small s v }
    ensures below { (bound : ℕ) (s : Shape) (v : Value s) → 40 ≤ bound → IsValidUnder bound s v
        → AreBelow bound (identifiers_of s v) }
    ensures new { (small large : ℕ) (s : Shape) (v : Value s) → IsValidUnder large s v
        → (IsValidUnder small s v → ⊥) → HoldsLarge small (identifiers_of s v) }
{}
