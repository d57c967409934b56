//! Laws about fields with a tag of a class.
//!
//! Each law is the contract of a function that does nothing.

ghost use Rattle.std.specs.Prelude.{◌≡◌, ◌/◌, ◌++◌, ℕ, List, [], true, false, Some, None, Ok, Err};
ghost use Rattle.der_core.specs.ErrorTypes.ErrorKind.{ErrorKind};
ghost use Rattle.der_core.specs.TagTypes.Tag.{Tag};
ghost use Rattle.der_core.specs.Tags.{IsTag, class_tag, same_tag, tag_at};
ghost use Rattle.der_core.specs.Shapes.{Shape, Content, Value, ContentValue, optional, tagged};
ghost use Rattle.der_core.specs.Shapes.{IsValid, octets_of};
ghost use Rattle.der_core.specs.Spelling.{is_apart, is_content_apart, is_element, are_enough};
ghost use Rattle.der_core.specs.Spelling.{are_content_enough};
ghost use Rattle.der_core.specs.EncodingRulesTypes.EncodingRules.TheVariants.{Der};
ghost use Rattle.der_core.specs.Grammar.{read};
ghost use Rattle.der_types_tagged.specs.Fields.{explicit_field, implicit_field, numbered_at};

/// The encoding of a field decodes to its value and number, whatever follows it: by
/// `decode_explicit` and `decode` if the field is explicit, and by `decode_implicit` if it is
/// implicit.
pub fn written_is_read_back()
    ensures explicit { (class n room : ℕ) (s : Shape) (v : Value s) (rest : List ℕ)
        → is_apart (explicit_field class n s) ≡ true → are_enough (explicit_field class n s) room
        ≡ true
        → IsValid (explicit_field class n s) v → read (optional (explicit_field class n s)) room
        (octets_of (explicit_field class n s) v ++ rest) ≡ Ok (Some v, rest) }
    ensures implicit { (class n room : ℕ) (own : Tag) (c : Content) (v : ContentValue c)
        (rest : List ℕ)
        → is_content_apart c ≡ true → are_content_enough c room ≡ true
        → IsValid (implicit_field class n own c) v → read (optional (implicit_field class n own c))
        room (octets_of (implicit_field class n own c) v ++ rest) ≡ Ok (Some v, rest) }
    ensures numbered { (class n room : ℕ) (s : Shape) (v : Value s) (rest : List ℕ)
        → is_apart (explicit_field class n s) ≡ true → are_enough (explicit_field class n s) room
        ≡ true
        → IsValid (explicit_field class n s) v
        → numbered_at Der class s room (octets_of (explicit_field class n s) v ++ rest)
        ≡ Ok ((n, v), rest) }
{}

/// If another tag or the end is next, the field is absent and nothing is consumed.
#[tactic(auto, using(crate::proofs::ReadBack::other_absent, crate::proofs::ReadBack::end_absent))]
pub fn others_are_absent()
    ensures tag { (field other : Tag) (c : Content) (room : ℕ) (w rest : List ℕ)
        → tag_at w ≡ Ok (other, rest) → same_tag field other ≡ false
        → read (optional (tagged field c)) room w ≡ Ok (None, w) }
    ensures end { (field : Tag) (c : Content) (room : ℕ) → read (optional (tagged field c)) room []
        ≡ Ok (None, []) }
{}
