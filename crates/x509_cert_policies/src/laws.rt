//! Laws about values in the presentation language of TLS: a value's encoding decodes to this value
//! and to no other.
//!
//! Each law is the contract of a function that does nothing.

ghost use Rattle.std.specs.Prelude.{◌≡◌, ℕ, List, [], map};
ghost use Rattle.x509_cert_policies.specs.declared.tls_error.TlsError.{TlsError as Fault};
ghost use Rattle.x509_cert_policies.specs.Forms.{Form, Plain, Spells, Refuses, RefusesWhole};
ghost use Rattle.x509_cert_policies.specs.declared.serialized_sct.SerializedSct.{SerializedSct as Member};
ghost use Rattle.x509_cert_policies.specs.Lists.{sct_data, SpellsList, RefusesList};

/// Bytes begin with the encoding of at most one value, and are rejected for at most one reason. If
/// they begin with the encoding of a value, no error is found in them.
///
/// So decoding such bytes returns the value, unless memory runs out.
pub fn spellings_are_read()
    ensures once { (f : Form) (v w : Plain f) (input r s : List ℕ) → Spells f v input r
        → Spells f w input s → (v ≡ w) × (r ≡ s) }
    ensures read { (f : Form) (v : Plain f) (input r : List ℕ) (e : Fault) → Spells f v input r
        → ¬ Refuses f input e }
    ensures whole { (f : Form) (v : Plain f) (input : List ℕ) (e : Fault) → Spells f v input []
        → ¬ RefusesWhole f input e }
    ensures refused { (f : Form) (input : List ℕ) (d e : Fault) → Refuses f input d
        → Refuses f input e → d ≡ e }
{}

/// Bytes are the encoding of at most one list, and then no error is found in them.
///
/// So `parse_timestamps` returns the members of which the list was made, unless memory runs out.
pub fn lists_are_read()
    ensures once { (xs ys : List Member) (input : List ℕ) → SpellsList xs input
        → SpellsList ys input → map sct_data xs ≡ map sct_data ys }
    ensures read { (xs : List Member) (input : List ℕ) (e : Fault) → SpellsList xs input
        → ¬ RefusesList input e }
{}
