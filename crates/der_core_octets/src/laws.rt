//! The laws of scanning headers.
//!
//! Each law is the contract of a function that does nothing.

ghost use Rattle.std.specs.Prelude.{ℕ, List, ◌++◌, ◌≢◌, None, Option, Result, Ok};
ghost use Rattle.der_core_head.specs.declared.error.Error.{Error};
ghost use Rattle.der_core_octets.specs.declared.header.Header.{Header};
ghost use Rattle.der_core_octets.specs.Headers.{AreAlike, Scans};

/// Any two functions that scan headers as `Scans` says have the same results, except for the
/// position of an error. A result stays the same when more bytes follow, unless the bytes ended too
/// early.
pub fn scanned_in_one_way()
    ensures alike { (w : List ℕ) (r s : Result (Option (Header × ℕ)) Error) → Scans w r → Scans w s
        → AreAlike r s }
    ensures longer { (w more : List ℕ) (r s : Result (Option (Header × ℕ)) Error) → Scans w r
        → r ≢ Ok None → Scans (w ++ more) s → AreAlike r s }
{}
