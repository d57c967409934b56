//! The certificates of a path, as a bundle.

ghost use Rattle.std.specs.Prelude.{◌≡◌, ◌≢◌, ℕ, ◌≤◌, ◌^◌, List, [], ◌∷◌, length};
ghost use Rattle.std.specs.Prelude.{IfOk, IfErr, OnOk};
ghost use Rattle.cert_desk_checking.specs.Oid.Bound.{Bound};
ghost use Rattle.cert_desk_checking.specs.DeskBundle.Chains.{joined};
ghost use Rattle.cert_desk_checking.specs.DeskBundle.Steps.{ReadsExtended, RefusesPiece};
ghost use Rattle.cert_desk_checking.specs.DeskBundle.Streams.{Reads};
ghost use Rattle.pki_signers.specs.Paths.{certificates_at};

use cert_desk_checking::desk_bundle::{Bundle, BundleError, Standing};
use std::alloc::Global;

/// Returns a bundle of the certificates at these indices, in this order. The bundle has ended, and
/// its size limit is that of the certificates. An index at which there is no certificate is left
/// out.
///
/// The limit must be at least 6, as it is for every bundle that `Bundle::new` returned.
///
/// # Errors
///
/// - `OutOfMemory`: memory runs out.
/// - Any other error: the certificates have 2^64 bytes or more, which takes a path that repeats
///   indices.
///
/// If memory ran out in `certificates`, or a read of it failed, the clauses `chain` and `long`
/// state nothing. The result has still read the encodings of the certificates (`reads`), but no
/// clause says which error is returned.
pub fn chain_of(alloc: Global, certificates: &Bundle, path: &[usize]) -> Result<Bundle, BundleError>
    requires { 6 ≤ certificates.now.limit }
    ensures ended { IfOk result (λ chain. chain.standing ≡ Standing.Ended) }
    ensures limit { IfOk result (λ chain. chain.limit ≡ certificates.now.limit) }
    // The bundle has read the encodings of the certificates, one after another.
    ensures reads { IfOk result (λ chain. Reads Bound chain
        (joined Bound (certificates_at certificates.now.certificates path.now))) }
    // So its certificates are these, if `certificates` is the result of reading an input.
    ensures chain { IfOk result (λ chain. (stream : List ℕ) → Reads Bound certificates.now stream
        → chain.certificates ≡ certificates_at certificates.now.certificates path.now) }
    // The only cause of an error is then their length, or memory.
    ensures long { IfErr result (λ e. (stream : List ℕ) → Reads Bound certificates.now stream
        → e ≢ BundleError.OutOfMemory → 2 ^ 64
        ≤ length (joined Bound (certificates_at certificates.now.certificates path.now))) }
{
    let mut chain = Bundle::new(alloc, certificates.limit());
    for place in path {
        feed_at(&mut chain, certificates, *place)?;
    }
    chain.finish()?;
    Ok(chain)
}

// Feeds the certificate at an index to a bundle, if there is one.
fn feed_at(chain: &mut Bundle, certificates: &Bundle, place: usize) -> Result<(), BundleError>
    requires { chain.old.standing ≡ Standing.Open }
    ensures open { OnOk result (chain.new.standing ≡ Standing.Open) }
    ensures limit { chain.new.limit ≡ chain.old.limit }
    ensures reads { OnOk result (ReadsExtended Bound chain.old chain.new
        (joined Bound (certificates_at certificates.now.certificates (place ∷ [])))) }
    ensures refused { IfErr result (RefusesPiece Bound chain.old chain.new
        (joined Bound (certificates_at certificates.now.certificates (place ∷ [])))) }
{
    let Some(entry) = certificates.get(place) else {
        return Ok(());
    };
    chain.feed(entry.octets)?;
    Ok(())
}
