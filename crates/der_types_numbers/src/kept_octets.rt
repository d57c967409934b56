//! Lists of bytes, of which short ones are stored inline.

ghost use Rattle.std.specs.Prelude.{◌≡◌, ◌≤◌, length, nat_eq, IfOk};
ghost use Rattle.std.specs.Cmp.{partial_equiv_from_equiv};
ghost use Rattle.std.specs.Cmp.Lexicographic.{pointwise, nat_list_eq_equiv};

use std::alloc::{AllocError, Global};
use std::fmt;
use std::marker::Model;

/// A list of bytes. Up to 32 bytes can be copied without an allocation.
///
/// In contracts, its value is the list.
#[derive(Drop)]
pub struct KeptOctets {
    store: Store,
    alloc: Global,
}

/// The storage of the bytes, which is inline or in a vector.
#[derive(Drop)]
enum Store {
    Few(InPlace),
    Many(Vec<u8>),
}

/// The first bytes of an array, and their number.
#[derive(Drop)]
struct InPlace {
    bytes: [u8; 32],
    // Empty. It aligns the bytes to words, so that they are moved word by word.
    words: [u64; 0],
    len: usize,
}

impl Model for KeptOctets {
    ghost use Rattle.std.specs.Prelude.{ℕ, List};
    ghost use Rattle.der_types_numbers.specs.Kept.{kept, IsKept};

    ghost Value = { List ℕ };

    ghost view = { λ o. kept o.store };

    ghost invariant = { λ o. IsKept o.store };
}

impl KeptOctets {
    /// Returns the bytes of a vector, whose memory is kept.
    pub fn of(bytes: Vec<u8>) -> KeptOctets
        ensures { result ≡ bytes.items }
    {
        KeptOctets {
            alloc: *bytes.allocator(),
            store: Store::Many(bytes),
        }
    }

    /// Returns a copy of bytes.
    ///
    /// # Errors
    ///
    /// - `AllocError`: there are more than 32 bytes, and memory runs out.
    pub fn copy_of(alloc: Global, octets: &[u8]) -> Result<KeptOctets, AllocError>
        ensures { IfOk result (λ o. o ≡ octets.now) }
    {
        if octets.len() <= 32 {
            return Ok(KeptOctets::few(alloc, octets));
        }
        let bytes = Vec::from_slice(alloc, octets)?;
        Ok(KeptOctets::of(bytes))
    }

    /// Returns a copy of up to 32 bytes, which is stored inline.
    fn few(alloc: Global, octets: &[u8]) -> KeptOctets
        requires { length octets.now ≤ 32 }
        ensures { result ≡ octets.now }
    {
        let mut bytes = [0; 32];
        bytes[..octets.len()].copy_from_slice(octets);
        KeptOctets {
            store: Store::Few(InPlace {
                len: octets.len(),
                bytes,
                words: [],
            }),
            alloc,
        }
    }

    /// Returns the bytes.
    #[inline]
    pub fn as_slice(&self) -> &[u8]
        ensures { result.now ≡ self.now }
    {
        match &self.store {
            Store::Few(few) => &few.bytes[..few.len],
            Store::Many(octets) => octets.as_slice(),
        }
    }

    /// Returns the allocator that copies use.
    pub fn allocator(&self) -> &Global {
        &self.alloc
    }
}

/// Compares the bytes. Up to eight inline bytes are compared at once.
impl PartialEq for KeptOctets {
    ghost eq = { pointwise nat_eq };

    ghost laws = { partial_equiv_from_equiv nat_list_eq_equiv };

    fn eq(&self, other: &Self) -> bool {
        if let (Store::Few(few), Store::Few(others)) = (&self.store, &other.store) {
            let fronts = (
                few.bytes.first_chunk::<8>(),
                others.bytes.first_chunk::<8>(),
            );
            if let (Some(front), Some(other_front)) = fronts {
                if few.len == others.len && few.len <= 8 && front == other_front {
                    return true;
                }
            }
        }
        self.as_slice() == other.as_slice()
    }
}

/// Prints the bytes as a slice of them.
impl fmt::Debug for KeptOctets {
    fn fmt<W: fmt::Write>(&self, f: &mut fmt::Formatter<W>) -> fmt::Result {
        fmt::Debug::fmt(self.as_slice(), f)
    }
}
