//! The sizes of elliptic curves, which are the number of bits of the order of the base point.

// Returns the size of a curve over a binary field (ANSI X9.62).
fn x962_binary_bits(last: u8) -> u64 {
    match last {
        1 => 163,
        2 | 3 => 162,
        4 => 161,
        5 => 191,
        6 => 190,
        7 => 189,
        10 => 193,
        11 => 238,
        12 => 237,
        13 => 236,
        16 => 257,
        17 => 289,
        18 | 19 => 353,
        20 => 418,
        _ => 0,
    }
}

// Returns the size of a curve over a prime field (ANSI X9.62).
fn x962_prime_bits(last: u8) -> u64 {
    match last {
        1..=3 => 192,
        4..=6 => 239,
        7 => 256,
        _ => 0,
    }
}

// Returns the size of a curve from SEC 2.
fn sec_bits(last: u8) -> u64 {
    match last {
        1 | 15 => 163,
        2 => 162,
        3 => 238,
        4 | 5 => 113,
        6 => 112,
        7 => 110,
        8 | 9 | 30 => 161,
        10 => 256,
        16 => 281,
        17 => 282,
        22 | 23 => 131,
        24 | 25 => 193,
        26 => 232,
        27 => 233,
        28 => 128,
        29 => 126,
        31 => 192,
        32 => 225,
        33 => 224,
        34 => 384,
        35 => 521,
        36 => 407,
        37 => 409,
        38 | 39 => 570,
        _ => 0,
    }
}

// Returns the size of a Brainpool curve (RFC 5639).
fn brainpool_bits(last: u8) -> u64 {
    match last {
        1 | 2 => 160,
        3 | 4 => 192,
        5 | 6 => 224,
        7 | 8 => 256,
        9 | 10 => 320,
        11 | 12 => 384,
        13 | 14 => 512,
        _ => 0,
    }
}

// Returns the size of a WTLS curve (WAP-261-WTLS).
fn wtls_bits(last: u8) -> u64 {
    match last {
        1 | 6 => 112,
        3 | 5 => 163,
        4 | 8 => 113,
        7 | 9 => 161,
        10 => 232,
        11 => 233,
        12 => 224,
        _ => 0,
    }
}

/// Returns the size of the curve with this encoded object identifier (X.690 8.19), or 0 if it isn't
/// known.
pub fn curve_bits(identifier: &[u8]) -> u64 {
    let [front @ .., last] = identifier else {
        return 0;
    };
    match (front, *last) {
        ([0x2a, 0x86, 0x48, 0xce, 0x3d, 3, 1], last) => x962_prime_bits(last),
        ([0x2b, 0x81, 4, 0], last) => sec_bits(last),
        ([0x2b, 36, 3, 3, 2, 8, 1, 1], last) => brainpool_bits(last),
        ([0x2a, 0x86, 0x48, 0xce, 0x3d, 3, 0], last) => x962_binary_bits(last),
        ([0x67, 43, 1, 4], last) => wtls_bits(last),
        // sm2 (GB/T 32918.5).
        ([0x2a, 0x81, 0x1c, 0xcf, 0x55, 1, 0x82], 0x2d) => 256,
        _ => 0,
    }
}
