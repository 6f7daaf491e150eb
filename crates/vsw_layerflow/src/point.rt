//! A hasher for keys that strangers pick.
//!
//! The words of a key, of 32 bits each, are the coefficients of a polynomial modulo 2^61 - 1, whose value at a point that
//! strangers don't know has the hash as its lowest 32 bits (Carter and Wegman, New hash functions and their use in
//! authentication and set equality, 1981). Two keys of up to twelve words that differ have one hash at no more than one point
//! in some thirty million. That is reckoned, not proved.

ghost use Rattle.std.specs.Prelude.{◌≡◌, ◌≤◌, ◌+◌, ◌%◌, ◌^◌, length, fold};
ghost use Rattle.vsw_layerflow.specs.Point as spec;

use std::hash::Hasher;

/// 2^60: points are below.
const POINTS: u64 = 0x1000_0000_0000_0000;

/// 2^61.
const MODULUS_AND_ONE: u128 = 0x2000_0000_0000_0000;

/// 2^64.
const WORDS: u128 = 0x1_0000_0000_0000_0000;

/// A point, and the value there of the polynomial that was taken in so far.
#[derive(Clone, Copy)]
pub struct PointHasher {
    point: u64,
    sum: u64,
}

/// A number below 2^122 made one below 2^62 that is the same modulo 2^61 - 1.
#[inline(always)]
fn folded(number: u128) -> u64
    ensures { result ≡ spec.folded number }
{
    let upper = (number / MODULUS_AND_ONE % WORDS) as u64;
    upper.wrapping_add((number % MODULUS_AND_ONE) as u64)
}

/// The four bytes from a place on, lowest first.
#[inline(always)]
fn word_at(bytes: &[u8], at: usize) -> u32
    requires { at + 4 ≤ length bytes.now }
    ensures { result ≡ spec.word_at bytes.now at }
{
    u32::from_le_bytes([bytes[at], bytes[at + 1], bytes[at + 2], bytes[at + 3]])
}

impl PointHasher {
    /// Nothing is taken in yet. The point is what these bits tell.
    pub fn at(bits: u64) -> PointHasher
        ensures { result ≡ spec.begun (bits % 2 ^ 60) }
    {
        PointHasher {
            point: bits % POINTS,
            sum: 1,
        }
    }

    /// Takes in one coefficient more.
    #[inline(always)]
    fn take(&mut self, word: u32)
        ensures { self.new ≡ spec.taken self.old word }
    {
        let product = u128::from(self.sum).wrapping_mul(u128::from(self.point));
        self.sum = folded(product.wrapping_add(u128::from(word)));
    }

    /// Takes in the eight bytes from a place on.
    #[inline(always)]
    fn take_eight(&mut self, bytes: &[u8], at: usize)
        requires { at + 8 ≤ length bytes.now }
        ensures { self.new ≡ spec.taken_eight self.old bytes.now at }
    {
        self.take(word_at(bytes, at));
        self.take(word_at(bytes, at + 4));
    }

    /// Takes in the bytes one by one.
    fn take_bytes(&mut self, bytes: &[u8])
        ensures { self.new ≡ fold spec.taken self.old bytes.now }
    {
        for byte in bytes {
            self.take(u32::from(*byte));
        }
    }
}

impl Hasher for PointHasher {
    ghost write = { spec.written };

    ghost finish = { λ h. h.sum % 2 ^ 32 };

    // The lower half alone: a map joins both by exclusive or, and no bit is to meet another.
    #[inline(always)]
    fn finish(&self) -> u64 {
        self.sum % 0x1_0000_0000
    }

    #[inline(always)]
    fn write(&mut self, bytes: &[u8]) {
        if bytes.len() == 8 {
            self.take_eight(bytes, 0);
        } else if bytes.len() == 16 {
            self.take_eight(bytes, 0);
            self.take_eight(bytes, 8);
        } else {
            self.take_bytes(bytes);
        }
    }
}
