//! A hasher that takes a number of 64 bits at once, since most values are numbers.
ghost use Rattle.std.specs.Prelude.{◌≡◌};
ghost use Rattle.set_facts.specs.Mixing.{initial, mixed, folded, finished, written};

use std::hash::{FoldHasher, Hasher};

/// A hasher that mixes each number into its state by a product of 128 bits, whose halves it joins. It is not cryptographic: its
/// seed is fixed, so anyone who picks the values can make them collide.
#[derive(Clone, Copy, Debug)]
pub struct Mixer {
    state: u64,
}

impl Mixer {
    // Takes the number in.
    fn mix(&mut self, number: u64)
        ensures mixed { self.new ≡ mixed self.old number }
    {
        self.state = fold(self.state ^ number);
    }
}

// The two halves of the product with an odd constant, joined.
fn fold(number: u64) -> u64
    ensures folded { result ≡ folded number }
{
    let product = number as u128 * 0x9e37_79b9_7f4a_7c15;
    (product & 0xFFFF_FFFF_FFFF_FFFF) as u64 ^ (product >> 64) as u64
}

// A number for the bytes: the number that they spell if there are eight, the lowest first, otherwise a hash of them.
fn number_of(bytes: &[u8]) -> u64
    ensures number { result ≡ written bytes.now }
{
    match bytes {
        [a, b, c, d, e, f, g, h] => u64::from_le_bytes([*a, *b, *c, *d, *e, *f, *g, *h]),
        _ => {
            let mut hasher = FoldHasher::default();
            hasher.write(bytes);
            hasher.finish()
        }
    }
}

impl Default for Mixer {
    ghost is_default = { λ h. h ≡ initial };

    fn default() -> Mixer {
        Mixer {
            state: 0x243f_6a88_85a3_08d3,
        }
    }
}

impl Hasher for Mixer {
    ghost write = { λ h bytes. mixed h (written bytes) };

    ghost finish = { finished };

    fn finish(&self) -> u64 {
        self.state
    }

    fn write(&mut self, bytes: &[u8]) {
        self.mix(number_of(bytes));
    }

    fn write_u64(&mut self, i: u64) {
        self.mix(i);
    }
}
