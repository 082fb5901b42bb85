//! Signatures: sets of spots on which values fall, so that tuples whose signatures share no spot have no value in common.
ghost use Rattle.std.specs.Prelude.{◌≡◌, ℕ, ◌<◌, false, true};
ghost use Rattle.base_types.specs.Meanings.{datum_of};
ghost use Rattle.core_conflict.specs.Signatures.{AreApart, IsWithin, digest as digest_def, digest_from, has_spot, home as home_def, spot as spot_def};

use base_types::Value;

/// A set of spots out of 16,384. A spot is in it if its low bit and its high bit are both set.
#[derive(Clone, Copy, Debug)]
pub struct Signature {
    low: u128,
    high: u128,
}

impl Signature {
    /// The set without spots.
    pub(crate) fn empty() -> Signature
        ensures empty { (k : ℕ) → has_spot result k ≡ false }
    {
        Signature { low: 0, high: 0 }
    }

    /// The set with one more spot.
    pub(crate) fn with(self, spot: u32) -> Signature
        requires { spot < 16384 }
        ensures more { IsWithin self result }
        ensures there { has_spot result spot ≡ true }
    {
        Signature {
            low: self.low | (1 << (spot / 128)),
            high: self.high | (1 << (spot % 128)),
        }
    }

    /// Whether the sets may have a spot in common; if `false`, they have none.
    #[inline(always)]
    pub(crate) fn shares(self, other: Signature) -> bool
        ensures apart { result ≡ false → AreApart self other }
    {
        if self.low & other.low == 0 {
            return false;
        }
        self.high & other.high != 0
    }
}

/// The spot of the value in this column of a tuple of the relation.
pub(crate) fn spot(relation: u16, column: u64, value: &Value) -> u32
    ensures spot { result ≡ spot_def relation column (datum_of value.now) }
    ensures below { result < 16384 }
{
    let number = digest(value);
    let low = u64::from(relation) * 37 + column % 4 * 11 + number % 128;
    let high = u64::from(relation) * 30 + column % 4 * 70 + number % 127;
    (low % 128 * 128 + high % 128) as u32
}

/// The spot of the relation.
pub(crate) fn home(relation: u16) -> u32
    ensures home { result ≡ home_def relation }
    ensures below { result < 16384 }
{
    let low = u32::from(relation) * 37 + 77;
    let high = u32::from(relation) * 30 + 40;
    low % 128 * 128 + high % 128
}

// A number that differs between most values.
fn digest(value: &Value) -> u64
    ensures digest { result ≡ digest_def (datum_of value.now) }
{
    match value {
        Value::Int(number) => number.unsigned_abs(),
        Value::Word(word) => digest_word(word.as_slice()),
        Value::Null(null) => u64::from(null.update) + u64::from(null.place),
    }
}

// A number that differs between the bytes of most words.
fn digest_word(bytes: &[u8]) -> u64
    ensures digest { result ≡ digest_from 0 bytes.now }
{
    let mut sum = 0;
    for byte in bytes {
        sum = (sum * 31 + u64::from(*byte)) % 65521;
    }
    sum
}
