//! Ranks, which decide most comparisons of tuples.
ghost use Rattle.std.specs.Prelude.{◌≡◌, ◌<◌, ◌≤◌};
ghost use Rattle.std.specs.Option.{option_map, option_copied};
ghost use Rattle.base_types.specs.Meanings.{datum_of, fact_of};
ghost use Rattle.set_versions.specs.Ranks.{first_byte, after_byte, word_rank as word_rank_def, number_rank as number_rank_def, null_rank as null_rank_def, value_rank as value_rank_def, rank_at as rank_at_def, rank_of};

use base_types::{Null, Tuple, Value};

// The bound of the ranks of numbers, and of the ranks of words among words.
const KIND_SPAN: u64 = 1 << 46;

// The bound of the ranks of values.
const VALUE_SPAN: u64 = 1 << 48;

// The rank of the number 0.
const MIDDLE: u64 = 1 << 45;

/// The rank of a tuple.
pub fn rank(tuple: &Tuple) -> u64
    ensures rank { result ≡ rank_of (fact_of tuple.now) }
{
    rank_at(tuple.relation, tuple.values.get(0))
}

/// The rank of the tuples of a relation with this first value, or without any value.
pub fn rank_at(relation: u16, value: Option<&Value>) -> u64
    ensures rank { result ≡
        rank_at_def relation (option_map datum_of (option_copied value.entry)) }
{
    u64::from(relation) * VALUE_SPAN + value_rank(value)
}

/// The rank of a value; 0 if there is none.
pub fn value_rank(value: Option<&Value>) -> u64
    ensures rank { result ≡ value_rank_def (option_map datum_of (option_copied value.entry)) }
    ensures small { result < 281474976710656 }
{
    match value {
        None => 0,
        Some(Value::Int(number)) => number_rank(*number),
        Some(Value::Word(word)) => KIND_SPAN + word_rank(word.as_slice()),
        Some(Value::Null(null)) => 2 * KIND_SPAN + null_rank(null),
    }
}

// The rank of a number.
fn number_rank(number: i64) -> u64
    ensures rank { result ≡ number_rank_def number }
    ensures small { result < 70368744177664 }
{
    let far = number.unsigned_abs().min(MIDDLE - 1);
    if number < 0 {
        MIDDLE - far
    } else {
        MIDDLE + far
    }
}

// The rank of a word among words: its first five bytes.
fn word_rank(bytes: &[u8]) -> u64
    ensures rank { result ≡ word_rank_def bytes.now }
    ensures small { result < 1099511627776 }
{
    let (first, bytes) = next_byte(bytes);
    let (second, bytes) = next_byte(bytes);
    let (third, bytes) = next_byte(bytes);
    let (fourth, bytes) = next_byte(bytes);
    let (fifth, _) = next_byte(bytes);
    (((first * 256 + second) * 256 + third) * 256 + fourth) * 256 + fifth
}

// The first byte, or 0 if there is none, and the bytes that are compared after it.
fn next_byte(bytes: &[u8]) -> (u64, &[u8])
    ensures byte { result.0 ≡ first_byte bytes.now }
    ensures small { result.0 ≤ 255 }
    ensures rest { result.1.now ≡ after_byte bytes.now }
{
    match bytes.split_first() {
        None => (0, bytes),
        Some((byte, rest)) => {
            if *byte < 255 {
                (u64::from(*byte), rest)
            } else {
                (255, &[])
            }
        }
    }
}

// The rank of a null among nulls: its update, and then its place.
fn null_rank(null: &Null) -> u64
    ensures rank { result ≡ null_rank_def null.now.update null.now.place }
    ensures small { result < 70368744177664 }
{
    let place = u64::from(null.place).min(8191);
    (u64::from(null.update) * 8192 + place).min(KIND_SPAN - 1)
}
