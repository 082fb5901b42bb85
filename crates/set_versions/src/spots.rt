//! The spots of cells, by which an index is spread over small maps.
ghost use Rattle.std.specs.Prelude.{◌≡◌, ◌<◌};
ghost use Rattle.std.specs.Option.{option_map, option_copied};
ghost use Rattle.base_types.specs.Meanings.{datum_of};
ghost use Rattle.set_versions.specs.Spots.{digest as digest_def, digest_from, spot as spot_def};

use base_types::Value;

/// The spot of a relation, a column, and the value there, if there is one.
pub fn spot(relation: u16, column: usize, value: Option<&Value>) -> u32
    ensures spot { result ≡
        spot_def relation column (option_map datum_of (option_copied value.entry)) }
{
    let Some(value) = value else {
        return 0;
    };
    let place = column as u64 % 8 * 31 + u64::from(relation) * 37;
    ((digest(value) % 251 + place) % 256) as u32
}

// A number that differs for most different values.
fn digest(value: &Value) -> u64
    ensures digest { result ≡ digest_def (datum_of value.now) }
{
    match value {
        Value::Int(number) => number.unsigned_abs(),
        Value::Word(word) => digest_word(word.as_slice()),
        Value::Null(null) => u64::from(null.update) + u64::from(null.place),
    }
}

// A number that differs for the bytes of most different words.
fn digest_word(bytes: &[u8]) -> u64
    ensures digest { result ≡ digest_from 0 bytes.now }
{
    let mut sum = 0;
    for byte in bytes {
        sum = (sum * 31 + u64::from(*byte)) % 65521;
    }
    sum
}
