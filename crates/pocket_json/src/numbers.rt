// The numbers of the profile.
ghost use Rattle.std.specs.Prelude.{◌≡◌, ◌<◌, ◌==◌, slice_index, length, IsTrue};
ghost use Rattle.pocket_json.specs.Reading.{whole_of, from_zero as from_zero_of, below_zero as below_zero_of};

use fast_float::Numeral;
use pocket_types::NUMBER_END;

/// The number that a number of the grammar is.
pub fn whole(text: &str) -> Option<i64>
    ensures { result ≡ whole_of text.now }
{
    let bytes = text.as_bytes();
    if has_minus(bytes) {
        below_zero(&Numeral::scan(&bytes[1..]))
    } else {
        from_zero(&Numeral::scan(bytes))
    }
}

fn has_minus(bytes: &[u8]) -> bool
    ensures value { result ≡ (slice_index bytes.now 0 == 45) }
    ensures len { IsTrue result → 0 < length bytes.now }
{
    !bytes.is_empty() && bytes[0] == b'-'
}

fn from_zero(numeral: &Numeral<'_>) -> Option<i64>
    ensures { result ≡ from_zero_of numeral.now }
{
    match numeral.to_u64() {
        Some(n) => if n < NUMBER_END { Some(n as i64) } else { None },
        None => None,
    }
}

fn below_zero(numeral: &Numeral<'_>) -> Option<i64>
    ensures { result ≡ below_zero_of numeral.now }
{
    match numeral.to_u64() {
        Some(n) => if 0 < n && n < NUMBER_END {
            Some(-(n as i64))
        } else {
            None
        },
        None => None,
    }
}
