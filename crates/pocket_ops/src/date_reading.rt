// The moment that a text stands for.
ghost use Rattle.std.specs.Prelude.{◌≡◌, ◌==◌, ◌<◌, ◌≤◌, ◌↔◌, ℤ, pos, negsuc, IfSome, IsTrue, MatchOption, length, slice_index, take};
ghost use Rattle.std.specs.List.{All, prefix_len};
ghost use Rattle.std.specs.Char.{IsAsciiDigit, is_ascii_digit};
ghost use Rattle.jiff_core.specs.Calendar.{IsBetween};
ghost use Rattle.pocket_ops.specs.Dates.{IsDateOf, fraction_millis as fraction_of_digits, digit_at as digit_of_place};
ghost use Rattle.pocket_ops.specs.DateReading.{date_of, day_of_text, after_day_of, clock_and_rest_of, after_minutes_of, seconds_of, after_seconds_of, fraction_of, zone_of, clock_of, in_range, pair_below as pair_below_of, pair_of};

use crate::calendar::day_number;
use pocket_types::Moment;

/// The moment that a text stands for: `YYYY-MM-DD`, perhaps with a space or `T`, `HH:MM`, `:SS`, a fraction of one to
/// nine digits of which three count, and `Z`, `+HH:MM` or `-HH:MM`. None where a text isn't of this form, or its moment
/// isn't in the years 1 to 9999.
pub fn date_read(text: &str) -> Option<Moment>
    ensures value { result ≡ date_of text.now }
    ensures forms { MatchOption result ((m : ℤ) → ¬ IsDateOf text.now m) (λ m. IsDateOf text.now m) }
{
    read_date(text.as_bytes())
}

#[tactic(auto, unfolding(crate::specs::DateReading::date_of))]
fn read_date(text: &[u8]) -> Option<Moment>
    ensures { result ≡ date_of text.now }
{
    if text.len() < 10 {
        return None;
    }
    let day = read_day(text)?;
    let rest = read_after_day(&text[10..])?;
    moment_in_range(day * 86_400_000 + rest)
}

#[tactic(auto, unfolding(crate::specs::DateReading::in_range))]
fn moment_in_range(millis: i64) -> Option<Moment>
    ensures { result ≡ in_range millis }
{
    Moment::of_millis(millis)
}

/// The day number of `YYYY-MM-DD`.
#[tactic(auto, unfolding(crate::specs::DateReading::day_of_text))]
fn read_day(text: &[u8]) -> Option<i64>
    requires { 10 ≤ length text.now }
    ensures value { result ≡ day_of_text text.now }
    ensures bound { IfSome result (λ day. IsBetween (negsuc 4_371_586) (pos 2_932_896) day) }
{
    if text[4] != b'-' || text[7] != b'-' {
        return None;
    }
    let century = pair(text[0], text[1])?;
    let year = pair(text[2], text[3])?;
    let month = pair(text[5], text[6])?;
    let day = pair(text[8], text[9])?;
    day_number(century * 100 + year, month, day)
}

#[tactic(auto, unfolding(crate::specs::DateReading::after_day_of))]
fn read_after_day(text: &[u8]) -> Option<i64>
    ensures value { result ≡ after_day_of text.now }
    ensures bound { IfSome result (λ z. IsBetween (negsuc 99_999_999) (pos 200_000_000) z) }
{
    if text.is_empty() {
        Some(0)
    } else if text[0] == b' ' || text[0] == b'T' {
        read_time(&text[1..])
    } else {
        None
    }
}

#[tactic(auto, unfolding(crate::specs::DateReading::clock_and_rest_of))]
fn read_time(text: &[u8]) -> Option<i64>
    ensures value { result ≡ clock_and_rest_of text.now }
    ensures bound { IfSome result (λ z. IsBetween (negsuc 99_999_999) (pos 200_000_000) z) }
{
    if text.len() < 5 {
        return None;
    }
    let clock = read_clock(&text[..5])?;
    let rest = read_after_minutes(&text[5..])?;
    Some(clock + rest)
}

#[tactic(auto, unfolding(crate::specs::DateReading::after_minutes_of))]
fn read_after_minutes(text: &[u8]) -> Option<i64>
    ensures value { result ≡ after_minutes_of text.now }
    ensures bound { IfSome result (λ z. IsBetween (negsuc 99_999_999) (pos 100_000_000) z) }
{
    if begins_with(text, b':') {
        read_seconds(&text[1..])
    } else {
        let zone = read_zone(text)?;
        Some(-zone)
    }
}

#[tactic(auto, unfolding(crate::specs::DateReading::seconds_of))]
fn read_seconds(text: &[u8]) -> Option<i64>
    ensures value { result ≡ seconds_of text.now }
    ensures bound { IfSome result (λ z. IsBetween (negsuc 99_999_999) (pos 100_000_000) z) }
{
    if text.len() < 2 {
        return None;
    }
    let second = pair_below(60, text[0], text[1])?;
    let rest = read_after_seconds(&text[2..])?;
    Some(i64::from(second * 1_000) + rest)
}

#[tactic(auto, unfolding(crate::specs::DateReading::after_seconds_of))]
fn read_after_seconds(text: &[u8]) -> Option<i64>
    ensures value { result ≡ after_seconds_of text.now }
    ensures bound { IfSome result (λ z. IsBetween (negsuc 90_000_000) (pos 90_000_000) z) }
{
    if begins_with(text, b'.') {
        read_fraction(&text[1..])
    } else {
        let zone = read_zone(text)?;
        Some(-zone)
    }
}

#[tactic(auto, unfolding(crate::specs::DateReading::fraction_of))]
fn read_fraction(text: &[u8]) -> Option<i64>
    ensures value { result ≡ fraction_of text.now }
    ensures bound { IfSome result (λ z. IsBetween (negsuc 90_000_000) (pos 90_000_000) z) }
{
    let digits = leading_digits(text);
    if digits < 1 || 9 < digits {
        return None;
    }
    let zone = read_zone(&text[digits..])?;
    Some(i64::from(fraction_millis(&text[..digits])) - zone)
}

/// How many digits a text begins with.
fn leading_digits(text: &[u8]) -> usize
    ensures value { result ≡ prefix_len is_ascii_digit text.now }
    ensures len { result ≤ length text.now }
    ensures digits { All IsAsciiDigit (take result text.now) }
{
    text.iter().take_while(|byte| byte.is_ascii_digit()).count()
}

/// Three digits of a fraction, filled with zeros.
fn fraction_millis(digits: &[u8]) -> u32
    requires { All IsAsciiDigit digits.now }
    ensures value { result ≡ fraction_of_digits digits.now }
    ensures bound { result < 1000 }
{
    digit_at(digits, 0) * 100 + digit_at(digits, 1) * 10 + digit_at(digits, 2)
}

fn digit_at(digits: &[u8], place: usize) -> u32
    requires { All IsAsciiDigit digits.now }
    ensures value { result ≡ digit_of_place digits.now place }
    ensures bound { result < 10 }
{
    match digits.get(place) {
        Some(digit) => u32::from(*digit - b'0'),
        None => 0,
    }
}

/// By how many milliseconds a zone's clocks are ahead of UTC.
#[tactic(auto, unfolding(crate::specs::DateReading::zone_of))]
fn read_zone(text: &[u8]) -> Option<i64>
    ensures value { result ≡ zone_of text.now }
    ensures bound { IfSome result (λ z. IsBetween (negsuc 86_399_999) (pos 86_399_999) z) }
{
    if text.is_empty() {
        return Some(0);
    }
    match text[0] {
        b'Z' => if text.len() == 1 { Some(0) } else { None },
        b'+' => read_clock(&text[1..]),
        b'-' => {
            let behind = read_clock(&text[1..])?;
            Some(-behind)
        }
        _ => None,
    }
}

/// `HH:MM`, in milliseconds.
#[tactic(auto, unfolding(crate::specs::DateReading::clock_of))]
fn read_clock(text: &[u8]) -> Option<i64>
    ensures value { result ≡ clock_of text.now }
    ensures bound { IfSome result (λ z. IsBetween (pos 0) (pos 86_399_999) z) }
{
    if text.len() != 5 || text[2] != b':' {
        return None;
    }
    let hour = pair_below(24, text[0], text[1])?;
    let minute = pair_below(60, text[3], text[4])?;
    Some(i64::from(hour * 3_600_000 + minute * 60_000))
}

fn begins_with(text: &[u8], byte: u8) -> bool
    requires { 0 < byte }
    ensures value { result ≡ (slice_index text.now 0 == byte) }
    ensures len { IsTrue result → 0 < length text.now }
{
    !text.is_empty() && text[0] == byte
}

/// A number of two digits that is below a limit.
#[tactic(auto, unfolding(crate::specs::DateReading::pair_below))]
fn pair_below(limit: u32, tens: u8, ones: u8) -> Option<u32>
    ensures value { result ≡ pair_below_of limit tens ones }
    ensures bound { IfSome result (λ n. n < limit) }
{
    let number = pair(tens, ones)?;
    if number < limit { Some(number) } else { None }
}

/// A number of two digits.
#[tactic(auto, unfolding(crate::specs::DateReading::pair_of))]
fn pair(tens: u8, ones: u8) -> Option<u32>
    ensures value { result ≡ pair_of tens ones }
    ensures bound { IfSome result (λ n. n < 100) }
{
    if tens.is_ascii_digit() && ones.is_ascii_digit() {
        Some(u32::from(tens - b'0') * 10 + u32::from(ones - b'0'))
    } else {
        None
    }
}
