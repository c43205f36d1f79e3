// The text of a moment.
ghost use Rattle.std.specs.Prelude.{◌≡◌, ◌<◌, Some, IsUtf8};
ghost use Rattle.std.specs.Char.{digit_char};
ghost use Rattle.pocket_ops.specs.Calendar.{IsCivil, civil_of, civil_millis};
ghost use Rattle.pocket_ops.specs.Dates.{date_text, civil_text, two_digits as two_digits_text, three_digits as three_digits_text, four_digits as four_digits_text};
ghost use Rattle.pocket_ops.specs.DateReading.{date_of};

use crate::calendar::{Civil, civil_of};
use pocket_types::Moment;

/// The text of a moment, `YYYY-MM-DD HH:MM:SS.mmmZ`, in UTC.
pub fn date_text(moment: Moment) -> [u8; 24]
    ensures text { result ≡ date_text moment }
    ensures civil { IsCivil (civil_of moment) }
    ensures millis { civil_millis (civil_of moment) ≡ moment }
    ensures read { date_of result ≡ Some moment }
    ensures utf8 { IsUtf8 result }
{
    civil_text(&civil_of(moment))
}

/// The text of a date and a time of day.
#[tactic(auto, unfolding(crate::specs::Dates::civil_text))]
pub fn civil_text(civil: &Civil) -> [u8; 24]
    requires { IsCivil civil.now }
    ensures { result ≡ civil_text civil.now }
{
    let [y1, y2, y3, y4] = four_digits(civil.year);
    let [mo1, mo2] = two_digits(civil.month);
    let [d1, d2] = two_digits(civil.day);
    let [h1, h2] = two_digits(civil.hour);
    let [mi1, mi2] = two_digits(civil.minute);
    let [s1, s2] = two_digits(civil.second);
    let [f1, f2, f3] = three_digits(civil.millisecond);
    [
        y1, y2, y3, y4, b'-', mo1, mo2, b'-', d1, d2, b' ', h1, h2, b':', mi1, mi2, b':', s1, s2,
        b'.', f1, f2, f3, b'Z',
    ]
}

/// The text that the bytes of a date are.
pub fn as_text(bytes: &[u8; 24]) -> &str
    requires { IsUtf8 bytes.now }
    ensures { result.now ≡ bytes.now }
{
    match str::from_utf8(bytes) {
        Ok(text) => text,
        Err(_) => unreachable!(),
    }
}

fn digit(n: u32) -> u8
    requires { n < 10 }
    ensures { result ≡ digit_char n }
{
    b'0' + n as u8
}

fn two_digits(n: u32) -> [u8; 2]
    requires { n < 100 }
    ensures { result ≡ two_digits_text n }
{
    [digit(n / 10), digit(n % 10)]
}

fn three_digits(n: u32) -> [u8; 3]
    requires { n < 1000 }
    ensures { result ≡ three_digits_text n }
{
    let [tens, ones] = two_digits(n % 100);
    [digit(n / 100), tens, ones]
}

fn four_digits(n: u32) -> [u8; 4]
    requires { n < 10_000 }
    ensures { result ≡ four_digits_text n }
{
    let [a, b] = two_digits(n / 100);
    let [c, d] = two_digits(n % 100);
    [a, b, c, d]
}
