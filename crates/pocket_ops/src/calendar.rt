// The civil calendar.
ghost use Rattle.std.specs.Prelude.{◌≡◌, ◌≤◌, pos, negsuc, IfSome};
ghost use Rattle.jiff_core.specs.Calendar.{IsBetween};
ghost use Rattle.jiff_core.specs.Date.{epoch_day};
ghost use Rattle.pocket_types.specs.Names.{IsMoment};
ghost use Rattle.pocket_ops.specs.Calendar.{civil_of, civil_millis, IsCivil, weekday_of, day_of, time_of};
ghost use Rattle.pocket_ops.specs.DateReading.{number_of_day};

use jiff_core::civil::{Date, days_in_month};
use pocket_types::Moment;

/// A date and a time of day in UTC.
#[derive(Clone, Copy)]
pub struct Civil {
    pub year: u32,
    pub month: u32,
    pub day: u32,
    pub hour: u32,
    pub minute: u32,
    pub second: u32,
    pub millisecond: u32,
}

/// The date and the time of day of a moment.
pub fn civil_of(moment: Moment) -> Civil
    ensures value { result ≡ civil_of moment }
    ensures civil { IsCivil result }
    ensures millis { civil_millis result ≡ moment }
    ensures range { IsMoment moment }
{
    let (date, time) = day_and_time(moment);
    Civil {
        year: date.year as u32,
        month: u32::from(date.month),
        day: u32::from(date.day),
        hour: time / 3_600_000,
        minute: time / 60_000 % 60,
        second: time / 1_000 % 60,
        millisecond: time % 1_000,
    }
}

/// The day of the week, 0 for Sunday to 6 for Saturday.
pub fn weekday(moment: Moment) -> u32
    ensures { result ≡ weekday_of moment }
{
    let (date, _) = day_and_time(moment);
    (u32::from(date.weekday().index()) + 1) % 7
}

/// The day of a moment, and the milliseconds since its midnight.
fn day_and_time(moment: Moment) -> (Date, u32)
    ensures day { epoch_day result.0 ≡ day_of moment }
    ensures time { result.1 ≡ time_of moment }
    ensures year { IsBetween (pos 1) (pos 9999) result.0.year }
    ensures range { IsMoment moment }
{
    // from -9999-01-01, the first day that there is
    let millis = (moment.millis() + 377_705_116_800_000) as u64;
    let date = Date::from_days_since_min((millis / 86_400_000) as u32);
    (date, (millis % 86_400_000) as u32)
}

/// The days from 1970-01-01 to a date. None where the calendar has no such date.
#[tactic(auto, unfolding(crate::specs::DateReading::number_of_day))]
pub fn day_number(year: u32, month: u32, day: u32) -> Option<i64>
    requires { year ≤ 9999 }
    ensures value { result ≡ number_of_day year month day }
    ensures bound { IfSome result (λ number. IsBetween (negsuc 4_371_586) (pos 2_932_896) number) }
{
    if month < 1 || 12 < month || day < 1 {
        return None;
    }
    let year = year as i16;
    let month = month as u8;
    if u32::from(days_in_month(year, month)) < day {
        return None;
    }
    let date = Date {
        year,
        month,
        day: day as u8,
    };
    Some(i64::from(date.to_unix_epoch_day()))
}
