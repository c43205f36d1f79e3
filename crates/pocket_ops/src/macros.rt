// The values of macros.
ghost use Rattle.std.specs.Prelude.{◌≡◌, IfOk, pos};
ghost use Rattle.pocket_types.specs.Names.{IsMoment};
ghost use Rattle.pocket_ops.specs.Calendar.{IsCivil};
ghost use Rattle.pocket_ops.specs.Dates.{civil_text as text_of_civil};
ghost use Rattle.pocket_ops.specs.Macros.{macro_value, day_earlier, day_later, day_start, day_end, month_start, month_end, year_start, year_end};

use crate::calendar::{Civil, civil_of, weekday};
use crate::date_texts::{as_text, civil_text};
use jiff_core::civil::days_in_month;
use pocket_types::{FIRST_MILLIS, LAST_MILLIS, Macro, Moment, Text, Value};
use std::alloc::{AllocError, Global};

const DAY: i64 = 86_400_000;

/// The value of a macro at a moment.
#[tactic(auto, unfolding(crate::specs::Macros::macro_value))]
pub fn macro_value(alloc: Global, which: Macro, moment: Moment) -> Result<Value, AllocError>
    ensures { IfOk result (λ value. value ≡ macro_value which moment) }
{
    let civil = civil_of(moment);
    match which {
        Macro::Now => text_value(alloc, &civil),
        Macro::Second => Ok(number_value(civil.second)),
        Macro::Minute => Ok(number_value(civil.minute)),
        Macro::Hour => Ok(number_value(civil.hour)),
        Macro::Day => Ok(number_value(civil.day)),
        Macro::Month => Ok(number_value(civil.month)),
        Macro::Year => Ok(number_value(civil.year)),
        Macro::Weekday => Ok(number_value(weekday(moment))),
        Macro::Yesterday => text_value(alloc, &civil_of(day_earlier(moment))),
        Macro::Tomorrow => text_value(alloc, &civil_of(day_later(moment))),
        Macro::TodayStart => text_value(alloc, &day_start(civil)),
        Macro::TodayEnd => text_value(alloc, &day_end(civil)),
        Macro::MonthStart => text_value(alloc, &month_start(civil)),
        Macro::MonthEnd => text_value(alloc, &month_end(civil)),
        Macro::YearStart => text_value(alloc, &year_start(civil)),
        Macro::YearEnd => text_value(alloc, &year_end(civil)),
    }
}

fn number_value(number: u32) -> Value
    ensures { result ≡ Value.Num (pos number) }
{
    Value::Num(i64::from(number))
}

fn text_value(alloc: Global, civil: &Civil) -> Result<Value, AllocError>
    requires { IsCivil civil.now }
    ensures { IfOk result (λ value. value ≡ Value.Text (text_of_civil civil.now)) }
{
    let bytes = civil_text(civil);
    Ok(Value::Text(Text::from_str(alloc, as_text(&bytes))?))
}

fn moment_at(millis: i64) -> Moment
    requires { IsMoment millis }
    ensures { result ≡ millis }
{
    match Moment::of_millis(millis) {
        Some(moment) => moment,
        None => unreachable!(),
    }
}

fn day_earlier(moment: Moment) -> Moment
    ensures { result ≡ day_earlier moment }
{
    moment_at((moment.millis() - DAY).max(FIRST_MILLIS))
}

fn day_later(moment: Moment) -> Moment
    ensures { result ≡ day_later moment }
{
    moment_at((moment.millis() + DAY).min(LAST_MILLIS))
}

fn day_start(civil: Civil) -> Civil
    requires { IsCivil civil }
    ensures value { result ≡ day_start civil }
    ensures civil { IsCivil result }
{
    Civil {
        hour: 0,
        minute: 0,
        second: 0,
        millisecond: 0,
        ..civil
    }
}

fn day_end(civil: Civil) -> Civil
    requires { IsCivil civil }
    ensures value { result ≡ day_end civil }
    ensures civil { IsCivil result }
{
    Civil {
        hour: 23,
        minute: 59,
        second: 59,
        millisecond: 999,
        ..civil
    }
}

fn month_start(civil: Civil) -> Civil
    requires { IsCivil civil }
    ensures value { result ≡ month_start civil }
    ensures civil { IsCivil result }
{
    day_start(Civil { day: 1, ..civil })
}

fn month_end(civil: Civil) -> Civil
    requires { IsCivil civil }
    ensures value { result ≡ month_end civil }
    ensures civil { IsCivil result }
{
    let last = u32::from(days_in_month(civil.year as i16, civil.month as u8));
    day_end(Civil { day: last, ..civil })
}

fn year_start(civil: Civil) -> Civil
    requires { IsCivil civil }
    ensures value { result ≡ year_start civil }
    ensures civil { IsCivil result }
{
    day_start(Civil {
        month: 1,
        day: 1,
        ..civil
    })
}

fn year_end(civil: Civil) -> Civil
    requires { IsCivil civil }
    ensures value { result ≡ year_end civil }
    ensures civil { IsCivil result }
{
    day_end(Civil {
        month: 12,
        day: 31,
        ..civil
    })
}
