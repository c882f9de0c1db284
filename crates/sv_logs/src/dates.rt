//! The date of a moment.
ghost use Rattle.std.specs.Prelude.{◌≡◌, ◌+◌, ◌≤◌, ◌/◌, ◌+ℤ◌, pos, unsigned_abs};
ghost use Rattle.jiff_core.specs.Date.{epoch_day};
ghost use Rattle.sv_logs.specs.Dates.{date_of, IsOfCalendar};

use jiff_core::civil::Date;
use sv_base::moment::Moment;

/// Milliseconds of a day.
const DAY: u64 = 86_400_000;

/// The days from the calendar's first one, -9999-01-01, to 1970-01-01.
const FIRST_DAY: u32 = 4_371_587;

/// A day of the Gregorian calendar.
#[derive(Clone, Copy, PartialEq, Eq)]
pub struct Day {
    pub year: u16,
    /// From 1 for January on.
    pub month: u8,
    /// From 1 on.
    pub day: u8,
}

/// The day of a moment, in UTC. Every moment has a year of four digits.
pub fn date_of(moment: Moment) -> Day
    ensures date { result ≡ date_of (moment / 86400000) }
    ensures calendar { IsOfCalendar result }
{
    let date = civil_date(moment.milliseconds() / DAY);
    Day {
        year: year_of(date),
        month: date.month,
        day: date.day,
    }
}

/// The date so many days after 1 January 1970.
fn civil_date(days: u64) -> Date
    requires { days ≤ 2928240 }
    ensures { epoch_day result +ℤ pos 4371587 ≡ pos (days + 4371587) }
{
    Date::from_days_since_min(days as u32 + FIRST_DAY)
}

fn year_of(date: Date) -> u16
    ensures { result ≡ unsigned_abs date.year }
{
    date.year.unsigned_abs()
}
