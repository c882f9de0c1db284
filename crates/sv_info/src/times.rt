//! The texts of times: how long a process is up, and when it stopped.
ghost use Rattle.std.specs.Prelude.{◌≡◌, ◌+◌, ◌<◌, ◌≤◌, ◌++◌, ◌∷◌, OnOk, string_bytes};
ghost use Rattle.std.specs.Fmt.{decimal};
ghost use Rattle.sv_info.specs.Times.{clock_text, days_text, half_name, hour_of_twelve, hours_text};
ghost use Rattle.sv_info.specs.Times.{moment_text, month_name, seconds_since};
ghost use Rattle.sv_logs.specs.Dates.{two_digits};
ghost use Rattle.sv_info.specs.Times.{uptime_text};

use itoa::Buffer;
use std::alloc::AllocError;
use sv_base::moment::Moment;
use sv_logs::date_of;

/// Milliseconds of a day.
const DAY: u64 = 86_400_000;

/// Whole seconds from a start to now, 0 where there was no start.
pub(crate) fn seconds_since(start: Option<Moment>, now: Moment) -> u64
    ensures { result ≡ seconds_since start now }
{
    match start {
        None => 0,
        Some(start) => now.milliseconds().saturating_sub(start.milliseconds()) / 1_000,
    }
}

/// Adds how long so many seconds are: `H:MM:SS`, with the days before it from one day on.
pub(crate) fn push_uptime(text: &mut String, seconds: u64) -> Result<(), AllocError>
    ensures { OnOk result (string_bytes text.new ≡ string_bytes text.old ++ uptime_text seconds) }
{
    push_days(text, seconds / 86_400)?;
    push_hours(text, seconds % 86_400)
}

fn push_days(text: &mut String, days: u64) -> Result<(), AllocError>
    ensures { OnOk result (string_bytes text.new ≡ string_bytes text.old ++ days_text days) }
{
    if days == 0 {
        return Ok(());
    }
    if days == 1 {
        return text.push_str("1 day, ");
    }
    push_number(text, days)?;
    text.push_str(" days, ")
}

fn push_hours(text: &mut String, seconds: u64) -> Result<(), AllocError>
    ensures { OnOk result (string_bytes text.new ≡ string_bytes text.old ++ hours_text seconds) }
{
    push_number(text, seconds / 3_600)?;
    push_two(text, ":", seconds / 60 % 60)?;
    push_two(text, ":", seconds % 60)
}

/// Adds a number by its decimal digits.
pub(crate) fn push_number(text: &mut String, number: u64) -> Result<(), AllocError>
    ensures { OnOk result (string_bytes text.new ≡ string_bytes text.old ++ decimal number) }
{
    let mut buffer = Buffer::new();
    text.push_str(buffer.format(number))
}

/// Adds `Mon DD HH:MM AM` of a moment, in UTC.
pub(crate) fn push_moment(text: &mut String, moment: Moment) -> Result<(), AllocError>
    ensures { OnOk result (string_bytes text.new ≡ string_bytes text.old ++ moment_text moment) }
{
    let date = date_of(moment);
    push_day(text, date.month, date.day)?;
    text.push_str(" ")?;
    push_clock(text, moment.milliseconds() % DAY / 60_000)
}

/// Adds `Mon DD` of a date.
fn push_day(text: &mut String, month: u8, day: u8) -> Result<(), AllocError>
    requires { day < 100 }
    ensures { OnOk result (string_bytes text.new
        ≡ string_bytes text.old ++ month_name month ++ 32 ∷ two_digits day) }
{
    text.push_str(month_name(month))?;
    push_two(text, " ", u64::from(day))
}

fn month_name(month: u8) -> &'static str
    ensures { result.now ≡ month_name month }
{
    match month {
        1 => "Jan",
        2 => "Feb",
        3 => "Mar",
        4 => "Apr",
        5 => "May",
        6 => "Jun",
        7 => "Jul",
        8 => "Aug",
        9 => "Sep",
        10 => "Oct",
        11 => "Nov",
        _ => "Dec",
    }
}

/// Adds `HH:MM AM` of the minutes of a day.
fn push_clock(text: &mut String, minutes: u64) -> Result<(), AllocError>
    requires { minutes < 1440 }
    ensures { OnOk result (string_bytes text.new ≡ string_bytes text.old ++ clock_text minutes) }
{
    push_two(text, "", hour_of_twelve(minutes / 60))?;
    push_two(text, ":", minutes % 60)?;
    text.push_str(" ")?;
    text.push_str(half_name(minutes / 60))
}

fn hour_of_twelve(hour: u64) -> u64
    ensures value { result ≡ hour_of_twelve hour }
    ensures bound { result ≤ 12 }
{
    if hour % 12 == 0 { 12 } else { hour % 12 }
}

fn half_name(hour: u64) -> &'static str
    ensures { result.now ≡ half_name hour }
{
    if hour < 12 { "AM" } else { "PM" }
}

/// Adds a mark and two digits.
fn push_two(text: &mut String, mark: &str, number: u64) -> Result<(), AllocError>
    requires { number < 100 }
    ensures { OnOk result (string_bytes text.new
        ≡ string_bytes text.old ++ mark.now ++ two_digits number) }
{
    text.push_str(mark)?;
    text.push(digit(number / 10))?;
    text.push(digit(number % 10))
}

fn digit(number: u64) -> char
    requires { number < 10 }
    ensures value { result ≡ 48 + number }
    ensures ascii { result < 128 }
{
    char::from(b'0' + number as u8)
}
