//! A line of the main log.
ghost use Rattle.std.specs.Prelude.{◌≡◌, ◌<◌, ◌+◌, ◌++◌, ◌∷◌, [], IfOk, OnOk, length};
ghost use Rattle.sv_logs.specs.Dates.{IsOfCalendar};
ghost use Rattle.sv_logs.specs.MainLine.{level_word, three_digits, four_digits};
ghost use Rattle.sv_logs.specs.Dates.{two_digits};
ghost use Rattle.sv_logs.specs.MainLine.{date_text, time_text, main_text};

use crate::{Day, date_of};
use std::alloc::{AllocError, Global};
use sv_base::bytes::Bytes;
use sv_base::moment::Moment;
use sv_base::state::Level;

/// Milliseconds of a day.
const DAY: u64 = 86_400_000;

/// The line of the main log for this text: `YYYY-MM-DD HH:MM:SS,mmm LEVEL TEXT` and a line feed, in UTC. Every
/// moment has a year of four digits.
pub fn main_line(alloc: Global, now: Moment, level: Level, text: &str) -> Result<Bytes, AllocError>
    ensures line { IfOk result (λ line. line ≡ main_text now level text.now) }
    ensures length { IfOk result (λ line. length line ≡ 30 + length text.now) }
{
    let mut line = Vec::new(alloc);
    push_date(&mut line, date_of(now))?;
    line.push(b' ')?;
    push_time(&mut line, now.milliseconds() % DAY)?;
    line.push(b' ')?;
    line.extend_from_slice(level_word(level).as_bytes())?;
    line.push(b' ')?;
    line.extend_from_slice(text.as_bytes())?;
    line.push(b'\n')?;
    Ok(Bytes::from_vec(line))
}

/// Adds `YYYY-MM-DD`.
fn push_date(line: &mut Vec<u8>, date: Day) -> Result<(), AllocError>
    requires { IsOfCalendar date }
    ensures { OnOk result (line.new.items ≡ line.old.items ++ date_text date) }
{
    line.extend_from_slice(&four_digits(u64::from(date.year)))?;
    push_two(line, b'-', u64::from(date.month))?;
    push_two(line, b'-', u64::from(date.day))
}

/// Adds `HH:MM:SS,mmm` of the milliseconds of a day.
fn push_time(line: &mut Vec<u8>, time: u64) -> Result<(), AllocError>
    requires { time < 86400000 }
    ensures { OnOk result (line.new.items ≡ line.old.items ++ time_text time) }
{
    line.extend_from_slice(&two_digits(time / 3_600_000))?;
    push_two(line, b':', time / 60_000 % 60)?;
    push_two(line, b':', time / 1_000 % 60)?;
    line.push(b',')?;
    line.extend_from_slice(&three_digits(time % 1_000))?;
    Ok(())
}

/// Adds a mark and two digits.
fn push_two(line: &mut Vec<u8>, mark: u8, number: u64) -> Result<(), AllocError>
    requires { number < 100 }
    ensures { OnOk result (line.new.items ≡ line.old.items ++ mark ∷ two_digits number) }
{
    line.push(mark)?;
    line.extend_from_slice(&two_digits(number))?;
    Ok(())
}

fn four_digits(number: u64) -> [u8; 4]
    requires { number < 10000 }
    ensures { result ≡ four_digits number }
{
    let [a, b] = two_digits(number / 100);
    let [c, d] = two_digits(number % 100);
    [a, b, c, d]
}

fn three_digits(number: u64) -> [u8; 3]
    requires { number < 1000 }
    ensures { result ≡ three_digits number }
{
    let [b, c] = two_digits(number % 100);
    [digit(number / 100), b, c]
}

fn two_digits(number: u64) -> [u8; 2]
    requires { number < 100 }
    ensures { result ≡ two_digits number }
{
    [digit(number / 10), digit(number % 10)]
}

fn digit(number: u64) -> u8
    requires { number < 10 }
    ensures { result ≡ 48 + number }
{
    b'0' + number as u8
}

/// The word for a level.
fn level_word(level: Level) -> &'static str
    ensures { result.now ≡ level_word level }
{
    match level {
        Level::Critical => "CRIT",
        Level::Error => "ERRO",
        Level::Warn => "WARN",
        Level::Info => "INFO",
        Level::Debug => "DEBG",
        Level::Trace => "TRAC",
        Level::Blather => "BLAT",
    }
}
