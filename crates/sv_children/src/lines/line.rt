//! A line of the main log, and whether it is written.
ghost use Rattle.std.specs.Prelude.{◌≡◌, ◌++◌, IfOk, OnOk, string_bytes};
ghost use Rattle.std.specs.Fmt.{decimal};
ghost use Rattle.sv_children.specs.Lines.Rows.{overflow_line};
ghost use Rattle.sv_children.specs.Lines.Written.{is_written, rank, written};

use std::alloc::{AllocError, Global};
use sv_base::bytes::Bytes;
use sv_base::moment::Moment;
use sv_base::state::Level;
use sv_base::text::Text;
use sv_logs::main_line;

/// A line of the main log, without its moment.
#[derive(Drop)]
pub struct Line {
    pub level: Level,
    pub text: Text,
}

/// The line that tells that the full buffer of a pool lost the event of this serial.
pub fn overflowed(alloc: Global, pool: &Text, serial: u64) -> Result<Line, AllocError>
    ensures { IfOk result (λ line. line ≡ overflow_line pool.now serial) }
{
    let pool = pool.as_str();
    let mut text = format!(in alloc; "pool {pool} event buffer overflowed, discarding event ")?;
    push_number(&mut text, serial)?;
    Ok(Line {
        level: Level::Error,
        text: Text::from_string(text),
    })
}

/// Adds a number by its decimal digits.
pub(crate) fn push_number(text: &mut String, number: u64) -> Result<(), AllocError>
    ensures { OnOk result (string_bytes text.new ≡ string_bytes text.old ++ decimal number) }
{
    write!(text, "{number}")
}

/// Whether a line of this level is written: one below the least level isn't.
pub fn is_written(level: Level, least: Level) -> bool
    ensures { result ≡ is_written level least }
{
    rank(least) <= rank(level)
}

/// The bytes of a line of this moment; `None` exactly where it is below the least level and isn't written.
pub fn written(
    alloc: Global,
    least: Level,
    now: Moment,
    line: &Line,
) -> Result<Option<Bytes>, AllocError>
    ensures { IfOk result (λ bytes. bytes ≡ written least now line.now) }
{
    if !is_written(line.level, least) {
        return Ok(None);
    }
    let bytes = main_line(alloc, now, line.level, line.text.as_str())?;
    Ok(Some(bytes))
}

fn rank(level: Level) -> u8
    ensures { result ≡ rank level }
{
    match level {
        Level::Blather => 0,
        Level::Trace => 1,
        Level::Debug => 2,
        Level::Info => 3,
        Level::Warn => 4,
        Level::Error => 5,
        Level::Critical => 6,
    }
}
