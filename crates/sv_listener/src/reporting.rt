//! A crash reporter: a listener that writes a line for each process that exited and was not expected to.

ghost use Rattle.std.specs.Prelude.{◌≡◌, OnOk, OnErr, Err, IfOk, string_bytes};
ghost use Rattle.std.specs.Io.KnownBytes.{Appends, Keeps};
ghost use Rattle.sv_listener.specs.CrashLines.{crash_line, line_for, crash_in};
ghost use Rattle.sv_listener.specs.Reporting.{ReportsAs};
ghost use Rattle.sv_listener.specs.declared.handler.HandleFault.{HandleFault};
ghost use Rattle.sv_out.specs.Faults.{RisesWhere, Rose};
ghost use Rattle.sv_out.specs.Written.{AppendsFront};

use crate::events::Heard;
use crate::exits::{Exit, crash_in};
use crate::handler::{HandleFault, Handler, Verdict};
use crate::listening::listen;
use std::alloc::{AllocError, Global};
use sv_out::sink::{Sink, write_all};
use sv_out::source::Source;

/// Reports the crashes of a daemon's processes: listens, and writes to `out` the line
/// `GROUP:NAME (pid N) exited unexpectedly` for each event PROCESS_STATE_EXITED that says so. Each event is done with.
///
/// The answer is the number of the end: 0 where the source ended between two events; 1 where it failed; 2 where it ended
/// inside an event or has a fault; 3 when out of memory; 4 where the sink failed; 5 where `out` failed; 6 where 2^63 bytes
/// were taken.
pub fn report<R: Source, K: Sink, O: Sink>(
    alloc: Global,
    source: &mut R,
    sink: &mut K,
    out: &mut O,
) -> u8
    ensures reports { ReportsAs result (R.left source.old) (R.left source.new)
        (K.written sink.old) (K.written sink.new) (O.written out.old) (O.written out.new) }
    ensures source_failed { result ≡ 1 → Rose (R.faults source.old) (R.faults source.new) }
    ensures sink_failed { result ≡ 4 → Rose (K.faults sink.old) (K.faults sink.new) }
    ensures out_failed { result ≡ 5 → Rose (O.faults out.old) (O.faults out.new) }
{
    let mut reporter = Reporter { alloc, out };
    listen(alloc, source, sink, &mut reporter).number()
}

/// A handler that writes the lines.
#[derive(Drop)]
struct Reporter<'a, O> {
    alloc: Global,
    out: &'a mut O,
}

impl<O: Sink> Handler for Reporter<'_, O> {
    ghost use Rattle.sv_listener.specs.CrashLines.{Reported};
    ghost use Rattle.std.proofs.Common.{refl, ◌∙◌};
    ghost use Rattle.sv_listener.specs.CrashLaws.{reported_none, reported_further};

    ghost told = { λ old new events verdicts. (new.out.ghost_name ≡ old.out.ghost_name)
        × Reported (O.written old.out.now) (O.written new.out.now) events verdicts };

    ghost faults = { λ reporter. O.faults reporter.out.now };

    fn handle(&mut self, event: &Heard) -> Result<Verdict, HandleFault> {
        match crash_in(event) {
            Some(crash) => match tell(self.alloc, &crash, self.out) {
                Ok(()) => Ok(Verdict::Ok),
                Err(fault) => Err(fault),
            },
            None => Ok(Verdict::Ok),
        }
    }

    ghost nothing = { λ reporter. (refl, reported_none (O.written reporter.out.now)) };

    ghost further = { λ first middle last events more verdicts others each one two. (
      two.0 ∙ one.0,
      reported_further (O.written first.out.now) (O.written middle.out.now) (O.written last.out.now)
          events more verdicts others each one.1 two.1,
    ) };
}

/// Writes the line of a crash.
fn tell<O: Sink>(alloc: Global, crash: &Exit, out: &mut O) -> Result<(), HandleFault>
    ensures told { OnOk result (Appends (O.written out.old) (O.written out.new)
        (crash_line crash.now.group.now crash.now.name.now crash.now.pid)) }
    ensures part { OnErr result (AppendsFront (O.written out.old) (O.written out.new)
        (crash_line crash.now.group.now crash.now.name.now crash.now.pid)) }
    ensures cause { RisesWhere (O.faults out.old) (O.faults out.new)
        (result ≡ Err HandleFault.Failed) }
{
    let line = line_of(alloc, crash)?;
    match write_all(out, line.as_str().as_bytes()) {
        Ok(()) => Ok(()),
        Err(_) => Err(HandleFault::Failed),
    }
}

#[tactic(auto, unfolding(crate::specs::CrashLines::crash_line))]
fn line_of(alloc: Global, crash: &Exit) -> Result<String, AllocError>
    ensures { IfOk result (λ line. string_bytes line
        ≡ crash_line crash.now.group.now crash.now.name.now crash.now.pid) }
{
    let digits = crash.pid.to_string(alloc)?;
    let mut line = String::from_str(alloc, crash.group)?;
    line.push_str(":")?;
    line.push_str(crash.name)?;
    line.push_str(" (pid ")?;
    line.push_str(digits.as_str())?;
    line.push_str(") exited unexpectedly\n")?;
    Ok(line)
}
