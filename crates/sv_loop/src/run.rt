//! The lines of a journal, piece by piece.
ghost use Rattle.std.specs.Prelude.{◌≡◌, ◌↔◌, IsTrue, ◌≤◌, ◌<◌, ◌+◌, ◌^◌, ◌∷◌, ◌++◌, [], List, ℕ};
ghost use Rattle.std.specs.Prelude.{OnOk, IfErr, Err, Option, false, ◌≢◌, length};
ghost use Rattle.sv_judge.specs.JournalPlaces.{Line, Stage};
ghost use Rattle.sv_judge.specs.JournalPlaces.Stage.{Fresh};
ghost use Rattle.sv_judge.specs.Judging.{IsPlace, LeadsTo};
ghost use Rattle.sv_loop.specs.Reading.{Holds, end_of, has_feed};
ghost use Rattle.sv_judge.specs.Judging.{IsRunning};
ghost use Rattle.sv_out.specs.Faults.{Rose};
ghost use Rattle.sv_out.specs.declared.order.Order.{Order};

use crate::cutting::cut;
use crate::orders::write_orders;
use std::alloc::Global;
use sv_journal::read::LINE_LIMIT;
use sv_judge::{JournalProgress, Refused};
use sv_out::order::Order;
use sv_out::sink::Sink;
use sv_sections::fault::ConfFault;

/// Why the reading of a journal stopped at a line.
#[derive(Drop)]
pub enum End {
    /// The line is outside the grammar of its place.
    BadLine,
    /// Its input isn't accepted.
    NotAccepted,
    /// The configuration has this fault.
    NotConfigured(ConfFault),
    /// Memory was refused.
    NoMemory,
    /// Its orders couldn't be written.
    SinkFailed,
}

/// A journal that is read: the place of the line in hand, how many lines stand before it, and what has come of it; and the
/// orders of the line before it, which were written.
pub struct Run {
    pub(crate) place: JournalProgress,
    pub(crate) lines: u64,
    pub(crate) line: Vec<u8>,
    pub(crate) orders: Vec<Order>,
}

impl Drop for Run {
    fn drop(self) {
        let Self {
            place: _,
            lines: _,
            line: _,
            orders: _,
        } = self;
    }
}

impl Run {
    ghost use Rattle.sv_loop.specs.Reading.{IsAt, GoesOn, StopsAt};

    /// A journal of which nothing was read.
    pub(crate) fn new(alloc: Global) -> Run
        ensures start { IsAt result [] Fresh [] [] }
        ensures few { result.lines ≡ 0 }
    {
        Run {
            place: JournalProgress::Fresh,
            lines: 0,
            line: Vec::new(alloc),
            orders: Vec::new(alloc),
        }
    }

    /// Whether the journal may end here: after `go`, and after a line feed.
    pub(crate) fn is_whole(&self) -> bool
        ensures { IsTrue result ↔ ((self.now.line.items ≡ []) × IsRunning self.now.place) }
    {
        self.line.as_slice().is_empty() && self.place.is_running()
    }

    /// Takes the next piece of the journal: the orders of each line are written before the next line is judged.
    pub(crate) fn take_piece<K: Sink>(
        &mut self,
        alloc: Global,
        piece: &[u8],
        sink: &mut K,
    ) -> Result<(), End>
        requires { self.old.lines + length piece.now < 2 ^ 32 }
        ensures few { self.new.lines ≤ self.old.lines + length piece.now }
        ensures later { K.faults sink.old ≤ K.faults sink.new }
        ensures failed { result ≡ Err End.SinkFailed
            → Rose (K.faults sink.old) (K.faults sink.new) }
        ensures goes_on { OnOk result ((lines : List Line) (at : Stage) (given : List Order)
            (bytes : List ℕ) →
            IsAt self.old lines at given bytes →
            GoesOn self.new (bytes ++ piece.now) given (K.written sink.old) (K.written sink.new)) }
        ensures stops { IfErr result (λ end. (lines : List Line) (at : Stage) (given : List Order)
            (bytes : List ℕ) →
            IsAt self.old lines at given bytes →
            StopsAt end self.new (bytes ++ piece.now) given (K.written sink.old)
            (K.written sink.new)) }
    {
        let mut rest = piece;
        while let Some((line, behind)) = cut(rest) {
            self.take_line(alloc, line, sink)?;
            rest = behind;
        }
        self.hold(rest)
    }

    /// Takes the end of a line, its line feed left out. A line that lies in the piece is judged there; one of which
    /// something is held is joined first.
    fn take_line<K: Sink>(&mut self, alloc: Global, line: &[u8], sink: &mut K) -> Result<(), End>
        requires few { self.old.lines < 2 ^ 32 }
        requires unbroken { has_feed line.now ≡ false }
        ensures few { self.new.lines ≤ self.old.lines + 1 }
        ensures later { K.faults sink.old ≤ K.faults sink.new }
        ensures failed { result ≡ Err End.SinkFailed
            → Rose (K.faults sink.old) (K.faults sink.new) }
        ensures goes_on { OnOk result ((lines : List Line) (at : Stage) (given : List Order)
            (bytes : List ℕ) →
            IsAt self.old lines at given bytes →
            GoesOn self.new (bytes ++ (line.now ++ 10 ∷ [])) given (K.written sink.old)
            (K.written sink.new)) }
        ensures stops { IfErr result (λ end. (lines : List Line) (at : Stage) (given : List Order)
            (bytes : List ℕ) →
            IsAt self.old lines at given bytes →
            StopsAt end self.new (bytes ++ (line.now ++ 10 ∷ [])) given (K.written sink.old)
            (K.written sink.new)) }
    {
        if self.line.as_slice().is_empty() {
            return self.judge_line(alloc, line, sink);
        }
        self.hold(line)?;
        self.end_line(alloc, sink)
    }

    /// Holds what came of a line that isn't whole yet.
    fn hold(&mut self, more: &[u8]) -> Result<(), End>
        requires { has_feed more.now ≡ false }
        ensures few { self.new.lines ≡ self.old.lines }
        ensures goes_on { OnOk result ((lines : List Line) (at : Stage) (given : List Order)
            (bytes : List ℕ) (written : Option (List ℕ)) →
            IsAt self.old lines at given bytes →
            GoesOn self.new (bytes ++ more.now) given written written) }
        ensures stops { IfErr result (λ end. (lines : List Line) (at : Stage) (given : List Order)
            (bytes : List ℕ) (written : Option (List ℕ)) →
            IsAt self.old lines at given bytes →
            StopsAt end self.new (bytes ++ more.now) given written written) }
        ensures written { result ≢ Err End.SinkFailed }
    {
        if self.line.len() + more.len() > LINE_LIMIT {
            return Err(End::BadLine);
        }
        match self.line.extend_from_slice(more) {
            Ok(()) => Ok(()),
            Err(_) => Err(End::NoMemory),
        }
    }

    /// A whole line lies in the piece, and nothing is held: it is judged where it lies.
    fn judge_line<K: Sink>(&mut self, alloc: Global, line: &[u8], sink: &mut K) -> Result<(), End>
        requires few { self.old.lines < 2 ^ 32 }
        requires empty { self.old.line.items ≡ [] }
        requires unbroken { has_feed line.now ≡ false }
        ensures few { self.new.lines ≤ self.old.lines + 1 }
        ensures later { K.faults sink.old ≤ K.faults sink.new }
        ensures failed { result ≡ Err End.SinkFailed
            → Rose (K.faults sink.old) (K.faults sink.new) }
        ensures goes_on { OnOk result ((lines : List Line) (at : Stage) (given : List Order)
            (bytes : List ℕ) →
            IsAt self.old lines at given bytes →
            GoesOn self.new (bytes ++ (line.now ++ 10 ∷ [])) given (K.written sink.old)
            (K.written sink.new)) }
        ensures stops { IfErr result (λ end. (lines : List Line) (at : Stage) (given : List Order)
            (bytes : List ℕ) →
            IsAt self.old lines at given bytes →
            StopsAt end self.new (bytes ++ (line.now ++ 10 ∷ [])) given (K.written sink.old)
            (K.written sink.new)) }
    {
        if line.len() > LINE_LIMIT {
            return Err(End::BadLine);
        }
        match self.place.judge(alloc, line, &mut self.orders) {
            Ok(()) => self.go_on(alloc, sink),
            Err(refused) => Err(end_of(refused)),
        }
    }

    /// The line that is held is whole, and is judged.
    fn end_line<K: Sink>(&mut self, alloc: Global, sink: &mut K) -> Result<(), End>
        requires { self.old.lines < 2 ^ 32 }
        ensures few { self.new.lines ≤ self.old.lines + 1 }
        ensures later { K.faults sink.old ≤ K.faults sink.new }
        ensures failed { result ≡ Err End.SinkFailed
            → Rose (K.faults sink.old) (K.faults sink.new) }
        ensures goes_on { OnOk result ((lines : List Line) (at : Stage) (given : List Order)
            (bytes : List ℕ) →
            IsAt self.old lines at given bytes →
            GoesOn self.new (bytes ++ 10 ∷ []) given (K.written sink.old) (K.written sink.new)) }
        ensures stops { IfErr result (λ end. (lines : List Line) (at : Stage) (given : List Order)
            (bytes : List ℕ) →
            IsAt self.old lines at given bytes →
            StopsAt end self.new (bytes ++ 10 ∷ []) given (K.written sink.old)
            (K.written sink.new)) }
    {
        match self
            .place
            .judge(alloc, self.line.as_slice(), &mut self.orders)
        {
            Ok(()) => self.go_on(alloc, sink),
            Err(refused) => Err(end_of(refused)),
        }
    }

    /// The line in hand has led to this place: its orders are written, and the next line begins.
    fn go_on<K: Sink>(&mut self, alloc: Global, sink: &mut K) -> Result<(), End>
        requires { self.old.lines < 2 ^ 32 }
        ensures few { self.new.lines ≤ self.old.lines + 1 }
        ensures later { K.faults sink.old ≤ K.faults sink.new }
        ensures failed { result ≡ Err End.SinkFailed
            → Rose (K.faults sink.old) (K.faults sink.new) }
        ensures goes_on { OnOk result ((lines : List Line) (at : Stage) (given : List Order)
            (bytes text : List ℕ) →
            Holds self.old.lines lines at given bytes text →
            LeadsTo at text (IsPlace self.old.place) self.old.orders.items →
            GoesOn self.new (bytes ++ 10 ∷ []) given (K.written sink.old) (K.written sink.new)) }
        ensures stops { IfErr result (λ end. (lines : List Line) (at : Stage) (given : List Order)
            (bytes text : List ℕ) →
            Holds self.old.lines lines at given bytes text →
            LeadsTo at text (IsPlace self.old.place) self.old.orders.items →
            StopsAt end self.new (bytes ++ 10 ∷ []) given (K.written sink.old)
            (K.written sink.new)) }
    {
        write_orders(alloc, self.orders.as_slice(), sink)?;
        self.lines += 1;
        self.line.clear();
        Ok(())
    }
}

/// Why the reading stops at a line that is refused.
fn end_of(refused: Refused) -> End
    ensures end { result ≡ end_of refused }
    ensures written { result ≢ End.SinkFailed }
{
    match refused {
        Refused::BadLine => End::BadLine,
        Refused::NotAccepted => End::NotAccepted,
        Refused::NotConfigured(fault) => End::NotConfigured(fault),
        Refused::NoMemory => End::NoMemory,
    }
}
