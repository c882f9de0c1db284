//! The call that reads a journal, runs the machine on it and writes its orders; or that goes through a generated run.
ghost use Rattle.std.specs.Prelude.{◌≡◌, ◌≢◌, ◌≤◌, ◌<◌, ◌↔◌, ℕ, IsTrue, codes, ◌++◌, ◌∷◌, [], Err};
ghost use Rattle.std.specs.Prelude.{IfOk, OnErr, length, take, string_bytes};
ghost use Rattle.std.specs.Fmt.{decimal};
ghost use Rattle.std.specs.Io.KnownBytes.{Appends, Consumes, IsAtEnd, Keeps};
ghost use Rattle.sv_loop.specs.Generating.{AreGen, Generates};
ghost use Rattle.sv_judge.specs.JournalPlaces.Stage.{Fresh};
ghost use Rattle.sv_loop.specs.Reading.{IsAt};
ghost use Rattle.sv_loop.specs.Replaying.{AreRun, Ended, Refuses, Replays, ReplaysAs, bad_line};
ghost use Rattle.sv_loop.specs.Replaying.{configuration_fault, fault_line, status_number};
ghost use Rattle.sv_loop.specs.Telling.{IsBehind, Tells, TellsLine, TellsOf, TellsOfLine};
ghost use Rattle.sv_loop.specs.Telling.{TellsOfWhole};
ghost use Rattle.sv_loop.specs.WholeJournal.{HoldsGoodJournal, HoldsUnconfigured, IsDoneOrHindered};
ghost use Rattle.sv_loop.specs.WholeJournal.{IsUnconfiguredOrHindered, WritesDeeds};
ghost use Rattle.sv_loop.specs.declared.replaying.Status.{Status};
ghost use Rattle.sv_out.specs.Faults.{HasCause, Rose};

use crate::generating::{generate, number_in};
use crate::run::{End, Run};
use std::alloc::{AllocError, Global};
use sv_base::text::Text;
use sv_out::failed::Failed;
use sv_out::sink::{Sink, write_all};
use sv_out::source::Source;
use sv_sections::fault::ConfFault;

/// The most bytes of a journal.
pub const JOURNAL_LIMIT: usize = 67_108_864;

/// How many bytes are asked for at once.
const PIECE: usize = 16_384;

/// What a replay came to.
#[derive(Clone, Copy, PartialEq, Eq)]
pub enum Status {
    Done,
    SourceFailed,
    WordsRefused,
    NoMemory,
    SinkFailed,
    BadLine,
    NotConfigured,
    NotAccepted,
    TooLong,
}

impl Status {
    /// The number by which a program tells it.
    pub fn number(self) -> u8
        ensures { result ≡ status_number self }
    {
        match self {
            Status::Done => 0,
            Status::SourceFailed => 1,
            Status::WordsRefused => 2,
            Status::NoMemory => 3,
            Status::SinkFailed => 4,
            Status::BadLine => 5,
            Status::NotConfigured => 6,
            Status::NotAccepted => 7,
            Status::TooLong => 8,
        }
    }
}

/// How the reading of a journal ended.
#[derive(Drop)]
pub enum Ending {
    /// The source is at its end.
    Whole,
    /// The source failed.
    Broken,
    /// More bytes are there than a journal may have.
    Full,
    /// A line ended it.
    Stopped(End),
}

/// Reads the next bytes into the front of the buffer, at most so many.
fn read_piece<R: Source>(source: &mut R, buffer: &mut [u8], most: usize) -> Result<usize, Failed>
    requires some { 0 < most }
    requires room { 0 < length buffer.old }
    ensures within { IfOk result (λ n. n ≤ length buffer.new) }
    ensures most { IfOk result (λ n. n ≤ most) }
    ensures bytes { IfOk result (λ n. Consumes (R.left source.old) (R.left source.new)
        (take n buffer.new)) }
    ensures end { IfOk result (λ n. n ≡ 0 → IsAtEnd (R.left source.new)) }
    ensures kept { OnErr result (Keeps (R.left source.old) (R.left source.new)) }
    ensures cause { HasCause (R.faults source.old) (R.faults source.new) result }
{
    let want = buffer.len().min(most);
    let count = source.read(&mut buffer[..want])?;
    Ok(count)
}

/// Tells this text, which is the last; the status is then this one, unless the sink fails.
pub(crate) fn tell<K: Sink>(text: &[u8], status: Status, sink: &mut K) -> Status
    ensures tells { Tells text.now status (K.written sink.old) (K.written sink.new) result }
    ensures later { K.faults sink.old ≤ K.faults sink.new }
    ensures failed { status ≢ Status.SinkFailed → result ≡ Status.SinkFailed
        → Rose (K.faults sink.old) (K.faults sink.new) }
{
    match write_all(sink, text) {
        Ok(()) => status,
        Err(_) => Status::SinkFailed,
    }
}

/// The line that tells of a fault at a line.
fn fault_line(alloc: Global, front: &str, line: u64) -> Result<String, AllocError>
    ensures { IfOk result (λ text. string_bytes text ≡ fault_line front.now line) }
{
    let mut text = String::from_str(alloc, front)?;
    let mut digits = itoa::Buffer::new();
    text.push_str(digits.format(line))?;
    text.push('\n')?;
    Ok(text)
}

/// Reads the journal to its end, and works off its lines.
fn read_all<R: Source, K: Sink>(
    alloc: Global,
    run: &mut Run,
    source: &mut R,
    sink: &mut K,
) -> Ending
    requires start { IsAt run.old [] Fresh [] [] }
    requires few { run.old.lines ≡ 0 }
    ensures few { run.new.lines ≤ 67108864 }
    ensures ended { Ended result run.new (R.left source.old) (R.left source.new)
        (K.written sink.old) (K.written sink.new) }
    ensures source_later { R.faults source.old ≤ R.faults source.new }
    ensures sink_later { K.faults sink.old ≤ K.faults sink.new }
    ensures source_failed { result ≡ Ending.Broken
        → Rose (R.faults source.old) (R.faults source.new) }
    ensures sink_failed { result ≡ Ending.Stopped End.SinkFailed
        → Rose (K.faults sink.old) (K.faults sink.new) }
{
    let mut buffer = [0u8; PIECE];
    let mut room = JOURNAL_LIMIT;
    while room > 0 {
        let count = match read_piece(source, &mut buffer, room) {
            Ok(count) => count,
            Err(_) => return Ending::Broken,
        };
        if count == 0 {
            return Ending::Whole;
        }
        let (piece, _) = buffer.split_at(count);
        match run.take_piece(alloc, piece, sink) {
            Ok(()) => {}
            Err(end) => return Ending::Stopped(end),
        }
        room -= count;
    }
    look_behind(source)
}

/// At the limit: whether more bytes are there.
fn look_behind<R: Source>(source: &mut R) -> Ending
    ensures behind { IsBehind result (R.left source.old) (R.left source.new) }
    ensures later { R.faults source.old ≤ R.faults source.new }
    ensures failed { result ≡ Ending.Broken → Rose (R.faults source.old) (R.faults source.new) }
{
    let mut one = [0u8; 1];
    match read_piece(source, &mut one, 1) {
        Ok(0) => Ending::Whole,
        Ok(_) => Ending::Full,
        Err(_) => Ending::Broken,
    }
}

/// Tells what ended the journal.
fn close<K: Sink>(alloc: Global, run: &Run, ending: Ending, sink: &mut K) -> Status
    requires { run.now.lines ≤ 67108864 }
    ensures tells { TellsOf ending run.now (K.written sink.old) (K.written sink.new) result }
    ensures later { K.faults sink.old ≤ K.faults sink.new }
    ensures failed { ending ≢ Ending.Stopped End.SinkFailed → result ≡ Status.SinkFailed
        → Rose (K.faults sink.old) (K.faults sink.new) }
{
    match ending {
        Ending::Whole => close_whole(alloc, run, sink),
        Ending::Broken => tell(b"fault 1\n", Status::SourceFailed, sink),
        Ending::Full => tell(b"fault 8\n", Status::TooLong, sink),
        Ending::Stopped(end) => close_line(alloc, run, end, sink),
    }
}

/// The source is at its end.
fn close_whole<K: Sink>(alloc: Global, run: &Run, sink: &mut K) -> Status
    requires { run.now.lines ≤ 67108864 }
    ensures tells { TellsOfWhole run.now (K.written sink.old) (K.written sink.new) result }
    ensures later { K.faults sink.old ≤ K.faults sink.new }
    ensures failed { result ≡ Status.SinkFailed → Rose (K.faults sink.old) (K.faults sink.new) }
{
    if run.is_whole() {
        return Status::Done;
    }
    tell_bad_line(alloc, run.lines + 1, sink)
}

/// A line ended the journal.
fn close_line<K: Sink>(alloc: Global, run: &Run, end: End, sink: &mut K) -> Status
    requires { run.now.lines ≤ 67108864 }
    ensures tells { TellsOfLine end run.now (K.written sink.old) (K.written sink.new) result }
    ensures later { K.faults sink.old ≤ K.faults sink.new }
    ensures failed { end ≢ End.SinkFailed → result ≡ Status.SinkFailed
        → Rose (K.faults sink.old) (K.faults sink.new) }
{
    match end {
        End::BadLine => tell_bad_line(alloc, run.lines + 1, sink),
        End::NotAccepted => tell_line(
            alloc,
            "fault 7 line ",
            run.lines + 1,
            Status::NotAccepted,
            sink,
        ),
        End::NotConfigured(fault) => tell_configuration_fault(alloc, &fault, sink),
        End::NoMemory => Status::NoMemory,
        End::SinkFailed => Status::SinkFailed,
    }
}

fn tell_bad_line<K: Sink>(alloc: Global, line: u64, sink: &mut K) -> Status
    ensures tells { TellsLine (bad_line line) Status.BadLine (K.written sink.old)
        (K.written sink.new) result }
    ensures later { K.faults sink.old ≤ K.faults sink.new }
    ensures failed { result ≡ Status.SinkFailed → Rose (K.faults sink.old) (K.faults sink.new) }
{
    tell_line(alloc, "fault 5 line ", line, Status::BadLine, sink)
}

/// Tells a fault at a line.
fn tell_line<K: Sink>(alloc: Global, front: &str, line: u64, status: Status, sink: &mut K) -> Status
    ensures tells { TellsLine (fault_line front.now line) status (K.written sink.old)
        (K.written sink.new) result }
    ensures later { K.faults sink.old ≤ K.faults sink.new }
    ensures failed { status ≢ Status.SinkFailed → result ≡ Status.SinkFailed
        → Rose (K.faults sink.old) (K.faults sink.new) }
{
    match fault_line(alloc, front, line) {
        Ok(text) => tell(text.as_str().as_bytes(), status, sink),
        Err(AllocError) => Status::NoMemory,
    }
}

/// Tells a fault of the configuration.
fn tell_configuration_fault<K: Sink>(alloc: Global, fault: &ConfFault, sink: &mut K) -> Status
    ensures tells { TellsLine (configuration_fault fault.now) Status.NotConfigured
        (K.written sink.old) (K.written sink.new) result }
    ensures later { K.faults sink.old ≤ K.faults sink.new }
    ensures failed { result ≡ Status.SinkFailed → Rose (K.faults sink.old) (K.faults sink.new) }
{
    match configuration_fault(alloc, fault) {
        Ok(text) => tell(text.as_str().as_bytes(), Status::NotConfigured, sink),
        Err(AllocError) => Status::NoMemory,
    }
}

/// The line that tells of a fault in the configuration.
#[tactic(auto, unfolding(crate::specs::Replaying::configuration_fault))]
fn configuration_fault(alloc: Global, fault: &ConfFault) -> Result<String, AllocError>
    ensures { IfOk result (λ text. string_bytes text ≡ configuration_fault fault.now) }
{
    let mut text = String::from_str(alloc, "fault 6 conf ")?;
    let said = fault.text(alloc)?;
    text.push_str(said.as_str())?;
    text.push('\n')?;
    Ok(text)
}

fn run<R: Source, K: Sink>(alloc: Global, source: &mut R, sink: &mut K) -> Status
    ensures replays { Replays result (R.left source.old) (R.left source.new) (K.written sink.old)
        (K.written sink.new) }
    ensures words { result ≢ Status.WordsRefused }
    ensures deeds { result ≡ Status.Done →
        WritesDeeds (R.left source.old) (R.left source.new) (K.written sink.old)
        (K.written sink.new) }
    ensures complete { HoldsGoodJournal (R.left source.old)
        → IsDoneOrHindered (status_number result) }
    ensures unconfigured { HoldsUnconfigured (R.left source.old)
        → IsUnconfiguredOrHindered (status_number result) }
    ensures source_failed { result ≡ Status.SourceFailed
        → Rose (R.faults source.old) (R.faults source.new) }
    ensures sink_failed { result ≡ Status.SinkFailed
        → Rose (K.faults sink.old) (K.faults sink.new) }
{
    let mut run = Run::new(alloc);
    let ending = read_all(alloc, &mut run, source, sink);
    close(alloc, &run, ending, sink)
}

/// Runs a journal or a generated run through the daemon's machine.
///
/// With the one word `run` it is a recorded journal. Its lines are taken one at a time, and the order lines of each are
/// written before the next is judged. With the words `gen N`, where N is a number from 1 to 1,000,000 without leading
/// zeros, it is a run of N inputs that are made up by a generator of numbers. The source isn't read, and the one line
/// `inputs N spawns A kills B edges C` is written, which tells how many spawns, signals and reports of an edge the machine
/// gave.
///
/// The answer is 0 where the journal was read to its end, after `go`, and each of its lines stood at its place, or the
/// line of the generated run was written; 1 where the source failed; 2 where the words are refused; 3 when out of memory;
/// 4 where the sink failed; 5 where a line is outside the grammar of its place, or the journal ends before `go`; 6 where
/// the header's configuration is refused; 7 where an input isn't accepted; 8 where the source has more than 67,108,864
/// bytes. A line that tells of it was then written, but at 0, 3 and 4.
pub fn replay<R: Source, K: Sink>(alloc: Global, words: &[Text], source: &mut R, sink: &mut K) -> u8
    ensures statuses { (status : Status) × (result ≡ status_number status) }
    ensures refused { (AreRun words.now → ⊥) →
        ((number : ℕ) → AreGen words.now number → ⊥) →
        Refuses result (R.left source.old) (R.left source.new) (K.written sink.old)
        (K.written sink.new) }
    ensures replays { AreRun words.now →
        ReplaysAs result (R.left source.old) (R.left source.new) (K.written sink.old)
        (K.written sink.new) }
    ensures words { result ≡ 2 → AreRun words.now → ⊥ }
    ensures deeds { AreRun words.now → result ≡ 0 →
        WritesDeeds (R.left source.old) (R.left source.new) (K.written sink.old)
        (K.written sink.new) }
    ensures complete { AreRun words.now → HoldsGoodJournal (R.left source.old)
        → IsDoneOrHindered result }
    ensures unconfigured { AreRun words.now → HoldsUnconfigured (R.left source.old)
        → IsUnconfiguredOrHindered result }
    ensures generates { (number : ℕ) → AreGen words.now number →
        Generates number result (R.left source.old) (R.left source.new) (K.written sink.old)
        (K.written sink.new) }
    ensures source_failed { result ≡ 1 → Rose (R.faults source.old) (R.faults source.new) }
    ensures sink_failed { result ≡ 4 → Rose (K.faults sink.old) (K.faults sink.new) }
{
    if are_run(words) {
        return run(alloc, source, sink).number();
    }
    match number_in(words) {
        Some(number) => generate(alloc, number, sink).number(),
        None => tell(USAGE, Status::WordsRefused, sink).number(),
    }
}

const USAGE: &[u8] = b"Error: usage: sv_replay run or sv_replay gen N\n";

fn are_run(words: &[Text]) -> bool
    ensures { IsTrue result ↔ AreRun words.now }
{
    match words {
        [word] => is_run(word),
        _ => false,
    }
}

fn is_run(word: &Text) -> bool
    ensures { IsTrue result ↔ (word.now ≡ codes "run") }
{
    word.as_str() == "run"
}
