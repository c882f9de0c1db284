//! The conversation over the lines of an input.
ghost use Rattle.std.specs.Prelude.{◌≡◌, ◌≤◌, ◌<◌, ◌++◌, ◌∷◌, ◌⊎◌, List, ℕ, IfOk, OnErr, length};
ghost use Rattle.std.specs.Prelude.{take, min};
ghost use Rattle.std.specs.Io.KnownBytes.{Consumes, IsAtEnd, Keeps};
ghost use Rattle.sv_ctl.specs.Ask.Asking.{RisesFor};
ghost use Rattle.sv_commands.specs.declared.status.Status.{Status};
ghost use Rattle.sv_out.specs.Faults.{HasCause, RisesWhere, Rose};
ghost use Rattle.sv_ctl.specs.Talk.Conversation.{InputEnd, Talk, heard_said, last_line, line_said};
ghost use Rattle.sv_ctl.specs.Talk.Conversation.{lines_from, prompted, stops, words_said};
ghost use Rattle.sv_ctl.specs.Talk.Conversation.InputEnd.{Whole};
ghost use Rattle.sv_ctl.specs.Talk.Courses.{IsLost, IsUnprinted};
ghost use Rattle.sv_ctl.specs.Talk.Doings.{Comes};
ghost use Rattle.sv_ctl.specs.Talk.Hearings.{EndsLost, EndsUnprinted, Hears, Talks, TalksOn};

use crate::talk::calling::run_command;
use crate::talk::course::Course;
use crate::talk::printing::{say, say_unknown};
use crate::talk::server::Server;
use crate::talk::words::{is_quit, words_in};
use std::alloc::Global;
use sv_base::Text;
use sv_commands::Status;
use sv_out::Dial;
use sv_out::failed::Failed;
use sv_out::sink::Sink;
use sv_out::source::Source;

/// How many bytes are asked for at once.
const PIECE: usize = 16_384;

/// The most bytes of an input.
const MOST_BYTES: usize = 9_223_372_036_854_775_808;

const PROMPT: &[u8] = b"supervisor> ";

/// Does the commands of the lines of an input, with a prompt before each and before the end.
#[tactic(auto, using(crate::proofs::TalkLemmas::Hearing::talks))]
pub fn talk<D: Dial, R: Source, K: Sink>(
    alloc: Global,
    server: &Server,
    dial: &mut D,
    input: &mut R,
    out: &mut K,
) -> Course
    ensures talks { Talks server.now (D.told dial.old) (D.told dial.new) (R.left input.old)
        (R.left input.new)
        (K.written out.old) (K.written out.new) result }
    ensures lost { IsLost result → Rose (D.faults dial.old) (D.faults dial.new)
        ⊎ Rose (R.faults input.old) (R.faults input.new) }
    ensures out_cause { RisesWhere (K.faults out.old) (K.faults out.new) (IsUnprinted result) }
{
    match say(out, PROMPT, Course::On(Status::Done)) {
        Course::On(status) => hear_or_tell(alloc, server, status, dial, input, out),
        course => course,
    }
}

/// Does the commands of the lines of an input, the first of which has its prompt.
#[tactic(auto, using(crate::proofs::TalkLemmas::Hearing::told_on, crate::proofs::TalkLemmas::Hearing::told_failing))]
fn hear_or_tell<D: Dial, R: Source, K: Sink>(
    alloc: Global,
    server: &Server,
    status: Status,
    dial: &mut D,
    input: &mut R,
    out: &mut K,
) -> Course
    ensures talks { TalksOn server.now (D.told dial.old) (D.told dial.new) (R.left input.old)
        (R.left input.new)
        (K.written out.old) (K.written out.new) status result }
    ensures lost { IsLost result → Rose (D.faults dial.old) (D.faults dial.new)
        ⊎ Rose (R.faults input.old) (R.faults input.new) }
    ensures out_cause { RisesWhere (K.faults out.old) (K.faults out.new) (IsUnprinted result) }
{
    match hear_all(alloc, server, status, dial, input, out) {
        Ok(course) => course,
        Err(_) => say(out, b"Error: the input failed\n", Course::Lost),
    }
}

/// Reads the input to its end, and does the command of each line as soon as its line feed comes.
#[tactic(auto, using(crate::proofs::TalkLemmas::Hearing::hears_first, crate::proofs::TalkLemmas::Hearing::hears_on, crate::proofs::TalkLemmas::Hearing::hears_off, crate::proofs::TalkLemmas::Hearing::hears_whole, crate::proofs::TalkLemmas::Hearing::hears_failing))]
fn hear_all<D: Dial, R: Source, K: Sink>(
    alloc: Global,
    server: &Server,
    status: Status,
    dial: &mut D,
    input: &mut R,
    out: &mut K,
) -> Result<Course, Failed>
    ensures hears { Hears server.now (D.told dial.old) (D.told dial.new) (R.left input.old)
        (R.left input.new)
        (K.written out.old) (K.written out.new) status result }
    ensures dial_cause { RisesFor (D.faults dial.old) (D.faults dial.new) (EndsLost result) }
    ensures input_cause { HasCause (R.faults input.old) (R.faults input.new) result }
    ensures out_cause { RisesWhere (K.faults out.old) (K.faults out.new) (EndsUnprinted result) }
{
    let mut buffer = [0u8; PIECE];
    let mut line = Vec::new(alloc);
    let mut status = status;
    let mut room = MOST_BYTES;
    'pieces: while 0 < room {
        let count = read_piece(input, &mut buffer, room)?;
        if count == 0 {
            return Ok(finish(alloc, server, line.as_slice(), status, dial, out));
        }
        let (piece, _) = buffer.split_at(count);
        match hear(alloc, server, &mut line, status, piece, dial, out) {
            Course::On(so_far) => status = so_far,
            course => return Ok(course),
        }
        room -= count;
    }
    Ok(finish(alloc, server, line.as_slice(), status, dial, out))
}

/// Reads the next bytes into the front of the buffer, at most so many.
fn read_piece<R: Source>(input: &mut R, buffer: &mut [u8], most: usize) -> Result<usize, Failed>
    requires some { 0 < most }
    requires room { 0 < length buffer.old }
    ensures within { IfOk result (λ n. n ≤ length buffer.new) }
    ensures most { IfOk result (λ n. n ≤ most) }
    ensures bytes { IfOk result (λ n. Consumes (R.left input.old) (R.left input.new)
        (take n buffer.new)) }
    ensures end { IfOk result (λ n. n ≡ 0 → IsAtEnd (R.left input.new)) }
    ensures kept { OnErr result (Keeps (R.left input.old) (R.left input.new)) }
    ensures cause { HasCause (R.faults input.old) (R.faults input.new) result }
{
    let want = buffer.len().min(most);
    let count = input.read(&mut buffer[..want])?;
    Ok(count)
}

/// Takes bytes of the input: does the command of each line that they end, and keeps the rest.
#[tactic(auto, using(crate::proofs::TalkLemmas::Lines::bytes_come, crate::proofs::TalkLemmas::Calls::went_on, crate::proofs::TalkLemmas::Calls::comes_off, crate::proofs::TalkLemmas::Doings::nothing_done))]
fn hear<D: Dial, K: Sink>(
    alloc: Global,
    server: &Server,
    line: &mut Vec<u8>,
    status: Status,
    piece: &[u8],
    dial: &mut D,
    out: &mut K,
) -> Course
    ensures comes { (end : InputEnd) (rest : List ℕ)
        → Comes server.now (D.told dial.old) (D.told dial.new)
        (K.written out.old) (K.written out.new)
        (heard_said server.now.client.url end
        (lines_from end line.old.items (piece.now ++ rest)) status)
        (heard_said server.now.client.url end (lines_from end line.new.items rest)) result }
    ensures dial_cause { RisesFor (D.faults dial.old) (D.faults dial.new) (IsLost result) }
    ensures out_cause { RisesWhere (K.faults out.old) (K.faults out.new) (IsUnprinted result) }
{
    let mut status = status;
    let mut left = piece;
    while let [byte, rest @ ..] = left {
        match hear_byte(alloc, server, line, status, *byte, dial, out) {
            Course::On(so_far) => status = so_far,
            course => return course,
        }
        left = rest;
    }
    Course::On(status)
}

/// Takes a byte of the input: a line feed ends a line.
#[tactic(auto, using(crate::proofs::TalkLemmas::Lines::byte_line, crate::proofs::TalkLemmas::Lines::byte_kept, crate::proofs::TalkLemmas::Doings::nothing_printed))]
fn hear_byte<D: Dial, K: Sink>(
    alloc: Global,
    server: &Server,
    line: &mut Vec<u8>,
    status: Status,
    byte: u8,
    dial: &mut D,
    out: &mut K,
) -> Course
    ensures comes { (end : InputEnd) (rest : List ℕ)
        → Comes server.now (D.told dial.old) (D.told dial.new)
        (K.written out.old) (K.written out.new)
        (heard_said server.now.client.url end (lines_from end line.old.items (byte ∷ rest)) status)
        (heard_said server.now.client.url end (lines_from end line.new.items rest)) result }
    ensures dial_cause { RisesFor (D.faults dial.old) (D.faults dial.new) (IsLost result) }
    ensures out_cause { RisesWhere (K.faults out.old) (K.faults out.new) (IsUnprinted result) }
{
    if byte == b'\n' {
        let course = take_line(alloc, server, line.as_slice(), status, dial, out);
        line.clear();
        return course;
    }
    match line.push(byte) {
        Ok(()) => Course::On(status),
        Err(_) => Course::NoMemory,
    }
}

/// At the end of the input: bytes after which no line feed stands are a line.
#[tactic(auto, using(crate::proofs::TalkLemmas::Lines::bare_end, crate::proofs::TalkLemmas::Lines::line_end))]
fn finish<D: Dial, K: Sink>(
    alloc: Global,
    server: &Server,
    line: &[u8],
    status: Status,
    dial: &mut D,
    out: &mut K,
) -> Course
    ensures comes { Comes server.now (D.told dial.old) (D.told dial.new) (K.written out.old)
        (K.written out.new)
        (heard_said server.now.client.url Whole (last_line Whole line.now) status) stops result }
    ensures dial_cause { RisesFor (D.faults dial.old) (D.faults dial.new) (IsLost result) }
    ensures out_cause { RisesWhere (K.faults out.old) (K.faults out.new) (IsUnprinted result) }
{
    if line.is_empty() {
        return Course::On(status);
    }
    take_line(alloc, server, line, status, dial, out)
}

/// Does the command of a line, and then prompts.
#[tactic(auto, using(crate::proofs::TalkLemmas::Lines::line_prompted, crate::proofs::TalkLemmas::Calls::comes_off))]
fn take_line<D: Dial, K: Sink>(
    alloc: Global,
    server: &Server,
    line: &[u8],
    status: Status,
    dial: &mut D,
    out: &mut K,
) -> Course
    ensures comes { (next : Status → Talk) → Comes server.now (D.told dial.old) (D.told dial.new)
        (K.written out.old) (K.written out.new)
        (line_said server.now.client.url line.now status (prompted next)) next result }
    ensures dial_cause { RisesFor (D.faults dial.old) (D.faults dial.new) (IsLost result) }
    ensures out_cause { RisesWhere (K.faults out.old) (K.faults out.new) (IsUnprinted result) }
{
    match run_line(alloc, server, line, status, dial, out) {
        Course::On(so_far) => say(out, PROMPT, Course::On(so_far)),
        course => course,
    }
}

/// Does the command of a line.
#[tactic(auto, using(crate::proofs::TalkLemmas::Lines::line_words, crate::proofs::TalkLemmas::Lines::line_unknown, crate::proofs::TalkLemmas::Doings::nothing_printed))]
fn run_line<D: Dial, K: Sink>(
    alloc: Global,
    server: &Server,
    line: &[u8],
    status: Status,
    dial: &mut D,
    out: &mut K,
) -> Course
    ensures comes { (next : Status → Talk) → Comes server.now (D.told dial.old) (D.told dial.new)
        (K.written out.old) (K.written out.new)
        (line_said server.now.client.url line.now status next) next result }
    ensures dial_cause { RisesFor (D.faults dial.old) (D.faults dial.new) (IsLost result) }
    ensures out_cause { RisesWhere (K.faults out.old) (K.faults out.new) (IsUnprinted result) }
{
    match words_in(alloc, line) {
        Ok(Some(words)) => run_words(alloc, server, words.as_slice(), status, dial, out),
        Ok(None) => say_unknown(alloc, line, out),
        Err(_) => Course::NoMemory,
    }
}

/// Does the command of the words of a line: none are passed over, one may end it all.
#[tactic(auto, using(crate::proofs::TalkLemmas::Lines::no_words, crate::proofs::TalkLemmas::Lines::has_quit, crate::proofs::TalkLemmas::Lines::has_command))]
fn run_words<D: Dial, K: Sink>(
    alloc: Global,
    server: &Server,
    words: &[Text],
    status: Status,
    dial: &mut D,
    out: &mut K,
) -> Course
    ensures comes { (next : Status → Talk) → Comes server.now (D.told dial.old) (D.told dial.new)
        (K.written out.old) (K.written out.new)
        (words_said server.now.client.url words.now status next) next result }
    ensures dial_cause { RisesFor (D.faults dial.old) (D.faults dial.new) (IsLost result) }
    ensures out_cause { RisesWhere (K.faults out.old) (K.faults out.new) (IsUnprinted result) }
{
    if words.is_empty() {
        return Course::On(status);
    }
    if is_quit(words) {
        return Course::Quit(status);
    }
    run_command(alloc, server, words, dial, out).settled()
}
