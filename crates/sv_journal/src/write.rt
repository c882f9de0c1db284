//! Writing inputs and orders.
ghost use Rattle.std.specs.Prelude.{◌≡◌, ◌++◌, ◌<◌, IfOk, OnOk, List, ℕ, codes, string_bytes};
ghost use Rattle.std.specs.List.{flat_map};
ghost use Rattle.std.specs.Fmt.{decimal};
ghost use Rattle.sv_base.specs.Names.{signal_name};
ghost use Rattle.sv_journal.specs.Spelling.{hex_digit, byte_spelling, bytes_spelling, token};
ghost use Rattle.sv_journal.specs.Orders.{FitsOrder};
ghost use Rattle.sv_journal.specs.JournalLine.{FitsInput, how_words, stream_word, stream_end_word};
ghost use Rattle.sv_journal.specs.JournalLine.{side_word, input_line, then_token, then_pair};
ghost use Rattle.sv_journal.specs.JournalLine.{spawn_line, order_line, receiver, counted_words};
ghost use Rattle.sv_journal.specs.JournalLine.{counted_pairs};

use crate::fits::{input_fits, order_fits};
use crate::token::stands_for_itself;
use crate::word::Spelled;
use std::alloc::{AllocError, Global};
use sv_base::bytes::Bytes;
use sv_base::moment::Moment;
use sv_base::signal::Signal;
use sv_base::state::{How, Side, State, Stream};
use sv_base::text::Text;
use sv_out::input::Input;
use sv_out::order::{Order, SpawnOrder};

/// The line of this input, without its line feed.
pub fn write_input(alloc: Global, input: &Input) -> Result<Text, AllocError>
    ensures line { IfOk result (λ line. line ≡ input_line input.now) }
    ensures fits { FitsInput input.now }
{
    input_fits(input);
    let mut line = String::new(alloc);
    put_input(&mut line, input)?;
    Ok(Text::from_string(line))
}

/// The line of this order, without its line feed.
pub fn write_order(alloc: Global, order: &Order) -> Result<Text, AllocError>
    ensures line { IfOk result (λ line. line ≡ order_line order.now) }
    ensures fits { FitsOrder order.now }
{
    order_fits(order);
    let mut line = String::new(alloc);
    put_order(&mut line, order)?;
    Ok(Text::from_string(line))
}

/// Adds the line of this input, without its line feed, to a text. Where memory is refused a part of it may have been added.
pub fn put_input(line: &mut String, input: &Input) -> Result<(), AllocError>
    ensures { OnOk result (string_bytes line.new ≡ string_bytes line.old ++ input_line input.now) }
{
    match input {
        Input::Tick { at } => put_at(line, *at, " tick"),
        Input::Exit { at, run, how } => put_exit(line, *at, run.0, *how),
        Input::Out {
            at,
            run,
            stream,
            bytes,
        } => put_numbered_token(line, *at, piece_verb(*stream), run.0, bytes.as_slice()),
        Input::OutEnd { at, run, stream } => put_numbered(line, *at, end_verb(*stream), run.0),
        Input::Open { at, link, side } => put_open(line, *at, link.0, *side),
        Input::Piece { at, link, bytes } => put_numbered_token(
            line,
            *at,
            " piece ",
            link.0,
            bytes.as_slice(),
        ),
        Input::LinkEnd { at, link } => put_numbered(line, *at, " end ", link.0),
        Input::Start { at, name } => put_named(line, *at, " start ", name),
        Input::Stop { at, name } => put_named(line, *at, " stop ", name),
        Input::Signal { at, signal } => put_signal(line, *at, signal.get()),
        Input::Pid(pid) => put_counted(line, "pid ", u64::from(pid.get())),
        Input::NoFile => line.push_str("nofile"),
        Input::NotExecutable => line.push_str("notexec"),
        Input::Refused(reason) => put_spelled(line, "refused ", reason.as_str().as_bytes()),
        Input::Read(bytes) => put_spelled(line, "bytes ", bytes.as_slice()),
        Input::Done => line.push_str("done"),
        Input::Missing => line.push_str("missing"),
        Input::Names(names) => put_names(line, names.as_slice()),
        Input::Size(size) => put_counted(line, "size ", *size),
        Input::Failed(number) => put_counted(line, "failed ", *number),
    }
}

/// Adds the answer of these names.
#[tactic(auto, using(crate::proofs::Lists::joined))]
fn put_names(line: &mut String, names: &[Text]) -> Result<(), AllocError>
    ensures { OnOk result (string_bytes line.new
        ≡ string_bytes line.old ++ (codes "names" ++ counted_words names.now)) }
{
    line.push_str("names")?;
    put_words(line, names)
}

/// Adds a moment and what happened then.
#[tactic(auto, using(crate::proofs::Lists::joined))]
fn put_at(line: &mut String, at: Moment, verb: &str) -> Result<(), AllocError>
    ensures { OnOk result (string_bytes line.new
        ≡ string_bytes line.old ++ (decimal at ++ verb.now)) }
{
    put_number(line, at.milliseconds())?;
    line.push_str(verb)
}

/// Adds a moment, what happened then, and to which run or link.
#[tactic(auto, using(crate::proofs::Lists::joined))]
fn put_numbered(line: &mut String, at: Moment, verb: &str, number: u32) -> Result<(), AllocError>
    ensures { OnOk result (string_bytes line.new
        ≡ string_bytes line.old ++ (decimal at ++ verb.now ++ decimal number)) }
{
    put_at(line, at, verb)?;
    put_number(line, u64::from(number))
}

/// Adds a moment, what happened then, to which run or link, and these bytes.
#[tactic(auto, using(crate::proofs::Lists::joined))]
fn put_numbered_token(
    line: &mut String,
    at: Moment,
    verb: &str,
    number: u32,
    bytes: &[u8],
) -> Result<(), AllocError>
    ensures { OnOk result (string_bytes line.new
        ≡ string_bytes line.old
        ++ (decimal at ++ verb.now ++ decimal number ++ codes " " ++ token bytes.now)) }
{
    put_numbered(line, at, verb, number)?;
    line.push_str(" ")?;
    put_token(line, bytes)
}

/// Adds a moment, what is asked for then, and of what.
#[tactic(auto, using(crate::proofs::Lists::joined))]
fn put_named(line: &mut String, at: Moment, verb: &str, name: &Text) -> Result<(), AllocError>
    ensures { OnOk result (string_bytes line.new
        ≡ string_bytes line.old ++ (decimal at ++ verb.now ++ token name.now)) }
{
    put_at(line, at, verb)?;
    put_token(line, name.as_str().as_bytes())
}

#[tactic(auto, using(crate::proofs::Lists::joined))]
fn put_exit(line: &mut String, at: Moment, run: u32, how: How) -> Result<(), AllocError>
    ensures { OnOk result (string_bytes line.new
        ≡ string_bytes line.old
        ++ (decimal at ++ codes " exit " ++ decimal run ++ codes " " ++ how_words how)) }
{
    put_numbered(line, at, " exit ", run)?;
    line.push_str(" ")?;
    put_how(line, how)
}

#[tactic(auto, using(crate::proofs::Lists::joined))]
fn put_open(line: &mut String, at: Moment, link: u32, side: Side) -> Result<(), AllocError>
    ensures { OnOk result (string_bytes line.new
        ≡ string_bytes line.old
        ++ (decimal at ++ codes " open " ++ decimal link ++ codes " " ++ side_word side)) }
{
    put_numbered(line, at, " open ", link)?;
    line.push_str(" ")?;
    line.push_str(side.spelling())
}

#[tactic(auto, using(crate::proofs::Lists::joined))]
fn put_signal(line: &mut String, at: Moment, signal: Signal) -> Result<(), AllocError>
    ensures { OnOk result (string_bytes line.new
        ≡ string_bytes line.old ++ (decimal at ++ codes " signal " ++ signal_name signal)) }
{
    put_at(line, at, " signal ")?;
    line.push_str(signal.name())
}

/// The word of a piece of this stream.
fn piece_verb(stream: Stream) -> &'static str
    ensures { result.now ≡ stream_word stream }
{
    match stream {
        Stream::Out => " out ",
        Stream::Err => " err ",
    }
}

/// The word of this stream's end.
fn end_verb(stream: Stream) -> &'static str
    ensures { result.now ≡ stream_end_word stream }
{
    match stream {
        Stream::Out => " outend ",
        Stream::Err => " errend ",
    }
}

/// Adds a word and a number.
#[tactic(auto, using(crate::proofs::Lists::joined))]
pub(crate) fn put_counted(line: &mut String, word: &str, number: u64) -> Result<(), AllocError>
    ensures { OnOk result (string_bytes line.new
        ≡ string_bytes line.old ++ (word.now ++ decimal number)) }
{
    line.push_str(word)?;
    put_number(line, number)
}

/// Adds a word and a token.
#[tactic(auto, using(crate::proofs::Lists::joined))]
pub(crate) fn put_spelled(line: &mut String, word: &str, bytes: &[u8]) -> Result<(), AllocError>
    ensures { OnOk result (string_bytes line.new
        ≡ string_bytes line.old ++ (word.now ++ token bytes.now)) }
{
    line.push_str(word)?;
    put_token(line, bytes)
}

#[tactic(auto, using(crate::proofs::Lists::joined))]
fn put_how(line: &mut String, how: How) -> Result<(), AllocError>
    ensures { OnOk result (string_bytes line.new ≡ string_bytes line.old ++ how_words how) }
{
    match how {
        How::Code(code) => {
            line.push_str("code ")?;
            put_number(line, u64::from(code))
        }
        How::Signal(signal) => {
            line.push_str("signal ")?;
            put_number(line, u64::from(signal.get()))
        }
    }
}

/// Adds the line of this order, without its line feed, to a text. Where memory is refused a part of it may have been added.
pub fn put_order(line: &mut String, order: &Order) -> Result<(), AllocError>
    ensures { OnOk result (string_bytes line.new ≡ string_bytes line.old ++ order_line order.now) }
{
    match order {
        Order::State {
            group,
            name,
            from,
            to,
        } => put_state(line, group, name, *from, *to),
        Order::Dropped {
            pool,
            serial,
            poolserial,
        } => put_text_and_numbers(line, "dropped", pool, *serial, *poolserial),
        Order::Spawn(spawn) => put_spawn(line, spawn),
        Order::Kill { run, signal, group } => put_kill(line, run.0, *signal, *group),
        Order::Stdin { run, bytes } => put_number_and_bytes(line, "stdin ", run.0, bytes),
        Order::Append { file, bytes } => put_two_tokens(line, "append", file, bytes.as_slice()),
        Order::Shift { from, to } => put_two_tokens(line, "shift", from, to.as_str().as_bytes()),
        Order::Fresh { file } => put_one_token(line, "fresh", file),
        Order::ReadFile {
            file,
            start,
            length,
        } => put_text_and_numbers(line, "read", file, *start, *length),
        Order::ClearFile { file } => put_one_token(line, "clear", file),
        Order::Names { pattern } => put_one_token(line, "names", pattern),
        Order::Size { file } => put_one_token(line, "size", file),
        Order::Send { link, bytes } => put_number_and_bytes(line, "send ", link.0, bytes),
        Order::More { link } => put_counted(line, "more ", u64::from(link.0)),
        Order::Close { link } => put_counted(line, "close ", u64::from(link.0)),
        Order::Halt => line.push_str("halt"),
    }
}

#[tactic(auto, using(crate::proofs::Lists::joined))]
fn put_state(
    line: &mut String,
    group: &Text,
    name: &Text,
    from: State,
    to: State,
) -> Result<(), AllocError>
    ensures { OnOk result (string_bytes line.new
        ≡ string_bytes line.old ++ order_line (Order.State group.now name.now from to)) }
{
    line.push_str("state")?;
    put_then_token(line, group)?;
    put_then_token(line, name)?;
    line.push_str(" ")?;
    line.push_str(from.name())?;
    line.push_str(" ")?;
    line.push_str(to.name())
}

/// Adds a word, a text and two numbers.
#[tactic(auto, using(crate::proofs::Lists::joined))]
fn put_text_and_numbers(
    line: &mut String,
    word: &str,
    text: &Text,
    first: u64,
    second: u64,
) -> Result<(), AllocError>
    ensures { OnOk result (string_bytes line.new
        ≡ string_bytes line.old
        ++ (word.now ++ then_token text.now
        ++ codes " " ++ decimal first ++ codes " " ++ decimal second)) }
{
    put_one_token(line, word, text)?;
    line.push_str(" ")?;
    put_number(line, first)?;
    line.push_str(" ")?;
    put_number(line, second)
}

/// Adds a word, a number and bytes.
#[tactic(auto, using(crate::proofs::Lists::joined))]
fn put_number_and_bytes(
    line: &mut String,
    word: &str,
    number: u32,
    bytes: &Bytes,
) -> Result<(), AllocError>
    ensures { OnOk result (string_bytes line.new
        ≡ string_bytes line.old ++ (word.now ++ decimal number ++ then_token bytes.now)) }
{
    put_counted(line, word, u64::from(number))?;
    put_then_bytes(line, bytes.as_slice())
}

/// Adds a word and a text.
#[tactic(auto, using(crate::proofs::Lists::joined))]
fn put_one_token(line: &mut String, word: &str, text: &Text) -> Result<(), AllocError>
    ensures { OnOk result (string_bytes line.new
        ≡ string_bytes line.old ++ (word.now ++ then_token text.now)) }
{
    line.push_str(word)?;
    put_then_token(line, text)
}

/// Adds a word, a text and bytes.
#[tactic(auto, using(crate::proofs::Lists::joined))]
fn put_two_tokens(
    line: &mut String,
    word: &str,
    text: &Text,
    bytes: &[u8],
) -> Result<(), AllocError>
    ensures { OnOk result (string_bytes line.new
        ≡ string_bytes line.old ++ (word.now ++ then_token text.now ++ then_token bytes.now)) }
{
    put_one_token(line, word, text)?;
    put_then_bytes(line, bytes)
}

#[tactic(auto, using(crate::proofs::Lists::joined))]
fn put_kill(line: &mut String, run: u32, signal: Signal, group: bool) -> Result<(), AllocError>
    ensures { OnOk result (string_bytes line.new
        ≡ string_bytes line.old ++ order_line (Order.Kill (record { 0 = run }) signal group)) }
{
    line.push_str("kill ")?;
    put_number(line, u64::from(run))?;
    line.push_str(" ")?;
    line.push_str(signal.name())?;
    line.push_str(receiver(group))
}

fn receiver(group: bool) -> &'static str
    ensures { result.now ≡ receiver group }
{
    if group { " group" } else { " child" }
}

#[tactic(auto, using(crate::proofs::Lists::joined))]
fn put_spawn(line: &mut String, spawn: &SpawnOrder) -> Result<(), AllocError>
    ensures { OnOk result (string_bytes line.new ≡ string_bytes line.old ++ spawn_line spawn.now) }
{
    line.push_str("spawn ")?;
    put_number(line, u64::from(spawn.run.0))?;
    put_then_token(line, &spawn.group)?;
    put_then_token(line, &spawn.name)?;
    put_then_token(line, &spawn.directory)?;
    put_then_token(line, &spawn.umask)?;
    put_then_token(line, &spawn.user)?;
    put_words(line, spawn.words.as_slice())?;
    put_pairs(line, spawn.environment.as_slice())
}

/// Adds a space, the number of words, and each word after a space.
#[tactic(auto, using(crate::proofs::Lists::joined))]
fn put_words(line: &mut String, words: &[Text]) -> Result<(), AllocError>
    ensures { OnOk result (string_bytes line.new
        ≡ string_bytes line.old ++ counted_words words.now) }
{
    line.push_str(" ")?;
    put_number(line, words.len() as u64)?;
    for text in words {
        put_then_token(line, text)?;
    }
    Ok(())
}

/// Adds a space, the number of pairs, and each name and value after a space.
#[tactic(auto, using(crate::proofs::Lists::joined))]
fn put_pairs(line: &mut String, pairs: &[(Text, Text)]) -> Result<(), AllocError>
    ensures { OnOk result (string_bytes line.new
        ≡ string_bytes line.old ++ counted_pairs pairs.now) }
{
    line.push_str(" ")?;
    put_number(line, pairs.len() as u64)?;
    for (name, value) in pairs {
        put_then_token(line, name)?;
        put_then_token(line, value)?;
    }
    Ok(())
}

/// Adds a space and a text.
fn put_then_token(line: &mut String, text: &Text) -> Result<(), AllocError>
    ensures { OnOk result (string_bytes line.new ≡ string_bytes line.old ++ then_token text.now) }
{
    put_then_bytes(line, text.as_str().as_bytes())
}

/// Adds a space and bytes.
#[tactic(auto, using(crate::proofs::Lists::joined))]
fn put_then_bytes(line: &mut String, bytes: &[u8]) -> Result<(), AllocError>
    ensures { OnOk result (string_bytes line.new ≡ string_bytes line.old ++ then_token bytes.now) }
{
    line.push_str(" ")?;
    put_token(line, bytes)
}

pub(crate) fn put_number(line: &mut String, number: u64) -> Result<(), AllocError>
    ensures { OnOk result (string_bytes line.new ≡ string_bytes line.old ++ decimal number) }
{
    let mut buffer = itoa::Buffer::new();
    line.push_str(buffer.format(number))
}

/// Adds the token of these bytes.
pub(crate) fn put_token(line: &mut String, bytes: &[u8]) -> Result<(), AllocError>
    ensures { OnOk result (string_bytes line.new ≡ string_bytes line.old ++ token bytes.now) }
{
    if bytes.is_empty() {
        line.push('%')
    } else {
        put_bytes(line, bytes)
    }
}

#[tactic(auto, using(crate::proofs::Lists::joined))]
fn put_bytes(line: &mut String, bytes: &[u8]) -> Result<(), AllocError>
    ensures { OnOk result (string_bytes line.new
        ≡ string_bytes line.old ++ bytes_spelling bytes.now) }
{
    for byte in bytes {
        put_byte(line, *byte)?;
    }
    Ok(())
}

#[tactic(auto, using(crate::proofs::Lists::joined))]
fn put_byte(line: &mut String, byte: u8) -> Result<(), AllocError>
    ensures { OnOk result (string_bytes line.new ≡ string_bytes line.old ++ byte_spelling byte) }
{
    if stands_for_itself(byte) {
        line.push(char::from(byte))
    } else {
        line.push('%')?;
        line.push(hex_digit(byte / 16))?;
        line.push(hex_digit(byte % 16))
    }
}

fn hex_digit(value: u8) -> char
    requires { value < 16 }
    ensures value { result ≡ hex_digit value }
    ensures ascii { result < 128 }
{
    if value < 10 {
        char::from(b'0' + value)
    } else {
        char::from(b'A' + (value - 10))
    }
}
