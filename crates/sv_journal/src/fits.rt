//! Each input, order and header has a line, since its fields keep the limits of a line by their types.
ghost use Rattle.std.specs.Prelude.{◌≡◌, ◌≤◌, true, IsUtf8, length};
ghost use Rattle.std.specs.List.{list_all};
ghost use Rattle.sv_base.specs.Limits.{moment_limit};
ghost use Rattle.sv_out.specs.Files.{AreRising};
ghost use Rattle.sv_journal.specs.JournalLine.{is_byte, AreBytes, AreTexts, IsPiece, FitsHow};
ghost use Rattle.sv_journal.specs.JournalLine.{FitsInput, is_exit_code, FitsProgram, FitsHeader};
ghost use Rattle.sv_journal.specs.Limits.{number_limit, run_limit};
ghost use Rattle.sv_journal.specs.Orders.{ArePairs, FitsSpawn, FitsOrder};

use crate::header::{Header, Program};
use sv_base::bytes::Piece;
use sv_base::moment::Moment;
use sv_base::state::How;
use sv_base::text::Text;
use sv_out::input::Input;
use sv_out::order::{Order, SpawnOrder};
use sv_out::rising::RisingNames;

/// Every input has a line.
pub fn input_fits(input: &Input)
    ensures { FitsInput input.now }
{
    match input {
        Input::Tick { at } => is_early(*at),
        Input::Exit { at, run, how } => {
            is_event(*at, run.0);
            is_end(*how)
        }
        Input::Out {
            at,
            run,
            stream: _,
            bytes,
        } => {
            is_event(*at, run.0);
            is_piece(bytes)
        }
        Input::OutEnd { at, run, stream: _ } => is_event(*at, run.0),
        Input::Open { at, link, side: _ } => is_event(*at, link.0),
        Input::Piece { at, link, bytes } => {
            is_event(*at, link.0);
            is_piece(bytes)
        }
        Input::LinkEnd { at, link } => is_event(*at, link.0),
        Input::Start { at, name } | Input::Stop { at, name } => {
            is_early(*at);
            is_text(name)
        }
        Input::Signal { at, signal } => {
            is_early(*at);
            let _ = signal.get();
        }
        Input::Pid(pid) => {
            let _ = pid.get();
        }
        Input::NoFile | Input::NotExecutable | Input::Done | Input::Missing => {}
        Input::Refused(reason) => is_text(reason),
        Input::Read(bytes) => are_bytes(bytes.as_slice()),
        Input::Names(names) => are_names(names),
        Input::Size(number) | Input::Failed(number) => is_count(*number),
    }
}

/// Every order has a line.
pub fn order_fits(order: &Order)
    ensures { FitsOrder order.now }
{
    match order {
        Order::State {
            group,
            name,
            from: _,
            to: _,
        } => {
            is_text(group);
            is_text(name)
        }
        Order::Dropped {
            pool,
            serial,
            poolserial,
        } => {
            is_text(pool);
            is_count(*serial);
            is_count(*poolserial)
        }
        Order::ReadFile {
            file,
            start,
            length,
        } => {
            is_text(file);
            is_count(*start);
            is_count(*length)
        }
        Order::Spawn(spawn) => is_spawn(spawn),
        Order::Kill {
            run,
            signal: _,
            group: _,
        } => is_number(run.0),
        Order::Stdin { run, bytes } => {
            is_number(run.0);
            are_bytes(bytes.as_slice())
        }
        Order::Send { link, bytes } => {
            is_number(link.0);
            are_bytes(bytes.as_slice())
        }
        Order::Append { file, bytes } => {
            is_text(file);
            are_bytes(bytes.as_slice())
        }
        Order::Shift { from, to } => {
            is_text(from);
            is_text(to)
        }
        Order::Fresh { file } | Order::ClearFile { file } | Order::Size { file } => is_text(file),
        Order::Names { pattern } => is_text(pattern),
        Order::More { link } | Order::Close { link } => is_number(link.0),
        Order::Halt => {}
    }
}

/// Every header has a line.
pub fn header_fits(header: &Header)
    ensures { FitsHeader header.now }
{
    match header {
        Header::Journal(version) => {
            let _ = version.get();
        }
        Header::Program(program) => is_program(program),
        Header::Host(text) | Header::Here(text) => is_text(text),
        Header::Pid(pid) => is_number(*pid),
        Header::Env(name, value) => {
            is_text(name);
            is_text(value)
        }
        Header::Size(file, size) => {
            is_text(file);
            is_count(*size)
        }
        Header::Conf(text) => are_bytes(text.as_slice()),
        Header::Include(name, text) => {
            is_text(name);
            are_bytes(text.as_slice())
        }
        Header::Go(at) => is_early(*at),
    }
}

fn is_program(program: &Program)
    ensures { FitsProgram program.now }
{
    let _ = program.name.as_text();
    let _ = program.startsecs.get();
    let _ = program.startretries.get();
    let _ = program.stopwaitsecs.get();
    are_codes(program.exitcodes.as_slice())
}

fn are_codes(codes: &[u8])
    ensures { list_all is_exit_code codes.now ≡ true }
{
    let mut left = codes;
    while let [code, more @ ..] = left {
        is_code(*code);
        left = more;
    }
}

fn is_code(code: u8)
    ensures { is_exit_code code ≡ true }
{}

fn is_spawn(spawn: &SpawnOrder)
    ensures { FitsSpawn spawn.now }
{
    is_number(spawn.run.0);
    is_text(&spawn.group);
    is_text(&spawn.name);
    is_text(&spawn.directory);
    is_text(&spawn.umask);
    is_text(&spawn.user);
    are_texts(spawn.words.as_slice());
    are_pairs(spawn.environment.as_slice())
}

fn is_event(at: Moment, number: u32)
    ensures moment { at ≤ moment_limit }
    ensures number { number ≤ run_limit }
{
    is_early(at);
    is_number(number)
}

/// A number of a run or a link.
fn is_number(number: u32)
    ensures { number ≤ run_limit }
{}

/// Any other number.
fn is_count(number: u64)
    ensures { number ≤ number_limit }
{}

fn is_early(at: Moment)
    ensures { at ≤ moment_limit }
{
    let _ = at.milliseconds();
}

fn is_end(how: How)
    ensures { FitsHow how }
{
    match how {
        How::Code(_) => {}
        How::Signal(signal) => {
            let _ = signal.get();
        }
    }
}

fn is_text(text: &Text)
    ensures { IsUtf8 text.now }
{
    let _ = text.as_str();
}

fn are_bytes(bytes: &[u8])
    ensures { AreBytes bytes.now }
{
    let mut left = bytes;
    while let [byte, more @ ..] = left {
        is_byte(*byte);
        left = more;
    }
}

fn is_byte(byte: u8)
    ensures { is_byte byte ≡ true }
{}

fn is_piece(piece: &Piece)
    ensures { IsPiece piece.now }
{
    are_bytes(piece.as_slice())
}

fn are_names(names: &RisingNames)
    ensures texts { AreTexts names.now }
    ensures count { length names.now ≤ number_limit }
    ensures rising { AreRising names.now }
{
    are_texts(names.as_slice())
}

fn are_texts(texts: &[Text])
    ensures texts { AreTexts texts.now }
    ensures count { length texts.now ≤ number_limit }
{
    let mut left = texts;
    while let [text, more @ ..] = left {
        is_text(text);
        left = more;
    }
}

fn are_pairs(pairs: &[(Text, Text)])
    ensures pairs { ArePairs pairs.now }
    ensures count { length pairs.now ≤ number_limit }
{
    let mut left = pairs;
    while let [(name, value), more @ ..] = left {
        is_text(name);
        is_text(value);
        left = more;
    }
}
