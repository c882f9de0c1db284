//! What the texts of values stand for, one reading for each type of key.

ghost use Rattle.std.specs.Prelude.{◌≡◌, ◌≤◌, ◌<◌, ◌^◌, [], IfOk, IfSome, List, ℕ, pos, take};
ghost use Rattle.std.specs.List.{list_all};
ghost use Rattle.std.specs.Option.{option_map};
ghost use Rattle.std.specs.Str.{bytes_eq};
ghost use Rattle.std.specs.Prelude.{codes};
ghost use Rattle.sv_keys.specs.Values.{text_of, number_of, at_least, number_in, at_most, size_in};
ghost use Rattle.sv_keys.specs.Values.{negated, signed_of, truth_of, only_false, false_of};
ghost use Rattle.sv_keys.specs.Values.{restart_by, autorestart_of, signal_of, kind_of, each_from};
ghost use Rattle.sv_keys.specs.Values.{codes_of, kinds_of, programs_of, path_of, log_file_of};
ghost use Rattle.sv_keys.specs.Values.{main_file_of, is_octal, umask_of, level_of, environment_of};
ghost use Rattle.sv_keys.specs.Values.{inet_place, inet_of, password_of, stored_digest};
ghost use Rattle.sv_expand.specs.Words.{words_of};
ghost use Rattle.sv_keys.specs.ProgramNames.{name_of};
ghost use Rattle.hex.specs.Hex.{decode_sized};
ghost use Rattle.std.specs.Prelude.{Some};

use crate::cuts;
use crate::rows::Reading;
use crate::titles::is_name;
use hex::decode_to_slice;
use std::alloc::{AllocError, Global};
use sv_base::config::{Password, Place};
use sv_base::items::Items;
use sv_base::kind::Kind;
use sv_base::number::Within;
use sv_base::signal::Signal;
use sv_base::sizes::size_of_text;
use sv_base::state::{Autorestart, Level};
use sv_base::text::Text;
use sv_base::words as base;
use sv_expand::fault::{PairFault, WordFault};
use sv_expand::pairs::pairs;
use sv_expand::words::words;

/// Any text.
pub struct AnyText;

impl Reading for AnyText {
    type Value = Text;

    ghost value_of = { text_of };

    fn read(_: Global, text: Text) -> Result<Option<Text>, AllocError> {
        Ok(Some(text))
    }
}

/// A path: a text that isn't empty.
pub struct Path;

impl Reading for Path {
    type Value = Text;

    ghost value_of = { path_of };

    fn read(_: Global, text: Text) -> Result<Option<Text>, AllocError> {
        if text.as_str().is_empty() {
            Ok(None)
        } else {
            Ok(Some(text))
        }
    }
}

/// The number of these decimal digits, where it is at most `most`.
fn number_of(most: u32, digits: &[u8]) -> Option<u32>
    ensures value { result ≡ number_of most digits.now }
    ensures most { IfSome result (λ number. number ≤ most) }
{
    if digits.is_empty() {
        return None;
    }
    let mut number = 0;
    let mut left = digits;
    while let [digit, rest @ ..] = left {
        if !digit.is_ascii_digit() {
            return None;
        }
        let longer = u64::from(number) * 10 + u64::from(*digit - b'0');
        if longer > u64::from(most) {
            return None;
        }
        number = longer as u32;
        left = rest;
    }
    Some(number)
}

/// A whole number within limits.
pub struct Number<const LEAST: u32, const MOST: u32>;

impl<const LEAST: u32, const MOST: u32> Reading for Number<LEAST, MOST> {
    type Value = Within<LEAST, MOST>;

    ghost value_of = { number_in LEAST MOST };

    fn read(_: Global, text: Text) -> Result<Option<Within<LEAST, MOST>>, AllocError> {
        match number_of(MOST, text.as_str().as_bytes()) {
            Some(number) => Ok(Within::new(number)),
            None => Ok(None),
        }
    }
}

/// A size in bytes within 64 bits.
pub struct Size;

impl Reading for Size {
    type Value = u64;

    ghost value_of = { size_in 18446744073709551615 };

    fn read(_: Global, text: Text) -> Result<Option<u64>, AllocError> {
        Ok(size_of_text(text.as_str()))
    }
}

/// A size in bytes within a limit.
pub struct SizeUpTo<const MOST: u32>;

impl<const MOST: u32> Reading for SizeUpTo<MOST> {
    type Value = Within<0, MOST>;

    ghost value_of = { size_in MOST };

    fn read(_: Global, text: Text) -> Result<Option<Within<0, MOST>>, AllocError> {
        match size_of_text(text.as_str()) {
            Some(size) if size <= u64::from(MOST) => Ok(Within::new(size as u32)),
            _ => Ok(None),
        }
    }
}

fn signed_of(text: &[u8]) -> Option<i32>
    ensures { result ≡ signed_of text.now }
{
    match text {
        [b'-', digits @ ..] => match number_of(2_147_483_648, digits) {
            Some(number) => Some(negated(number)),
            None => None,
        },
        [b'+', digits @ ..] => from_zero(digits),
        digits => from_zero(digits),
    }
}

fn from_zero(digits: &[u8]) -> Option<i32>
    ensures { result ≡ option_map pos (number_of 2147483647 digits.now) }
{
    match number_of(2_147_483_647, digits) {
        Some(number) => Some(number as i32),
        None => None,
    }
}

fn negated(number: u32) -> i32
    requires { number ≤ 2147483648 }
    ensures { result ≡ negated number }
{
    if number == 0 {
        0
    } else {
        -1 - ((number - 1) as i32)
    }
}

/// A number of 32 bits with or without a sign before it.
pub struct Signed;

impl Reading for Signed {
    type Value = i32;

    ghost value_of = { signed_of };

    fn read(_: Global, text: Text) -> Result<Option<i32>, AllocError> {
        Ok(signed_of(text.as_str().as_bytes()))
    }
}

/// Yes or no.
pub struct Truth;

impl Reading for Truth {
    type Value = bool;

    ghost value_of = { truth_of };

    fn read(_: Global, text: Text) -> Result<Option<bool>, AllocError> {
        Ok(base::truth_of(text.as_str()))
    }
}

/// Only no.
pub struct OnlyFalse;

impl Reading for OnlyFalse {
    type Value = bool;

    ghost value_of = { false_of };

    fn read(_: Global, text: Text) -> Result<Option<bool>, AllocError> {
        match base::truth_of(text.as_str()) {
            Some(false) => Ok(Some(false)),
            _ => Ok(None),
        }
    }
}

/// Yes, no, or `unexpected`.
pub struct Restart;

impl Reading for Restart {
    type Value = Autorestart;

    ghost value_of = { autorestart_of };

    fn read(_: Global, text: Text) -> Result<Option<Autorestart>, AllocError> {
        if text.as_str().eq_ignore_ascii_case("unexpected") {
            return Ok(Some(Autorestart::Unexpected));
        }
        match base::truth_of(text.as_str()) {
            Some(true) => Ok(Some(Autorestart::Always)),
            Some(false) => Ok(Some(Autorestart::Never)),
            None => Ok(None),
        }
    }
}

/// A signal by one of its words.
pub struct StopSignal;

impl Reading for StopSignal {
    type Value = Signal;

    ghost value_of = { signal_of };

    fn read(_: Global, text: Text) -> Result<Option<Signal>, AllocError> {
        Ok(base::signal_of(text.as_str()))
    }
}

/// A level of the main log.
pub struct MainLevel;

impl Reading for MainLevel {
    type Value = Level;

    ghost value_of = { level_of };

    fn read(_: Global, text: Text) -> Result<Option<Level>, AllocError> {
        Ok(level_of(text.as_str()))
    }
}

fn level_of(text: &str) -> Option<Level>
    ensures { result ≡ level_of text.now }
{
    match text {
        "critical" => Some(Level::Critical),
        "error" => Some(Level::Error),
        "warn" => Some(Level::Warn),
        "info" => Some(Level::Info),
        "debug" => Some(Level::Debug),
        "trace" => Some(Level::Trace),
        "blather" => Some(Level::Blather),
        _ => None,
    }
}

/// Each of these texts read in turn, or `None` where one stands for nothing.
fn each<R: Reading>(alloc: Global, texts: &[Text]) -> Result<Option<Items<R::Value>>, AllocError>
    ensures { IfOk result (λ values. values ≡ each_from R.value_of [] texts.now) }
{
    let mut values = Items::new(alloc);
    let mut left = texts;
    while let [text, rest @ ..] = left {
        match R::read(alloc, text.clone()?)? {
            Some(value) => values.push(value)?,
            None => return Ok(None),
        }
        left = rest;
    }
    Ok(Some(values))
}

/// An exit code.
pub struct ExitCode;

impl Reading for ExitCode {
    type Value = u8;

    ghost value_of = { number_in 0 255 };

    fn read(_: Global, text: Text) -> Result<Option<u8>, AllocError> {
        match number_of(255, text.as_str().as_bytes()) {
            Some(code) => Ok(Some(code as u8)),
            None => Ok(None),
        }
    }
}

/// Exit codes with commas; the empty text has none.
pub struct ExitCodes;

impl Reading for ExitCodes {
    type Value = Items<u8>;

    ghost value_of = { codes_of };

    fn read(alloc: Global, text: Text) -> Result<Option<Items<u8>>, AllocError> {
        if text.as_str().is_empty() {
            return Ok(Some(Items::new(alloc)));
        }
        let parts = cuts::parts_of(alloc, text.as_str())?;
        each::<ExitCode>(alloc, parts.as_slice())
    }
}

/// An event type.
pub struct EventType;

impl Reading for EventType {
    type Value = Kind;

    ghost value_of = { kind_of };

    fn read(_: Global, text: Text) -> Result<Option<Kind>, AllocError> {
        Ok(base::kind_of(text.as_str()))
    }
}

/// Event types with commas.
pub struct EventTypes;

impl Reading for EventTypes {
    type Value = Items<Kind>;

    ghost value_of = { kinds_of };

    fn read(alloc: Global, text: Text) -> Result<Option<Items<Kind>>, AllocError> {
        let parts = cuts::parts_of(alloc, text.as_str())?;
        each::<EventType>(alloc, parts.as_slice())
    }
}

/// Programs with commas.
pub struct Programs;

impl Reading for Programs {
    type Value = Items<Text>;

    ghost value_of = { programs_of };

    fn read(alloc: Global, text: Text) -> Result<Option<Items<Text>>, AllocError> {
        let parts = cuts::parts_of(alloc, text.as_str())?;
        each::<Path>(alloc, parts.as_slice())
    }
}

/// The name of a process.
pub struct ProcessName;

impl Reading for ProcessName {
    type Value = Text;

    ghost value_of = { name_of };

    fn read(_: Global, text: Text) -> Result<Option<Text>, AllocError> {
        if is_name(text.as_str()) {
            Ok(Some(text))
        } else {
            Ok(None)
        }
    }
}

/// Where a log of a process goes.
#[derive(Drop)]
pub enum LogFile {
    /// To a file that is named for the process.
    Auto,
    /// Nowhere.
    Nowhere,
    /// To this file.
    Named(Text),
}

/// AUTO, NONE or a path.
pub struct ChildLog;

impl Reading for ChildLog {
    type Value = LogFile;

    ghost value_of = { log_file_of };

    fn read(_: Global, text: Text) -> Result<Option<LogFile>, AllocError> {
        if text.as_str().is_empty() {
            Ok(None)
        } else if text.as_str().eq_ignore_ascii_case("auto") {
            Ok(Some(LogFile::Auto))
        } else if text.as_str().eq_ignore_ascii_case("none") {
            Ok(Some(LogFile::Nowhere))
        } else {
            Ok(Some(LogFile::Named(text)))
        }
    }
}

/// The file of the main log, or NONE.
pub struct MainLog;

impl Reading for MainLog {
    type Value = Option<Text>;

    ghost value_of = { main_file_of };

    fn read(_: Global, text: Text) -> Result<Option<Option<Text>>, AllocError> {
        if text.as_str().is_empty() {
            Ok(None)
        } else if text.as_str() == "NONE" {
            Ok(Some(None))
        } else {
            Ok(Some(Some(text)))
        }
    }
}

/// Octal digits.
pub struct Umask;

impl Reading for Umask {
    type Value = Text;

    ghost value_of = { umask_of };

    fn read(_: Global, text: Text) -> Result<Option<Text>, AllocError> {
        if are_octal(text.as_str().as_bytes()) {
            Ok(Some(text))
        } else {
            Ok(None)
        }
    }
}

fn are_octal(bytes: &[u8]) -> bool
    ensures { result ≡ list_all is_octal bytes.now }
{
    bytes.iter().all(|byte| b'0' <= *byte && *byte <= b'7')
}

/// The words of a command.
pub struct Words;

impl Reading for Words {
    type Value = Items<Text>;

    ghost value_of = { words_of };

    fn read(alloc: Global, text: Text) -> Result<Option<Items<Text>>, AllocError> {
        match words(alloc, text.as_str()) {
            Ok(words) => Ok(Some(Items::from_vec(words))),
            Err(WordFault::OpenQuote) => Ok(None),
            Err(WordFault::OutOfMemory) => Err(AllocError),
        }
    }
}

/// Pairs of names and values. They aren't a `Reading`: the checker doesn't follow a list of pairs through it.
pub fn environment_of(alloc: Global, text: &str) -> Result<Option<Items<(Text, Text)>>, AllocError>
    ensures { IfOk result (λ pairs. pairs ≡ environment_of text.now) }
{
    match pairs(alloc, text) {
        Ok(pairs) => Ok(Some(Items::from_vec(pairs))),
        Err(PairFault::BadPair(_)) => Ok(None),
        Err(PairFault::OutOfMemory) => Err(AllocError),
    }
}

/// Where a server listens, as PORT, :PORT, *:PORT or HOST:PORT.
pub struct Inet;

impl Reading for Inet {
    type Value = Place;

    ghost value_of = { inet_of };

    fn read(alloc: Global, text: Text) -> Result<Option<Place>, AllocError> {
        match port_of(cuts::behind_last_colon(text.as_str().as_bytes())) {
            Some(port) => Ok(Some(inet_place(
                alloc,
                cuts::before_last_colon(text.as_str()),
                port,
            )?)),
            None => Ok(None),
        }
    }
}

fn port_of(digits: &[u8]) -> Option<u16>
    ensures { result ≡ number_in 1 65535 digits.now }
{
    match number_of(65_535, digits) {
        Some(port) if port >= 1 => Some(port as u16),
        _ => None,
    }
}

fn inet_place(alloc: Global, host: &str, port: u16) -> Result<Place, AllocError>
    ensures { IfOk result (λ place. inet_place host.now (Some port) ≡ Some place) }
{
    if host == "*" {
        Ok(Place::Inet(Text::fixed(""), port))
    } else {
        Ok(Place::Inet(Text::from_str(alloc, host)?, port))
    }
}

/// A server's password, in plain or as {SHA} and 40 hexadecimal digits.
pub struct ServerPassword;

impl Reading for ServerPassword {
    type Value = Password;

    ghost value_of = { password_of };

    fn read(_: Global, text: Text) -> Result<Option<Password>, AllocError> {
        if text.as_str().is_empty() {
            return Ok(Some(Password::None));
        }
        if is_digest(text.as_str().as_bytes()) {
            return Ok(digest_of(&text.as_str().as_bytes()[5..]));
        }
        Ok(Some(Password::Plain(text)))
    }
}

fn is_digest(bytes: &[u8]) -> bool
    ensures { result ≡ bytes_eq (take 5 bytes.now) (codes "{SHA}") }
{
    &bytes[..bytes.len().min(5)] == b"{SHA}".as_slice()
}

fn digest_of(digits: &[u8]) -> Option<Password>
    ensures { result ≡ stored_digest (decode_sized digits.now 20) }
{
    let mut digest = [0; 20];
    match decode_to_slice(digits, &mut digest) {
        Ok(()) => Some(Password::Sha(digest)),
        Err(_) => None,
    }
}
