//! Configurations of 1,048,576 bytes, and of one more, and those with too many processes, with ample memory.

use crate::checks::{check, same};
use crate::tests::{fault_said, host, included, order_said};
use std::alloc::Global;
use std::process::Abort;
use sv_base::bytes::Bytes;
use sv_base::config::Config;
use sv_base::text::Text;
use sv_conf::config::config;
use sv_sections::ConfFault;
use sv_sections::includes::includes;

/// The most bytes of a text.
const MOST: usize = 1_048_576;

/// What is told of a text of more bytes.
const TOO_LONG: &str = "1 Ini 4 TooLong";

/// What a text begins with, in 64 bytes, and a block of 64 bytes that stands 16,383 times after it, with a number of five
/// digits in the place of the `#`: sections with their keys.
const SECTIONS: (&str, &str) = (
    "[program:p]\ncommand=c\n;;;;;;;;;;;;;;;;;;;;;;;;;;;;;;;;;;;;;;;;;\n",
    "[section:s#]\nfirst=1234567890\nsecond=1234567890123456789012\n",
);

/// The same: one value with its further lines.
const LINES: (&str, &str) = (
    "[program:p]\ncommand=c\n[o]\nk=abcdefghijklmnopqrstuvwxyzabcdefghi\n",
    "  line #abcdefghijklmnopqrstuvwxyzabcdefghijklmnopqrstuvwxy\n",
);

/// The same of texts with more processes than there may be, and how often the block stands: programs with 1,024 processes
/// each, one such program in many groups, and programs with one process each.
static CROWDS: [((&str, &str), u32); 3] = [
    (
        (
            "",
            "[program:#]\ncommand=c\nnumprocs=1024\nprocess_name=%(process_num)d\n",
        ),
        200,
    ),
    (
        (
            "[program:a]\ncommand=c\nnumprocs=1024\nprocess_name=%(process_num)d\n",
            "[group:#]\nprograms=a\n",
        ),
        20_000,
    ),
    (("", "[program:#]\ncommand=c\n"), 20_000),
];

fn filled(rt: &impl Abort, alloc: Global, parts: (&str, &str)) -> String {
    let text = repeated(rt, alloc, parts, 16_383);
    check(rt, text.as_str().len() == MOST);
    text
}

fn repeated(rt: &impl Abort, alloc: Global, parts: (&str, &str), count: u32) -> String {
    let mut text = String::from_str(alloc, parts.0).expect(rt, "memory");
    let (before, after) = parts.1.split_once('#').unwrap_or(("", ""));
    for number in 10_000..10_000 + count.min(90_000) {
        put_block(rt, &mut text, before, number, after);
    }
    text
}

fn put_block(rt: &impl Abort, text: &mut String, before: &str, number: u32, after: &str) {
    write!(text, "{before}{number}{after}").expect(rt, "memory");
}

/// A text that begins so, and then has so many words of 16 bytes with their spaces.
fn with_words(rt: &impl Abort, alloc: Global, begin: &str, count: usize) -> String {
    let mut text = String::from_str(alloc, begin).expect(rt, "memory");
    for _ in 0..count {
        text.push_str("abcdefghijklmno ").expect(rt, "memory");
    }
    check(rt, text.as_str().len() == MOST);
    text
}

fn configured(
    rt: &impl Abort,
    alloc: Global,
    main: &str,
    more: &[(Text, Bytes)],
) -> Result<Config, ConfFault> {
    let host = host(rt, alloc);
    config(alloc, main.as_bytes(), more, &host)
}

/// The order of the processes, or the fault.
fn said(rt: &impl Abort, alloc: Global, main: &str, more: &[(Text, Bytes)]) -> String {
    match configured(rt, alloc, main, more) {
        Ok(config) => order_said(rt, alloc, &config),
        Err(fault) => fault_said(rt, alloc, &fault),
    }
}

fn is_said(rt: &impl Abort, alloc: Global, main: &str, more: &[(Text, Bytes)], wanted: &str) {
    let said = said(rt, alloc, main, more);
    same(rt, said.as_str(), wanted);
}

/// The same of a text that another includes.
fn is_said_included(rt: &impl Abort, alloc: Global, text: &str, wanted: &str) {
    let more = included(rt, alloc, text);
    is_said(rt, alloc, "[other]\nkey=value\n", more.as_slice(), wanted);
}

#[test]
fn a_text_of_the_most_bytes_and_of_one_more(rt: HostRuntime) {
    let mut text = filled(&rt, rt.alloc(), SECTIONS);
    is_said(&rt, rt.alloc(), text.as_str(), &[], "p:p");
    text.push('\n').expect(&rt, "memory");
    is_said(&rt, rt.alloc(), text.as_str(), &[], TOO_LONG);
}

/// One value: sections and keys of included texts are looked up one by one, so many of them would take long.
#[test]
fn an_included_text_of_the_most_bytes_and_of_one_more(rt: HostRuntime) {
    let mut text = filled(&rt, rt.alloc(), LINES);
    is_said_included(&rt, rt.alloc(), text.as_str(), "p:p");
    text.push('\n').expect(&rt, "memory");
    is_said_included(&rt, rt.alloc(), text.as_str(), TOO_LONG);
}

#[test]
fn crowds_are_refused(rt: HostRuntime) {
    for &(parts, count) in &CROWDS {
        is_too_many(&rt, rt.alloc(), parts, count);
    }
}

fn is_too_many(rt: &impl Abort, alloc: Global, parts: (&str, &str), count: u32) {
    let text = repeated(rt, alloc, parts, count);
    is_said(rt, alloc, text.as_str(), &[], "9 TooMany");
}

#[test]
fn a_command_of_the_most_bytes(rt: HostRuntime) {
    let text = with_words(&rt, rt.alloc(), "[program:p]\ncommand=/bin/progra ", 65_534);
    has_words(&rt, rt.alloc(), text.as_str(), 65_535);
}

/// The first process of the text's configuration has a command of so many words.
fn has_words(rt: &impl Abort, alloc: Global, text: &str, count: usize) {
    match configured(rt, alloc, text, &[]) {
        Ok(config) => check(rt, count_of_words(rt, &config) == count),
        Err(_) => panic!(rt; "no configuration"),
    }
}

fn count_of_words(rt: &impl Abort, config: &Config) -> usize {
    let group = config.groups.as_slice().first().expect(rt, "a group");
    let member = group.members.as_slice().first().expect(rt, "a process");
    member.words.as_slice().len()
}

#[test]
fn patterns_of_the_most_bytes_and_of_one_more(rt: HostRuntime) {
    let mut text = with_words(&rt, rt.alloc(), "[include]\nfiles=", 65_535);
    has_patterns(&rt, rt.alloc(), text.as_str(), 65_535);
    text.push('a').expect(&rt, "memory");
    has_no_patterns(&rt, rt.alloc(), text.as_str(), TOO_LONG);
}

fn patterns(rt: &impl Abort, alloc: Global, text: &str) -> Result<Vec<Text>, ConfFault> {
    let host = host(rt, alloc);
    includes(alloc, text.as_bytes(), &host)
}

fn has_patterns(rt: &impl Abort, alloc: Global, text: &str, count: usize) {
    match patterns(rt, alloc, text) {
        Ok(patterns) => check(rt, patterns.len() == count),
        Err(_) => panic!(rt; "no patterns"),
    }
}

fn has_no_patterns(rt: &impl Abort, alloc: Global, text: &str, wanted: &str) {
    match patterns(rt, alloc, text) {
        Ok(_) => panic!(rt; "one byte too many"),
        Err(fault) => is_refused(rt, alloc, &fault, wanted),
    }
}

fn is_refused(rt: &impl Abort, alloc: Global, fault: &ConfFault, wanted: &str) {
    let said = fault_said(rt, alloc, fault);
    same(rt, said.as_str(), wanted);
}
