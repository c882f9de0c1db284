//! Lines of words, each with what it says, by the words that the daemon is documented to take.

use crate::checks::same;
use std::alloc::Global;
use std::process::Abort;
use sv_base::Text;
use sv_supervise::arguments_of;

/// Words, parted by spaces, with the file and `+` where a journal is kept; `-` is a refusal.
static LINES: [(&str, &str); 23] = [
    ("-c /s.conf", "/s.conf"),
    ("-c/s.conf", "/s.conf"),
    ("-c=/s.conf", "/s.conf"),
    ("--configuration /s.conf", "/s.conf"),
    ("--configuration=/s.conf", "/s.conf"),
    ("-c a --journal", "a+"),
    ("--journal -c a", "a+"),
    ("-n -c a", "a"),
    ("-c a --nodaemon --journal", "a+"),
    ("-nc a", "a"),
    ("--journal", "-"),
    ("-n", "-"),
    ("-c", "-"),
    ("-c a -c b", "-"),
    ("-c a -j b", "-"),
    ("-c a --journal --journal", "-"),
    ("-c a x", "-"),
    ("-c a --help", "-"),
    ("-h", "-"),
    ("--jour -c a", "-"),
    ("-c a --nodaemon=yes", "-"),
    ("-c a --configuration b", "-"),
    ("--configuration", "-"),
];

fn words_of(rt: &impl Abort, alloc: Global, line: &str) -> Vec<Text> {
    let mut words = Vec::new(alloc);
    for word in line.split(' ') {
        put_word(rt, alloc, &mut words, word);
    }
    words
}

fn put_word(rt: &impl Abort, alloc: Global, words: &mut Vec<Text>, word: &str) {
    let word = Text::from_str(alloc, word).expect(rt, "memory");
    words.push(word).expect(rt, "memory");
}

/// The file, and `+` where a journal is kept.
fn file_told(rt: &impl Abort, alloc: Global, file: &str, journal: bool) -> String {
    let end = if journal { "+" } else { "" };
    format!(in alloc; "{file}{end}").expect(rt, "memory")
}

fn told(rt: &impl Abort, alloc: Global, words: &[Text]) -> String {
    match arguments_of(alloc, words).expect(rt, "memory") {
        Some(arguments) => file_told(rt, alloc, arguments.file.as_str(), arguments.journal),
        None => String::from_str(alloc, "-").expect(rt, "memory"),
    }
}

fn are_told(rt: &impl Abort, alloc: Global, words: &[Text], expected: &str) {
    let text = told(rt, alloc, words);
    same(rt, text.as_str(), expected);
}

fn line_is(rt: &impl Abort, alloc: Global, line: &str, expected: &str) {
    let words = words_of(rt, alloc, line);
    are_told(rt, alloc, words.as_slice(), expected);
}

#[test]
fn words_say_the_file_and_the_journal(rt: HostRuntime) {
    for &(line, expected) in &LINES {
        line_is(&rt, rt.alloc(), line, expected);
    }
    are_told(&rt, rt.alloc(), &[], "-");
}
