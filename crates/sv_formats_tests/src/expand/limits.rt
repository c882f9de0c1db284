//! Texts of a mebibyte and names in great number, with ample memory.
use crate::checks::check;
use std::alloc::Global;
use std::process::Abort;
use sv_base::items::Items;
use sv_base::text::Text;
use sv_expand::expand::expand;
use sv_expand::names::{NamedTexts, Names};
use sv_expand::pairs::pairs;
use sv_expand::words::words;

/// A piece so many times.
fn repeated(rt: &impl Abort, alloc: Global, piece: &str, count: usize) -> String {
    let mut text = String::new(alloc);
    for _ in 0..count {
        text.push_str(piece).expect(rt, "memory");
    }
    text
}

fn named(rt: &impl Abort, alloc: Global, number: u32) -> (Text, Text) {
    let name = format!(in alloc; "n{number}").expect(rt, "memory");
    let text = format!(in alloc; "{number},").expect(rt, "memory");
    (Text::from_string(name), Text::from_string(text))
}

/// The names `n0` to `n9999`, of which each stands for its own number and a comma.
fn many_names(rt: &impl Abort, alloc: Global) -> Names {
    let mut pairs = NamedTexts::new(alloc);
    for number in 0..10_000 {
        pairs.push(named(rt, alloc, number)).expect(rt, "memory");
    }
    let numbers = Items::new(alloc);
    Names { pairs, numbers }
}

fn all_forms(rt: &impl Abort, alloc: Global) -> String {
    let mut text = String::new(alloc);
    for number in 0..10_000 {
        let form = format!(in alloc; "%(n{number})s").expect(rt, "memory");
        text.push_str(form.as_str()).expect(rt, "memory");
    }
    text
}

fn all_values(rt: &impl Abort, alloc: Global) -> String {
    let mut text = String::new(alloc);
    for number in 0..10_000 {
        let value = format!(in alloc; "{number},").expect(rt, "memory");
        text.push_str(value.as_str()).expect(rt, "memory");
    }
    text
}

fn expands(rt: &impl Abort, alloc: Global, names: &Names, text: &str, expected: &str) {
    let expanded = expand(alloc, text, names).expect(rt, "ample memory");
    check(rt, expanded.as_str() == expected);
}

/// A piece so many times expands to another so many times.
fn expands_each(rt: &impl Abort, alloc: Global, names: &Names, piece: &str, value: &str) {
    let count = 1_048_576 / piece.len().max(1);
    let text = repeated(rt, alloc, piece, count);
    let expected = repeated(rt, alloc, value, count);
    expands(rt, alloc, names, text.as_str(), expected.as_str());
}

fn has_words(rt: &impl Abort, alloc: Global, text: &str, count: usize, word: &str) {
    let words = words(alloc, text).expect(rt, "ample memory");
    check(rt, words.len() == count);
    for each in &words {
        check(rt, each.as_str() == word);
    }
}

fn has_pairs(rt: &impl Abort, alloc: Global, text: &str, count: usize, value: &str) {
    let pairs = pairs(alloc, text).expect(rt, "ample memory");
    check(rt, pairs.len() == count);
    for pair in &pairs {
        check(rt, pair.0.as_str() == "A");
        check(rt, pair.1.as_str() == value);
    }
}

#[test]
fn expansions_of_a_mebibyte(rt: HostRuntime) {
    let alloc = rt.alloc();
    let names = many_names(&rt, alloc);
    expands_each(&rt, alloc, &names, "a", "a");
    expands_each(&rt, alloc, &names, "%%", "%");
    expands_each(&rt, alloc, &names, "%(n90)s-", "90,-");
    let forms = all_forms(&rt, alloc);
    let values = all_values(&rt, alloc);
    expands(&rt, alloc, &names, forms.as_str(), values.as_str());
}

#[test]
fn words_and_pairs_of_a_mebibyte(rt: HostRuntime) {
    let alloc = rt.alloc();
    let letters = repeated(&rt, alloc, "a", 1_048_576);
    has_words(&rt, alloc, letters.as_str(), 1, letters.as_str());
    let short = repeated(&rt, alloc, "a ", 524_288);
    has_words(&rt, alloc, short.as_str(), 524_288, "a");
    let text = repeated(&rt, alloc, "A=1,", 262_144);
    has_pairs(&rt, alloc, text.as_str(), 262_144, "1");
}
