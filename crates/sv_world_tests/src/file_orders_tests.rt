//! Orders to a shelf in memory, worked by hand.

use crate::checks::check;
use std::alloc::{AllocError, Global};
use std::process::Abort;
use sv_base::{Bytes, Text};
use sv_out::MapShelf;
use sv_outside::Handed;
use sv_parts::files::{
    FileAnswer, append, clear_file, file_names, file_size, fresh, read_file, shift,
};

/// An order to the shelf.
#[derive(Clone, Copy)]
enum Asking {
    /// Appends `ab` to `/l`.
    Append,
    /// Renames `/l` to `/m`.
    Rename,
    /// Makes `/l` anew.
    Anew,
    /// Reads three bytes of `/l` from the third on.
    Part,
    /// Clears a file.
    Clear(&'static str),
    /// Asks which names a pattern matches.
    Names(&'static str),
    /// Asks for the size of a file.
    Size(&'static str),
}

/// A shelf with these files, which fails at this call.
fn shelf_of(
    rt: &impl Abort,
    alloc: Global,
    failing: u64,
    files: &[(&'static str, &'static str)],
) -> MapShelf {
    let mut shelf = MapShelf::new(
        alloc,
        Vec::from_slice(alloc, &[failing]).expect(rt, "memory"),
    );
    for (name, text) in files {
        put(rt, alloc, &mut shelf, name, text);
    }
    shelf
}

/// Puts a file there.
fn put(rt: &impl Abort, alloc: Global, shelf: &mut MapShelf, name: &'static str, text: &str) {
    let bytes = Bytes::from_slice(alloc, text.as_bytes()).expect(rt, "memory");
    shelf.set(Text::fixed(name), bytes).expect(rt, "memory");
}

/// Whether this is what a file holds, `-` being no file.
fn holds(alloc: Global, shelf: &MapShelf, name: &str, text: &str) -> bool {
    match shelf.file(alloc, name) {
        Ok(Some(bytes)) => bytes.as_slice() == text.as_bytes(),
        Ok(None) => text == "-",
        Err(_) => false,
    }
}

/// A letter for what came of an order that writes.
fn letter(handed: Result<Handed, AllocError>) -> u8 {
    match handed {
        Ok(Handed::Done) => b'd',
        Ok(Handed::Failed) => b'f',
        Err(AllocError) => b'?',
    }
}

/// A letter for an answer: the first byte that was read, and `.` where none was; the number of names; `6` for that size.
fn answer_letter(answer: &Result<FileAnswer, AllocError>) -> u8 {
    match answer {
        Ok(FileAnswer::Read(bytes)) => first_letter(bytes),
        Ok(FileAnswer::Done) => b'd',
        Ok(FileAnswer::Missing) => b'm',
        Ok(FileAnswer::Names(names)) => match names.as_slice() {
            [] => b'0',
            [_] => b'1',
            _ => b'2',
        },
        Ok(FileAnswer::Size(6)) => b'6',
        Ok(FileAnswer::Size(_)) => b's',
        Ok(FileAnswer::Failed) => b'f',
        Err(_) => b'?',
    }
}

/// The first byte that was read, and `.` where none was.
fn first_letter(bytes: &Bytes) -> u8 {
    match bytes.as_slice().first() {
        Some(first) => *first,
        None => b'.',
    }
}

/// Appends these bytes to `/l`.
fn append_bytes(alloc: Global, shelf: &mut MapShelf, bytes: &Bytes) -> u8 {
    letter(append(alloc, shelf, &Text::fixed("/l"), bytes))
}

/// Appends `ab` to `/l`.
fn append_ab(rt: &impl Abort, alloc: Global, shelf: &mut MapShelf) -> u8 {
    let bytes = Bytes::from_slice(alloc, b"ab").expect(rt, "memory");
    append_bytes(alloc, shelf, &bytes)
}

/// Renames `/l` to `/m`.
fn rename(alloc: Global, shelf: &mut MapShelf) -> u8 {
    letter(shift(alloc, shelf, &Text::fixed("/l"), &Text::fixed("/m")))
}

/// Makes `/l` anew.
fn make_anew(alloc: Global, shelf: &mut MapShelf) -> u8 {
    letter(fresh(alloc, shelf, &Text::fixed("/l")))
}

/// Asks for something of the files of this name.
fn ask(
    alloc: Global,
    shelf: &mut MapShelf,
    asking: Asking,
    name: &Text,
) -> Result<FileAnswer, AllocError> {
    match asking {
        Asking::Clear(_) => clear_file(alloc, shelf, name),
        Asking::Names(_) => file_names(alloc, shelf, name),
        Asking::Size(_) => file_size(alloc, shelf, name),
        _ => read_file(alloc, shelf, name, 2, 3),
    }
}

/// Asks for something of the files of this name: the letter of the answer.
fn answered(alloc: Global, shelf: &mut MapShelf, asking: Asking, name: &'static str) -> u8 {
    answer_letter(&ask(alloc, shelf, asking, &Text::fixed(name)))
}

/// Gives an order to the shelf: the letter of what came of it.
fn come_of(rt: &impl Abort, alloc: Global, shelf: &mut MapShelf, asking: Asking) -> u8 {
    match asking {
        Asking::Append => append_ab(rt, alloc, shelf),
        Asking::Rename => rename(alloc, shelf),
        Asking::Anew => make_anew(alloc, shelf),
        Asking::Part => answered(alloc, shelf, asking, "/l"),
        Asking::Clear(name) => answered(alloc, shelf, asking, name),
        Asking::Names(pattern) => answered(alloc, shelf, asking, pattern),
        Asking::Size(name) => answered(alloc, shelf, asking, name),
    }
}

/// Gives these orders to the shelf, and what comes of each has its letter.
fn all_come_to(
    rt: &impl Abort,
    alloc: Global,
    shelf: &mut MapShelf,
    all: &[Asking],
    letters: &str,
) {
    check(rt, all.len() == letters.len());
    for (asking, letter) in all.iter().zip(letters.as_bytes()) {
        check(rt, come_of(rt, alloc, shelf, *asking) == *letter);
    }
}

/// Gives these orders to a shelf with these files, which fails at this call; what comes of each has its letter.
fn answers(
    rt: &impl Abort,
    alloc: Global,
    failing: u64,
    files: &[(&'static str, &'static str)],
    all: &[Asking],
    letters: &str,
) {
    let mut shelf = shelf_of(rt, alloc, failing, files);
    all_come_to(rt, alloc, &mut shelf, all, letters);
}

/// Appends, renames and makes anew.
const WRITES: [Asking; 3] = [Asking::Append, Asking::Rename, Asking::Anew];

/// The call that fails, a letter for each order, `d` where it was done and `f` where it failed, and what `/l` and `/m`
/// hold then.
const WRITTEN: [(u64, &str, &str, &str); 4] = [
    (0, "ddd", "", "ab"),
    (1, "fdd", "", "-"),
    (2, "dfd", "", "-"),
    (3, "ddf", "-", "ab"),
];

/// Writes to a shelf that fails at this call; what comes of each order has its letter, and the files hold these texts.
fn written(rt: &impl Abort, alloc: Global, failing: u64, letters: &str, first: &str, second: &str) {
    let mut shelf = shelf_of(rt, alloc, failing, &[]);
    all_come_to(rt, alloc, &mut shelf, &WRITES, letters);
    check(rt, holds(alloc, &shelf, "/l", first));
    check(rt, holds(alloc, &shelf, "/m", second));
}

#[test]
fn files_are_written(rt: HostRuntime) {
    for (failing, letters, first, second) in &WRITTEN {
        written(&rt, rt.alloc(), *failing, letters, first, second);
    }
}

/// One file and its text.
const ONE_FILE: [(&str, &str); 1] = [("/l", "abcdef")];

/// Reads a part of `/l`, clears `/none`, clears `/l`, and reads the part again.
const QUESTIONS: [Asking; 4] = [
    Asking::Part,
    Asking::Clear("/none"),
    Asking::Clear("/l"),
    Asking::Part,
];

/// The call that fails, and a letter for each answer. The clearing of a file that is there is two calls.
const ASKED: [(u64, &str); 6] = [
    (0, "cmd."),
    (1, "fmd."),
    (2, "cfd."),
    (3, "cmfc"),
    (4, "cmfc"),
    (5, "cmdf"),
];

#[test]
fn questions_are_answered(rt: HostRuntime) {
    for (failing, letters) in &ASKED {
        answers(&rt, rt.alloc(), *failing, &ONE_FILE, &QUESTIONS, letters);
    }
}

/// Two files and their texts.
const TWO_FILES: [(&str, &str); 2] = [("/l", "abcdef"), ("/l.1", "ab")];

/// Asks which names `/l*` matches, which `/n*` matches, for the size of `/l`, and for that of `/none`.
const LOOKS: [Asking; 4] = [
    Asking::Names("/l*"),
    Asking::Names("/n*"),
    Asking::Size("/l"),
    Asking::Size("/none"),
];

/// The call that fails, and a letter for each answer.
const LOOKED: [(u64, &str); 5] = [
    (0, "206m"),
    (1, "f06m"),
    (2, "2f6m"),
    (3, "20fm"),
    (4, "206f"),
];

#[test]
fn names_and_sizes_are_answered(rt: HostRuntime) {
    for (failing, letters) in &LOOKED {
        answers(&rt, rt.alloc(), *failing, &TWO_FILES, &LOOKS, letters);
    }
}
