//! Configurations that are read from shelves, worked by hand: which files are read, and what each failing call gives.
ghost use Rattle.std.specs.Prelude.{◌≡◌, None};

use crate::checks::{check_of, same};
use std::alloc::Global;
use std::process::Abort;
use sv_base::{Bytes, Host, Items, Moment, Text};
use sv_load::{LoadFault, Loaded, load};
use sv_out::{MapShelf, Shelf, ShelfFault};

const MAIN: &str = "[include]\nfiles=/d/*.ini /d/b* /e/x.ini\n[program:main]\ncommand=/bin/m\n";

/// Files as names and texts: a main file, three that its patterns list, of which one is listed twice, and one that none
/// lists.
static FILES: [(&str, &str); 5] = [
    ("/s.conf", MAIN),
    ("/d/a.ini", "[program:a]\ncommand=/bin/a\n"),
    ("/d/b.ini", "[program:b]\ncommand=/bin/b\n"),
    ("/e/x.ini", "[program:x]\ncommand=/bin/x\n"),
    ("/d/c.txt", "[program:c]\ncommand=/bin/c\n"),
];

/// The name that is told where the call of this number fails; with none all files are read.
static FAILURES: [(u64, &str); 8] = [
    (1, "failed /s.conf"),
    (2, "failed /d/*.ini"),
    (3, "failed /d/b*"),
    (4, "failed /e/x.ini"),
    (5, "failed /d/a.ini"),
    (6, "failed /d/b.ini"),
    (7, "failed /e/x.ini"),
    (8, "read /d/a.ini /d/b.ini /e/x.ini"),
];

/// Main texts, beside an included text, with what is told of them and how many calls failed where the second call is to
/// fail.
const REFUSED: [(&str, &str, &str, u64); 4] = [
    ("loose\n", "", "refused 1 Ini 2 BadLine 1", 0),
    (
        "[include]\nfiles=%(nope)s\n",
        "",
        "refused 4 Expand include files",
        0,
    ),
    ("[include]\n", "", "refused 2 Missing include files", 0),
    ("[include]\nfiles=/d/*\n", "loose\n", "failed /d/*", 1),
];

fn host(alloc: Global) -> Host {
    Host {
        name: Text::fixed("box"),
        here: Text::fixed("/etc"),
        pid: 7,
        environment: Items::new(alloc),
        start: Moment::zero(),
    }
}

fn add_file(rt: &impl Abort, alloc: Global, shelf: &mut MapShelf, name: &str, text: &str) {
    let bytes = Bytes::from_slice(alloc, text.as_bytes()).expect(rt, "memory");
    let name = Text::from_str(alloc, name).expect(rt, "memory");
    shelf.set(name, bytes).expect(rt, "memory");
}

/// The names of the files that were read beside the main one.
fn names_told(rt: &impl Abort, alloc: Global, included: &[(Text, Bytes)]) -> String {
    let mut text = String::from_str(alloc, "read").expect(rt, "memory");
    for file in included {
        put_name(rt, &mut text, file.0.as_str());
    }
    text
}

fn put_name(rt: &impl Abort, text: &mut String, name: &str) {
    text.push(' ').expect(rt, "memory");
    text.push_str(name).expect(rt, "memory");
}

fn joined(rt: &impl Abort, alloc: Global, word: &str, rest: &str) -> String {
    format!(in alloc; "{word} {rest}").expect(rt, "memory")
}

fn fault_told(rt: &impl Abort, alloc: Global, fault: &LoadFault) -> String {
    match fault {
        LoadFault::Missing => String::from_str(alloc, "missing").expect(rt, "memory"),
        LoadFault::Refused(fault) => {
            let fault = fault.text(alloc).expect(rt, "memory");
            joined(rt, alloc, "refused", fault.as_str())
        }
        LoadFault::Failed(name) => joined(rt, alloc, "failed", name.as_str()),
        LoadFault::OutOfMemory => panic!(rt; "out of memory"),
    }
}

/// The configuration of `/s.conf`.
fn loaded<S: Shelf>(alloc: Global, shelf: &mut S) -> Result<Loaded, LoadFault> {
    let host = host(alloc);
    load(alloc, "/s.conf", &host, shelf)
}

/// What is told of the configuration of `/s.conf`.
fn told<S: Shelf>(rt: &impl Abort, alloc: Global, shelf: &mut S) -> String {
    match loaded(alloc, shelf) {
        Ok(loaded) => names_told(rt, alloc, loaded.included.as_slice()),
        Err(fault) => fault_told(rt, alloc, &fault),
    }
}

fn is_told<S: Shelf>(rt: &impl Abort, alloc: Global, shelf: &mut S, expected: &str) {
    let text = told(rt, alloc, shelf);
    same(rt, text.as_str(), expected);
}

fn failing_at(rt: &impl Abort, alloc: Global, call: u64) -> MapShelf {
    let mut calls = Vec::new(alloc);
    calls.push(call).expect(rt, "ample memory");
    MapShelf::new(alloc, calls)
}

/// A shelf of the files that fails at this call.
fn files_failing_at(rt: &impl Abort, alloc: Global, call: u64) -> MapShelf {
    let mut shelf = failing_at(rt, alloc, call);
    for &(name, text) in &FILES {
        add_file(rt, alloc, &mut shelf, name, text);
    }
    shelf
}

/// The call of this number fails, if there is one.
fn failure_is(rt: &impl Abort, alloc: Global, call: u64, expected: &str) {
    let mut shelf = files_failing_at(rt, alloc, call);
    is_told(rt, alloc, &mut shelf, expected);
    let failed = if call < 8 { 1 } else { 0 };
    assert!(rt; shelf.faults() == failed, "{call}");
}

#[test]
fn each_listed_file_is_read_once(rt: HostRuntime) {
    for &(call, expected) in &FAILURES {
        failure_is(&rt, rt.alloc(), call, expected);
    }
}

/// The second call fails, if there is one.
fn refusal_is(rt: &impl Abort, alloc: Global, refused: &(&str, &str, &str, u64)) {
    let (main, text, expected, faults) = *refused;
    let mut shelf = failing_at(rt, alloc, 2);
    add_file(rt, alloc, &mut shelf, "/s.conf", main);
    add_file(rt, alloc, &mut shelf, "/d/a", text);
    is_told(rt, alloc, &mut shelf, expected);
    check_of(rt, shelf.faults() == faults, main);
}

#[test]
fn faults_of_the_main_text_are_told_before_any_pattern(rt: HostRuntime) {
    for refused in &REFUSED {
        refusal_is(&rt, rt.alloc(), refused);
    }
    let mut empty = failing_at(&rt, rt.alloc(), 9);
    is_told(&rt, rt.alloc(), &mut empty, "missing");
}

/// A shelf that lists the files of another one, all of which are gone when they are read, but for the main file.
#[derive(Drop)]
struct Vanishing {
    listed: MapShelf,
}

impl Shelf for Vanishing {
    ghost files = { λ _. None };

    ghost faults = { λ _. 0 };

    fn read(&mut self, alloc: Global, name: &str) -> Result<Bytes, ShelfFault> {
        if name != "/s.conf" {
            return Err(ShelfFault::Missing);
        }
        Ok(Bytes::from_slice(alloc, MAIN.as_bytes())?)
    }

    fn size(&mut self, _alloc: Global, _name: &str) -> Result<u64, ShelfFault> {
        Err(ShelfFault::Missing)
    }

    fn names(&mut self, alloc: Global, pattern: &str) -> Result<Vec<Text>, ShelfFault> {
        match self.listed.names(alloc, pattern) {
            Ok(names) => Ok(names),
            Err(_) => Err(ShelfFault::OutOfMemory),
        }
    }

    fn part(
        &mut self,
        _alloc: Global,
        _name: &str,
        _start: u64,
        _length: u64,
    ) -> Result<Bytes, ShelfFault> {
        Err(ShelfFault::Missing)
    }

    fn append(&mut self, _alloc: Global, _name: &str, _piece: &[u8]) -> Result<(), ShelfFault> {
        Err(ShelfFault::OutOfMemory)
    }

    fn shift(&mut self, _alloc: Global, _from: &str, _to: &str) -> Result<(), ShelfFault> {
        Err(ShelfFault::OutOfMemory)
    }

    fn fresh(&mut self, _alloc: Global, _name: &str) -> Result<(), ShelfFault> {
        Err(ShelfFault::OutOfMemory)
    }
}

#[test]
fn a_listed_file_that_is_gone_is_left_out(rt: HostRuntime) {
    let mut listed = failing_at(&rt, rt.alloc(), 9);
    add_file(&rt, rt.alloc(), &mut listed, "/d/gone.ini", "[gone");
    let mut vanishing = Vanishing { listed };
    is_told(&rt, rt.alloc(), &mut vanishing, "read");
}
