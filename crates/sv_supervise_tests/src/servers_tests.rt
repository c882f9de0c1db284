//! The servers of configurations, and words and files that name none.

use crate::checks::same;
use std::alloc::Global;
use std::mem;
use std::process::Abort;
use sv_base::{Bytes, Host, Items, Moment, Password, Place, ServerSpec, Text};
use sv_load::load;
use sv_out::MapShelf;
use sv_supervise::arguments_of;

/// The files of the shelf.
static FILES: [(&str, &str); 4] = [
    (
        "/s.conf",
        "[supervisord]\nlogfile=NONE\n[inet_http_server]\nport=9001\n[rpcinterface:supervisor]\n",
    ),
    (
        "/both.conf",
        "[unix_http_server]\nfile=/run/s.sock\nusername=u\npassword=p\n[inet_http_server]\nport=127.0.0.1:9001\n",
    ),
    ("/none.conf", "[supervisord]\nlogfile=NONE\n"),
    ("/bad.conf", "loose\n"),
];

/// Words, the call on the shelf that fails (0: none), and the servers: each its place, its username and its password.
static ROWS: [(&str, u64, &str); 8] = [
    ("-c /s.conf", 0, "inet :9001 user <> password none;"),
    (
        "-c /both.conf --journal",
        0,
        "unix /run/s.sock user <u> password p;inet 127.0.0.1:9001 user <> password none;",
    ),
    ("-c /none.conf", 0, ""),
    ("", 0, ""),
    ("-c /s.conf --what", 0, ""),
    ("-c /missing.conf", 0, ""),
    ("-c /bad.conf", 0, ""),
    ("-c /s.conf", 1, ""),
];

fn put_file(rt: &impl Abort, alloc: Global, shelf: &mut MapShelf, name: &str, text: &str) {
    let bytes = Bytes::from_slice(alloc, text.as_bytes()).expect(rt, "memory");
    let name = Text::from_str(alloc, name).expect(rt, "memory");
    shelf.set(name, bytes).expect(rt, "memory");
}

fn shelf_of(rt: &impl Abort, alloc: Global, failing: u64) -> MapShelf {
    let mut calls = Vec::new(alloc);
    calls.push(failing).expect(rt, "memory");
    let mut shelf = MapShelf::new(alloc, calls);
    for &(name, text) in &FILES {
        put_file(rt, alloc, &mut shelf, name, text);
    }
    shelf
}

fn words_of(rt: &impl Abort, alloc: Global, text: &str) -> Vec<Text> {
    let mut words = Vec::new(alloc);
    for word in text.split(' ') {
        put_word(rt, alloc, &mut words, word);
    }
    words
}

/// Adds a word, if it isn't empty.
fn put_word(rt: &impl Abort, alloc: Global, words: &mut Vec<Text>, word: &str) {
    if !word.is_empty() {
        let word = Text::from_str(alloc, word).expect(rt, "memory");
        words.push(word).expect(rt, "memory");
    }
}

fn put(rt: &impl Abort, text: &mut String, piece: &str) {
    text.push_str(piece).expect(rt, "memory");
}

fn put_place(rt: &impl Abort, text: &mut String, place: &Place) {
    match place {
        Place::Inet(host, port) => {
            put(rt, text, "inet ");
            put(rt, text, host.as_str());
            put(rt, text, if *port == 9001 { ":9001" } else { ":?" });
        }
        Place::Unix(path) => {
            put(rt, text, "unix ");
            put(rt, text, path.as_str());
        }
    }
}

fn put_server(rt: &impl Abort, text: &mut String, server: &ServerSpec) {
    put_place(rt, text, &server.place);
    put(rt, text, " user <");
    put(rt, text, server.username.as_str());
    put(rt, text, "> password ");
    let password = match &server.password {
        Password::None => "none",
        Password::Plain(password) => password.as_str(),
        Password::Sha(_) => "sha",
    };
    put(rt, text, password);
    put(rt, text, ";");
}

fn host(alloc: Global) -> Host {
    Host {
        name: Text::fixed("h"),
        here: Text::fixed("/"),
        pid: 1,
        environment: Items::new(alloc),
        start: Moment::zero(),
    }
}

/// What the servers are read from.
#[derive(Drop)]
struct Parts {
    words: Vec<Text>,
    host: Host,
    shelf: MapShelf,
}

fn parts_of(rt: &impl Abort, alloc: Global, words: &str, failing: u64) -> Parts {
    Parts {
        words: words_of(rt, alloc, words),
        host: host(alloc),
        shelf: shelf_of(rt, alloc, failing),
    }
}

/// The servers of the configuration that the words name; none where the words are refused, or it can't be read.
fn servers_in(rt: &impl Abort, alloc: Global, parts: &mut Parts) -> Items<ServerSpec> {
    let Some(arguments) = arguments_of(alloc, parts.words.as_slice()).expect(rt, "memory") else {
        return Items::new(alloc);
    };
    match load(
        alloc,
        arguments.file.as_str(),
        &parts.host,
        &mut parts.shelf,
    ) {
        Ok(loaded) => {
            let mut loaded = loaded;
            mem::replace(&mut loaded.config.servers, Items::new(alloc))
        }
        Err(_) => Items::new(alloc),
    }
}

fn servers_of(rt: &impl Abort, alloc: Global, words: &str, failing: u64) -> Items<ServerSpec> {
    let mut parts = parts_of(rt, alloc, words, failing);
    servers_in(rt, alloc, &mut parts)
}

fn servers_said(rt: &impl Abort, alloc: Global, words: &str, failing: u64) -> String {
    let all = servers_of(rt, alloc, words, failing);
    let mut text = String::new(alloc);
    for server in all.as_slice() {
        put_server(rt, &mut text, server);
    }
    text
}

fn row_is(rt: &impl Abort, alloc: Global, words: &str, failing: u64, expected: &str) {
    let text = servers_said(rt, alloc, words, failing);
    same(rt, text.as_str(), expected);
}

#[test]
fn servers_are_those_of_the_configuration(rt: HostRuntime) {
    for &(words, failing, expected) in &ROWS {
        row_is(&rt, rt.alloc(), words, failing, expected);
    }
}
