//! Real programs: how they are started and signalled, and how their ends are told.

use crate::checks::check;
use crate::os_tests::{new_directory, path_in};
use std::alloc::Global;
use std::fs;
use std::fs::{File, Permissions};
use std::net::{Ipv4Addr, Net, SocketAddr, TcpListener};
use std::os::unix::fs::PermissionsExt;
use std::process::{Abort, Processes};
use std::rt::{Env, Files};
use std::sync::Wait;
use sv_base::{ExitSignal, How, Items, Pid, Run, Signal, Text};
use sv_out::order::SpawnOrder;
use sv_out::sink::Sink;
use sv_out::source::Source;
use sv_outside::{KillFault, Refusal, SpawnFault, Spawner, Started, Waiter};
use sv_processes::OsSpawner;

/// A text that is made anew.
fn text_of(rt: &impl Abort, alloc: Global, text: &str) -> Text {
    Text::from_str(alloc, text).expect(rt, "ample memory")
}

/// These words, one after the other.
fn words_of(rt: &impl Abort, alloc: Global, words: &[&str]) -> Items<Text> {
    let mut all = Items::new(alloc);
    for word in words {
        all.push(text_of(rt, alloc, word))
            .expect(rt, "ample memory");
    }
    all
}

/// One variable.
fn environment_of(rt: &impl Abort, alloc: Global) -> Items<(Text, Text)> {
    let mut environment = Items::new(alloc);
    environment
        .push((Text::fixed("SV_OS_TEST"), Text::fixed("a b")))
        .expect(rt, "ample memory");
    environment
}

/// An order for these words in this directory and for this user, with these variables.
fn order_of(
    words: Items<Text>,
    directory: Text,
    user: &'static str,
    environment: Items<(Text, Text)>,
) -> SpawnOrder {
    SpawnOrder {
        run: Run(1),
        group: Text::fixed("g"),
        name: Text::fixed("p"),
        directory,
        umask: Text::fixed(""),
        user: Text::fixed(user),
        words,
        environment,
    }
}

/// An order for these words in this directory and for this user, with one variable.
fn order_in(
    rt: &impl Abort,
    alloc: Global,
    words: &[&str],
    directory: &str,
    user: &'static str,
) -> SpawnOrder {
    order_of(
        words_of(rt, alloc, words),
        text_of(rt, alloc, directory),
        user,
        environment_of(rt, alloc),
    )
}

/// Starts the program of an order.
fn started<S: Spawner>(
    rt: &impl Abort,
    alloc: Global,
    spawner: &mut S,
    order: &SpawnOrder,
) -> Started<S::Stdin, S::Stdout, S::Stderr, S::Waiter> {
    spawner
        .spawn(alloc, order)
        .expect(rt, "a program is started")
}

/// Starts the program of these words in this directory.
fn started_in<S: Spawner>(
    rt: &impl Abort,
    alloc: Global,
    spawner: &mut S,
    words: &[&str],
    directory: &str,
) -> Started<S::Stdin, S::Stdout, S::Stderr, S::Waiter> {
    started(
        rt,
        alloc,
        spawner,
        &order_in(rt, alloc, words, directory, ""),
    )
}

/// Starts a line of the shell.
fn started_line<S: Spawner>(
    rt: &impl Abort,
    alloc: Global,
    spawner: &mut S,
    line: &str,
) -> Started<S::Stdin, S::Stdout, S::Stderr, S::Waiter> {
    started_in(rt, alloc, spawner, ["/bin/sh", "-c", line].as_slice(), "")
}

/// Adds a piece of what a source gives: whether it was at its end.
fn add_piece<S: Source>(rt: &impl Abort, source: &mut S, all: &mut Vec<u8>) -> bool {
    let mut piece = [0u8; 512];
    let count = source.read(&mut piece).expect(rt, "a pipe is read");
    all.extend_from_slice(&piece[..count])
        .expect(rt, "ample memory");
    count == 0
}

/// Adds what a source gives up to its end.
fn add_all<S: Source>(rt: &impl Abort, source: &mut S, all: &mut Vec<u8>) {
    for _ in 0..1_000 {
        if add_piece(rt, source, all) {
            return;
        }
    }
    panic!(rt; "a source ends")
}

/// What a source gives up to its end.
fn all_of<S: Source>(rt: &impl Abort, alloc: Global, source: &mut S) -> Vec<u8> {
    let mut all = Vec::new(alloc);
    add_all(rt, source, &mut all);
    all
}

/// A source gives this text, and then its end.
fn gives<S: Source>(rt: &impl Abort, alloc: Global, source: &mut S, text: &str) {
    let all = all_of(rt, alloc, source);
    check(rt, all.as_slice() == text.as_bytes());
}

/// A line of the shell that writes what it got.
const TELLING: &str =
    "read -r line; echo \"$SV_OS_TEST,${PATH:+path},$line\"; pwd -P; echo oh >&2; exit 3";

/// Starts a program in this directory that writes what it got, and gives it a line.
fn tells<S: Spawner>(rt: &impl Abort, alloc: Global, spawner: &mut S, directory: &str) {
    let words = ["/bin/sh", "-c", TELLING];
    let mut started = started_in(rt, alloc, spawner, words.as_slice(), directory);
    says_hello(rt, started.stdin);
    gives_hello(rt, alloc, &mut started.stdout, directory);
    gives(rt, alloc, &mut started.stderr, "oh\n");
    ends(rt, &mut started.waiter, 3);
}

/// A program ends with this code.
fn ends<W: Waiter>(rt: &impl Abort, waiter: &mut W, wanted: u8) {
    check(
        rt,
        matches!(waiter.wait(), Ok(How::Code(code)) if code == wanted),
    );
}

/// Writes a line to a sink, which ends.
fn says_hello<S: Sink + Drop>(rt: &impl Abort, sink: S) {
    let mut sink = sink;
    let count = sink.write(b"hello\n").expect(rt, "its input is written");
    check(rt, count == 6);
}

/// A source gives the variables, the line and the directory.
fn gives_hello<S: Source>(rt: &impl Abort, alloc: Global, source: &mut S, directory: &str) {
    let wanted = format!(in alloc; "a b,path,hello\n{directory}\n").expect(rt, "ample memory");
    gives(rt, alloc, source, wanted.as_str());
}

#[test]
fn a_program_gets_what_its_order_says(rt: HostRuntime) {
    let directory = new_directory(&rt, "program").expect(&rt, "a new directory");
    let mut spawner = OsSpawner::plain(rt, rt.alloc()).expect(&rt, "ample memory");
    tells(&rt, rt.alloc(), &mut spawner, directory.as_str());
    fs::remove_dir_all(&rt, directory.as_str()).expect(&rt, "the system does it");
}

/// Starts a program that names its descriptors: 0, 1 and 2.
fn names_three<S: Spawner>(rt: &impl Abort, alloc: Global, spawner: &mut S) {
    let line = "n=0; while [ $n -lt 40 ]; do [ -e /proc/$$/fd/$n ] && echo $n; n=$((n+1)); done";
    let mut started = started_line(rt, alloc, spawner, line);
    gives(rt, alloc, &mut started.stdout, "0\n1\n2\n");
}

/// Starts a program that waits, one that names its descriptors, and closes the input of the first, which ends.
fn names_three_beside<S: Spawner>(rt: &impl Abort, alloc: Global, spawner: &mut S) {
    let other = started_line(rt, alloc, spawner, "read -r line");
    names_three(rt, alloc, spawner);
    drop(other.stdin);
    let mut waiter = other.waiter;
    ends(rt, &mut waiter, 1);
}

/// Starts the programs while a socket is open.
fn names_three_beside_socket<R: Abort + Net + Processes + Files + Env + Wait + Copy + Drop>(
    rt: R,
    alloc: Global,
) {
    let listener = TcpListener::bind(&rt, SocketAddr::from((Ipv4Addr::LOCALHOST, 0))).expect(
        &rt,
        "the system does it",
    );
    let mut spawner = OsSpawner::plain(rt, alloc).expect(&rt, "ample memory");
    names_three_beside(&rt, alloc, &mut spawner);
    drop(listener);
}

#[test]
fn a_program_holds_three_descriptors(rt: HostRuntime) {
    let file = File::open(&rt, "/proc/self/stat").expect(&rt, "the system does it");
    names_three_beside_socket(rt, rt.alloc());
    drop(file);
}

/// This process, or its group, is signalled, and ends by the signal of this number.
fn is_signalled<S: Spawner>(
    rt: &impl Abort,
    alloc: Global,
    spawner: &mut S,
    pid: Pid,
    waiter: &mut S::Waiter,
    (signal, group, number): (Signal, bool, u32),
) {
    spawner
        .kill(alloc, pid, signal, group)
        .expect(rt, "a signal is sent");
    let how = waiter.wait().ok();
    check(rt, how == ExitSignal::new(number).map(How::Signal));
}

/// Starts a program, which is ended by this signal.
fn signal_one<S: Spawner>(
    rt: &impl Abort,
    alloc: Global,
    spawner: &mut S,
    row: (Signal, bool, u32),
) {
    let mut started = started_in(rt, alloc, spawner, ["sleep", "50"].as_slice(), "");
    is_signalled(rt, alloc, spawner, started.pid, &mut started.waiter, row);
}

/// A source gives a line that tells that its program has begun.
fn has_begun<S: Source>(rt: &impl Abort, source: &mut S) {
    let mut piece = [0u8; 9];
    let count = source.read(&mut piece).expect(rt, "it has begun");
    check(rt, &piece[..count] == b"go\n".as_slice());
}

/// Starts a group of two programs, both of which are ended by one signal.
fn signal_group<S: Spawner>(rt: &impl Abort, alloc: Global, spawner: &mut S) {
    let words = ["sh", "-c", "sleep 50 & echo go; sleep 50"];
    let mut started = started_in(rt, alloc, spawner, words.as_slice(), "");
    has_begun(rt, &mut started.stdout);
    let row = (Signal::Kill, true, 9);
    is_signalled(rt, alloc, spawner, started.pid, &mut started.waiter, row);
    gives(rt, alloc, &mut started.stdout, "");
}

/// Starts three programs, one after the other, each of which is ended by another signal.
fn signal_three<S: Spawner>(rt: &impl Abort, alloc: Global, spawner: &mut S) {
    signal_one(rt, alloc, spawner, (Signal::Usr1, false, 10));
    signal_one(rt, alloc, spawner, (Signal::Kill, false, 9));
    signal_one(rt, alloc, spawner, (Signal::Term, true, 15));
}

/// A signal to a process that isn't there, or to its group, fails.
fn signal_none<S: Spawner>(rt: &impl Abort, alloc: Global, spawner: &mut S) {
    let none = Pid::new(4_194_305).expect(rt, "past the last process");
    for group in [false, true] {
        let answer = spawner.kill(alloc, none, Signal::Term, group);
        check(rt, matches!(answer, Err(KillFault::Failed)));
    }
}

#[test]
fn programs_are_signalled(rt: HostRuntime) {
    let mut spawner = OsSpawner::plain(rt, rt.alloc()).expect(&rt, "ample memory");
    signal_three(&rt, rt.alloc(), &mut spawner);
    signal_group(&rt, rt.alloc(), &mut spawner);
    signal_none(&rt, rt.alloc(), &mut spawner);
}

/// Why the spawner refuses an order; empty where it doesn't for a reason that it tells.
fn refusal<I: Drop, O: Drop, E: Drop, W: Drop>(
    answer: &Result<Started<I, O, E, W>, SpawnFault>,
) -> &str {
    match answer {
        Err(SpawnFault::Refused(Refusal::NoFile)) => "no file",
        Err(SpawnFault::Refused(Refusal::NotExecutable)) => "not executable",
        Err(SpawnFault::Refused(Refusal::Refused(reason))) => reason.as_str(),
        _ => "",
    }
}

/// An order is refused for this reason.
fn is_refusal<S: Spawner>(
    rt: &impl Abort,
    alloc: Global,
    spawner: &mut S,
    order: &SpawnOrder,
    wanted: &str,
) {
    let answer = spawner.spawn(alloc, order);
    check(rt, refusal(&answer) == wanted);
}

/// An order for these words in this directory and for this user is refused for this reason.
fn is_refused_in<S: Spawner>(
    rt: &impl Abort,
    alloc: Global,
    spawner: &mut S,
    words: &[&str],
    directory: &str,
    user: &'static str,
    wanted: &str,
) {
    let order = order_in(rt, alloc, words, directory, user);
    is_refusal(rt, alloc, spawner, &order, wanted);
}

/// An order for these words is refused for this reason.
fn is_refused<S: Spawner>(
    rt: &impl Abort,
    alloc: Global,
    spawner: &mut S,
    words: &[&str],
    wanted: &str,
) {
    is_refused_in(rt, alloc, spawner, words, "", "", wanted);
}

/// Makes two files, of which the second may be executed.
fn make_files<R: Abort + Files>(rt: &R, plain: &str, noise: &str) {
    fs::write(rt, plain, b"exit 0\n".as_slice()).expect(rt, "the system does it");
    fs::write(rt, noise, b"exit 0\n".as_slice()).expect(rt, "the system does it");
    fs::set_permissions(rt, noise, Permissions::from_mode(0o755)).expect(rt, "the system does it");
}

/// A program is refused whose directory is a file, and one whose user nobody knows.
fn are_refused_in_file<S: Spawner>(rt: &impl Abort, alloc: Global, spawner: &mut S, plain: &str) {
    let words = ["/bin/true"];
    let wanted = format!(in alloc; "can't change to directory {plain}").expect(rt, "ample memory");
    is_refused_in(
        rt,
        alloc,
        spawner,
        words.as_slice(),
        plain,
        "",
        wanted.as_str(),
    );
    is_refused_in(
        rt,
        alloc,
        spawner,
        words.as_slice(),
        "",
        "sv-os-no-such-user",
        "can't become user sv-os-no-such-user: there is no such user",
    );
}

/// Programs are refused by their names; of a directory and of two files in it none is executed.
fn are_refused<'a, S: Spawner>(
    rt: &impl Abort,
    alloc: Global,
    spawner: &mut S,
    directory: &'a str,
    plain: &'a str,
    noise: &'a str,
) {
    let rows = [
        ("/none/such", "no file"),
        ("sv-os-none-such", "no file"),
        ("/dev/null/such", "no file"),
        (plain, "not executable"),
        (noise, "not executable"),
        (directory, "not executable"),
        ("a\0b", "nul byte found in provided data"),
    ];
    for (program, wanted) in rows {
        is_refused(rt, alloc, spawner, [program].as_slice(), wanted);
    }
    is_refused(rt, alloc, spawner, [].as_slice(), "no file");
}

/// Programs are refused by their names; of this directory and of two files that are made in it none is executed.
fn are_refused_at<R: Abort + Net + Processes + Files + Env + Wait + Copy + Drop>(
    rt: R,
    alloc: Global,
    directory: &str,
    plain: &str,
    noise: &str,
) {
    make_files(&rt, plain, noise);
    let mut spawner = OsSpawner::plain(rt, alloc).expect(&rt, "ample memory");
    are_refused(&rt, alloc, &mut spawner, directory, plain, noise);
    are_refused_in_file(&rt, alloc, &mut spawner, plain);
}

/// Programs are refused by their names, which stand in this directory.
fn are_refused_in<R: Abort + Net + Processes + Files + Env + Wait + Copy + Drop>(
    rt: R,
    alloc: Global,
    directory: &str,
) {
    let plain = path_in(&rt, alloc, directory, "plain");
    let noise = path_in(&rt, alloc, directory, "noise");
    are_refused_at(rt, alloc, directory, plain.as_str(), noise.as_str());
}

#[test]
fn programs_are_refused_by_name(rt: HostRuntime) {
    let directory = new_directory(&rt, "refused").expect(&rt, "a new directory");
    are_refused_in(rt, rt.alloc(), directory.as_str());
    fs::remove_dir_all(&rt, directory.as_str()).expect(&rt, "the system does it");
}
