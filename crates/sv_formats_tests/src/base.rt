//! The words of tables, sizes and names, with what each stands for; and that calls succeed with ample memory.

use crate::checks::{check, check_of};
use std::alloc::{AllocFailed, Global};
use std::collections::HashMap;
use std::process::Abort;
use sv_base::{
    Bytes, ClientSpec, FileOrder, Items, Kind, Mood, Password, Place, ServerSpec, Signal, Text,
    kind_of, signal_of, size_of_text, split_name, truth_of,
};

static SIGNALS: [(&str, Option<Signal>); 16] = [
    ("TERM", Some(Signal::Term)),
    ("sigterm", Some(Signal::Term)),
    ("15", Some(Signal::Term)),
    ("Hup", Some(Signal::Hup)),
    ("1", Some(Signal::Hup)),
    ("SigInt", Some(Signal::Int)),
    ("3", Some(Signal::Quit)),
    ("KILL", Some(Signal::Kill)),
    ("10", Some(Signal::Usr1)),
    ("sigusr2", Some(Signal::Usr2)),
    ("12", Some(Signal::Usr2)),
    ("", None),
    ("SIG", None),
    ("015", None),
    ("SIG15", None),
    ("TERM ", None),
];

static SIZES: [(&str, Option<u64>); 15] = [
    ("0", Some(0)),
    ("12", Some(12)),
    ("007", Some(7)),
    ("1KB", Some(1_024)),
    ("3mb", Some(3_145_728)),
    ("2Gb", Some(2_147_483_648)),
    ("50MB", Some(52_428_800)),
    ("18446744073709551615", Some(18_446_744_073_709_551_615)),
    ("18446744073709551616", None),
    ("17179869183GB", Some(18_446_744_072_635_809_792)),
    ("17179869184GB", None),
    ("", None),
    ("KB", None),
    ("1 KB", None),
    ("1k", None),
];

static TRUTHS: [(&str, Option<bool>); 12] = [
    ("yes", Some(true)),
    ("True", Some(true)),
    ("ON", Some(true)),
    ("1", Some(true)),
    ("no", Some(false)),
    ("FALSE", Some(false)),
    ("oFF", Some(false)),
    ("0", Some(false)),
    ("", None),
    ("y", None),
    ("2", None),
    ("true ", None),
];

static KINDS: [(&str, Option<Kind>); 12] = [
    ("EVENT", Some(Kind::Event)),
    ("PROCESS_STATE", Some(Kind::ProcessState)),
    ("PROCESS_STATE_BACKOFF", Some(Kind::ProcessStateBackoff)),
    (
        "PROCESS_COMMUNICATION_STDERR",
        Some(Kind::ProcessCommunicationStderr),
    ),
    ("PROCESS_LOG_STDOUT", Some(Kind::ProcessLogStdout)),
    ("REMOTE_COMMUNICATION", Some(Kind::RemoteCommunication)),
    (
        "SUPERVISOR_STATE_CHANGE_STOPPING",
        Some(Kind::SupervisorStateChangeStopping),
    ),
    ("TICK_3600", Some(Kind::Tick3600)),
    ("PROCESS_GROUP_REMOVED", Some(Kind::ProcessGroupRemoved)),
    ("TICK_", None),
    ("tick", None),
    ("", None),
];

// a name, its group, and its process: none is the whole group
static NAMES: [(&str, &str, Option<&str>); 8] = [
    ("g:p", "g", Some("p")),
    ("g:*", "g", None),
    ("g:", "g", None),
    ("p", "p", Some("p")),
    ("a:b:c", "a", Some("b:c")),
    (":", "", None),
    ("*", "*", Some("*")),
    ("g:**", "g", Some("**")),
];

#[test]
fn reads_words(rt: HostRuntime) {
    check_signals(&rt);
    check_sizes(&rt);
    check_truths(&rt);
    check_kinds(&rt);
    for &(text, group, process) in &NAMES {
        check_name(&rt, rt.alloc(), text, group, process);
    }
}

fn check_signals(rt: &impl Abort) {
    for &(text, signal) in &SIGNALS {
        check_of(rt, signal_of(text) == signal, text);
    }
}

fn check_sizes(rt: &impl Abort) {
    for &(text, size) in &SIZES {
        check_of(rt, size_of_text(text) == size, text);
    }
}

fn check_truths(rt: &impl Abort) {
    for &(text, truth) in &TRUTHS {
        check_of(rt, truth_of(text) == truth, text);
    }
}

fn check_kinds(rt: &impl Abort) {
    for &(text, kind) in &KINDS {
        check_of(rt, kind_of(text) == kind, text);
    }
}

fn check_name(rt: &impl Abort, alloc: Global, text: &str, group: &str, process: Option<&str>) {
    let parts = split_name(alloc, text).expect(rt, "memory");
    check_of(rt, parts.0.as_str() == group, text);
    match (&parts.1, process) {
        (Some(found), Some(wanted)) => {
            check_of(rt, found.as_str() == wanted, text);
        }
        (None, None) => {}
        _ => panic!(rt; "the process of {text}"),
    }
}

static MOODS: [(Mood, &str, i64); 3] = [
    (Mood::Running, "RUNNING", 1),
    (Mood::Restarting, "RESTARTING", 0),
    (Mood::Shutdown, "SHUTDOWN", -1),
];

#[test]
fn moods_have_names_and_numbers(rt: HostRuntime) {
    for &(mood, name, number) in &MOODS {
        check_of(&rt, mood.name() == name && mood.number() == number, name);
    }
}

#[test]
fn succeeds_with_ample_memory(rt: HostRuntime) {
    let made = copies(&rt, rt.alloc());
    check(&rt, made == 3);
    copies_of_a_server(&rt, rt.alloc());
    copies_of_file_orders(&rt, rt.alloc());
    let found = found_by_text(&rt, rt.alloc());
    check(&rt, found == Some(7));
}

fn copies_of_a_server(rt: &impl Abort, alloc: Global) {
    let server = ServerSpec {
        place: Place::Inet(text(rt, alloc, "localhost"), 9_001),
        username: text(rt, alloc, "admin"),
        password: Password::Plain(text(rt, alloc, "secret")),
    };
    let copy = server.clone().expect(rt, "memory");
    drop(server);
    copies_of_a_client(rt, alloc, &copy.username);
    let _place = Place::Unix(text(rt, alloc, "/run/s.sock"))
        .clone()
        .expect(rt, "memory");
    let _password = Password::Sha([7; 20]).clone().expect(rt, "memory");
}

fn copies_of_a_client(rt: &impl Abort, alloc: Global, username: &Text) {
    let client = ClientSpec {
        url: text(rt, alloc, "http://localhost:9001"),
        username: username.clone().expect(rt, "memory"),
        password: Text::fixed(""),
    };
    let _client = client.clone().expect(rt, "memory");
}

fn text(rt: &impl Abort, alloc: Global, from: &str) -> Text {
    Text::from_str(alloc, from).expect(rt, "memory")
}

fn copies_of_file_orders(rt: &impl Abort, alloc: Global) {
    let bytes = Bytes::from_slice(alloc, b"line\n").expect(rt, "memory");
    copy_of_a_file_order(rt, &FileOrder::Append(Text::fixed("a.log"), bytes));
    copy_of_a_file_order(
        rt,
        &FileOrder::Shift(Text::fixed("a.log"), Text::fixed("a.log.1")),
    );
    copy_of_a_file_order(rt, &FileOrder::Fresh(Text::fixed("a.log")));
}

fn copy_of_a_file_order(rt: &impl Abort, order: &FileOrder) {
    let _copy = order.clone().expect(rt, "memory");
}

fn found_by_text(rt: &impl Abort, alloc: Global) -> Option<u32> {
    let mut numbers = HashMap::new(alloc);
    let one: Result<Option<u32>, AllocFailed<(Text, u32)>> = numbers.insert(Text::fixed("one"), 1);
    one.expect(rt, "memory");
    let seven: Result<Option<u32>, AllocFailed<(Text, u32)>> = numbers.insert(
        Text::fixed("seven"),
        7,
    );
    seven.expect(rt, "memory");
    numbers.get(&Text::fixed("seven")).copied()
}

fn copies(rt: &impl Abort, alloc: Global) -> usize {
    let text = Text::from_str(alloc, "cat").expect(rt, "memory");
    let bytes = Bytes::from_slice(alloc, text.as_str().as_bytes()).expect(rt, "memory");
    let bytes = bytes.clone().expect(rt, "memory");
    let mut items = Items::new(alloc);
    items
        .push(text.clone().expect(rt, "memory"))
        .expect(rt, "memory");
    items
        .push(Text::fixed("dog").clone().expect(rt, "memory"))
        .expect(rt, "memory");
    let items = items.clone().expect(rt, "memory");
    items.as_slice().len() + bytes.as_slice().len() - 2
}
