//! What is decided before a program is started.

use crate::checks::{check, same};
use std::alloc::Global;
use std::process::Abort;
use sv_base::Text;
use sv_processes::{
    Links, MaskLink, ProcessState, SignalLink, UserLink, account_in, is_program, may_execute,
    words_before,
};

/// The users of a machine, with lines that say nothing.
const USERS: &str =
    "root:x:0:0:root:/root:/bin/sh\n\nshort:x:7\nweb:x:33:44:Web:/srv:/bin/sh\n12:x:99:98::/:\nodd:x:a:b::/:\n";

/// This user is found with these numbers.
fn is_found(rt: &impl Abort, alloc: Global, wanted: &str, name: &str, numbers: (u32, u32)) {
    let found = account_in(alloc, USERS, wanted).expect(rt, "ample memory");
    match &found {
        Some(account) => {
            same(rt, account.name.as_str(), name);
            check(rt, (account.user, account.group) == numbers);
        }
        None => check(rt, false),
    }
}

#[test]
fn users_are_found_by_name_and_number(rt: HostRuntime) {
    is_found(&rt, rt.alloc(), "root", "root", (0, 0));
    is_found(&rt, rt.alloc(), "web", "web", (33, 44));
    is_found(&rt, rt.alloc(), "33", "web", (33, 44));
    is_found(&rt, rt.alloc(), "12", "12", (99, 98));
    for wanted in ["", "short", "odd", "we", "34"] {
        let found = account_in(rt.alloc(), USERS, wanted).expect(&rt, "ample memory");
        check(&rt, found.is_none());
    }
}

#[test]
fn programs_are_known_by_their_first_bytes(rt: HostRuntime) {
    for head in [
        b"#!/bin/sh\n".as_slice(),
        b"\x7fELF\x02\x01\x01\0\0".as_slice(),
        b"\0".as_slice(),
    ] {
        check(&rt, is_program(head));
    }
    for head in [
        b"".as_slice(),
        b"#".as_slice(),
        b"echo hi\n".as_slice(),
        b" #!/bin/sh\n".as_slice(),
    ] {
        check(&rt, !is_program(head));
    }
}

/// What `/proc/self/status` says of a process of this user.
const STATUS: &str =
    "Name:\tx\nUmask:\t0027\nUid:\t1\t5\t5\t5\nGid:\t6\t6\t6\t6\nGroups:\t7 8 \nSigIgn:\t0000000000001007\n";

fn state(rt: &impl Abort, alloc: Global) -> ProcessState {
    ProcessState::told(alloc, STATUS).expect(rt, "ample memory")
}

#[test]
fn the_process_is_told(rt: HostRuntime) {
    let state = state(&rt, rt.alloc());
    check(
        &rt,
        state.user == 5 && state.group == 6 && state.mask == Some(0o27),
    );
    check(&rt, state.groups.as_slice() == [7, 8].as_slice());
    let names = state.given_back(rt.alloc()).expect(&rt, "ample memory");
    same(&rt, names.as_str(), "HUP,INT,QUIT");
}

#[test]
fn rights_are_those_of_who_asks(rt: HostRuntime) {
    let state = state(&rt, rt.alloc());
    let rows = [
        (0o100, 5, 9, true),
        (0o077, 5, 9, false),
        (0o010, 9, 6, true),
        (0o010, 9, 8, true),
        (0o707, 9, 8, false),
        (0o001, 9, 9, true),
        (0o776, 9, 9, false),
    ];
    for (mode, owner, group, may) in rows {
        check(&rt, may_execute(mode, owner, group, &state) == may);
    }
}

/// All links, with a user by `setpriv`.
fn links(rt: &impl Abort, alloc: Global) -> Links {
    Links {
        signals: Some(SignalLink {
            tool: Text::fixed("env"),
            names: Text::fixed("INT"),
        }),
        session: Some(Text::fixed("setsid")),
        user: Some(UserLink::Setpriv {
            tool: Text::fixed("setpriv"),
            name: Text::from_str(alloc, "web").expect(rt, "ample memory"),
            group: 44,
        }),
        mask: Some(MaskLink {
            tool: Text::fixed("sh"),
            mask: Text::fixed("027"),
        }),
    }
}

#[test]
fn links_are_words(rt: HostRuntime) {
    let links = links(&rt, rt.alloc());
    let words = words_before(rt.alloc(), &links).expect(&rt, "ample memory");
    let wanted = [
        "env",
        "--default-signal=INT",
        "setsid",
        "--",
        "setpriv",
        "--reuid=web",
        "--regid=44",
        "--init-groups",
        "--",
        "sh",
        "-c",
        "umask 027; exec \"$@\"",
        "sh",
    ];
    check(&rt, words.len() == wanted.len());
    for (word, wanted) in words.iter().zip(wanted) {
        same(&rt, word.as_str(), wanted);
    }
}
