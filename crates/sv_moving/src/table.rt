//! The table of keys and values that mean something else here, in the order of the manual's sections.

use crate::rows::{Row, Test};

const PROGRAMS: &[&str] = &["program:", "eventlistener:"];

const DAEMON: &[&str] = &["supervisord"];

const CLIENT: &[&str] = &["supervisorctl"];

/// The rows, by sections.
pub static ROWS: [Row; 26] = [
    Row {
        titles: &["DEFAULT"],
        key: "",
        test: Test::Always,
        says: "Supervisor gives its keys to every other section; here it is passed over. Write them into the sections that need them.",
    },
    Row {
        titles: &["inet_http_server:", "unix_http_server:"],
        key: "",
        test: Test::Always,
        says: "A second server is passed over here.",
    },
    Row {
        titles: &["fcgi-program:"],
        key: "",
        test: Test::Always,
        says: "FastCGI programs aren't supported here: the whole file is refused.",
    },
    Row {
        titles: DAEMON,
        key: "loglevel",
        test: Test::IsNot(&[
            "critical", "error", "warn", "info", "debug", "trace", "blather",
        ]),
        says: "Levels are read in small letters here: another word refuses the whole file.",
    },
    Row {
        titles: DAEMON,
        key: "nodaemon",
        test: Test::Says(&["false", "no", "off", "0"]),
        says: "The daemon never goes into the background here.",
    },
    Row {
        titles: DAEMON,
        key: "nocleanup",
        test: Test::Always,
        says: "This key is passed over here: nothing is cleaned up at the start.",
    },
    Row {
        titles: DAEMON,
        key: "strip_ansi",
        test: Test::Always,
        says: "This key is passed over here.",
    },
    Row {
        titles: DAEMON,
        key: "pidfile",
        test: Test::Always,
        says: "The launcher (contrib/launch) writes this file; without it there is none.",
    },
    Row {
        titles: DAEMON,
        key: "minfds",
        test: Test::Always,
        says: "The launcher (contrib/launch) raises this limit; without it nothing does.",
    },
    Row {
        titles: DAEMON,
        key: "minprocs",
        test: Test::Always,
        says: "The launcher (contrib/launch) raises this limit; without it nothing does.",
    },
    Row {
        titles: DAEMON,
        key: "user",
        test: Test::Always,
        says: "The launcher (contrib/launch) makes it the daemon's own user; without it only the programs that have none get it.",
    },
    Row {
        titles: DAEMON,
        key: "umask",
        test: Test::Always,
        says: "The launcher (contrib/launch) makes it the daemon's own umask; without it only the programs that have none get it.",
    },
    Row {
        titles: DAEMON,
        key: "directory",
        test: Test::Always,
        says: "This is the directory of the programs that have none; the daemon's own files are looked for where it was started.",
    },
    Row {
        titles: DAEMON,
        key: "logfile",
        test: Test::Is(&["NONE"]),
        says: "There is no main log here; in Supervisor it is a file of this name.",
    },
    Row {
        titles: CLIENT,
        key: "prompt",
        test: Test::Always,
        says: "This key is passed over here.",
    },
    Row {
        titles: CLIENT,
        key: "history_file",
        test: Test::Always,
        says: "This key is passed over here.",
    },
    Row {
        titles: PROGRAMS,
        key: "user",
        test: Test::Always,
        says: "Where nobody knows this user, or the daemon isn't root, the program ends in FATAL here; Supervisor refuses the file.",
    },
    Row {
        titles: PROGRAMS,
        key: "stopsignal",
        test: Test::SaysNot(&[
            "TERM", "HUP", "INT", "QUIT", "KILL", "USR1", "USR2", "SIGTERM", "SIGHUP", "SIGINT",
            "SIGQUIT", "SIGKILL", "SIGUSR1", "SIGUSR2", "15", "1", "2", "3", "9", "10", "12",
        ]),
        says: "Only TERM, HUP, INT, QUIT, KILL, USR1 and USR2 are known here: another signal refuses the whole file.",
    },
    Row {
        titles: PROGRAMS,
        key: "stdout_logfile",
        test: Test::Says(&["syslog", "off"]),
        says: "This is a file of this name here. Write NONE for no log.",
    },
    Row {
        titles: PROGRAMS,
        key: "stderr_logfile",
        test: Test::Says(&["syslog", "off"]),
        says: "This is a file of this name here. Write NONE for no log.",
    },
    Row {
        titles: PROGRAMS,
        key: "stdout_logfile",
        test: Test::Begins("~"),
        says: "`~` is no home directory here: write the directory.",
    },
    Row {
        titles: PROGRAMS,
        key: "stderr_logfile",
        test: Test::Begins("~"),
        says: "`~` is no home directory here: write the directory.",
    },
    Row {
        titles: PROGRAMS,
        key: "stdout_syslog",
        test: Test::Says(&["true", "yes", "on", "1"]),
        says: "Nothing goes to syslog here: this key is passed over.",
    },
    Row {
        titles: PROGRAMS,
        key: "stderr_syslog",
        test: Test::Says(&["true", "yes", "on", "1"]),
        says: "Nothing goes to syslog here: this key is passed over.",
    },
    Row {
        titles: &["eventlistener:"],
        key: "result_handler",
        test: Test::Always,
        says: "This key is passed over here: OK accepts an event, everything else rejects it.",
    },
    Row {
        titles: &["group:"],
        key: "programs",
        test: Test::Always,
        says: "The programs of a group start by priority, then by name, here; in Supervisor in this order. Give them priorities.",
    },
];
