//! Examples of whole configurations, and what they tell.

use crate::checks::same;
use crate::tests::{fault_said, host, included, order_said, put_ended, words_said};
use std::alloc::Global;
use std::process::Abort;
use sv_base::config::{Config, Host};
use sv_base::spec::Spec;
use sv_base::text::Text;
use sv_conf::config::config;
use sv_sections::fault::ConfFault;
use sv_sections::includes::includes;

/// A configuration with all kinds of sections, and the text that it includes.
const SAMPLE: &str = r#"[unix_http_server]
file=/tmp/supervisor.sock   ; the path to the socket file

[inet_http_server]
port=127.0.0.1:9001
username=user
password=123

[supervisord]
logfile=/tmp/supervisord.log ; main log file
logfile_maxbytes=50MB
logfile_backups=10
loglevel=info
pidfile=/tmp/supervisord.pid
nodaemon=false
minfds=1024
minprocs=200

[rpcinterface:supervisor]
supervisor.rpcinterface_factory = supervisor.rpcinterface:make_main_rpcinterface

[supervisorctl]
serverurl=unix:///tmp/supervisor.sock

[program:cat]
command=/bin/cat
priority=10

[program:web]
command=/usr/bin/web --port=80%(process_num)02d
process_name=%(program_name)s_%(process_num)02d
numprocs=2
autorestart=true

[eventlistener:mem]
command=memmon -a 200MB
events=TICK_60

[group:front]
programs=web
priority=20

[include]
files = conf.d/*.ini
"#;

const SAMPLE_EXTRA: &str = "[program:tail]\ncommand=/usr/bin/tail -f /dev/null\n";

/// The files of the folder `examples`.
const WEB_SERVICE: &str =
    r#"[unix_http_server]                                       ; the server that supervisorctl talks to
file=/var/run/supervisor.sock                            ; the path of its socket
[supervisord]                                            ; the daemon itself
logfile=/var/log/supervisord.log                         ; the main log
logfile_maxbytes=10MB                                    ; rotated from this size on
logfile_backups=3                                        ; how many rotated files are kept
loglevel=info                                            ; lines below this level aren't written
childlogdir=/var/log                                     ; where logs go that are named for their process
environment=LANG="C.UTF-8"                               ; every process gets this variable
[rpcinterface:supervisor]                                ; the methods that supervisorctl calls are served
supervisor.rpcinterface_factory = supervisor.rpcinterface:make_main_rpcinterface ; the usual line
[supervisorctl]                                          ; the client
serverurl=unix:///var/run/supervisor.sock                ; where it finds the daemon
[program:worker]                                         ; the processes that answer requests
command=/bin/sh %(here)s/web/serve --port=80%(process_num)02d ; each is told a port of its own
process_name=%(program_name)s_%(process_num)02d          ; worker_01 to worker_04
numprocs=4                                               ; four of them
numprocs_start=1                                         ; counted from 1
directory=%(here)s/web                                   ; where they start
user=nobody                                              ; whom they run as: the daemon is started as root
autorestart=true                                         ; started again whenever they exit
startsecs=5                                              ; a start counts once a worker has stayed up for 5 seconds
stopsignal=QUIT                                          ; QUIT lets them finish their requests
stopwaitsecs=30                                          ; after 30 seconds they are killed
stopasgroup=true                                         ; their own children are signalled as well
environment=GREETING="hello, world",WORKERS="%(numprocs)d" ; variables of their own
[program:proxy]                                          ; the process in front of them
command=/bin/sh %(here)s/web/proxy 8001 8004             ; a script beside this file
stdout_logfile=/var/log/proxy.log                        ; its output goes here
redirect_stderr=true                                     ; and so do its errors
[group:web]                                              ; both are started and stopped together
programs=worker,proxy                                    ; the programs of the group
priority=10                                              ; before groups with a higher number
"#;

const LISTENER: &str =
    r#"[inet_http_server]                                       ; a server on a port
port=127.0.0.1:9001                                      ; only from this machine
username=admin                                           ; who may use it
password={SHA}a9993e364706816aba3e25717850c26c9cd0d89d   ; the SHA-1 of the password
[supervisord]                                            ; the daemon itself
logfile=NONE                                             ; no main log
[eventlistener:mailer]                                   ; a listener that tells of crashes by mail
command=/usr/bin/crashmail -m admin@example.org          ; the listener's program
events=PROCESS_STATE_EXITED,PROCESS_STATE_FATAL          ; what it is told
buffer_size=100                                          ; how many events may wait for it
autorestart=unexpected                                   ; started again after an exit that isn't expected
exitcodes=0,2                                            ; these exits are expected
stderr_logfile=/var/log/crashmail.err                    ; its errors go here
stdout_logfile=NONE                                      ; its output is for the daemon alone
[program:queue]                                          ; a program that may crash
command=/usr/bin/queue                                   ; its words
startretries=10                                          ; how often a failed start is tried again
"#;

const WITH_INCLUDES: &str =
    r#"[supervisord]                                            ; the daemon itself
identifier=%(host_node_name)s                            ; the daemon is called as the machine is
[program:cron]                                           ; a program of this file
command=/usr/sbin/cron -f                                ; in the foreground
priority=1                                               ; before all others
[include]                                                ; further files
files = conf.d/*.conf /etc/supervisor/*.conf             ; those of a directory beside this file, and of another
"#;

const QUEUE: &str =
    r#"[program:queue]                                          ; a program of an included file
command=/usr/bin/queue --spool=/var/spool/queue          ; its words
stdout_logfile=/var/log/queue.log                        ; its output goes here
"#;

/// A text, a text that it includes, the patterns of what it includes, the start order, and the words of the processes,
/// each word ended by a bar.
struct Example {
    text: &'static str,
    extra: &'static str,
    patterns: &'static str,
    order: &'static str,
    words: &'static str,
}

const EXAMPLES: [Example; 4] = [
    Example {
        text: SAMPLE,
        extra: SAMPLE_EXTRA,
        patterns: "/etc/conf.d/*.ini|",
        order: "mem:mem cat:cat front:web_00 front:web_01 tail:tail",
        words: "memmon|-a|200MB|~/bin/cat|~/usr/bin/web|--port=8000|~/usr/bin/web|--port=8001|~/usr/bin/tail|-f|/dev/null|~",
    },
    Example {
        text: WEB_SERVICE,
        extra: "",
        patterns: "",
        order: "web:proxy web:worker_01 web:worker_02 web:worker_03 web:worker_04",
        words: "/bin/sh|/etc/web/proxy|8001|8004|~/bin/sh|/etc/web/serve|--port=8001|~/bin/sh|/etc/web/serve|--port=8002|~/bin/sh|/etc/web/serve|--port=8003|~/bin/sh|/etc/web/serve|--port=8004|~",
    },
    Example {
        text: LISTENER,
        extra: "",
        patterns: "",
        order: "mailer:mailer queue:queue",
        words: "/usr/bin/crashmail|-m|admin@example.org|~/usr/bin/queue|~",
    },
    Example {
        text: WITH_INCLUDES,
        extra: QUEUE,
        patterns: "/etc/conf.d/*.conf|/etc/supervisor/*.conf|",
        order: "cron:cron queue:queue",
        words: "/usr/sbin/cron|-f|~/usr/bin/queue|--spool=/var/spool/queue|~",
    },
];

fn patterns_said(rt: &impl Abort, alloc: Global, host: &Host, text: &str) -> String {
    match includes(alloc, text.as_bytes(), host) {
        Ok(patterns) => all_said(rt, alloc, patterns.as_slice()),
        Err(_) => String::new(alloc),
    }
}

/// The patterns, each ended by a bar.
fn all_said(rt: &impl Abort, alloc: Global, patterns: &[Text]) -> String {
    let mut said = String::new(alloc);
    for pattern in patterns {
        put_ended(rt, &mut said, pattern.as_str(), "|");
    }
    said
}

/// The configuration of a text and of one that it includes.
fn configured(
    rt: &impl Abort,
    alloc: Global,
    host: &Host,
    text: &str,
    extra: &str,
) -> Result<Config, ConfFault> {
    let included = included(rt, alloc, extra);
    config(alloc, text.as_bytes(), included.as_slice(), host)
}

/// The start order, or the fault.
fn order_of(rt: &impl Abort, alloc: Global, host: &Host, text: &str, extra: &str) -> String {
    match configured(rt, alloc, host, text, extra) {
        Ok(config) => order_said(rt, alloc, &config),
        Err(fault) => fault_said(rt, alloc, &fault),
    }
}

/// The words of all processes in start order, or the fault.
fn words_of(rt: &impl Abort, alloc: Global, host: &Host, text: &str, extra: &str) -> String {
    match configured(rt, alloc, host, text, extra) {
        Ok(config) => all_words_said(rt, alloc, &config),
        Err(fault) => fault_said(rt, alloc, &fault),
    }
}

fn all_words_said(rt: &impl Abort, alloc: Global, config: &Config) -> String {
    let mut said = String::new(alloc);
    for group in config.groups.as_slice() {
        for member in group.members.as_slice() {
            put_words(rt, alloc, &mut said, member);
        }
    }
    said
}

fn put_words(rt: &impl Abort, alloc: Global, said: &mut String, member: &Spec) {
    let words = words_said(rt, alloc, member);
    put_ended(rt, said, words.as_str(), "~");
}

fn example_row(rt: &impl Abort, alloc: Global, host: &Host, example: &Example) {
    example_patterns(rt, alloc, host, example);
    example_order(rt, alloc, host, example);
    example_words(rt, alloc, host, example);
}

fn example_patterns(rt: &impl Abort, alloc: Global, host: &Host, example: &Example) {
    let patterns = patterns_said(rt, alloc, host, example.text);
    same(rt, patterns.as_str(), example.patterns);
}

fn example_order(rt: &impl Abort, alloc: Global, host: &Host, example: &Example) {
    let order = order_of(rt, alloc, host, example.text, example.extra);
    same(rt, order.as_str(), example.order);
}

fn example_words(rt: &impl Abort, alloc: Global, host: &Host, example: &Example) {
    let words = words_of(rt, alloc, host, example.text, example.extra);
    same(rt, words.as_str(), example.words);
}

#[test]
fn configurations_of_administrators(rt: HostRuntime) {
    let alloc = rt.alloc();
    let host = host(&rt, alloc);
    for example in EXAMPLES.as_slice() {
        example_row(&rt, alloc, &host, example);
    }
}
