//! Reading and clearing logs: which part of which file is read, what is cleared, or the fault.

use crate::act_tests::{all_come_out, come_out_over};
use crate::scenes::{BUSY, DOWN, scene_with};
use sv_base::state::Mood;

/// The main log has 10 bytes, as has the log of cat:cat.
const READS: &str = "readLog 0 0 => read /main.log 0 10
readLog -4 0 => read /main.log 6 4
readLog -4 1 => fault 3 BAD_ARGUMENTS
readLog 20 0 => read /main.log 10 0
readLog 2 3 => read /main.log 2 3
readLog -20 0 => read /main.log 0 10
readLog -10 0 => read /main.log 0 10
readLog -1 0 => read /main.log 9 1
readLog 10 0 => read /main.log 10 0
readLog 10 5 => read /main.log 10 0
readLog 9 5 => read /main.log 9 1
readLog 2 100 => read /main.log 2 8
readLog 0 10 => read /main.log 0 10
readLog 0 -1 => fault 3 BAD_ARGUMENTS
readLog -1 -1 => fault 3 BAD_ARGUMENTS
readLog 0 9223372036854775807 => read /main.log 0 10
readLog 9223372036854775807 9223372036854775807 => read /main.log 10 0
readLog -9223372036854775808 0 => read /main.log 0 10
readLog -9223372036854775808 -9223372036854775808 => fault 3 BAD_ARGUMENTS
readProcessStdoutLog cat 2 3 => read /cat.out 2 3
readProcessStdoutLog cat:cat -4 0 => read /cat.out 6 4
readProcessStdoutLog cat -4 1 => fault 3 BAD_ARGUMENTS
readProcessStderrLog cat 0 0 => fault 20 NO_FILE: cat
readProcessStderrLog cat -4 1 => fault 20 NO_FILE: cat
readProcessStdoutLog web:b 0 0 => fault 20 NO_FILE: web:b
readProcessStdoutLog nope 0 0 => fault 10 BAD_NAME: nope
readProcessStdoutLog nope -4 1 => fault 10 BAD_NAME: nope
readProcessStderrLog web:* 0 0 => fault 10 BAD_NAME: web:*
readProcessStdoutLog cat: 0 0 => fault 10 BAD_NAME: cat:
readProcessStderrLog web 0 0 => fault 10 BAD_NAME: web
readProcessStdoutLog web:a 0 0 => read /a.out 0 0
readProcessStdoutLog web:a 5 5 => read /a.out 0 0
readProcessStdoutLog web:a -5 0 => read /a.out 0 0";

/// The error log of web:a has 3,000,000 bytes, the log of w:one 1,048,576, that of w:w 1,048,577; so many as
/// 1,048,576 are read at once.
const SPANS: &str = "readProcessStderrLog web:a 0 0 => read /a.err 0 1048576
readProcessStderrLog web:a 0 1048575 => read /a.err 0 1048575
readProcessStderrLog web:a 0 1048576 => read /a.err 0 1048576
readProcessStderrLog web:a 0 1048577 => read /a.err 0 1048576
readProcessStderrLog web:a 1951423 0 => read /a.err 1951423 1048576
readProcessStderrLog web:a 1951424 0 => read /a.err 1951424 1048576
readProcessStderrLog web:a 1951425 0 => read /a.err 1951425 1048575
readProcessStderrLog web:a 2999999 0 => read /a.err 2999999 1
readProcessStderrLog web:a -1048575 0 => read /a.err 1951425 1048575
readProcessStderrLog web:a -1048576 0 => read /a.err 1951424 1048576
readProcessStderrLog web:a -1048577 0 => read /a.err 1951424 1048576
readProcessStderrLog web:a -3000000 0 => read /a.err 1951424 1048576
readProcessStdoutLog w:one 0 0 => read /one.log 0 1048576
readProcessStderrLog w:one -1048576 0 => read /one.log 0 1048576
readProcessStderrLog w 0 0 => read /w.err 0 1048576
readProcessStderrLog w -2000000 0 => read /w.err 1 1048576";

/// The ends of logs: the part, the size, and whether bytes were missed.
const TAILS: &str = "tailProcessStdoutLog cat 2 4 => tail /cat.out 6 4 10 true
tailProcessStdoutLog cat 6 4 => tail /cat.out 6 4 10 false
tailProcessStdoutLog cat 8 4 => tail /cat.out 8 2 10 false
tailProcessStdoutLog cat 5 4 => tail /cat.out 6 4 10 true
tailProcessStdoutLog cat 0 0 => tail /cat.out 10 0 10 true
tailProcessStdoutLog cat 10 0 => tail /cat.out 10 0 10 false
tailProcessStdoutLog cat 0 10 => tail /cat.out 0 10 10 false
tailProcessStdoutLog cat 0 9 => tail /cat.out 1 9 10 true
tailProcessStdoutLog cat 20 4 => tail /cat.out 10 0 10 false
tailProcessStdoutLog cat -5 4 => tail /cat.out 6 4 10 true
tailProcessStdoutLog cat 0 -5 => tail /cat.out 10 0 10 true
tailProcessStdoutLog cat -5 -5 => tail /cat.out 10 0 10 true
tailProcessStdoutLog cat 0 9223372036854775807 => tail /cat.out 0 10 10 false
tailProcessStdoutLog cat 9223372036854775807 9223372036854775807 => tail /cat.out 10 0 10 false
tailProcessStderrLog web:a 0 2000000 => tail /a.err 1951424 1048576 3000000 true
tailProcessStderrLog web:a 0 3000000 => tail /a.err 1951424 1048576 3000000 false
tailProcessStderrLog web:a 2999990 5 => tail /a.err 2999995 5 3000000 true
tailProcessStderrLog w 0 1048576 => tail /w.err 1 1048576 1048577 true
tailProcessStderrLog w 1 1048576 => tail /w.err 1 1048576 1048577 false
tailProcessStdoutLog web:a 0 100 => tail /a.out 0 0 0 false
tailProcessStdoutLog web:a 5 0 => tail /a.out 0 0 0 false
tailProcessStderrLog cat 0 100 => ['', 0, false]
tailProcessStdoutLog web:b -1 -1 => ['', 0, false]
tailProcessStderrLog web:b 0 100 => ['', 0, false]
tailProcessStdoutLog nope 0 0 => fault 10 BAD_NAME: nope
tailProcessStderrLog web:* 0 0 => fault 10 BAD_NAME: web:*
tailProcessStdoutLog web: 0 0 => fault 10 BAD_NAME: web:";

/// What is cleared, the logs of one process with one request.
const CLEARS: &str = "clearLog => clear /main.log | now one - | cleared main
clearProcessLogs cat => clear /cat.out | now one cat | cleared 0
clearProcessLogs web:a => clear /a.out /a.err | now one web:a | cleared 1
clearProcessLogs web:b => clear | now one web:b | cleared 2
clearProcessLogs w:one => clear /one.log /one.log | now one w:one | cleared 3
clearProcessLogs w => clear /w.err | now one w | cleared 4
clearProcessLogs web:* => fault 10 BAD_NAME: web:*
clearProcessLogs web: => fault 10 BAD_NAME: web:
clearProcessLogs web => fault 10 BAD_NAME: web
clearProcessLogs nope => fault 10 BAD_NAME: nope
clearAllProcessLogs => clear /cat.out;clear /a.out /a.err;clear;clear /one.log /one.log;clear /w.err;clear | now array - | cleared 0;cleared 1;cleared 2;cleared 3;cleared 4;cleared 5";

/// Without a main log.
const WITHOUT_MAIN: &str = "readLog 0 0 => fault 20 NO_FILE
readLog -4 1 => fault 20 NO_FILE
clearLog => fault 20 NO_FILE";

#[test]
fn reads_and_clears_logs(rt: HostRuntime) {
    let alloc = rt.alloc();
    come_out_over(&rt, alloc, BUSY, READS);
    come_out_over(&rt, alloc, BUSY, SPANS);
    come_out_over(&rt, alloc, BUSY, TAILS);
    come_out_over(&rt, alloc, DOWN, CLEARS);
}

#[test]
fn has_no_main_log(rt: HostRuntime) {
    let scene = scene_with(&rt, rt.alloc(), DOWN, Mood::Running, false, true);
    all_come_out(&rt, rt.alloc(), &scene, WITHOUT_MAIN);
}
