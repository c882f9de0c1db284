//! Waits with the states of the children, and what each then answers.

use crate::made::{is_text, made};
use crate::said::say_answered;
use crate::scenes::{Scene, running, stand};
use crate::told::waiting;
use std::alloc::Global;
use std::process::Abort;
use sv_calls::check;
use sv_xmlcall::call::Answered;

// Each line is a wait, after `@` the children, and after `=>` the answer, or `waits` while there is none.

/// Waits for a start of one process, with the number of the fault of its request where it had one.
const STARTS: &str = "wait one cat | started 0 @ STARTING pid=9 => waits
wait one cat | started 0 @ STARTING fault=no~file => waits
wait one cat | started 0 @ RUNNING pid=9 => true
wait one cat | started 0 @ RUNNING fault=no~file => true
wait one cat | started 0 @ BACKOFF => fault 40 ABNORMAL_TERMINATION: cat
wait one cat:cat | started 0 @ BACKOFF fault=no~file => fault 50 SPAWN_ERROR: cat:cat
wait one cat | started 0 @ FATAL => fault 40 ABNORMAL_TERMINATION: cat
wait one cat | started 0 @ FATAL fault=no~file => fault 50 SPAWN_ERROR: cat
wait one cat | started 0 @ EXITED => fault 40 ABNORMAL_TERMINATION: cat
wait one cat | started 0 @ EXITED fault=x => fault 50 SPAWN_ERROR: cat
wait one cat | started 0 @ STOPPED => fault 40 ABNORMAL_TERMINATION: cat
wait one cat | started 0 @ STOPPING => fault 40 ABNORMAL_TERMINATION: cat
wait one cat | started 0 @ UNKNOWN => fault 40 ABNORMAL_TERMINATION: cat
wait one cat | started 0 50 @ STARTING => waits
wait one cat | started 0 50 @ RUNNING => fault 50 SPAWN_ERROR: cat
wait one cat | started 0 20 @ BACKOFF fault=no~file => fault 20 NO_FILE: cat
wait one cat | started 0 21 @ BACKOFF fault=no~file => fault 21 NOT_EXECUTABLE: cat
wait one cat | started 0 50 @ FATAL => fault 50 SPAWN_ERROR: cat
now one cat | started 0 @ STARTING => true
now one cat | started 0 @ BACKOFF => true
now one cat | started 0 @ FATAL fault=no~file => true
now one cat | started 0 20 @ BACKOFF => fault 20 NO_FILE: cat
now one cat | started 0 21 @ BACKOFF => fault 21 NOT_EXECUTABLE: cat
now one cat | started 0 50 @ STARTING => fault 50 SPAWN_ERROR: cat";

/// Waits for a stop of one process, and other answers that are no array.
const OTHERS: &str = "wait one cat | stopped 0 @ STOPPING pid=9 => waits
wait one cat | stopped 0 @ RUNNING => waits
wait one cat | stopped 0 @ STARTING => waits
wait one cat | stopped 0 @ BACKOFF => waits
wait one cat | stopped 0 @ UNKNOWN => waits
wait one cat | stopped 0 @ STOPPED => true
wait one cat | stopped 0 @ EXITED => true
wait one cat | stopped 0 @ FATAL fault=no~file => true
now one cat | stopped 0 @ STOPPING => true
now one cat | stopped 0 @ RUNNING => true
now one cat | signalled 0 @ RUNNING => true
wait one cat | signalled 0 @ STARTING => true
now one cat | signalled 0 30 @ RUNNING => fault 30 FAILED
now one - | cleared main @ STOPPED => true
now one - | cleared main 20 @ STOPPED => fault 20 NO_FILE
now one - | cleared main 30 @ STOPPED => fault 30 FAILED
now one cat | cleared 0 @ STARTING => true
now one cat | cleared 0 30 @ RUNNING => fault 30 FAILED
now one cat | none @ RUNNING => true
now one - | none @ STOPPED => true";

/// Status arrays.
const ARRAYS: &str =
    "wait array - | started 0;started 1;started 2 @ RUNNING|STARTING|BACKOFF => waits
wait array - | started 0;started 1;started 2 @ RUNNING|BACKOFF|FATAL fault=x => [{name 'cat', group 'cat', status 80, description 'OK'}, {name 'a', group 'web', status 40, description 'ABNORMAL_TERMINATION: web:a'}, {name 'b', group 'web', status 50, description 'SPAWN_ERROR: web:b'}]
wait array web | started 1;started 2 @ STARTING|RUNNING|RUNNING => [{name 'a', group 'web', status 80, description 'OK'}, {name 'b', group 'web', status 80, description 'OK'}]
wait array - | started 0 20;started 1 21;started 2 50;started 3 @ BACKOFF|BACKOFF|BACKOFF|RUNNING => [{name 'cat', group 'cat', status 20, description 'NO_FILE: cat:cat'}, {name 'a', group 'web', status 21, description 'NOT_EXECUTABLE: web:a'}, {name 'b', group 'web', status 50, description 'SPAWN_ERROR: web:b'}, {name 'one', group 'w', status 80, description 'OK'}]
wait array w | started 3 50;started 4 @ STOPPED|STOPPED|STOPPED|BACKOFF|STARTING => waits
now array w | started 3;started 4 50 @ STOPPED|STOPPED|STOPPED|STARTING|BACKOFF => [{name 'one', group 'w', status 80, description 'OK'}, {name 'w', group 'w', status 50, description 'SPAWN_ERROR: w:w'}]
wait array web | stopped 2;stopped 1 @ STOPPED|STOPPED|STOPPING => waits
wait array web | stopped 2;stopped 1 @ STOPPED|STOPPING|EXITED => waits
wait array web | stopped 2;stopped 1 @ STARTING|STOPPED|EXITED => [{name 'b', group 'web', status 80, description 'OK'}, {name 'a', group 'web', status 80, description 'OK'}]
now array web | signalled 1 30;signalled 2 @ RUNNING|RUNNING|RUNNING => [{name 'a', group 'web', status 30, description 'FAILED'}, {name 'b', group 'web', status 80, description 'OK'}]
now array - | cleared 0;cleared 1 30;cleared 2 @ STOPPED|STOPPED|STOPPED => [{name 'cat', group 'cat', status 80, description 'OK'}, {name 'a', group 'web', status 30, description 'FAILED'}, {name 'b', group 'web', status 80, description 'OK'}]
now array z | none @ STOPPED => []
wait array z: | none @ STARTING => []
wait array z: | started 5 @ STARTING|STARTING|STARTING|STARTING|STARTING|EXITED => [{name 'q', group 'z', status 40, description 'ABNORMAL_TERMINATION: z:q'}]";

/// What the wait of a line is answered over these processes.
fn answer(rt: &impl Abort, alloc: Global, lives: &str, line: &str) -> Option<Answered> {
    answer_in(rt, alloc, &running(rt, alloc, lives), line)
}

fn answer_in(rt: &impl Abort, alloc: Global, scene: &Scene, line: &str) -> Option<Answered> {
    made(rt, check(alloc, &stand(scene), &waiting(rt, alloc, line)))
}

/// An answer in words.
fn said(rt: &impl Abort, alloc: Global, answered: &Option<Answered>) -> String {
    let mut said = String::new(alloc);
    say_answered(rt, &mut said, answered);
    said
}

fn is_answered(rt: &impl Abort, alloc: Global, row: &str) {
    let (given, wanted) = row.split_once(" => ").expect(rt, "two cells");
    let (line, lives) = given.split_once(" @ ").expect(rt, "two cells");
    let said = said(rt, alloc, &answer(rt, alloc, lives, line));
    is_text(rt, said.as_str(), wanted);
}

fn are_answered(rt: &impl Abort, alloc: Global, rows: &str) {
    for row in rows.split('\n') {
        is_answered(rt, alloc, row);
    }
}

#[test]
fn waits_are_answered(rt: HostRuntime) {
    are_answered(&rt, rt.alloc(), STARTS);
    are_answered(&rt, rt.alloc(), OTHERS);
    are_answered(&rt, rt.alloc(), ARRAYS);
}
