//! The commands, worked by hand: the calls that each makes, and what each answer prints.
use crate::checks::same;
use std::alloc::Global;
use std::process::Abort;
use sv_base::Text;
use sv_commands::{Line, Shown, Step, reply_shown, steps_of};
use sv_xmlcall::{Answered, Value};

/// Each line has the words of a command, `=>`, and its calls, without the `supervisor.` before each method.
const CALLS: &str = "\
status=>getAllProcessInfo()
status a g:*=>getAllProcessInfo()
start a=>startProcess(a)
start a g:* g: all g:x=>startProcess(a) startProcessGroup(g) startProcessGroup(g) startAllProcesses() startProcess(g:x)
stop a g:* all=>stopProcess(a) stopProcessGroup(g) stopAllProcesses()
restart a all=>stopProcess(a) stopAllProcesses() startProcess(a) startAllProcesses()
signal TERM a g:* all=>signalProcess(a,TERM) signalProcessGroup(g,TERM) signalAllProcesses(TERM)
clear a g: all=>clearProcessLogs(a) clearProcessLogs(g:*) clearAllProcessLogs()
tail a=>readProcessStdoutLog(a,-1600,0)
tail a stdout=>readProcessStdoutLog(a,-1600,0)
tail g: stderr=>readProcessStderrLog(g:*,-1600,0)
tail -5 a=>readProcessStdoutLog(a,-5,0)
tail -5 stderr=>readProcessStdoutLog(stderr,-5,0)
tail -2147483647 a stderr=>readProcessStderrLog(a,-2147483647,0)
tail -2147483648 a=>none
tail -0 a=>none
tail -05 a=>none
tail - a=>none
tail -f a=>none
tail a b=>none
tail a stdout b=>none
tail -5=>none
tail=>none
maintail=>readLog(-1600,0)
maintail a=>none
pid=>getPID()
pid g:=>getProcessInfo(g:*)
pid a b=>none
version=>getSupervisorVersion()
version a=>none
shutdown=>shutdown()
start=>none
stop=>none
restart=>none
clear=>none
signal=>none
signal TERM=>none
quit now=>none
Status=>none
reload=>none
";

/// Each line has the words of a command with one call, an answer, and what it prints: a status and a text in which `~`
/// stands for a line feed. An answer is `true`, `false`, a number, a fault as `!` and its number, a text as `'` and the
/// text, or rows as `[`, the parts of each with `/` between them and each with `;` behind it. `bad` is of another kind.
const ANSWERS: &str = "\
start x|true|0 x: started~
start x:x|true|0 x: started~
stop g:x|true|0 g:x: stopped~
signal HUP x|true|0 x: signalled~
clear x|true|0 x: cleared~
shutdown|true|0 Shut down~
start x|false|bad
start x|5|bad
shutdown|false|bad
start x|!6|1 x: ERROR (shutting down)~
start x|!10|1 x: ERROR (no such process)~
start g:*|!10|1 g: ERROR (no such group)~
clear g:|!10|1 g: ERROR (no such group)~
signal X x|!11|1 x: ERROR (bad signal name)~
start x|!20|1 x: ERROR (no such file)~
tail x|!20|1 x: ERROR (no log file)~
maintail|!20|1 ERROR (no log file)~
start x|!21|1 x: ERROR (file is not executable)~
start x|!40|1 x: ERROR (abnormal termination)~
start x|!50|1 x: ERROR (spawn error)~
start x|!60|1 x: ERROR (already started)~
stop x|!70|1 x: ERROR (not running)~
start x|!30|1 x: ERROR (fault 30)~
start all|!-7|1 ERROR (fault -7)~
start all|[a/a/80;g/b/80;|0 a: started~g:b: started~
stop g:*|[g/a/80;g/b/70;|1 g:a: stopped~g:b: ERROR (not running)~
start all|[a/a/20;|1 a: ERROR (no such file)~
clear all|[a/a/20;|1 a: ERROR (no log file)~
start all|[|0 
start all|[a/a;|bad
start all|true|bad
tail x|'no line feed|0 no line feed
maintail|'a~b~|0 a~b~
maintail|7|bad
version|'4.0.0|0 4.0.0~
pid|12|0 12~
pid|'12|bad
pid x|{12|0 12~
pid x|12|bad
pid x|!10|1 x: ERROR (no such process)~
status|[cat/cat/RUNNING/pid 12, uptime 0:00:05;bad/bad/FATAL/Exited too quickly (process log may have details);|\
3 cat                              RUNNING   pid 12, uptime 0:00:05~bad                              FATAL     Exited too quickly (process log may have details)~
status|[a/a/RUNNING/up;|0 a                                RUNNING   up~
status b:|[a/a/STOPPED/x;b/c/RUNNING/y;b/d/RUNNING/z;|0 b:c                              RUNNING   y~b:d                              RUNNING   z~
status a n g:*|[a/a/STOPPED/x;|4 a                                STOPPED   x~n: ERROR (no such process)~g: ERROR (no such group)~
status|[group_with_a_long_name/a_process_name_too/STARTING/;|3 group_with_a_long_name:a_process_name_too   STARTING  ~
status|[|0 
status|[a/a/RUNNING;|bad
status|true|bad
status|!6|1 ERROR (shutting down)~
";

fn put(rt: &impl Abort, out: &mut String, text: &str) {
    out.push_str(text).expect(rt, "ample memory");
}

fn put_letter(rt: &impl Abort, out: &mut String, letter: char) {
    out.push(letter).expect(rt, "ample memory");
}

fn copy_of(rt: &impl Abort, alloc: Global, text: &str) -> String {
    String::from_str(alloc, text).expect(rt, "ample memory")
}

fn words_of(rt: &impl Abort, alloc: Global, line: &str) -> Vec<Text> {
    let mut words = Vec::new(alloc);
    for word in line.split(' ') {
        put_word(rt, alloc, &mut words, word);
    }
    words
}

fn put_word(rt: &impl Abort, alloc: Global, words: &mut Vec<Text>, word: &str) {
    let word = Text::from_str(alloc, word).expect(rt, "ample memory");
    words.push(word).expect(rt, "ample memory");
}

fn put_number(rt: &impl Abort, out: &mut String, number: i64) {
    write!(out, "{number}").expect(rt, "ample memory");
}

fn put_param(rt: &impl Abort, out: &mut String, param: &Value) {
    match param {
        Value::Text(text) => put(rt, out, text.as_str()),
        Value::Int(number) => put_number(rt, out, *number),
        _ => put(rt, out, "?"),
    }
}

/// Adds a call, after a space where others stand before it.
fn put_call(rt: &impl Abort, out: &mut String, step: &Step) {
    if !out.as_str().is_empty() {
        put(rt, out, " ");
    }
    let method = step.call.method.as_str();
    put(
        rt,
        out,
        method.strip_prefix("supervisor.").unwrap_or(method),
    );
    put(rt, out, "(");
    let mut between = "";
    for param in &step.call.params {
        put(rt, out, between);
        put_param(rt, out, param);
        between = ",";
    }
    put(rt, out, ")");
}

fn calls_told(rt: &impl Abort, alloc: Global, steps: &[Step]) -> String {
    let mut out = String::new(alloc);
    for step in steps {
        put_call(rt, &mut out, step);
    }
    out
}

/// The calls of a command of these words.
fn calls_of(rt: &impl Abort, alloc: Global, words: &[Text]) -> String {
    match steps_of(alloc, words).expect(rt, "ample memory") {
        Some(steps) => calls_told(rt, alloc, steps.as_slice()),
        None => copy_of(rt, alloc, "none"),
    }
}

/// The calls of a command of the words of this line.
fn calls_in(rt: &impl Abort, alloc: Global, line: &str) -> String {
    let words = words_of(rt, alloc, line);
    calls_of(rt, alloc, words.as_slice())
}

fn calls_are(rt: &impl Abort, alloc: Global, words: &str, expected: &str) {
    let calls = calls_in(rt, alloc, words);
    same(rt, calls.as_str(), expected);
}

#[test]
fn commands_make_their_calls(rt: HostRuntime) {
    for line in CALLS.lines() {
        let (words, expected) = line.split_once("=>").expect(&rt, "two cells");
        calls_are(&rt, rt.alloc(), words, expected);
    }
}

fn number_of(text: &str) -> i64 {
    text.parse::<i64>().unwrap_or(-1)
}

/// A text with line feeds for `~`.
fn content_of(rt: &impl Abort, alloc: Global, text: &str) -> String {
    let mut content = String::new(alloc);
    for letter in text.chars() {
        put_letter(rt, &mut content, if letter == '~' { '\n' } else { letter });
    }
    content
}

fn text_value(rt: &impl Abort, alloc: Global, text: &str) -> Value {
    Value::Text(Text::from_string(content_of(rt, alloc, text)))
}

fn put_member(rt: &impl Abort, members: &mut Vec<(Text, Value)>, name: &'static str, value: Value) {
    members
        .push((Text::fixed(name), value))
        .expect(rt, "ample memory");
}

/// The name of a part of a row, by its place.
fn name_of(place: u8) -> &'static str {
    match place {
        0 => "group",
        1 => "name",
        2 => "statename",
        _ => "description",
    }
}

/// Adds a part of a row, of which there are so many.
fn put_part(
    rt: &impl Abort,
    alloc: Global,
    members: &mut Vec<(Text, Value)>,
    place: u8,
    parts: usize,
    part: &str,
) {
    if place == 2 && parts == 3 && part != "RUNNING" {
        put_member(rt, members, "status", Value::Int(number_of(part)));
    } else {
        put_member(rt, members, name_of(place), text_value(rt, alloc, part));
    }
}

/// The struct of a row: a group, a name, and a status, or a state with what is said of it.
fn row_of(rt: &impl Abort, alloc: Global, row: &str) -> Value {
    let mut members = Vec::new(alloc);
    let mut place = 0u8;
    let parts = row.split('/').count();
    for part in row.split('/') {
        put_part(rt, alloc, &mut members, place, parts, part);
        place = place.saturating_add(1);
    }
    Value::Struct(members)
}

/// Adds a row, if it isn't empty.
fn put_row(rt: &impl Abort, alloc: Global, values: &mut Vec<Value>, row: &str) {
    if !row.is_empty() {
        let row = row_of(rt, alloc, row);
        values.push(row).expect(rt, "ample memory");
    }
}

fn rows_of(rt: &impl Abort, alloc: Global, rows: &str) -> Value {
    let mut values = Vec::new(alloc);
    for row in rows.split(';') {
        put_row(rt, alloc, &mut values, row);
    }
    Value::Array(values)
}

fn process_of(rt: &impl Abort, alloc: Global, pid: &str) -> Value {
    let mut members = Vec::new(alloc);
    put_member(rt, &mut members, "pid", Value::Int(number_of(pid)));
    Value::Struct(members)
}

/// A truth or a number.
fn plain_value(text: &str) -> Value {
    match text {
        "true" => Value::Truth(true),
        "false" => Value::Truth(false),
        number => Value::Int(number_of(number)),
    }
}

fn value_of(rt: &impl Abort, alloc: Global, text: &str) -> Value {
    if let Some(content) = text.strip_prefix('\'') {
        return text_value(rt, alloc, content);
    }
    if let Some(rows) = text.strip_prefix('[') {
        return rows_of(rt, alloc, rows);
    }
    match text.strip_prefix('{') {
        Some(pid) => process_of(rt, alloc, pid),
        None => plain_value(text),
    }
}

fn answer_of(rt: &impl Abort, alloc: Global, text: &str) -> Answered {
    match text.strip_prefix('!') {
        Some(number) => Answered::Fault(number_of(number), Text::fixed("TEXT")),
        None => Answered::Value(value_of(rt, alloc, text)),
    }
}

/// A status and a text, in which `~` stands for a line feed.
fn line_told(rt: &impl Abort, alloc: Global, status: u8, text: &str) -> String {
    let mut out = String::new(alloc);
    put_number(rt, &mut out, i64::from(status));
    put(rt, &mut out, " ");
    for letter in text.chars() {
        put_letter(rt, &mut out, if letter == '\n' { '~' } else { letter });
    }
    out
}

fn shown_told(rt: &impl Abort, alloc: Global, shown: &Shown) -> String {
    let text = String::from_utf8_lossy(alloc, shown.text.as_slice()).expect(rt, "ample memory");
    line_told(rt, alloc, shown.status.number(), text.as_str())
}

fn reply_told(rt: &impl Abort, alloc: Global, line: &Line, answered: &Answered) -> String {
    match reply_shown(alloc, line, answered).expect(rt, "ample memory") {
        Some(shown) => shown_told(rt, alloc, &shown),
        None => copy_of(rt, alloc, "bad"),
    }
}

fn answer_told(rt: &impl Abort, alloc: Global, line: &Line, answer: &str) -> String {
    let answered = answer_of(rt, alloc, answer);
    reply_told(rt, alloc, line, &answered)
}

/// What the answer of the one call prints.
fn one_told(rt: &impl Abort, alloc: Global, steps: &[Step], answer: &str) -> String {
    match steps {
        [step] => answer_told(rt, alloc, &step.line, answer),
        _ => copy_of(rt, alloc, "not one call"),
    }
}

/// What the answer of a command of these words prints.
fn printed(rt: &impl Abort, alloc: Global, words: &[Text], answer: &str) -> String {
    match steps_of(alloc, words).expect(rt, "ample memory") {
        Some(steps) => one_told(rt, alloc, steps.as_slice(), answer),
        None => copy_of(rt, alloc, "none"),
    }
}

/// What the answer of a command of the words of this line prints.
fn printed_of(rt: &impl Abort, alloc: Global, line: &str, answer: &str) -> String {
    let words = words_of(rt, alloc, line);
    printed(rt, alloc, words.as_slice(), answer)
}

fn prints(rt: &impl Abort, alloc: Global, words: &str, answer: &str, expected: &str) {
    let text = printed_of(rt, alloc, words, answer);
    same(rt, text.as_str(), expected);
}

#[test]
fn answers_print_their_lines(rt: HostRuntime) {
    for line in ANSWERS.lines() {
        let (words, rest) = line.split_once('|').expect(&rt, "the words");
        let (answer, expected) = rest.split_once('|').expect(&rt, "an answer");
        prints(&rt, rt.alloc(), words, answer, expected);
    }
}
