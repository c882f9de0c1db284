//! Texts and what they say.

use crate::checks::{check, same};
use std::alloc::{AllocError, Global};
use std::process::Abort;
use sv_ini::fault::IniFault;
use sv_ini::section::Section;
use sv_ini::sections::sections;

/// A configuration text a row, and what it says: the sections, each key and value ended by a bar, or the fault.
/// In both `~` stands for a line feed, `^` for CR, a backquote for a tab and `@` for NUL.
const TEXTS: &str = " => 
~ => 
   ` => 
; c => 
# c => 
  ; c~`# d => 
[a] => [a]
[a]~ => [a]
[a]^~ => [a]
[a] ` => [a]
[a] ; c => [a]
[a];c => [a]
[a] k => 2 BadLine 1
[a]k => 2 BadLine 1
[a] # c => 2 BadLine 1
[] => 2 BadLine 1
[a => 2 BadLine 1
a] => 2 BadLine 1
[ a ] => [ a ]
[a]b] => 2 BadLine 1
[a] k=v => 3 OutsideSection 1
[s]~[a] k=v => [s][a] k=v|
[program:x => 3 OutsideSection 1
[s]~[program:x => [s][program=x|
k=v => 3 OutsideSection 1
~;c~k=v => 3 OutsideSection 3
[a]~k=v => [a]k=v|
[a]~k:v => [a]k=v|
[a]~k=v:w => [a]k=v:w|
[a]~k:v=w => [a]k=v=w|
[a]~ k = v ` => [a]k=v|
[a]~K=V => [a]k=V|
[a]~Äk=v => [a]Äk=v|
[é]~ü=ß => [é]ü=ß|
[a]~k= => [a]k=|
[a]~k= ;c => [a]k=|
[a]~k=;c => [a]k=;c|
[a]~k=v ;c => [a]k=v|
[a]~k=v`;c => [a]k=v|
[a]~k=v;c => [a]k=v;c|
[a]~k=v # d => [a]k=v # d|
[a]~k=#d => [a]k=#d|
[a]~k=a ;b ;c => [a]k=a|
[a]~k ;x=v => [a]k ;x=v|
[a]~k = a  b  => [a]k=a  b|
[a]~=v => 2 BadLine 2
[a]~:v => 2 BadLine 2
[a]~ =v => 2 BadLine 2
[a]~word => 2 BadLine 2
[a]~k=v~  w => [a]k=v~w|
[a]~k=v~`w~ x=y => [a]k=v~w~x=y|
[a]~k=v~;c~`w => [a]k=v~w|
[a]~k=v~  ;c~  w => [a]k=v~w|
[a]~k=v~ w ;c => [a]k=v~w|
[a]~k=v~#c~ w` => [a]k=v~w|
[a]~k=~  3 => [a]k=~3|
[a]~k=v~ [b] => [a]k=v~[b]|
[a]~k=v~~ w=x => [a]k=v|w=x|
[a]~k=v~ `~ w=x => [a]k=v|w=x|
[a]~k=v~~ w => 2 BadLine 4
[a]~k=v~[b]~ w => 2 BadLine 4
[a]~k=v~# c~~  x => 2 BadLine 5
[a]~k=1~k=2 => [a]k=2|
[a]~k=1~j=3~K=2 => [a]k=2|j=3|
[a]~k=1~k=2~ more => [a]k=2~more|
[a]~k=1~j=2~k=3~ more => [a]k=3~more|j=2|
[a]~k=1~[b]~j=2~[a]~l=3 => [a]k=1|l=3|[b]j=2|
[a]~k=1~[a]~k=2 => [a]k=2|
[a]~k=v~~[a]~ x=1 => [a]k=v|x=1|
[b]~[a]~[b] => [b][a]
[a]^~k=v^~ => [a]k=v|
[a]~k=v^ => [a]k=v^|
[a]~k=v^^~ => [a]k=v^|
[a]~k=v~^~ w=x => [a]k=v|w=x|
 [a]~k=v => [a]k=v|
 k=v => 3 OutsideSection 1
[a]~k=@v => [a]k=@v|
[a]~bad~[b => 2 BadLine 2
k=v~bad => 3 OutsideSection 1
bad~k=v => 2 BadLine 1";

/// A whole file as an administrator writes it.
const SAMPLE: &str = "[unix_http_server]
file=/tmp/supervisor.sock   ; the path to the socket file

[inet_http_server]
port=127.0.0.1:9001
username=user
password=123

[supervisord]
logfile=/tmp/supervisord.log ; main log file
logfile_maxbytes=50MB
logfile_backups=10
loglevel=info
pidfile=/tmp/supervisord.pid
nodaemon=false
minfds=1024
minprocs=200

[rpcinterface:supervisor]
supervisor.rpcinterface_factory = supervisor.rpcinterface:make_main_rpcinterface

[supervisorctl]
serverurl=unix:///tmp/supervisor.sock

[program:cat]
command=/bin/cat
priority=10

[program:web]
command=/usr/bin/web --port=80%(process_num)02d
process_name=%(program_name)s_%(process_num)02d
numprocs=2
autorestart=true

[eventlistener:mem]
command=memmon -a 200MB
events=TICK_60

[group:front]
programs=web
priority=20

[include]
files = conf.d/*.ini
";

const SAMPLE_SECTIONS: &str =
    "[unix_http_server]file=/tmp/supervisor.sock|[inet_http_server]port=127.0.0.1:9001|username=user|password=123|[supervisord]logfile=/tmp/supervisord.log|logfile_maxbytes=50MB|logfile_backups=10|loglevel=info|pidfile=/tmp/supervisord.pid|nodaemon=false|minfds=1024|minprocs=200|[rpcinterface:supervisor]supervisor.rpcinterface_factory=supervisor.rpcinterface:make_main_rpcinterface|[supervisorctl]serverurl=unix:///tmp/supervisor.sock|[program:cat]command=/bin/cat|priority=10|[program:web]command=/usr/bin/web --port=80%(process_num)02d|process_name=%(program_name)s_%(process_num)02d|numprocs=2|autorestart=true|[eventlistener:mem]command=memmon -a 200MB|events=TICK_60|[group:front]programs=web|priority=20|[include]files=conf.d/*.ini|";

/// The bytes that a cell of the table stands for.
fn cell(alloc: Global, cell: &str) -> Result<String, AllocError> {
    let mut text = String::new(alloc);
    for letter in cell.chars() {
        text.push(match letter {
            '~' => '\n',
            '^' => '\r',
            '`' => '\t',
            '@' => '\0',
            _ => letter,
        })?;
    }
    Ok(text)
}

/// The sections as the table writes them.
fn told(alloc: Global, sections: &[Section]) -> Result<String, AllocError> {
    let mut text = String::new(alloc);
    for section in sections {
        tell(&mut text, section)?;
    }
    Ok(text)
}

fn tell(text: &mut String, section: &Section) -> Result<(), AllocError> {
    text.push('[')?;
    text.push_str(section.name.as_str())?;
    text.push(']')?;
    for entry in section.keys.as_slice() {
        text.push_str(entry.0.as_str())?;
        text.push('=')?;
        text.push_str(entry.1.as_str())?;
        text.push('|')?;
    }
    Ok(())
}

/// What the bytes say, as the table writes it.
fn said(alloc: Global, bytes: &[u8]) -> Result<String, AllocError> {
    match sections(alloc, bytes) {
        Ok(sections) => told(alloc, sections.as_slice()),
        Err(IniFault::OutOfMemory) => Err(AllocError),
        Err(fault) => format!(in alloc; "{fault}"),
    }
}

fn says(rt: &impl Abort, alloc: Global, bytes: &[u8], expected: &str) {
    let said = said(alloc, bytes).expect(rt, "ample memory");
    same(rt, said.as_str(), expected);
}

fn row(rt: &impl Abort, alloc: Global, row: &str) {
    let (text, expected) = row.split_once(" => ").expect(rt, "two cells");
    let text = cell(alloc, text).expect(rt, "ample memory");
    let expected = cell(alloc, expected).expect(rt, "ample memory");
    says(rt, alloc, text.as_bytes(), expected.as_str());
}

/// So many bytes, all the same.
fn filled(rt: &impl Abort, alloc: Global, byte: u8, count: usize) -> Vec<u8> {
    let mut bytes = Vec::new(alloc);
    for _ in 0..count {
        bytes.push(byte).expect(rt, "ample memory");
    }
    bytes
}

#[test]
fn texts_and_what_they_say(rt: HostRuntime) {
    let alloc = rt.alloc();
    for line in TEXTS.split('\n') {
        row(&rt, alloc, line);
    }
    says(&rt, alloc, SAMPLE.as_bytes(), SAMPLE_SECTIONS);
    says(
        &rt,
        alloc,
        b"[program:tail]\ncommand=/usr/bin/tail -f /dev/null",
        "[program:tail]command=/usr/bin/tail -f /dev/null|",
    );
    says(&rt, alloc, b"[a]\nk=\xff", "1 NotUtf8 6");
    says(&rt, alloc, b"\xc3", "1 NotUtf8 0");
    says(&rt, alloc, b"bad\n\xe2\x82", "1 NotUtf8 4");
    says(&rt, alloc, b"[a]\nk=\xc3\xa4\xc3", "1 NotUtf8 8");
}

#[test]
fn sizes_and_numbers(rt: HostRuntime) {
    let alloc = rt.alloc();
    let most = filled(&rt, alloc, b'#', 1_048_576);
    says(&rt, alloc, most.as_slice(), "");
    let more = filled(&rt, alloc, 0xff, 1_048_577);
    says(&rt, alloc, more.as_slice(), "4 TooLong");
    check(&rt, IniFault::NotUtf8(0).number() == Some(1));
    check(&rt, IniFault::BadLine(1).number() == Some(2));
    check(&rt, IniFault::OutsideSection(1).number() == Some(3));
    check(&rt, IniFault::TooLong.number() == Some(4));
    check(&rt, IniFault::OutOfMemory.number() == None);
}
