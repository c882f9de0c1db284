//! Tables of values, of orders and of faults.

use crate::checks::same;
use std::alloc::{AllocError, Global};
use std::process::Abort;
use sv_base::bytes::Bytes;
use sv_base::config::{ClientSpec, Config, Host, Password, Place, ServerSpec};
use sv_base::items::Items;
use sv_base::moment::Moment;
use sv_base::spec::{GroupSpec, LogSpec, PoolSpec, Spec};
use sv_base::text::Text;
use sv_conf::config::config;
use sv_sections::fault::ConfFault;

/// A text and included texts after `$`, a question, and its answer, or the fault. `~` stands for a line feed, a
/// backquote for a tab, `^` for U+0085, `@` for
/// the beginning of the section of a program p with the command c, `&` for that of a listener l for TICK_5. The host's
/// name is `box`, the file's directory `/etc`; the environment has H=/r, N=7 and again H=late.
const VALUES: &str = r#"@ => words: c|
@command=/bin/w a "b c" 'd' => words: /bin/w|a|b c|d|
@command= => words: 
@command=%(here)s/%(program_name)s.%(group_name)s.%(process_num)d.%(numprocs)d => words: /etc/p.p.0.1|
@command=%(host_node_name)s %(ENV_H)s %(ENV_N)s %% => words: box|/r|7|%|
@ => name: p
@process_name=q => name: q
@process_name=%(program_name)s_%(process_num)03d => name: p_000
@numprocs=2~process_name=x%(process_num)s => order: p:x0 p:x1
@numprocs=002~process_name=x%(process_num)02d~numprocs_start=009 => order: p:x09 p:x10
@numprocs=%(ENV_N)s~process_name=%(process_num)d => order: p:0 p:1 p:2 p:3 p:4 p:5 p:6
@numprocs=2~process_name=x%(process_num)02d~numprocs_start=1000000 => order: p:x1000000 p:x1000001
@ => priority: 999
@priority=-2147483648 => priority: -2147483648
@priority=+0012 => priority: 12
@priority=2147483647 => priority: 2147483647
@priority=-0 => priority: 0
@ => autostart: true
@autostart=OFF => autostart: false
@ => startsecs: 1
@startsecs=0 => startsecs: 0
@startsecs=1000000 => startsecs: 1000000
@ => startretries: 3
@startretries=0000000000000000000000000000005 => startretries: 5
@ => stopwaitsecs: 10
@stopwaitsecs=1000000 => stopwaitsecs: 1000000
@ => autorestart: Unexpected
@autorestart=TRUE => autorestart: Always
@autorestart=no => autorestart: Never
@autorestart=UnExpected => autorestart: Unexpected
@ => exitcodes: 0,
@exitcodes= => exitcodes: 
@exitcodes=0,2 , 255 => exitcodes: 0,2,255,
@ => stopsignal: TERM
@stopsignal=sigusr2 => stopsignal: USR2
@stopsignal=9 => stopsignal: KILL
@ => stopasgroup: false
@stopasgroup=1 => stopasgroup: true
@ => killasgroup: false
@stopasgroup=true => killasgroup: true
@killasgroup=false~stopasgroup=true => killasgroup: false
@killasgroup=true => killasgroup: true
@ => redirect_stderr: false
@redirect_stderr=yes => redirect_stderr: true
@ => stdout: /tmp/p-p-stdout.log 52428800 10 0 false
@ => stderr: /tmp/p-p-stderr.log 52428800 10 0 false
@stdout_logfile=none => stdout: - 52428800 10 0 false
@stdout_logfile=Auto => stdout: /tmp/p-p-stdout.log 52428800 10 0 false
@stdout_logfile=auto.log => stdout: auto.log 52428800 10 0 false
@stdout_logfile=/o#1 => stdout: /o#1 52428800 10 0 false
@stderr_logfile=/e => stderr: /e 52428800 10 0 false
@stderr_logfile=NONE => stderr: - 52428800 10 0 false
@stdout_logfile_maxbytes=0 => stdout: /tmp/p-p-stdout.log 0 10 0 false
@stdout_logfile_maxbytes=2kb~stderr_logfile_maxbytes=1GB => stdout: /tmp/p-p-stdout.log 2048 10 0 false
@stdout_logfile_maxbytes=2kb~stderr_logfile_maxbytes=1GB => stderr: /tmp/p-p-stderr.log 1073741824 10 0 false
@stdout_logfile_backups=0~stderr_logfile_backups=1000 => stdout: /tmp/p-p-stdout.log 52428800 0 0 false
@stdout_logfile_backups=0~stderr_logfile_backups=1000 => stderr: /tmp/p-p-stderr.log 52428800 1000 0 false
@stdout_capture_maxbytes=16MB~stderr_capture_maxbytes=1 => stdout: /tmp/p-p-stdout.log 52428800 10 16777216 false
@stdout_capture_maxbytes=16MB~stderr_capture_maxbytes=1 => stderr: /tmp/p-p-stderr.log 52428800 10 1 false
@stdout_events_enabled=on => stdout: /tmp/p-p-stdout.log 52428800 10 0 true
@stderr_events_enabled=on => stderr: /tmp/p-p-stderr.log 52428800 10 0 true
[supervisord]~childlogdir=/var/%(ENV_H)s~@ => stdout: /var//r/p-p-stdout.log 52428800 10 0 false
@process_name=q~[group:g]~programs=p => stderr: /tmp/g-q-stderr.log 52428800 10 0 false
@ => environment: SUPERVISOR_ENABLED=1|SUPERVISOR_GROUP_NAME=p|SUPERVISOR_PROCESS_NAME=p|
@environment=B="2,3",A='1' => environment: A=1|B=2,3|SUPERVISOR_ENABLED=1|SUPERVISOR_GROUP_NAME=p|SUPERVISOR_PROCESS_NAME=p|
@environment=A=%(process_num)d%(group_name)s => environment: A=0p|SUPERVISOR_ENABLED=1|SUPERVISOR_GROUP_NAME=p|SUPERVISOR_PROCESS_NAME=p|
[supervisord]~environment=A=1,Z=2~@environment=A=3 => environment: A=3|SUPERVISOR_ENABLED=1|SUPERVISOR_GROUP_NAME=p|SUPERVISOR_PROCESS_NAME=p|Z=2|
@environment=SUPERVISOR_ENABLED=0,T=a,T=b => environment: SUPERVISOR_ENABLED=0|SUPERVISOR_GROUP_NAME=p|SUPERVISOR_PROCESS_NAME=p|T=b|
[supervisord]~environment=SUPERVISOR_GROUP_NAME=d~@ => environment: SUPERVISOR_ENABLED=1|SUPERVISOR_GROUP_NAME=d|SUPERVISOR_PROCESS_NAME=p|
[unix_http_server]~file=/s~@ => url: unix:///s
[inet_http_server]~port=9001~@ => url: http://localhost:9001
[inet_http_server]~port=*:09001~@ => url: http://localhost:9001
[inet_http_server]~port=h:80~@ => url: http://h:80
[inet_http_server]~port=h:80~[unix_http_server]~file=/s~@ => url: unix:///s
[unix_http_server]~file=/s~@serverurl=auto => url: unix:///s
[unix_http_server]~file=/s~@serverurl=http://x:1 => url: http://x:1
@serverurl=AUTO => url: 
@serverurl=u => url: u
[unix_http_server]~file=/s~@environment=SUPERVISOR_SERVER_URL=mine => url: mine
@ => directory: 
@directory=/d/%(process_num)d => directory: /d/0
@ => umask: 
@umask=022 => umask: 022
@umask= => umask: 
@ => user: 
@user=joe => user: joe
@[group:g]~programs=p => group: g 999 -
@[group:g]~programs=p~priority=-1 => group: g -1 -
@priority=5 => group: p 5 -
&@ => group: l -1 TICK_5,10
&buffer_size=65536~events=TICK_60 , EVENT,PROCESS_GROUP_ADDED~@ => group: l -1 TICK_60,EVENT,PROCESS_GROUP_ADDED,65536
&priority=1000~@ => group: p 999 -
&stdout_capture_maxbytes=1KB~stderr_capture_maxbytes=1KB~@ => stdout: /tmp/l-l-stdout.log 52428800 10 0 false
&stdout_capture_maxbytes=1KB~stderr_capture_maxbytes=1KB~@ => stderr: /tmp/l-l-stderr.log 52428800 10 1024 false
&redirect_stderr=off~@ => redirect_stderr: false
&numprocs=2~process_name=%(program_name)s%(process_num)d => order: l:l0 l:l1
 => main: supervisord.log 52428800 10 0 false
[supervisord]~logfile=/m~logfile_maxbytes=1KB~logfile_backups=3 => main: /m 1024 3 0 false
[supervisord]~logfile=NONE => main: - 52428800 10 0 false
[supervisord]~logfile=none => main: none 52428800 10 0 false
 => level: Info
[supervisord]~loglevel=critical => level: Critical
[supervisord]~loglevel=error => level: Error
[supervisord]~loglevel=warn => level: Warn
[supervisord]~loglevel=debug => level: Debug
[supervisord]~loglevel=trace => level: Trace
[supervisord]~loglevel=blather => level: Blather
 => identifier: supervisor
[supervisord]~identifier=%(host_node_name)s => identifier: box
 => servers: 
[unix_http_server]~file=/s => servers: /s - none|
[unix_http_server]~file=%(here)s/s~username=u~password=p => servers: /etc/s u p|
[inet_http_server]~port=:9001 => servers: :9001 - none|
[inet_http_server]~port=*:9001 => servers: :9001 - none|
[inet_http_server]~port=a:b:65535~username=u~password=p => servers: a:b:65535 u p|
[inet_http_server]~port=1~password={SHA}A9993e364706816aba3e25717850c26c9cd0d89d~[unix_http_server]~file=/s => servers: :1 - sha 169 157|/s - none|
[unix_http_server]~file=/s~password= => servers: /s - none|
[unix_http_server]~file=/s~password={sha} => servers: /s - {sha}|
 => client: http://localhost:9001  
[supervisorctl]~serverurl=unix:///s~username=u~password={SHA} => client: unix:///s u {SHA}
 => rpc: false
[rpcinterface:supervisor]~supervisor.rpcinterface_factory = supervisor.rpcinterface:make_main_rpcinterface => rpc: true
[other]~key=value~[rpcinterface]~[nothing:x] => order: 
@pidfile=/p~minfds=1 => order: p:p
[program:b]~command=b~[program:a]~command=a~[program:c]~command=c~priority=1 => order: c:c a:a b:b
[program:b]~command=b~[program:a]~command=a~[group:z]~programs=b,a~priority=1~[program:c]~command=c => order: z:a z:b c:c
@[group:g]~programs= p ~[group:h]~programs=p => order: g:p h:p
@process_name=%(group_name)s~[group:g]~programs=p~[group:h]~programs=p => order: g:g h:h
@numprocs=2~process_name=x%(process_num)02d~[program:q]~command=q~priority=1~[group:g]~programs=p,q => order: g:q g:x00 g:x01
@[program:q]~command=q~@startsecs=7 => startsecs: 7
[program:web]~command=/bin/w~numprocs=3~numprocs_start=1~process_name=web_%(process_num)02d => order: web:web_01 web:web_02 web:web_03
[program:a]~command=a~user=joe => user: joe
@$[program:q]~command=q => order: p:p q:q
@$[program:p]~startsecs=9$[program:p]~startsecs=8 => startsecs: 8
[include]~files=~@ => order: p:p
[include]~files=x~@$[include]~files=%(no)s~[program:q]~command=q => order: p:p q:q
@$[include]~ => order: p:p
@numprocs=1024~process_name=%(process_num)04d => name: 0000"#;

/// Texts and their faults, as above.
const FAULTS: &str = r#"word => 1 Ini 2 BadLine 1
k=v => 1 Ini 3 OutsideSection 1
@$[a]~~word => 1 Ini 2 BadLine 3
[include]~word => 1 Ini 2 BadLine 2
[include]~$word => 2 Missing include files
[include]~files=%(no)s$word => 4 Expand include files
[include]~files=%(program_name)s => 4 Expand include files
[include]~files=x$[a]~w$k=v => 1 Ini 2 BadLine 2
[fcgi-program:x]$word => 1 Ini 2 BadLine 1
[program:a b]~[fcgi-program:x] => 7 Unsupported fcgi-program:x
[rpcinterface:x]~[fcgi-program:x] => 7 Unsupported rpcinterface:x
[rpcinterface:] => 7 Unsupported rpcinterface:
[program:a b] => 3 BadValue program:a b name
[program:] => 3 BadValue program: name
[program:a/b] => 3 BadValue program:a/b name
[program:a:b] => 3 BadValue program:a:b name
[program:a*] => 3 BadValue program:a* name
[eventlistener:a^] => 3 BadValue eventlistener:a^ name
[group:`]~programs=x => 3 BadValue group:` name
[program:é]~command=é => é:é
[program:a] => 2 Missing program:a command
[eventlistener:a]~events=x => 2 Missing eventlistener:a command
[eventlistener:a]~command=x => 2 Missing eventlistener:a events
[eventlistener:a]~command=%(no)s => 2 Missing eventlistener:a events
[unix_http_server] => 2 Missing unix_http_server file
[inet_http_server] => 2 Missing inet_http_server port
[group:g] => 2 Missing group:g programs
[group:a b]~ => 2 Missing group:a b programs
[group:a b]~programs=x => 3 BadValue group:a b name
@command="x => 3 BadValue program:p command
@command=%(no)s => 4 Expand program:p command
@command=%(process_num)x => 4 Expand program:p command
@command=%(no)s~process_name=a:b => 4 Expand program:p command
@process_name=a:b~command="x => 3 BadValue program:p command
@process_name=a:b~numprocs=0 => 3 BadValue program:p process_name
@process_name= => 3 BadValue program:p process_name
@process_name=%(process_num)2d => 3 BadValue program:p process_name
@numprocs=0~numprocs_start=x => 3 BadValue program:p numprocs
@numprocs=1025 => 3 BadValue program:p numprocs
@numprocs=%(process_num)d => 4 Expand program:p numprocs
@numprocs=~  3 => 3 BadValue program:p numprocs
@numprocs_start=1000001~priority=x => 3 BadValue program:p numprocs_start
@numprocs_start=%(numprocs)d => 4 Expand program:p numprocs_start
@priority=2147483648~autostart=x => 3 BadValue program:p priority
@priority=-2147483649 => 3 BadValue program:p priority
@priority=+-1 => 3 BadValue program:p priority
@priority=- => 3 BadValue program:p priority
@priority=%(process_num)d => 4 Expand program:p priority
@autostart=x~startsecs=x => 3 BadValue program:p autostart
@startsecs=-1~startretries=x => 3 BadValue program:p startsecs
@startsecs=1000001 => 3 BadValue program:p startsecs
@startsecs= => 3 BadValue program:p startsecs
@startretries=1.5~stopwaitsecs=x => 3 BadValue program:p startretries
@stopwaitsecs=99999999999999999999~autorestart=x => 3 BadValue program:p stopwaitsecs
@autorestart=x~exitcodes=x => 3 BadValue program:p autorestart
@exitcodes=256~stopsignal=x => 3 BadValue program:p exitcodes
@exitcodes=1,,2 => 3 BadValue program:p exitcodes
@exitcodes=1, => 3 BadValue program:p exitcodes
@stopsignal=09~stopasgroup=x => 3 BadValue program:p stopsignal
@stopasgroup=x~killasgroup=x => 3 BadValue program:p stopasgroup
@killasgroup=x~redirect_stderr=x => 3 BadValue program:p killasgroup
@redirect_stderr=x~stdout_logfile= => 3 BadValue program:p redirect_stderr
&redirect_stderr=true => 3 BadValue eventlistener:l redirect_stderr
@stdout_logfile=~stderr_logfile= => 3 BadValue program:p stdout_logfile
@stderr_logfile=~stdout_logfile_maxbytes=x => 3 BadValue program:p stderr_logfile
@stdout_logfile_maxbytes=x~stderr_logfile_maxbytes=x => 3 BadValue program:p stdout_logfile_maxbytes
@stderr_logfile_maxbytes=1TB~stdout_logfile_backups=x => 3 BadValue program:p stderr_logfile_maxbytes
@stdout_logfile_backups=1001~stderr_logfile_backups=x => 3 BadValue program:p stdout_logfile_backups
@stderr_logfile_backups=x~stdout_capture_maxbytes=x => 3 BadValue program:p stderr_logfile_backups
@stdout_capture_maxbytes=16777217~stderr_capture_maxbytes=x => 3 BadValue program:p stdout_capture_maxbytes
&stdout_capture_maxbytes=17MB => 3 BadValue eventlistener:l stdout_capture_maxbytes
@stderr_capture_maxbytes=x~stdout_events_enabled=x => 3 BadValue program:p stderr_capture_maxbytes
@stdout_events_enabled=x~stderr_events_enabled=x => 3 BadValue program:p stdout_events_enabled
@stderr_events_enabled=x~environment=x => 3 BadValue program:p stderr_events_enabled
@environment=x~directory=%(no)s => 3 BadValue program:p environment
@directory=%(no)s~umask=x => 4 Expand program:p directory
@umask=8~user=%(no)s => 3 BadValue program:p umask
@user=%(no)s~serverurl=%(no)s => 4 Expand program:p user
@serverurl=%~numprocs=2 => 4 Expand program:p serverurl
&events=TICK_7~buffer_size=x => 3 BadValue eventlistener:l events
&events=tick_5 => 3 BadValue eventlistener:l events
&events= => 3 BadValue eventlistener:l events
&events=%(numprocs)d => 4 Expand eventlistener:l events
&buffer_size=0~numprocs=2 => 3 BadValue eventlistener:l buffer_size
&buffer_size=65537 => 3 BadValue eventlistener:l buffer_size
&serverurl=%(no)s~buffer_size=%(process_num)d => 4 Expand eventlistener:l serverurl
@numprocs=2~command="%(process_num)s => 3 BadValue program:p command
@numprocs=2~process_name=%(process_num)d~exitcodes=256%(process_num)d => 3 BadValue program:p exitcodes
@numprocs=2~process_name=%(process_num)d~startsecs=%(process_num)d~umask=%(process_num)d8 => 3 BadValue program:p umask
@numprocs=10~process_name=%(process_num)d~umask=%(process_num)d~startsecs=99999%(process_num)d => 3 BadValue program:p umask
@numprocs=11~process_name=%(process_num)d~umask=%(process_num)d~startsecs=99999%(process_num)d => 3 BadValue program:p startsecs
[program:web]~command=/bin/w~numprocs=3~numprocs_start=1 => 5 NeedsNumber program:web
@numprocs=2~process_name=%%(process_num)s => 5 NeedsNumber program:p
@numprocs=2~process_name=p%(numprocs)d => 5 NeedsNumber program:p
@numprocs=2~[program:q] => 5 NeedsNumber program:p
[program:q]~command=q~numprocs=2~@umask=9 => 5 NeedsNumber program:q
[unix_http_server]~@umask=9 => 3 BadValue program:p umask
[unix_http_server]~file=~username=%(no)s => 3 BadValue unix_http_server file
[unix_http_server]~file=/s~username=%(no)s~password=%(no)s => 4 Expand unix_http_server username
[unix_http_server]~file=/s~password={SHA}12 => 3 BadValue unix_http_server password
[unix_http_server]~file=/s~password={SHA}g9993e364706816aba3e25717850c26c9cd0d89d => 3 BadValue unix_http_server password
[inet_http_server]~port=0 => 3 BadValue inet_http_server port
[inet_http_server]~port=65536 => 3 BadValue inet_http_server port
[inet_http_server]~port=h: => 3 BadValue inet_http_server port
[inet_http_server]~port=%(program_name)s~username=%(no)s => 4 Expand inet_http_server port
[supervisord]~logfile=~logfile_maxbytes=x => 3 BadValue supervisord logfile
[supervisord]~logfile_maxbytes=x~logfile_backups=x => 3 BadValue supervisord logfile_maxbytes
[supervisord]~logfile_backups=x~loglevel=x => 3 BadValue supervisord logfile_backups
[supervisord]~loglevel=INFO~identifier=%(no)s => 3 BadValue supervisord loglevel
[supervisord]~identifier=%(no)s~environment=x => 4 Expand supervisord identifier
[supervisord]~environment=x~childlogdir= => 3 BadValue supervisord environment
[supervisord]~childlogdir= => 3 BadValue supervisord childlogdir
[supervisorctl]~serverurl=%(no)s~[supervisord]~logfile= => 4 Expand supervisorctl serverurl
[supervisorctl]~serverurl=%(no)s~username=%(no)s => 4 Expand supervisorctl serverurl
[supervisorctl]~username=%(no)s~password=%(no)s => 4 Expand supervisorctl username
[supervisorctl]~password=%(no)s => 4 Expand supervisorctl password
[inet_http_server]~port=0~[unix_http_server]~file= => 3 BadValue inet_http_server port
[inet_http_server]~port=1~username=%(no)s~password={SHA}x => 4 Expand inet_http_server username
[supervisord]~logfile=~[supervisorctl]~serverurl=%(no)s => 3 BadValue supervisord logfile
[group:g]~[supervisord]~loglevel=x => 3 BadValue supervisord loglevel
[group:g]~programs=%(no)s~priority=x => 4 Expand group:g programs
[group:g]~programs=a,,b~priority=x => 3 BadValue group:g programs
[group:g]~programs=~priority=x => 3 BadValue group:g programs
[group:g]~programs=nope~priority=x => 3 BadValue group:g priority
[group:g]~programs=nope => 6 NoSuchProgram g nope
@[group:g]~programs=p,q,r => 6 NoSuchProgram g q
&[group:g]~programs=l => 6 NoSuchProgram g l
[group:g]~programs=x~[group:h] => 6 NoSuchProgram g x
@[group:p]~programs=q~[program:q]~command=c~[group:h]~programs=z => 6 NoSuchProgram h z
@[program:q]~command=q~[group:p]~programs=q => 8 TwiceNamed p
@[eventlistener:p]~command=c~events=EVENT => 8 TwiceNamed p
@[group:g]~programs=p,p => 8 TwiceNamed p
@process_name=x~[program:q]~command=q~process_name=x~[group:g]~programs=q,p => 8 TwiceNamed x
@[eventlistener:p]~command=c~events=EVENT~[group:g]~programs=q,q~[program:q]~command=q => 8 TwiceNamed p
[group:g]~programs=q,q~[program:q]~command=q~@[eventlistener:p]~command=c~events=EVENT => 8 TwiceNamed q
@numprocs=1024~process_name=%(process_num)d~[program:q]~command=q => 9 TooMany
@numprocs=1024~process_name=%(process_num)d~[group:g]~programs=p~[group:h]~programs=p~[group:g2]~programs=p,p => 8 TwiceNamed 0
@numprocs=513~process_name=%(process_num)d~[group:g]~programs=p~[group:h]~programs=p => 9 TooMany
@numprocs=1024~process_name=%(process_num)d~stdout_logfile=/%(program_name)s~[program:q]~command=q => 9 TooMany
@numprocs=1024~process_name=%(process_num)d~startsecs=%(process_num)d~[program:q]~command=q => 9 TooMany
@numprocs=1024~process_name=%(group_name)s%(process_num)d~[group:g]~programs=p~[group:h]~programs=p => 9 TooMany
&numprocs=1024~process_name=%(process_num)d~@ => 9 TooMany
@numprocs=1024~process_name=%(process_num)d~startsecs=99999%(process_num)d~[program:q] => 3 BadValue program:p startsecs
@numprocs=1024~process_name=/%(process_num)d~[program:q] => 3 BadValue program:p process_name
@numprocs=1024~process_name=%(process_num)d~[program:q]~command=q~startsecs=x => 3 BadValue program:q startsecs
@numprocs=1024~process_name=%(process_num)d~[program:q]~command=q~numprocs=2 => 5 NeedsNumber program:q
@numprocs=1024~process_name=%(process_num)d~[program:q]~command=q~[supervisord]~loglevel=x => 3 BadValue supervisord loglevel
@numprocs=1024~process_name=%(process_num)d~[program:q]~command=q~[group:g]~programs=q,x => 6 NoSuchProgram g x
@numprocs=1024~process_name=%(process_num)d~[eventlistener:p]~command=c~events=EVENT => 8 TwiceNamed p"#;

/// Adds a text.
pub fn put(rt: &impl Abort, said: &mut String, text: &str) {
    said.push_str(text).expect(rt, "ample memory");
}

fn copy_of(rt: &impl Abort, alloc: Global, text: &str) -> String {
    String::from_str(alloc, text).expect(rt, "ample memory")
}

/// Adds a text and what ends it.
pub fn put_ended(rt: &impl Abort, said: &mut String, text: &str, end: &str) {
    put(rt, said, text);
    put(rt, said, end);
}

/// The host that the tests' configurations are read for.
pub fn host(rt: &impl Abort, alloc: Global) -> Host {
    Host {
        name: Text::fixed("box"),
        here: Text::fixed("/etc"),
        pid: 7,
        environment: environment(rt, alloc),
        start: Moment::zero(),
    }
}

fn environment(rt: &impl Abort, alloc: Global) -> Items<(Text, Text)> {
    let mut environment = Items::new(alloc);
    set(rt, &mut environment, "H", "/r");
    set(rt, &mut environment, "N", "7");
    set(rt, &mut environment, "H", "late");
    environment
}

fn set(
    rt: &impl Abort,
    environment: &mut Items<(Text, Text)>,
    name: &'static str,
    value: &'static str,
) {
    environment
        .push((Text::fixed(name), Text::fixed(value)))
        .expect(rt, "ample memory");
}

fn text_of(rt: &impl Abort, alloc: Global, cell: &str) -> String {
    let mut text = String::new(alloc);
    for c in cell.chars() {
        let done = match c {
            '~' => text.push('\n'),
            '`' => text.push('\t'),
            '^' => text.push('\u{85}'),
            '@' => text.push_str("[program:p]\ncommand=c\n"),
            '&' => text.push_str("[eventlistener:l]\ncommand=c\nevents=TICK_5\n"),
            c => text.push(c),
        };
        done.expect(rt, "ample memory");
    }
    text
}

fn log_said(rt: &impl Abort, alloc: Global, log: &LogSpec) -> String {
    let file = match &log.file {
        Some(file) => file.as_str(),
        None => "-",
    };
    let (maxbytes, backups) = (log.maxbytes, log.backups.get());
    let (capture, events) = (log.capture.get(), log.events);
    let said = format!(in alloc; "{file} {maxbytes} {backups} {capture} {events}");
    said.expect(rt, "ample memory")
}

/// The words of a process's command, each ended by a bar.
pub fn words_said(rt: &impl Abort, alloc: Global, spec: &Spec) -> String {
    let mut said = String::new(alloc);
    for word in spec.words.as_slice() {
        put_ended(rt, &mut said, word.as_str(), "|");
    }
    said
}

fn codes_said(rt: &impl Abort, alloc: Global, spec: &Spec) -> String {
    let mut said = String::new(alloc);
    for code in spec.exitcodes.as_slice() {
        write!(said, "{},", *code).expect(rt, "ample memory");
    }
    said
}

fn spec_said(rt: &impl Abort, alloc: Global, spec: &Spec, question: &str) -> String {
    match question {
        "words" => words_said(rt, alloc, spec),
        "exitcodes" => codes_said(rt, alloc, spec),
        "stdout" => log_said(rt, alloc, &spec.stdout),
        "stderr" => log_said(rt, alloc, &spec.stderr),
        "environment" => environment_said(rt, alloc, spec),
        "url" => url_said(rt, alloc, spec),
        question => value_said(alloc, spec, question).expect(rt, "ample memory"),
    }
}

/// A number, a choice, a truth or a text.
fn value_said(alloc: Global, spec: &Spec, question: &str) -> Result<String, AllocError> {
    match question {
        "priority" => format!(in alloc; "{}", spec.priority),
        "autostart" => format!(in alloc; "{}", spec.autostart),
        "startsecs" => format!(in alloc; "{}", spec.startsecs.get()),
        "startretries" => format!(in alloc; "{}", spec.startretries.get()),
        "stopwaitsecs" => format!(in alloc; "{}", spec.stopwaitsecs.get()),
        "autorestart" => format!(in alloc; "{:?}", spec.autorestart),
        "stopasgroup" => format!(in alloc; "{}", spec.stopasgroup),
        "killasgroup" => format!(in alloc; "{}", spec.killasgroup),
        "redirect_stderr" => format!(in alloc; "{}", spec.redirect_stderr),
        "name" => String::from_str(alloc, spec.name.as_str()),
        "stopsignal" => String::from_str(alloc, spec.stopsignal.name()),
        "directory" => String::from_str(alloc, spec.directory.as_str()),
        "umask" => String::from_str(alloc, spec.umask.as_str()),
        "user" => String::from_str(alloc, spec.user.as_str()),
        _ => String::from_str(alloc, "no such question"),
    }
}

fn environment_said(rt: &impl Abort, alloc: Global, spec: &Spec) -> String {
    let mut said = String::new(alloc);
    for variable in spec.environment.as_slice() {
        put_variable(rt, &mut said, variable);
    }
    said
}

fn put_variable(rt: &impl Abort, said: &mut String, variable: &(Text, Text)) {
    put_ended(rt, said, variable.0.as_str(), "=");
    put_ended(rt, said, variable.1.as_str(), "|");
}

fn url_said(rt: &impl Abort, alloc: Global, spec: &Spec) -> String {
    let mut said = String::new(alloc);
    for variable in spec.environment.as_slice() {
        put_url(rt, &mut said, variable);
    }
    said
}

/// Adds the value of the variable if it has the URL of the server.
fn put_url(rt: &impl Abort, said: &mut String, variable: &(Text, Text)) {
    if variable.0.as_str() == "SUPERVISOR_SERVER_URL" {
        put(rt, said, variable.1.as_str());
    }
}

/// The processes in their order, each by the name of its group and its own, with a space between two.
pub fn order_said(rt: &impl Abort, alloc: Global, config: &Config) -> String {
    let mut said = String::new(alloc);
    for group in config.groups.as_slice() {
        for member in group.members.as_slice() {
            put_process(rt, &mut said, group, member);
        }
    }
    said
}

/// Adds a process by the name of its group and its own, after a space where others stand before it.
fn put_process(rt: &impl Abort, said: &mut String, group: &GroupSpec, member: &Spec) {
    if !said.as_str().is_empty() {
        put(rt, said, " ");
    }
    put_ended(rt, said, group.name.as_str(), ":");
    put(rt, said, member.name.as_str());
}

fn group_said(rt: &impl Abort, alloc: Global, group: &GroupSpec) -> String {
    let (name, priority) = (group.name.as_str(), group.priority);
    let mut said = format!(in alloc; "{name} {priority} ").expect(rt, "ample memory");
    match &group.pool {
        Some(pool) => put_pool(rt, &mut said, pool),
        None => put(rt, &mut said, "-"),
    }
    said
}

fn put_pool(rt: &impl Abort, said: &mut String, pool: &PoolSpec) {
    for kind in pool.kinds.as_slice() {
        put_ended(rt, said, kind.name(), ",");
    }
    write!(said, "{}", pool.buffer.get()).expect(rt, "ample memory");
}

fn servers_said(rt: &impl Abort, alloc: Global, config: &Config) -> String {
    let mut said = String::new(alloc);
    for server in config.servers.as_slice() {
        put_server(rt, &mut said, server);
    }
    said
}

fn put_server(rt: &impl Abort, said: &mut String, server: &ServerSpec) {
    put_place(rt, said, &server.place);
    let username = server.username.as_str();
    let shown = if username.is_empty() { "-" } else { username };
    put(rt, said, " ");
    put_ended(rt, said, shown, " ");
    put_password(rt, said, &server.password);
    put(rt, said, "|");
}

fn put_place(rt: &impl Abort, said: &mut String, place: &Place) {
    match place {
        Place::Inet(host, port) => put_port(rt, said, host.as_str(), *port),
        Place::Unix(file) => put(rt, said, file.as_str()),
    }
}

fn put_port(rt: &impl Abort, said: &mut String, host: &str, port: u16) {
    put_ended(rt, said, host, ":");
    write!(said, "{port}").expect(rt, "ample memory");
}

fn put_password(rt: &impl Abort, said: &mut String, password: &Password) {
    match password {
        Password::None => put(rt, said, "none"),
        Password::Plain(password) => put(rt, said, password.as_str()),
        Password::Sha(digest) => put_digest(rt, said, digest[0], digest[19]),
    }
}

/// Adds the first and the last byte of a digest.
fn put_digest(rt: &impl Abort, said: &mut String, first: u8, last: u8) {
    write!(said, "sha {first} {last}").expect(rt, "ample memory");
}

fn client_said(rt: &impl Abort, alloc: Global, client: &ClientSpec) -> String {
    let (url, username) = (client.url.as_str(), client.username.as_str());
    let said = format!(in alloc; "{url} {username} {}", client.password.as_str());
    said.expect(rt, "ample memory")
}

fn config_said(rt: &impl Abort, alloc: Global, config: &Config, question: &str) -> String {
    match question {
        "order" => order_said(rt, alloc, config),
        "main" => log_said(rt, alloc, &config.main),
        "level" => format!(in alloc; "{:?}", config.level).expect(rt, "ample memory"),
        "identifier" => copy_of(rt, alloc, config.identifier.as_str()),
        "servers" => servers_said(rt, alloc, config),
        "client" => client_said(rt, alloc, &config.client),
        "rpc" => format!(in alloc; "{}", config.rpc).expect(rt, "ample memory"),
        question => first_said(rt, alloc, config, question),
    }
}

/// What it says of its first group, or of the first process of that.
fn first_said(rt: &impl Abort, alloc: Global, config: &Config, question: &str) -> String {
    match config.groups.as_slice() {
        [group, ..] if question == "group" => group_said(rt, alloc, group),
        [group, ..] => match group.members.as_slice() {
            [member, ..] => spec_said(rt, alloc, member, question),
            [] => copy_of(rt, alloc, "no process"),
        },
        [] => copy_of(rt, alloc, "no group"),
    }
}

/// Reads a row's texts, of which those after `$` are included.
fn read(rt: &impl Abort, alloc: Global, host: &Host, cells: &str) -> Result<Config, ConfFault> {
    let included = included_in(rt, alloc, cells);
    read_main(rt, alloc, host, main_of(cells), included.as_slice())
}

fn read_main(
    rt: &impl Abort,
    alloc: Global,
    host: &Host,
    cell: &str,
    included: &[(Text, Bytes)],
) -> Result<Config, ConfFault> {
    let text = text_of(rt, alloc, cell);
    config(alloc, text.as_str().as_bytes(), included, host)
}

fn main_of(cells: &str) -> &str {
    match cells.split_once('$') {
        Some((main, _)) => main,
        None => cells,
    }
}

fn included_in(rt: &impl Abort, alloc: Global, cells: &str) -> Vec<(Text, Bytes)> {
    let mut included = Vec::new(alloc);
    if let Some((_, cells)) = cells.split_once('$') {
        for cell in cells.split('$') {
            put_cell(rt, alloc, &mut included, cell);
        }
    }
    included
}

fn put_cell(rt: &impl Abort, alloc: Global, included: &mut Vec<(Text, Bytes)>, cell: &str) {
    let text = text_of(rt, alloc, cell);
    put_included(rt, alloc, included, text.as_str());
}

fn put_included(rt: &impl Abort, alloc: Global, included: &mut Vec<(Text, Bytes)>, text: &str) {
    let bytes = Bytes::from_slice(alloc, text.as_bytes()).expect(rt, "ample memory");
    included
        .push((Text::fixed("i"), bytes))
        .expect(rt, "ample memory");
}

/// One included text.
pub fn included(rt: &impl Abort, alloc: Global, text: &str) -> Vec<(Text, Bytes)> {
    let mut included = Vec::new(alloc);
    put_included(rt, alloc, &mut included, text);
    included
}

/// What is told of a fault.
pub fn fault_said(rt: &impl Abort, alloc: Global, fault: &ConfFault) -> String {
    let text = fault.text(alloc).expect(rt, "ample memory");
    copy_of(rt, alloc, text.as_str())
}

fn value_row(rt: &impl Abort, alloc: Global, host: &Host, row: &str) {
    let (text, answer) = row.split_once(" => ").expect(rt, "two cells");
    let (question, expected) = answer.split_once(": ").expect(rt, "a question");
    value_is(rt, alloc, host, text, question, expected);
}

fn value_is(
    rt: &impl Abort,
    alloc: Global,
    host: &Host,
    text: &str,
    question: &str,
    expected: &str,
) {
    let said = value_of(rt, alloc, host, text, question);
    same(rt, said.as_str(), expected);
}

/// The answer of the configuration of a row's texts, or the fault.
fn value_of(rt: &impl Abort, alloc: Global, host: &Host, text: &str, question: &str) -> String {
    match read(rt, alloc, host, text) {
        Ok(config) => config_said(rt, alloc, &config, question),
        Err(fault) => fault_said(rt, alloc, &fault),
    }
}

fn fault_row(rt: &impl Abort, alloc: Global, host: &Host, row: &str) {
    let (text, expected) = row.split_once(" => ").expect(rt, "two cells");
    let expected = text_of(rt, alloc, expected);
    match read(rt, alloc, host, text) {
        Ok(config) => {
            let said = order_said(rt, alloc, &config);
            same(rt, said.as_str(), expected.as_str());
        }
        Err(fault) => is_said(rt, alloc, &fault, expected.as_str(), row),
    }
}

/// The fault has this text, and is shown by it.
fn is_said(rt: &impl Abort, alloc: Global, fault: &ConfFault, expected: &str, row: &str) {
    let said = fault_said(rt, alloc, fault);
    same(rt, said.as_str(), expected);
    let shown = format!(in alloc; "{fault}").expect(rt, "ample memory");
    same(rt, shown.as_str(), expected);
}

/// As many programs as this, each a group of its own.
fn programs(rt: &impl Abort, alloc: Global, count: u32) -> String {
    let mut text = String::new(alloc);
    for number in 0..count {
        put_program(rt, &mut text, number);
    }
    text
}

fn put_program(rt: &impl Abort, text: &mut String, number: u32) {
    write!(text, "[program:p{number}]\ncommand=c\n").expect(rt, "ample memory");
}

fn groups_row(rt: &impl Abort, alloc: Global, host: &Host, count: u32, expected: &str) {
    let text = programs(rt, alloc, count);
    let said = match config(alloc, text.as_str().as_bytes(), &[], host) {
        Ok(config) => count_said(rt, alloc, &config),
        Err(fault) => fault_said(rt, alloc, &fault),
    };
    same(rt, said.as_str(), expected);
}

/// How many groups there are.
fn count_said(rt: &impl Abort, alloc: Global, config: &Config) -> String {
    format!(in alloc; "{}", config.groups.as_slice().len()).expect(rt, "ample memory")
}

#[test]
fn at_most_256_groups(rt: HostRuntime) {
    let alloc = rt.alloc();
    let host = host(&rt, alloc);
    groups_row(&rt, alloc, &host, 256, "256");
    groups_row(&rt, alloc, &host, 257, "9 TooMany");
}

#[test]
fn keys_and_their_defaults(rt: HostRuntime) {
    let alloc = rt.alloc();
    let host = host(&rt, alloc);
    for row in VALUES.split('\n') {
        value_row(&rt, alloc, &host, row);
    }
}

#[test]
fn the_first_fault(rt: HostRuntime) {
    let alloc = rt.alloc();
    let host = host(&rt, alloc);
    for row in FAULTS.split('\n') {
        fault_row(&rt, alloc, &host, row);
    }
}
