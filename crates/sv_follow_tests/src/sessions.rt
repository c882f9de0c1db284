//! The tables of sessions.

/// The log at each poll, behind a bar where it isn't the first; how the following ends; what is printed; how often it waits; and
/// the offset and the length of each call.
///
/// In a log and in what is printed `~` stands for a line feed, `$` for a byte that no text has, `A` for 65,536 letters x, `B`
/// for 65,537, `C` for 1,600 and `D` for 1,601. In place of a log `!` and a number stand for a fault, `?` and a number for a
/// reply with that status, and `=` stands before the bytes of a reply.
pub(crate) type Session = (&'static str, u8, &'static str, usize, &'static str);

/// Sessions of as many polls as there are logs.
pub(crate) static SESSIONS: [Session; 22] = [
    (
        "abc|abcdef|x|x",
        0,
        "abcdef*** log rotated~x",
        3,
        "0 1600 3 65536 6 65536 0 65536",
    ),
    ("|xyzxA", 0, "*** 4 bytes lost~A", 2, "0 1600 0 65536"),
    ("", 0, "", 1, "0 1600"),
    ("|", 0, "", 2, "0 1600 0 65536"),
    ("ab~|ab~", 0, "ab~", 2, "0 1600 3 65536"),
    ("ab~|ab~c", 0, "ab~c", 2, "0 1600 3 65536"),
    ("C", 0, "C", 1, "0 1600"),
    ("aC", 0, "C", 1, "0 1600"),
    ("a|aA", 0, "aA", 2, "0 1600 1 65536"),
    ("a|aB", 0, "a*** 1 bytes lost~A", 2, "0 1600 1 65536"),
    ("D|DA", 0, "CA", 2, "0 1600 1601 65536"),
    (
        "ab||cd",
        0,
        "ab*** log rotated~cd",
        2,
        "0 1600 2 65536 0 65536",
    ),
    (
        "abc|d|de|de",
        0,
        "abc*** log rotated~de",
        3,
        "0 1600 3 65536 0 65536 2 65536",
    ),
    (
        "abc|d|B",
        0,
        "abc*** log rotated~*** 1 bytes lost~A",
        2,
        "0 1600 3 65536 0 65536",
    ),
    ("abc|xyz", 0, "abc", 2, "0 1600 3 65536"),
    ("a$b|a$b$", 0, "a?b?", 2, "0 1600 3 65536"),
    ("a|!20", 1, "ax: ERROR (no log file)~", 1, "0 1600 1 65536"),
    ("!10", 1, "x: ERROR (no such process)~", 0, "0 1600"),
    (
        "a|?401",
        7,
        "aServer requires authentication~",
        1,
        "0 1600 1 65536",
    ),
    (
        "a|=HTTP/1.1 20",
        7,
        "aError: bad reply~",
        1,
        "0 1600 1 65536",
    ),
    ("a|=SSH-2.0", 7, "aError: bad reply~", 1, "0 1600 1 65536"),
    (
        "a|!6|b",
        1,
        "ax: ERROR (shutting down)~",
        1,
        "0 1600 1 65536",
    ),
];

/// Values that no tail method gives.
pub(crate) static BAD: [&str; 8] = [
    "<string>a</string>",
    "<array><data></data></array>",
    "<array><data><value>a</value><value><int>1</int></value></data></array>",
    "<array><data><value>a</value><value><int>-1</int></value><value><boolean>0</boolean></value></data></array>",
    "<array><data><value>a</value><value>1</value><value><boolean>0</boolean></value></data></array>",
    "<array><data><value>a</value><value><int>1</int></value><value><int>0</int></value></data></array>",
    "<array><data><value><int>1</int></value><value><int>1</int></value><value><boolean>0</boolean></value></data></array>",
    "<array><data><value>a</value><value><int>1</int></value><value><boolean>0</boolean></value><value>b</value></data></array>",
];

/// The calls that fail, by their numbers, of the dial, each link and the output; how a session over `ab` and `abcd` ends; and what
/// is printed.
pub(crate) type Failure = ([u64; 3], u8, &'static str);

/// Sessions in which a call fails.
pub(crate) static FAILURES: [Failure; 8] = [
    ([0, 0, 0], 0, "abcd"),
    ([1, 0, 0], 5, "http://h:1 refused connection~"),
    ([2, 0, 0], 5, "abhttp://h:1 refused connection~"),
    ([0, 1, 0], 5, "http://h:1 broke off~"),
    ([0, 2, 0], 5, "http://h:1 broke off~"),
    ([0, 0, 1], 8, ""),
    ([0, 0, 2], 8, "ab"),
    ([2, 0, 2], 8, "ab"),
];

/// Words of the client, and the status and what is printed where the one reply is the fault 20.
pub(crate) static WORDS: [(&str, u8, &str); 12] = [
    (
        "-s http://h:1 tail -f x",
        1,
        "x: ERROR (no log file)~|Stdout",
    ),
    (
        "-s http://h:1 tail -f x stdout",
        1,
        "x: ERROR (no log file)~|Stdout",
    ),
    (
        "-s http://h:1 tail -f x stderr",
        1,
        "x: ERROR (no log file)~|Stderr",
    ),
    (
        "-s http://h:1 tail -f g:* stderr",
        1,
        "g: ERROR (no log file)~|Stderr",
    ),
    (
        "-s http://h:1 tail -f x no",
        2,
        "*** Unknown syntax: tail -f x no~|",
    ),
    ("-s http://h:1 tail -f", 2, "*** Unknown syntax: tail -f~|"),
    (
        "-s http://h:1 tail -f x stdout y",
        2,
        "*** Unknown syntax: tail -f x stdout y~|",
    ),
    (
        "-s http://h:1 tail x -f",
        2,
        "*** Unknown syntax: tail x -f~|",
    ),
    (
        "-s http://h:1 maintail -f",
        2,
        "*** Unknown syntax: maintail -f~|",
    ),
    ("-s http://h:1 tail x", 1, "x: ERROR (no log file)~|"),
    ("-c /gone.conf tail -f x", 2, "Error: no file /gone.conf~|"),
    (
        "-s http://h:1",
        2,
        "supervisor> *** Unknown syntax: tail -f x~supervisor> |",
    ),
];
