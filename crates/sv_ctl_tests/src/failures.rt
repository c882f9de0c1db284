//! The tables of failures.

/// The calls that fail, by their numbers, of the shelf, the dial, each link, the input and the output; the words; the bytes
/// of the input; the replies; the status; what is printed before.
pub(crate) type Failure = (
    [u64; 5],
    &'static str,
    &'static str,
    &'static str,
    u8,
    &'static str,
);

/// The failures.
pub(crate) static FAILURES: [Failure; 35] = [
    ([0, 0, 0, 0, 0], "-c /part.conf pid", "", "#7|", 0, "7~"),
    (
        [1, 0, 0, 0, 0],
        "-c /part.conf pid",
        "",
        "#7|",
        5,
        "Error: cannot read /part.conf~",
    ),
    (
        [2, 0, 0, 0, 0],
        "-c /part.conf pid",
        "",
        "#7|",
        5,
        "Error: cannot read /part.d/*~",
    ),
    (
        [3, 0, 0, 0, 0],
        "-c /part.conf pid",
        "",
        "#7|",
        5,
        "Error: cannot read /part.d/ctl~",
    ),
    ([4, 0, 0, 0, 0], "-c /part.conf pid", "", "#7|", 0, "7~"),
    (
        [0, 1, 0, 0, 0],
        "-s unix:///none/sock status",
        "",
        "",
        5,
        "unix:///none/sock refused connection~",
    ),
    (
        [0, 2, 0, 0, 0],
        "-s http://h:1 start a b",
        "",
        "true|true|",
        5,
        "a: started~http://h:1 refused connection~",
    ),
    (
        [0, 0, 1, 0, 0],
        "-s http://h:1 pid",
        "",
        "#7|",
        5,
        "http://h:1 broke off~",
    ),
    (
        [0, 0, 2, 0, 0],
        "-s http://h:1 pid",
        "",
        "#7|",
        5,
        "http://h:1 broke off~",
    ),
    ([0, 0, 3, 0, 0], "-s http://h:1 pid", "", "#7|", 0, "7~"),
    (
        [0, 2, 0, 0, 0],
        "-s http://h:1",
        "pid~pid~pid~",
        "#7|#7|",
        5,
        ">7~>http://h:1 refused connection~",
    ),
    (
        [0, 0, 0, 1, 0],
        "-s http://h:1",
        "pid~",
        "#7|",
        5,
        ">Error: the input failed~",
    ),
    (
        [0, 0, 0, 2, 0],
        "-s http://h:1",
        "pid~pid",
        "#7|",
        5,
        ">7~>Error: the input failed~",
    ),
    (
        [0, 0, 0, 0, 1],
        "-s http://h:1 start a b",
        "",
        "true|true|",
        8,
        "",
    ),
    (
        [0, 0, 0, 0, 2],
        "-s http://h:1 start a b",
        "",
        "true|true|",
        8,
        "a: started~",
    ),
    ([0, 0, 0, 0, 1], "-s http://h:1", "pid~", "#7|", 8, ""),
    ([0, 0, 0, 0, 3], "-s http://h:1", "pid~", "#7|", 8, ">7~"),
    ([0, 1, 0, 0, 1], "-s http://h:1 pid", "", "", 8, ""),
    (
        [0, 1, 0, 0, 0],
        "-s http://h:1 start a b",
        "",
        "true|true|",
        5,
        "http://h:1 refused connection~",
    ),
    (
        [0, 3, 0, 0, 0],
        "-s http://h:1 start a b",
        "",
        "true|true|",
        0,
        "a: started~b: started~",
    ),
    (
        [0, 1, 0, 0, 0],
        "-s http://h:1",
        "pid~pid~",
        "#7|#7|",
        5,
        ">http://h:1 refused connection~",
    ),
    (
        [0, 3, 0, 0, 0],
        "-s http://h:1",
        "pid~pid~",
        "#7|#7|",
        0,
        ">7~>7~>",
    ),
    (
        [0, 0, 1, 0, 0],
        "-s http://h:1",
        "pid~pid~",
        "#7|#7|",
        5,
        ">http://h:1 broke off~",
    ),
    (
        [0, 0, 2, 0, 0],
        "-s http://h:1 start a b",
        "",
        "true|true|",
        5,
        "http://h:1 broke off~",
    ),
    (
        [0, 0, 0, 3, 0],
        "-s http://h:1",
        "pid~pid",
        "#7|#7|",
        0,
        ">7~>7~>",
    ),
    (
        [0, 0, 0, 0, 3],
        "-s http://h:1 start a b",
        "",
        "true|true|",
        0,
        "a: started~b: started~",
    ),
    ([0, 0, 0, 0, 2], "-s http://h:1", "pid~", "#7|", 8, ">"),
    ([0, 0, 0, 0, 4], "-s http://h:1", "pid~", "#7|", 0, ">7~>"),
    ([1, 0, 0, 0, 1], "-c /part.conf pid", "", "#7|", 8, ""),
    ([0, 0, 1, 0, 1], "-s http://h:1 pid", "", "#7|", 8, ""),
    ([0, 0, 0, 1, 2], "-s http://h:1", "pid~", "#7|", 8, ">"),
    ([0, 0, 0, 0, 1], "-x", "", "", 8, ""),
    ([0, 0, 0, 0, 1], "-c /gone.conf pid", "", "", 8, ""),
    ([0, 0, 0, 0, 1], "-s http://h:1 no", "", "", 8, ""),
    (
        [1, 0, 0, 0, 0],
        "-c /gone.conf pid",
        "",
        "",
        5,
        "Error: cannot read /gone.conf~",
    ),
];

/// Words, bytes of the input, and replies.
pub(crate) type Session = (&'static str, &'static str, &'static str);

/// A command whose line of 11 bytes is written in pieces of 4.
pub(crate) const IN_PIECES: Session = ("-s http://h:1 start x", "", "true|");

/// What is printed where the first write fails, the second and so on; after them none does.
pub(crate) const PRINTED: [(u8, &str); 4] = [
    (8, ""),
    (8, "x: s"),
    (8, "x: start"),
    (0, "x: started~"),
];

/// A session over one line, which comes byte by byte.
pub(crate) const BYTE_BY_BYTE: Session = ("-s http://h:1", "pid~", "#7|");

/// What is printed where the first read of the input fails, the second and so on; after them none does.
pub(crate) const HEARD: [(u8, &str); 6] = [
    (5, ">Error: the input failed~"),
    (5, ">Error: the input failed~"),
    (5, ">Error: the input failed~"),
    (5, ">Error: the input failed~"),
    (5, ">7~>Error: the input failed~"),
    (0, ">7~>"),
];
