//! Tables of texts, with the words, the pairs and the expansion that each has.
use crate::checks::{check, same};
use std::alloc::Global;
use std::process::Abort;
use sv_base::items::Items;
use sv_base::text::Text;
use sv_expand::expand::expand;
use sv_expand::fault::{ExpandFault, PairFault, WordFault};
use sv_expand::names::{NamedTexts, Names};
use sv_expand::pairs::pairs;
use sv_expand::words::words;

/// A text a row, and its words, each ended by `|`, or the fault. In all tables `~` stands for a line feed, `^` for
/// CR and a backquote for a tab.
const WORDS: &str = r#" => 
   => 
` => 
~ => 
 `~ ` => 
a => a|
 a  => a|
a b => a|b|
a`b => a|b|
a~b => a|b|
a  `~ b => a|b|
a^b => a^b|
a^ b => a^|b|
'a' => a|
"a" => a|
'' => |
"" => |
'' '' => ||
a '' b => a||b|
a'' => a|
''a => a|
a'b c'd => ab cd|
a"b c"d => ab cd|
'a'"b"c => abc|
'a"b' => a"b|
"a'b" => a'b|
'a\b' => a\b|
'a\' => a\|
'\\' => \\|
"a\"b" => a"b|
"a\\b" => a\b|
"a\nb" => a\nb|
"a\'b" => a\'b|
"a\ b" => a\ b|
"a\\" => a\|
"\\\"" => \"|
"a\" => 1 OpenQuote
a\ b => a b|
a\`b => a`b|
a\~b => a~b|
\a => a|
\\ => \|
\" => "|
\' => '|
\"a b => "a|b|
a\ => 1 OpenQuote
\ => 1 OpenQuote
a \ => 1 OpenQuote
' => 1 OpenQuote
" => 1 OpenQuote
'a" => 1 OpenQuote
a "b => 1 OpenQuote
'a'b' => 1 OpenQuote
"a~b" => a~b|
'a~b`c' => a~b`c|
/bin/sh -c "a b" 'c d' => /bin/sh|-c|a b|c d|
äb 'ö ü' => äb|ö ü|
\ä => ä|
"\ä" => \ä|
a=b,c;d#e => a=b,c;d#e|
"a"  "b" => a|b|"#;

/// A text a row, and its pairs, each ended by `|`, or the fault.
const PAIRS: &str = r#" => 
  ` => 
A=1 => A=1|
A=1, => A=1|
A=1,  => A=1|
A=1,B=2 => A=1|B=2|
A=1,,B=2 => 1 BadPair 4
A=1, ,B=2 => 1 BadPair 5
, => 1 BadPair 0
 , => 1 BadPair 1
A="a,b" => A=a,b|
A='a,b' => A=a,b|
A='x"y' => A=x"y|
A="x'y" => A=x'y|
A="1,2",B=x => A=1,2|B=x|
=x => 1 BadPair 0
A => 1 BadPair 0
 A => 1 BadPair 1
A= => A=|
A=,B= => A=|B=|
A=1,B => 1 BadPair 4
A=1, B => 1 BadPair 5
A-B=1 => 1 BadPair 0
A_B2=1 => A_B2=1|
az=1,AZ=2,09=3 => az=1|AZ=2|09=3|
_=1 => _=1|
1=2 => 1=2|
A= 1 => A=1|
A =1 => 1 BadPair 0
A= "1" => 1 BadPair 0
A="1" => A=1|
A="1"  => A=1|
A="1" ,B=2 => A=1|B=2|
A="1"x => 1 BadPair 0
A="1""2" => 1 BadPair 0
A="1 => 1 BadPair 0
A='1 => 1 BadPair 0
A='1" => 1 BadPair 0
A=1"2 => 1 BadPair 0
A=1'2 => 1 BadPair 0
A="" => A=|
A='' => A=|
A=" 1 " => A= 1 |
 A=1 , B=2  => A=1|B=2|
A=1~,~B=2 => A=1|B=2|
A=1^~,`B=2^~ => A=1|B=2|
A=1 2 => A=1 2|
A=1 `2  => A=1 `2|
A==1 => A==1|
A=a=b => A=a=b|
A=1,A=2 => A=1|A=2|
A=\, => A=\|
A="\" => A=\|
Ä=1 => 1 BadPair 0
A=ä,B=ö => A=ä|B=ö|
A=ä,B => 1 BadPair 5
A=1;B=2 => A=1;B=2|
A.B=1 => 1 BadPair 0
A B=1 => 1 BadPair 0
A=1,B-C=2,D => 1 BadPair 4
~A=1 => A=1|
A=%(x)s/% => A=%(x)s/%|
A=  => A=|
A= , => A=|
A="a"~ => A=a|"#;

/// A text a row, and its expansion or the fault.
const EXPANSIONS: &str = r#" => 
a => a
%% => %
a%%b => a%b
%%%% => %%
% => 2 BadForm 0
a% => 2 BadForm 1
%%% => 2 BadForm 2
%x => 2 BadForm 0
%(x => 2 BadForm 0
%( => 2 BadForm 0
%(x) => 2 BadForm 0
a%(x)b => 2 BadForm 1
%(x)s => text
%(ENV_H)s/%% => /r/%
%(nope)s => 1 Unknown nope
%()s => 1 Unknown 
%(nope)x => 2 BadForm 0
%(n)s => 7
%(n)d => 7
%(n)3d =>   7
%(n)03d => 007
%(n)1d => 7
%(n)01d => 7
%(n)9d =>         7
%(n)09d => 000000007
%(big)3d => 123456
%(big)03d => 123456
%(big)6d => 123456
%(big)8d =>   123456
%(big)08d => 00123456
%(zero)d => 0
%(zero)2d =>  0
%(zero)02d => 00
%(max)d => 18446744073709551615
%(max)9d => 18446744073709551615
%(n)10d => 2 BadForm 0
%(n)0d => 2 BadForm 0
%(n)00d => 2 BadForm 0
%(n)010d => 2 BadForm 0
%(n)3s => 2 BadForm 0
%(n)03s => 2 BadForm 0
%(n)3 => 2 BadForm 0
%(n)0 => 2 BadForm 0
%(x)d => 1 Unknown x
%(x)3d => 1 Unknown x
%(x)03d => 1 Unknown x
%(x)10d => 2 BadForm 0
%(x)0d => 2 BadForm 0
%(both)s => word
%(both)d => 1 Unknown both
%(same)s => first
%(twice)s => 1
%(twice)02d => 01
%(p)s => %(x)s%
%(x)s%(n)s => text7
a%(x)s%%b%(n)02dc => atext%b07c
%(nope)s% => 1 Unknown nope
%%(x)s => %(x)s
%(a%(x)s => 1 Unknown a%(x
%(a(b)s => 1 Unknown a(b
ä%(x)s => ätext
ä% => 2 BadForm 2
%(x)s%z%(nope)s => 2 BadForm 5
%(X)s => 1 Unknown X
% (x)s => 2 BadForm 0
%( x)s => 1 Unknown  x
%d => 2 BadForm 0
web_%(n)02d => web_07
%(x)S => 2 BadForm 0
%(n)D => 2 BadForm 0
%(ü)s => ö
%(n)-3d => 2 BadForm 0
a~%(x)s => a~text"#;

static TEXTS: [(&str, &str); 7] = [
    ("ENV_H", "/r"),
    ("x", "text"),
    ("p", "%(x)s%"),
    ("both", "word"),
    ("same", "first"),
    ("same", "second"),
    ("ü", "ö"),
];

static NUMBERS: [(&str, u64); 8] = [
    ("n", 7),
    ("big", 123_456),
    ("zero", 0),
    ("both", 5),
    ("same", 9),
    ("twice", 1),
    ("twice", 2),
    ("max", 18_446_744_073_709_551_615),
];

fn letter(sign: char) -> char {
    match sign {
        '~' => '\n',
        '^' => '\r',
        '`' => '\t',
        _ => sign,
    }
}

/// The text that a cell of a table stands for.
fn cell(rt: &impl Abort, alloc: Global, cell: &str) -> String {
    let mut text = String::new(alloc);
    for sign in cell.chars() {
        text.push(letter(sign)).expect(rt, "memory");
    }
    text
}

fn told_words(rt: &impl Abort, alloc: Global, words: &[Text]) -> String {
    let mut told = String::new(alloc);
    for word in words {
        told.push_str(word.as_str()).expect(rt, "memory");
        told.push('|').expect(rt, "memory");
    }
    told
}

fn told_pairs(rt: &impl Abort, alloc: Global, pairs: &[(Text, Text)]) -> String {
    let mut told = String::new(alloc);
    for pair in pairs {
        told.push_str(pair.0.as_str()).expect(rt, "memory");
        told.push('=').expect(rt, "memory");
        told.push_str(pair.1.as_str()).expect(rt, "memory");
        told.push('|').expect(rt, "memory");
    }
    told
}

/// What `words` says of a text, as its table writes it.
fn words_said(rt: &impl Abort, alloc: Global, text: &str) -> String {
    match words(alloc, text) {
        Ok(words) => told_words(rt, alloc, words.as_slice()),
        Err(fault) => format!(in alloc; "{fault}").expect(rt, "memory"),
    }
}

fn pairs_said(rt: &impl Abort, alloc: Global, text: &str) -> String {
    match pairs(alloc, text) {
        Ok(pairs) => told_pairs(rt, alloc, pairs.as_slice()),
        Err(fault) => format!(in alloc; "{fault}").expect(rt, "memory"),
    }
}

fn expansion_said(rt: &impl Abort, alloc: Global, text: &str, names: &Names) -> String {
    match expand(alloc, text, names) {
        Ok(text) => String::from_str(alloc, text.as_str()).expect(rt, "memory"),
        Err(fault) => format!(in alloc; "{fault}").expect(rt, "memory"),
    }
}

fn named_texts(rt: &impl Abort, alloc: Global) -> NamedTexts {
    let mut pairs = NamedTexts::new(alloc);
    for &(name, text) in &TEXTS {
        pairs
            .push((Text::fixed(name), Text::fixed(text)))
            .expect(rt, "memory");
    }
    pairs
}

fn named_numbers(rt: &impl Abort, alloc: Global) -> Items<(Text, u64)> {
    let mut numbers = Items::new(alloc);
    for &(name, number) in &NUMBERS {
        numbers
            .push((Text::fixed(name), number))
            .expect(rt, "memory");
    }
    numbers
}

fn names(rt: &impl Abort, alloc: Global) -> Names {
    Names {
        pairs: named_texts(rt, alloc),
        numbers: named_numbers(rt, alloc),
    }
}

fn word_row(rt: &impl Abort, alloc: Global, row: &str) {
    let (text, expected) = row.split_once(" => ").expect(rt, "two cells");
    let text = cell(rt, alloc, text);
    let expected = cell(rt, alloc, expected);
    let said = words_said(rt, alloc, text.as_str());
    same(rt, said.as_str(), expected.as_str());
}

fn pair_row(rt: &impl Abort, alloc: Global, row: &str) {
    let (text, expected) = row.split_once(" => ").expect(rt, "two cells");
    let text = cell(rt, alloc, text);
    let expected = cell(rt, alloc, expected);
    let said = pairs_said(rt, alloc, text.as_str());
    same(rt, said.as_str(), expected.as_str());
}

fn expansion_row(rt: &impl Abort, alloc: Global, names: &Names, row: &str) {
    let (text, expected) = row.split_once(" => ").expect(rt, "two cells");
    let text = cell(rt, alloc, text);
    let expected = cell(rt, alloc, expected);
    let said = expansion_said(rt, alloc, text.as_str(), names);
    same(rt, said.as_str(), expected.as_str());
}

#[test]
fn words_of_each_text(rt: HostRuntime) {
    let alloc = rt.alloc();
    for row in WORDS.split('\n') {
        word_row(&rt, alloc, row);
    }
    check(&rt, WordFault::OpenQuote.number() == Some(1));
}

#[test]
fn pairs_of_each_text(rt: HostRuntime) {
    let alloc = rt.alloc();
    for row in PAIRS.split('\n') {
        pair_row(&rt, alloc, row);
    }
    check(&rt, PairFault::BadPair(0).number() == Some(1));
}

#[test]
fn expansion_of_each_text(rt: HostRuntime) {
    let alloc = rt.alloc();
    let names = names(&rt, alloc);
    for row in EXPANSIONS.split('\n') {
        expansion_row(&rt, alloc, &names, row);
    }
    check(&rt, ExpandFault::BadForm(0).number() == Some(2));
}
