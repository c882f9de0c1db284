//! Texts, and what Debian's Supervisor 4.2.5 reads in them with Python 3.11.

use std::alloc::{AllocError, Global};
use std::process::Abort;
use sv_base::Bytes;
use sv_moving::{Refusal, Section, read_there};

/// A configuration a row, and what is read: the sections, each key and value ended by a bar, or the refusal with the
/// number of its text and its lines. In both `~` stands for a line feed, `^` for CR and a backquote for a tab; `$` parts
/// the main text from those that it includes.
const TEXTS: &str = "[a]~k=v~ => [a]k=v|
[a]~  k=v~  l=w~ => [a]k=v|l=w|
[a]~k=v~ l=w~ => [a]k=v~l=w|
[a]~    k=v~  l=w~   m=x~ => [a]k=v|l=w~m=x|
  [a]~k=v~ => [a]k=v|
[a]~k=v~  [b]~l=w~ => [a]k=v~[b]|l=w|
[a]~k=v~[b]~  l=w~ => [a]k=v|[b]l=w|
[a]~k=v~~  w~~~l=x~ => [a]k=v~~w|l=x|
[a]~k=v~; c~  w~  # c~  x ; c~ => [a]k=v~w~x|
[a]~k=~  v~  w~ => [a]k=~v~w|
[a]~k=v ; c~l=v;c~m=;c~n= ;c~ => [a]k=v|l=v;c|m=;c|n=|
[a]~k=v # c~l=v#c~m=#c~n=`#c~ => [a]k=v|l=v#c|m=#c|n=|
[a]~k=a;b ;c #d~l=a;b ;c~m=a#b ;c #d~ => [a]k=a;b ;c|l=a;b|m=a#b|
[a]~k=x;y;z ;w #q~l=http://h/#top ;c #d~ => [a]k=x;y;z ;w|l=http://h/#top|
[a] ; c~k=v~[b]# c~l=w~[c] x~m=x~ => [a]k=v|[b]l=w|[c]m=x|
[a] k=v~ => [a]
[a] x ] y~k=v~[b]]~[[c]~ => [a] x ]k=v|[b]][[c]
[ a ]~k=v~[]]~ => [ a ]k=v|[]]
[a]~[]~ => BadLines 0 2
[a]~k=v~[c:d~  e~ => [a]k=v|[c=d~e|
[b ;c]~ => NoHeader 0 1
[a]~[b ;c]~k=v~ => BadLines 0 2
[a]~k v = w = x~l:m=n~K V:2~ => [a]k v=2|l=m=n|
[a]~k=v~bad~  more~=x~  y~ => BadLines 0 3 5 6
[a]~k ;c = v~ => BadLines 0 2
# c~k=v~[a]~ => NoHeader 0 2
[a]~k=1~[b]~k=2~[a]~l=3~K=4~ => [a]k=4|l=3|[b]k=2|
[DEFAULT]~k=d~[default]~l=1~[a]~k=v~ => [DEFAULT]k=d|[default]l=1|[a]k=v|
\u{feff}[a]~k=v~ => NoHeader 0 1
[a]^~k=v^~  w^l=x^^~  y~ => [a]k=v~w|l=x~~y|
[a]~k=v\x0cw\u{2028}x\u{85}~\x0c\u{a0}y~ => [a]k=v\x0cw\u{2028}x~y|
[a]~k=v\x0b;c~l=v\u{a0}#c~m=v\u{200b};c~ => [a]k=v|l=v|m=v\u{200b};c|
[a]~`k=v~        l=w~`m=x~ => [a]k=v~l=w|m=x|
[a]~ÉK=v~İ=w~ => [a]ék=v|i̇=w|
[DEFAULT]~k=%(here)s/k~[include]~files=d/x.ini~[a]~z=1~$[b]~k=v ; c~[c]~ => [DEFAULT]k=%(here)s/k|[include]files=d/x.ini|[a]z=1|[b]k=v|[c]
[a]~k=v~ ; c~`~  #c~  w~ => [a]k=v~~w|
[a]~k=%(here)s/x~l=%%(here)s~ => [a]k=%(here)s/x|l=%%(here)s|
[a]~k=%(here)s/x~[include]~files=d/*.ini~$; c~[a]~k=new~[b]~k=old~$[b]~k=%(here)s~ => [a]k=new|[include]files=d/*.ini|[b]k=%(here)s|
[include]~files=b.ini a.ini no.ini~[a]~k=v~  w~$[a]~k=1~[include]~files=c.ini~$  x~[a]~l=w~ => NoHeader 2 1
[program:a]~  command=/bin/a~  autostart=false~ => [program:a]command=/bin/a|autostart=false|
[program:a]~command=/bin/a~~  user=u~ => [program:a]command=/bin/a~~user=u|
[program:a]~command=/bin/a~environment=U=\"http://h/ #top\",B=\"1\"~ => [program:a]command=/bin/a|environment=U=\"http://h/|
[program:a]~command=/bin/b;x ;y #z~ => [program:a]command=/bin/b;x ;y|
[program:a]~command=/bin/a~[program:b] # c~command=/bin/b~ => [program:a]command=/bin/a|[program:b]command=/bin/b|
[program:a]]~command=/bin/a~ => [program:a]]command=/bin/a|
[a]~É=v~k ;c = v~ => BadLines 0 3
[a]~bad~k=v~=x~ => BadLines 0 2 4";

/// Ends the test, and says both, unless the text that was found is the one that is wanted.
fn same(rt: &impl Abort, found: &str, wanted: &str) {
    assert!(rt; found == wanted, "{found} is not {wanted}");
}

/// The text of a cell.
fn cell(alloc: Global, cell: &str) -> Result<String, AllocError> {
    let mut text = String::new(alloc);
    for letter in cell.chars() {
        text.push(match letter {
            '~' => '\n',
            '^' => '\r',
            '`' => '\t',
            _ => letter,
        })?;
    }
    Ok(text)
}

fn put_section(text: &mut String, section: &Section) -> Result<(), AllocError> {
    text.push('[')?;
    text.push_str(section.name.as_str())?;
    text.push(']')?;
    for entry in section.keys.as_slice() {
        text.push_str(entry.key.as_str())?;
        text.push('=')?;
        text.push_str(entry.value.as_str())?;
        text.push('|')?;
    }
    Ok(())
}

fn put_refusal(alloc: Global, text: &mut String, refusal: &Refusal) -> Result<(), AllocError> {
    match refusal {
        Refusal::NoHeader(at, line) => {
            text.push_str(format!(in alloc; "NoHeader {at} {line}")?.as_str())
        }
        Refusal::BadLines(at, lines) => {
            text.push_str(format!(in alloc; "BadLines {at}")?.as_str())?;
            for line in lines.as_slice() {
                text.push_str(format!(in alloc; " {line}")?.as_str())?;
            }
            Ok(())
        }
        Refusal::NotUtf8(at, place) => {
            text.push_str(format!(in alloc; "NotUtf8 {at} {place}")?.as_str())
        }
        Refusal::OutOfMemory => Err(AllocError),
    }
}

/// What is read in these texts, as the table writes it.
fn said(alloc: Global, texts: &[Bytes]) -> Result<String, AllocError> {
    let mut text = String::new(alloc);
    match read_there(alloc, texts) {
        Ok(sections) => {
            for section in sections.as_slice() {
                put_section(&mut text, section)?;
            }
        }
        Err(refusal) => put_refusal(alloc, &mut text, &refusal)?,
    }
    Ok(text)
}

/// The texts of a row.
fn texts_of(alloc: Global, row: &str) -> Result<Vec<Bytes>, AllocError> {
    let mut texts = Vec::new(alloc);
    for part in row.split('$') {
        let text = cell(alloc, part)?;
        texts.push(Bytes::from_slice(alloc, text.as_bytes())?)?;
    }
    Ok(texts)
}

fn row(rt: &impl Abort, alloc: Global, row: &str) {
    let (texts, expected) = row.split_once(" => ").expect(rt, "two cells");
    let texts = texts_of(alloc, texts).expect(rt, "ample memory");
    let expected = cell(alloc, expected).expect(rt, "ample memory");
    let said = said(alloc, texts.as_slice()).expect(rt, "ample memory");
    same(rt, said.as_str(), expected.as_str());
}

#[test]
fn texts_and_what_supervisor_reads(rt: HostRuntime) {
    let alloc = rt.alloc();
    for line in TEXTS.split('\n') {
        row(&rt, alloc, line);
    }
}

#[test]
fn a_text_that_is_not_utf8(rt: HostRuntime) {
    let alloc = rt.alloc();
    let bytes = Bytes::from_slice(alloc, b"[a]\nk=\xff\n").expect(&rt, "ample memory");
    let mut texts = Vec::new(alloc);
    texts.push(bytes).expect(&rt, "ample memory");
    let said = said(alloc, texts.as_slice()).expect(&rt, "ample memory");
    same(&rt, said.as_str(), "NotUtf8 0 6");
}
