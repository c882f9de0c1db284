//! Texts of 1,048,576 bytes, and of one more.

use crate::checks::{check, same};
use std::alloc::{AllocError, Global};
use std::process::Abort;
use sv_ini::fault::IniFault;
use sv_ini::section::Section;
use sv_ini::sections::sections;

/// A text that has 1,048,576 bytes: what it begins with, and a block that stands again and again, with a number of five
/// digits from 10,000 on in the place of each `#`.
#[derive(Drop)]
struct Text {
    head: &'static str,
    block: &'static str,
    past: u32,
    /// How many sections and keys it has, and the last key.
    expected: &'static str,
}

static TEXTS: [Text; 4] = [
    // 16,384 blocks of 64 bytes
    Text {
        head: "",
        block: "[program:p#]\ncommand=/bin/cat\npriority=999\nautostart=false \n",
        past: 26_384,
        expected: "16384 sections, 49152 keys, [program:p26383] autostart=false",
    },
    // 16 bytes, then 65,535 keys of 16 bytes in one section
    Text {
        head: "[a]\n;;;;;;;;;;;\n",
        block: "key_#=12345\n",
        past: 75_535,
        expected: "1 sections, 65535 keys, [a] key_75534=12345",
    },
    // 32,768 times two sections in turn, each with a new key
    Text {
        head: "",
        block: "[a]\nk#=1234\n[b]\nk#=5678\n",
        past: 42_768,
        expected: "2 sections, 65536 keys, [b] k42767=5678",
    },
    // 4 bytes, then one key again and again, 87,381 times 12 bytes
    Text {
        head: "[a]\n",
        block: "word=v#\n",
        past: 97_381,
        expected: "1 sections, 1 keys, [a] word=v97380",
    },
];

fn written(alloc: Global, text: &Text) -> Result<String, AllocError> {
    let mut all = String::from_str(alloc, text.head)?;
    for number in 10_000..text.past {
        let number = format!(in alloc; "{number}")?;
        for letter in text.block.chars() {
            if letter == '#' {
                all.push_str(number.as_str())?;
            } else {
                all.push(letter)?;
            }
        }
    }
    Ok(all)
}

fn keys_of(sections: &[Section]) -> usize {
    let mut keys: usize = 0;
    for section in sections {
        keys = keys.saturating_add(section.keys.as_slice().len());
    }
    keys
}

fn told(alloc: Global, sections: &[Section]) -> Result<String, AllocError> {
    let count = sections.len();
    let keys = keys_of(sections);
    let mut text = format!(in alloc; "{count} sections, {keys} keys")?;
    if let Some(section) = sections.last() {
        text.push_str(", [")?;
        text.push_str(section.name.as_str())?;
        text.push_str("] ")?;
        if let Some(entry) = section.keys.as_slice().last() {
            text.push_str(entry.0.as_str())?;
            text.push('=')?;
            text.push_str(entry.1.as_str())?;
        }
    }
    Ok(text)
}

fn said(alloc: Global, bytes: &[u8]) -> Result<String, AllocError> {
    match sections(alloc, bytes) {
        Ok(sections) => told(alloc, sections.as_slice()),
        Err(IniFault::OutOfMemory) => Err(AllocError),
        Err(fault) => format!(in alloc; "{fault}"),
    }
}

fn says(rt: &impl Abort, alloc: Global, text: &str, expected: &str) {
    let said = said(alloc, text.as_bytes()).expect(rt, "ample memory");
    same(rt, said.as_str(), expected);
}

#[test]
fn texts_of_the_most_bytes_and_of_one_more(rt: HostRuntime) {
    let alloc = rt.alloc();
    for row in &TEXTS {
        let mut text = written(alloc, row).expect(&rt, "ample memory");
        check(&rt, text.as_str().len() == 1_048_576);
        says(&rt, alloc, text.as_str(), row.expected);
        text.push('\n').expect(&rt, "ample memory");
        says(&rt, alloc, text.as_str(), "4 TooLong");
    }
}

/// One value over 131,071 further lines.
#[test]
fn a_value_of_the_most_lines(rt: HostRuntime) {
    let alloc = rt.alloc();
    let mut text = String::from_str(alloc, "[a]\nk=v\n").expect(&rt, "ample memory");
    for _ in 0..131_071 {
        text.push_str(" x12345\n").expect(&rt, "ample memory");
    }
    check(&rt, text.as_str().len() == 1_048_576);
    match sections(alloc, text.as_str().as_bytes()) {
        Ok(sections) => {
            let section = sections.as_slice().last().expect(&rt, "a section");
            let entry = section.keys.as_slice().last().expect(&rt, "a key");
            // one byte, then a line feed and six bytes for each further line
            check(&rt, entry.1.as_str().len() == 917_498);
        }
        Err(_) => assert!(rt; false, "sections"),
    }
}
