//! Plays the journals and scripts of its standard input, each with what its replay gives: prints of each whether it comes out as
//! it is written there.
#![tactic(auto)]

mod case;
mod judging;
mod playing;
mod scripts;

use crate::case::{Case, begun};
use crate::judging::is_as_written;
use std::alloc::{AllocError, Global};
use std::io;
use std::io::Read;

fn main(rt: HostRuntime) -> io::Result<()> {
    let alloc = rt.alloc();
    let mut bytes = Vec::new(alloc);
    let mut reader = rt.reader();
    reader.read_to_end(&mut bytes)?;
    let cases = cases_of(alloc, bytes.as_slice())?;
    for case in cases.as_slice() {
        let name = case.name.as_str();
        if is_as_written(alloc, case)? {
            println!(rt; "{name}: as written")?;
        } else {
            println!(rt; "{name}: NOT as written")?;
        }
    }
    Ok(())
}

/// The cases of an input.
fn cases_of(alloc: Global, bytes: &[u8]) -> Result<Vec<Case>, AllocError> {
    let text = String::from_utf8_lossy(alloc, bytes)?;
    let mut cases = Vec::new(alloc);
    for line in text.as_str().lines() {
        take_line(alloc, &mut cases, line)?;
    }
    Ok(cases)
}

/// Takes one more line: it begins a case, or is one of the last case's.
fn take_line(alloc: Global, cases: &mut Vec<Case>, line: &str) -> Result<(), AllocError> {
    if let Some((form, name)) = begun(line) {
        cases.push(Case::new(alloc, form, name)?)?;
    } else if let Some(case) = cases.last_mut() {
        case.take(line)?;
    }
    Ok(())
}
