//! Which bytes of a file are read.
ghost use Rattle.std.specs.Prelude.{◌≡◌};
ghost use Rattle.sv_disk.specs.Spans.{span_of};

use std::alloc::Global;
use std::fs::OpenFile;
use std::io::{Read, Seek, SeekFrom};
use std::rt::Files;
use std::{fs, io};
use sv_base::Bytes;

/// The bytes of a file from `start` on, at most `length` of them. Where others cut the file, so that it ends before these
/// do, they are its last ones. What is no plain file has none: to read a pipe or a terminal takes as long as its writer
/// wants.
pub(crate) fn part_on<R: Files>(
    alloc: Global,
    rt: &R,
    name: &str,
    start: u64,
    length: u64,
) -> io::Result<Bytes> {
    if !fs::metadata(rt, name)?.is_file() {
        return Ok(Bytes::from_vec(Vec::new(alloc)));
    }
    let mut file = fs::File::open(rt, name)?;
    let (start, length) = span_of(file.metadata()?.len(), start, length);
    file.seek(SeekFrom::Start(start))?;
    let mut bytes = Vec::new(alloc);
    file.take(length).read_to_end(&mut bytes)?;
    Ok(Bytes::from_vec(bytes))
}

/// Where the bytes begin that are read of a file of this size, and how many they are: those that are asked for, and the
/// last ones of a file that ends before those do.
pub fn span_of(size: u64, start: u64, length: u64) -> (u64, u64)
    ensures { result ≡ span_of size start length }
{
    match start.checked_add(length) {
        Some(end) if end <= size => (start, length),
        _ => {
            let most = length.min(size);
            (size - most, most)
        }
    }
}
