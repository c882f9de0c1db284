//! The long header of a journal: the host, its environment, the sizes of log files that aren't 0, the configuration with its includes,
//! and the start.
ghost use Rattle.std.specs.Prelude.{◌≡◌, ◌++◌, IfOk, OnOk};
ghost use Rattle.std.specs.List.{flat_map};
ghost use Rattle.sv_supervise.specs.Journal.Header.{env_text, header_text, include_text, line_text, size_text};

use std::alloc::{AllocError, Global};
use sv_base::{Bytes, Host, Text};
use sv_journal::{Header, Version, write_header};

/// The text of a daemon's long header: of its host, of the sizes of log files in bytes, by rising names, and of its configuration,
/// the main text and the included ones with their names, in the order in which they were read.
pub fn header_text(
    alloc: Global,
    host: &Host,
    sizes: &[(Text, u64)],
    main: &Bytes,
    included: &[(Text, Bytes)],
) -> Result<Vec<u8>, AllocError>
    ensures { IfOk result (λ text. text.items
        ≡ header_text host.now sizes.now main.now included.now) }
{
    let mut text = Vec::new(alloc);
    put_host(alloc, &mut text, host)?;
    put_environment(alloc, &mut text, host.environment.as_slice())?;
    put_sizes(alloc, &mut text, sizes)?;
    put_line(alloc, &mut text, &Header::Conf(main.clone()?))?;
    put_includes(alloc, &mut text, included)?;
    put_line(alloc, &mut text, &Header::Go(host.start))?;
    Ok(text)
}

/// Adds the version and what is said of the host but for its environment.
fn put_host(alloc: Global, text: &mut Vec<u8>, host: &Host) -> Result<(), AllocError>
    ensures { OnOk result (text.new.items ≡ text.old.items
        ++ (line_text (Header.Journal 1) ++ line_text (Header.Host host.now.name)
        ++ line_text (Header.Here host.now.here) ++ line_text (Header.Pid host.now.pid))) }
{
    put_line(alloc, text, &Header::Journal(Version::new(1).unwrap()))?;
    put_line(alloc, text, &Header::Host(host.name.clone()?))?;
    put_line(alloc, text, &Header::Here(host.here.clone()?))?;
    put_line(alloc, text, &Header::Pid(host.pid))
}

#[tactic(auto, unfolding(crate::specs::Journal::Header::line_text))]
fn put_line(alloc: Global, text: &mut Vec<u8>, header: &Header) -> Result<(), AllocError>
    ensures { OnOk result (text.new.items ≡ text.old.items ++ line_text header.now) }
{
    let line = write_header(alloc, header)?;
    text.extend_from_slice(line.as_str().as_bytes())?;
    text.push(b'\n')?;
    Ok(())
}

fn put_environment(
    alloc: Global,
    text: &mut Vec<u8>,
    environment: &[(Text, Text)],
) -> Result<(), AllocError>
    ensures { OnOk result
        (text.new.items ≡ text.old.items ++ flat_map env_text environment.now) }
{
    for pair in environment {
        put_line(alloc, text, &Header::Env(pair.0.clone()?, pair.1.clone()?))?;
    }
    Ok(())
}

fn put_sizes(alloc: Global, text: &mut Vec<u8>, sizes: &[(Text, u64)]) -> Result<(), AllocError>
    ensures { OnOk result (text.new.items ≡ text.old.items ++ flat_map size_text sizes.now) }
{
    for known in sizes {
        put_size(alloc, text, &known.0, known.1)?;
    }
    Ok(())
}

/// A file whose size is 0 has no line.
fn put_size(alloc: Global, text: &mut Vec<u8>, file: &Text, size: u64) -> Result<(), AllocError>
    ensures { OnOk result (text.new.items ≡ text.old.items ++ size_text (file.now, size)) }
{
    if 0 < size {
        put_line(alloc, text, &Header::Size(file.clone()?, size))?;
    }
    Ok(())
}

fn put_includes(
    alloc: Global,
    text: &mut Vec<u8>,
    included: &[(Text, Bytes)],
) -> Result<(), AllocError>
    ensures { OnOk result
        (text.new.items ≡ text.old.items ++ flat_map include_text included.now) }
{
    for held in included {
        put_line(
            alloc,
            text,
            &Header::Include(held.0.clone()?, held.1.clone()?),
        )?;
    }
    Ok(())
}
