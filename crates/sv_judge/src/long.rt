//! The long header: its lines in their order, and the configuration that it holds.
ghost use Rattle.std.specs.Prelude.{◌≡◌, ◌↔◌, ◌++◌, ◌∷◌, [], IsTrue, IsSome, IfOk, IfSome, OnErr};
ghost use Rattle.std.specs.Prelude.{◌≢◌, Err, length};
ghost use Rattle.sv_conf.specs.Configuration.{configuration_of};
ghost use Rattle.sv_logs.specs.Sizes.{rise};
ghost use Rattle.sv_journal.specs.declared.header.Header.{Header};
ghost use Rattle.sv_judge.specs.JournalPlaces.{begins, goes_on, long_heads, moved};
ghost use Rattle.sv_judge.specs.Judging.{JudgedHead};
ghost use Rattle.sv_judge.specs.LongHeader.{host_of, starting_at};

use crate::judging::{JournalProgress, Refused};
use crate::sizes::{Sizes, is_behind};
use std::alloc::{AllocError, Global};
use sv_base::bytes::Bytes;
use sv_base::config::{Config, Host};
use sv_base::items::Items;
use sv_base::moment::Moment;
use sv_base::text::Text;
use sv_conf::config::config;
use sv_core::machine::Machine;
use sv_journal::header::Header;
use sv_sections::fault::ConfFault;

/// How far a long header is read.
#[derive(Drop)]
pub enum LongPlace {
    /// After the title.
    Titled,
    /// After the host's name.
    Hosted(Text),
    /// After the host's name and the directory of the configuration's file.
    Located(Text, Text),
    /// After the number of the daemon's process, some variables of its environment and some sizes.
    Described(Host, Sizes),
    /// After the text of the configuration and some that it includes.
    Configured(Host, Sizes, Bytes, Items<(Text, Bytes)>),
}

/// The next line of a long header.
pub(crate) fn judge_long(
    alloc: Global,
    place: LongPlace,
    header: Header,
) -> Result<JournalProgress, Refused>
    ensures { JudgedHead result (long_heads place header) }
{
    match place {
        LongPlace::Titled => moved(behind_title(header)),
        LongPlace::Hosted(name) => moved(behind_host(name, header)),
        LongPlace::Located(name, here) => moved(behind_here(alloc, name, here, header)),
        LongPlace::Described(host, sizes) => match behind_pid(alloc, host, sizes, header) {
            Ok(next) => moved(next),
            Err(AllocError) => Err(Refused::NoMemory),
        },
        LongPlace::Configured(host, sizes, text, included) => {
            judge_configured(alloc, host, sizes, text, included, header)
        }
    }
}

/// The header goes on at this place, or the line is out of place.
fn moved(next: Option<LongPlace>) -> Result<JournalProgress, Refused>
    ensures judged { JudgedHead result (moved next) }
    ensures memory { result ≢ Err Refused.NoMemory }
{
    match next {
        Some(place) => Ok(JournalProgress::Long(place)),
        None => Err(Refused::BadLine),
    }
}

fn behind_title(header: Header) -> Option<LongPlace>
    ensures { result ≡ goes_on LongPlace.Titled header }
{
    match header {
        Header::Host(name) => Some(LongPlace::Hosted(name)),
        _ => None,
    }
}

fn behind_host(name: Text, header: Header) -> Option<LongPlace>
    ensures { result ≡ goes_on (LongPlace.Hosted name) header }
{
    match header {
        Header::Here(here) => Some(LongPlace::Located(name, here)),
        _ => None,
    }
}

fn behind_here(alloc: Global, name: Text, here: Text, header: Header) -> Option<LongPlace>
    ensures { result ≡ goes_on (LongPlace.Located name here) header }
{
    match header {
        Header::Pid(pid) => Some(LongPlace::Described(
            host_of(alloc, name, here, pid),
            Sizes::none(alloc),
        )),
        _ => None,
    }
}

/// A host whose environment isn't told yet.
fn host_of(alloc: Global, name: Text, here: Text, pid: u32) -> Host
    ensures { result ≡ host_of name here pid }
{
    Host {
        name,
        here,
        pid,
        environment: Items::new(alloc),
        start: Moment::zero(),
    }
}

fn behind_pid(
    alloc: Global,
    host: Host,
    sizes: Sizes,
    header: Header,
) -> Result<Option<LongPlace>, AllocError>
    ensures next { IfOk result (λ next. next ≡ goes_on (LongPlace.Described host sizes) header) }
    ensures memory { OnErr result (IsSome (goes_on (LongPlace.Described host sizes) header)) }
{
    match header {
        Header::Env(name, value) => with_variable(host, sizes, name, value),
        Header::Size(file, size) => with_size(host, sizes, file, size),
        Header::Conf(text) => Ok(Some(LongPlace::Configured(host, sizes, text, Items::new(alloc)))),
        _ => Ok(None),
    }
}

fn with_variable(
    host: Host,
    sizes: Sizes,
    name: Text,
    value: Text,
) -> Result<Option<LongPlace>, AllocError>
    ensures next { IfOk result (λ next. next ≡ goes_on (LongPlace.Described host sizes)
        (Header.Env name value)) }
    ensures memory { OnErr result (IsSome (goes_on (LongPlace.Described host sizes)
        (Header.Env name value))) }
{
    if !sizes.as_slice().is_empty() || !is_behind(&name, host.environment.as_slice()) {
        return Ok(None);
    }
    let mut host = host;
    host.environment.push((name, value))?;
    Ok(Some(LongPlace::Described(host, sizes)))
}

fn with_size(
    host: Host,
    sizes: Sizes,
    file: Text,
    size: u64,
) -> Result<Option<LongPlace>, AllocError>
    ensures next { IfOk result (λ next. next ≡ goes_on (LongPlace.Described host sizes)
        (Header.Size file size)) }
    ensures memory { OnErr result (IsSome (goes_on (LongPlace.Described host sizes)
        (Header.Size file size))) }
{
    if !is_behind(&file, sizes.as_slice()) {
        return Ok(None);
    }
    let sizes = sizes.with(file, size)?;
    Ok(Some(LongPlace::Described(host, sizes)))
}

fn judge_configured(
    alloc: Global,
    host: Host,
    sizes: Sizes,
    text: Bytes,
    included: Items<(Text, Bytes)>,
    header: Header,
) -> Result<JournalProgress, Refused>
    ensures { JudgedHead result
        (long_heads (LongPlace.Configured host sizes text included) header) }
{
    match header {
        Header::Include(name, more) => {
            let mut included = included;
            match included.push((name, more)) {
                Ok(()) => moved(Some(LongPlace::Configured(host, sizes, text, included))),
                Err(AllocError) => Err(Refused::NoMemory),
            }
        }
        Header::Go(start) => judge_start(
            alloc,
            starting_at(host, start),
            sizes,
            text.as_slice(),
            included.as_slice(),
        ),
        _ => Err(Refused::BadLine),
    }
}

fn starting_at(host: Host, start: Moment) -> Host
    ensures { result ≡ starting_at host start }
{
    let mut host = host;
    host.start = start;
    host
}

/// The header is whole: its configuration is judged, and the daemon begins.
fn judge_start(
    alloc: Global,
    host: Host,
    sizes: Sizes,
    text: &[u8],
    included: &[(Text, Bytes)],
) -> Result<JournalProgress, Refused>
    ensures { JudgedHead result (begins host sizes (configuration_of text.now included.now host)) }
{
    match config(alloc, text, included, &host) {
        Ok(config) => begin(alloc, &host, sizes, config),
        Err(ConfFault::OutOfMemory) => Err(Refused::NoMemory),
        Err(fault) => Err(Refused::NotConfigured(fault)),
    }
}

fn begin(
    alloc: Global,
    host: &Host,
    sizes: Sizes,
    config: Config,
) -> Result<JournalProgress, Refused>
    ensures { JudgedHead result (begins host.now sizes (Ok config)) }
{
    match Machine::new(alloc, config, sizes.into_vec(), host) {
        Ok(machine) => crate::judging::running(alloc, machine),
        Err(AllocError) => Err(Refused::NoMemory),
    }
}
