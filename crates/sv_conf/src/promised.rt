//! How many processes a configuration promises.

ghost use Rattle.std.specs.Prelude.{◌≡◌, IfOk};
ghost use Rattle.sv_conf.specs.Promised.{promised_in, room_in, room_at, is_crowded};
ghost use Rattle.sv_sections.specs.Programs.Homes.{homes_of};

use std::alloc::{AllocError, Global};
use sv_base::config::Host;
use sv_base::text::Text;
use sv_ini::section::Section;
use sv_keys::judged::Unread;
use sv_keys::key::Key;
use sv_keys::names;
use sv_keys::server_keys::is_set;
use sv_keys::table::numprocs;
use sv_keys::titles::titled;
use sv_sections::programs::homes::{Home, NamedGroups, all_named, count_homes, homes_of, own_home};

/// Whether the sections promise more than 1,024 processes: by their groups and their numprocs, of which a faulty one
/// stands for one process.
#[tactic(auto, unfolding(crate::specs::Promised::is_crowded))]
pub fn is_crowded(alloc: Global, host: &Host, sections: &[Section]) -> Result<bool, AllocError>
    ensures { IfOk result (λ crowded. crowded ≡ is_crowded host.now sections.now) }
{
    let named = all_named(alloc, host, sections)?;
    let mut room = 1_025;
    let mut place = 0;
    let mut left = sections;
    while let [section, rest @ ..] = left {
        room = room_at(alloc, host, &named, place, section, room)?;
        place += 1;
        left = rest;
    }
    Ok(room == 0)
}

#[tactic(auto, unfolding(crate::specs::Promised::room_at))]
fn room_at(
    alloc: Global,
    host: &Host,
    named: &NamedGroups,
    place: usize,
    section: &Section,
    room: usize,
) -> Result<usize, AllocError>
    ensures { IfOk result (λ left. left ≡ room_at host.now named.now place section.now room) }
{
    let title = section.name.as_str();
    let keys = section.keys.as_slice();
    if let Some(program) = titled("program", title) {
        return room_of(alloc, host, named, place, program, keys, room);
    }
    if let Some(listener) = titled("eventlistener", title) {
        let homes = own_home(alloc, place, listener)?;
        return room_in(alloc, host, listener, keys, homes.as_slice(), room);
    }
    Ok(room)
}

/// The room that is left after a program's processes in its groups.
#[tactic(auto, using(crate::proofs::Unset::one_in_each))]
fn room_of(
    alloc: Global,
    host: &Host,
    named: &NamedGroups,
    place: usize,
    program: &str,
    keys: &[(Text, Text)],
    room: usize,
) -> Result<usize, AllocError>
    ensures { IfOk result (λ room_left.
        room_left
        ≡ room_in host.now program.now keys.now (homes_of place program.now named.now) room) }
{
    if !is_set(Key::Numprocs, keys) {
        return Ok(room.saturating_sub(count_homes(program, named)));
    }
    let homes = homes_of(alloc, place, program, named)?;
    room_in(alloc, host, program, keys, homes.as_slice(), room)
}

/// The room that is left after a section's processes in these groups.
fn room_in(
    alloc: Global,
    host: &Host,
    program: &str,
    keys: &[(Text, Text)],
    homes: &[Home],
    room: usize,
) -> Result<usize, AllocError>
    ensures { IfOk result (λ room_left.
        room_left ≡ room_in host.now program.now keys.now homes.now room) }
{
    let mut room_left = room;
    let mut left = homes;
    while let [home, rest @ ..] = left {
        let count = promised_in(alloc, host, program, keys, home.group.as_str())?;
        room_left = room_left.saturating_sub(count);
        left = rest;
    }
    Ok(room_left)
}

/// How many processes a section promises in a group.
#[tactic(auto, using(crate::proofs::Unset::one_if_unset), unfolding(crate::specs::Promised::promised_in))]
fn promised_in(
    alloc: Global,
    host: &Host,
    program: &str,
    keys: &[(Text, Text)],
    group: &str,
) -> Result<usize, AllocError>
    ensures { IfOk result (λ count.
        count ≡ promised_in host.now program.now keys.now group.now) }
{
    if !is_set(Key::Numprocs, keys) {
        return Ok(1);
    }
    let pairs = names::program_pairs(alloc, host, program, group)?;
    let names = names::without_numbers(alloc, pairs);
    match numprocs(alloc, keys, &names) {
        Ok(count) => Ok(count.get() as usize),
        Err(Unread::Faulty(_)) => Ok(1),
        Err(Unread::OutOfMemory) => Err(AllocError),
    }
}
