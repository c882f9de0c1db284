//! What happened, and the body that an event has of it.
ghost use Rattle.std.specs.Prelude.{◌≡◌, ◌++◌, ◌∷◌, [], IfOk, codes, string_bytes};
ghost use Rattle.std.specs.Fmt.{decimal};
ghost use Rattle.sv_events.specs.EventText.{body_of, process_head, state_head, expected_digit};
ghost use Rattle.sv_events.specs.EventText.{channel_name};

use crate::write::{push_field, push_number, with_lines};
use std::alloc::{AllocError, Global};
use sv_base::bytes::Bytes;
use sv_base::state::{State, Stream};
use sv_base::text::Text;

/// What an event tells of, one variant for each form of body (the manual's chapter on events). Data are any bytes.
pub enum Fact {
    /// A process entered STARTING or BACKOFF; `tries` counts its failed starts.
    Trying {
        name: Text,
        group: Text,
        from: State,
        tries: u32,
    },
    /// A process entered RUNNING, STOPPING or STOPPED.
    Living {
        name: Text,
        group: Text,
        from: State,
        pid: u32,
    },
    /// A process entered EXITED; `expected` says whether its exit code was.
    Ended {
        name: Text,
        group: Text,
        from: State,
        expected: bool,
        pid: u32,
    },
    /// A process entered FATAL.
    GaveUp {
        name: Text,
        group: Text,
        from: State,
    },
    /// A process sent bytes between the tokens of process communication.
    Communication {
        name: Text,
        group: Text,
        pid: u32,
        bytes: Bytes,
    },
    /// A process wrote these bytes to its log.
    Log {
        name: Text,
        group: Text,
        pid: u32,
        stream: Stream,
        bytes: Bytes,
    },
    /// A remote procedure call sent bytes of a sort of its own.
    Remote {
        sort: Text,
        bytes: Bytes,
    },
    /// The clock came to another slice; `when` is its start in seconds since 1970.
    Tick {
        when: u64,
    },
    /// A process group was added or removed.
    GroupChange {
        group: Text,
    },
    /// The daemon started or stops.
    Supervisor,
}

impl Drop for Fact {
    fn drop(self) {
        match self {
            Self::Trying {
                name: _,
                group: _,
                from: _,
                tries: _,
            } => {}
            Self::Living {
                name: _,
                group: _,
                from: _,
                pid: _,
            } => {}
            Self::Ended {
                name: _,
                group: _,
                from: _,
                expected: _,
                pid: _,
            } => {}
            Self::GaveUp {
                name: _,
                group: _,
                from: _,
            } => {}
            Self::Communication {
                name: _,
                group: _,
                pid: _,
                bytes: _,
            } => {}
            Self::Log {
                name: _,
                group: _,
                pid: _,
                stream: _,
                bytes: _,
            } => {}
            Self::Remote { sort: _, bytes: _ } => {}
            Self::Tick { when: _ } => {}
            Self::GroupChange { group: _ } => {}
            Self::Supervisor => {}
        }
    }
}

/// The body of the event that tells of this fact.
pub fn body(alloc: Global, fact: &Fact) -> Result<Bytes, AllocError>
    ensures { IfOk result (λ b. b ≡ body_of fact.now) }
{
    match fact {
        Fact::Trying {
            name,
            group,
            from,
            tries,
        } => trying(alloc, name, group, *from, *tries),
        Fact::Living {
            name,
            group,
            from,
            pid,
        } => living(alloc, name, group, *from, *pid),
        Fact::Ended {
            name,
            group,
            from,
            expected,
            pid,
        } => ended(alloc, name, group, *from, *expected, *pid),
        Fact::GaveUp { name, group, from } => gave_up(alloc, name, group, *from),
        Fact::Communication {
            name,
            group,
            pid,
            bytes,
        } => communication(alloc, name, group, *pid, bytes),
        Fact::Log {
            name,
            group,
            pid,
            stream,
            bytes,
        } => log(alloc, name, group, *pid, *stream, bytes),
        Fact::Remote { sort, bytes } => remote(alloc, sort, bytes),
        Fact::Tick { when } => tick(alloc, *when),
        Fact::GroupChange { group } => group_change(alloc, group),
        Fact::Supervisor => Ok(Bytes::from_vec(Vec::new(alloc))),
    }
}

fn process_head(alloc: Global, name: &Text, group: &Text) -> Result<String, AllocError>
    ensures { IfOk result (λ s. string_bytes s ≡ process_head name.now group.now) }
{
    let mut text = String::from_str(alloc, "processname:")?;
    text.push_str(name.as_str())?;
    push_field(&mut text, " groupname:", group.as_str())?;
    Ok(text)
}

fn state_head(alloc: Global, name: &Text, group: &Text, from: State) -> Result<String, AllocError>
    ensures { IfOk result (λ s. string_bytes s ≡ state_head name.now group.now from) }
{
    let mut text = process_head(alloc, name, group)?;
    push_field(&mut text, " from_state:", from.name())?;
    Ok(text)
}

fn trying(
    alloc: Global,
    name: &Text,
    group: &Text,
    from: State,
    tries: u32,
) -> Result<Bytes, AllocError>
    ensures { IfOk result (λ b. b
        ≡ state_head name.now group.now from ++ codes " tries:" ++ decimal tries) }
{
    let mut text = state_head(alloc, name, group, from)?;
    push_number(alloc, &mut text, " tries:", u64::from(tries))?;
    Ok(Bytes::from_vec(text.into_bytes()))
}

fn living(
    alloc: Global,
    name: &Text,
    group: &Text,
    from: State,
    pid: u32,
) -> Result<Bytes, AllocError>
    ensures { IfOk result (λ b. b
        ≡ state_head name.now group.now from ++ codes " pid:" ++ decimal pid) }
{
    let mut text = state_head(alloc, name, group, from)?;
    push_number(alloc, &mut text, " pid:", u64::from(pid))?;
    Ok(Bytes::from_vec(text.into_bytes()))
}

fn ended(
    alloc: Global,
    name: &Text,
    group: &Text,
    from: State,
    expected: bool,
    pid: u32,
) -> Result<Bytes, AllocError>
    ensures { IfOk result (λ b. b
        ≡ state_head name.now group.now from ++ codes " expected:" ++ expected_digit expected
        ++ codes " pid:" ++ decimal pid) }
{
    let mut text = state_head(alloc, name, group, from)?;
    push_field(&mut text, " expected:", expected_digit(expected))?;
    push_number(alloc, &mut text, " pid:", u64::from(pid))?;
    Ok(Bytes::from_vec(text.into_bytes()))
}

fn gave_up(alloc: Global, name: &Text, group: &Text, from: State) -> Result<Bytes, AllocError>
    ensures { IfOk result (λ b. b ≡ state_head name.now group.now from) }
{
    let text = state_head(alloc, name, group, from)?;
    Ok(Bytes::from_vec(text.into_bytes()))
}

fn communication(
    alloc: Global,
    name: &Text,
    group: &Text,
    pid: u32,
    bytes: &Bytes,
) -> Result<Bytes, AllocError>
    ensures { IfOk result (λ b. b
        ≡ process_head name.now group.now ++ codes " pid:" ++ decimal pid ++ 10 ∷ bytes.now) }
{
    let mut text = process_head(alloc, name, group)?;
    push_number(alloc, &mut text, " pid:", u64::from(pid))?;
    with_lines(text, bytes.as_slice())
}

fn log(
    alloc: Global,
    name: &Text,
    group: &Text,
    pid: u32,
    stream: Stream,
    bytes: &Bytes,
) -> Result<Bytes, AllocError>
    ensures { IfOk result (λ b. b
        ≡ process_head name.now group.now ++ codes " pid:" ++ decimal pid
        ++ codes " channel:" ++ channel_name stream ++ 10 ∷ bytes.now) }
{
    let mut text = process_head(alloc, name, group)?;
    push_number(alloc, &mut text, " pid:", u64::from(pid))?;
    push_field(&mut text, " channel:", channel_name(stream))?;
    with_lines(text, bytes.as_slice())
}

fn remote(alloc: Global, sort: &Text, bytes: &Bytes) -> Result<Bytes, AllocError>
    ensures { IfOk result (λ b. b ≡ codes "type:" ++ sort.now ++ 10 ∷ bytes.now) }
{
    let mut text = String::from_str(alloc, "type:")?;
    text.push_str(sort.as_str())?;
    with_lines(text, bytes.as_slice())
}

fn tick(alloc: Global, when: u64) -> Result<Bytes, AllocError>
    ensures { IfOk result (λ b. b ≡ codes "when:" ++ decimal when) }
{
    let mut text = String::new(alloc);
    push_number(alloc, &mut text, "when:", when)?;
    Ok(Bytes::from_vec(text.into_bytes()))
}

fn group_change(alloc: Global, group: &Text) -> Result<Bytes, AllocError>
    ensures { IfOk result (λ b. b ≡ codes "groupname:" ++ group.now ++ 10 ∷ []) }
{
    let mut text = String::from_str(alloc, "groupname:")?;
    text.push_str(group.as_str())?;
    with_lines(text, b"")
}

fn expected_digit(expected: bool) -> &'static str
    ensures { result.now ≡ expected_digit expected }
{
    match expected {
        true => "1",
        false => "0",
    }
}

fn channel_name(stream: Stream) -> &'static str
    ensures { result.now ≡ channel_name stream }
{
    match stream {
        Stream::Out => "stdout",
        Stream::Err => "stderr",
    }
}
