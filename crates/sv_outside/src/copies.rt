//! Copies of inputs and orders.
ghost use Rattle.std.specs.Prelude.{◌≡◌, IfOk};

use std::alloc::{AllocError, Global};
use sv_base::{DaemonSignal, Piece};
use sv_out::input::Input;
use sv_out::order::{Order, SpawnOrder};

/// A copy of this input.
pub fn copy_input(alloc: Global, input: &Input) -> Result<Input, AllocError>
    ensures { IfOk result (λ copy. copy ≡ input.now) }
{
    Ok(match input {
        Input::Tick { at } => Input::Tick { at: *at },
        Input::Exit { at, run, how } => Input::Exit {
            at: *at,
            run: *run,
            how: *how,
        },
        Input::Out {
            at,
            run,
            stream,
            bytes,
        } => Input::Out {
            at: *at,
            run: *run,
            stream: *stream,
            bytes: copy_piece(alloc, bytes)?,
        },
        Input::OutEnd { at, run, stream } => Input::OutEnd {
            at: *at,
            run: *run,
            stream: *stream,
        },
        Input::Open { at, link, side } => Input::Open {
            at: *at,
            link: *link,
            side: *side,
        },
        Input::Piece { at, link, bytes } => Input::Piece {
            at: *at,
            link: *link,
            bytes: copy_piece(alloc, bytes)?,
        },
        Input::LinkEnd { at, link } => Input::LinkEnd {
            at: *at,
            link: *link,
        },
        Input::Start { at, name } => Input::Start {
            at: *at,
            name: name.clone()?,
        },
        Input::Stop { at, name } => Input::Stop {
            at: *at,
            name: name.clone()?,
        },
        Input::Signal { at, signal } => Input::Signal {
            at: *at,
            signal: copy_signal(signal),
        },
        Input::Pid(pid) => Input::Pid(*pid),
        Input::NoFile => Input::NoFile,
        Input::NotExecutable => Input::NotExecutable,
        Input::Refused(reason) => Input::Refused(reason.clone()?),
        Input::Read(bytes) => Input::Read(bytes.clone()?),
        Input::Done => Input::Done,
        Input::Missing => Input::Missing,
        Input::Names(names) => Input::Names(names.clone()?),
        Input::Size(size) => Input::Size(*size),
        Input::Failed(number) => Input::Failed(*number),
    })
}

/// A copy of this order.
pub fn copy_order(order: &Order) -> Result<Order, AllocError>
    ensures { IfOk result (λ copy. copy ≡ order.now) }
{
    Ok(match order {
        Order::State {
            group,
            name,
            from,
            to,
        } => Order::State {
            group: group.clone()?,
            name: name.clone()?,
            from: *from,
            to: *to,
        },
        Order::Dropped {
            pool,
            serial,
            poolserial,
        } => Order::Dropped {
            pool: pool.clone()?,
            serial: *serial,
            poolserial: *poolserial,
        },
        Order::Spawn(spawn) => Order::Spawn(copy_spawn(spawn)?),
        Order::Kill { run, signal, group } => Order::Kill {
            run: *run,
            signal: *signal,
            group: *group,
        },
        Order::Stdin { run, bytes } => Order::Stdin {
            run: *run,
            bytes: bytes.clone()?,
        },
        Order::Append { file, bytes } => Order::Append {
            file: file.clone()?,
            bytes: bytes.clone()?,
        },
        Order::Shift { from, to } => Order::Shift {
            from: from.clone()?,
            to: to.clone()?,
        },
        Order::Fresh { file } => Order::Fresh {
            file: file.clone()?,
        },
        Order::ReadFile {
            file,
            start,
            length,
        } => Order::ReadFile {
            file: file.clone()?,
            start: *start,
            length: *length,
        },
        Order::ClearFile { file } => Order::ClearFile {
            file: file.clone()?,
        },
        Order::Names { pattern } => Order::Names {
            pattern: pattern.clone()?,
        },
        Order::Size { file } => Order::Size {
            file: file.clone()?,
        },
        Order::Send { link, bytes } => Order::Send {
            link: *link,
            bytes: bytes.clone()?,
        },
        Order::More { link } => Order::More { link: *link },
        Order::Close { link } => Order::Close { link: *link },
        Order::Halt => Order::Halt,
    })
}

fn copy_spawn(spawn: &SpawnOrder) -> Result<SpawnOrder, AllocError>
    ensures { IfOk result (λ copy. copy ≡ spawn.now) }
{
    Ok(SpawnOrder {
        run: spawn.run,
        group: spawn.group.clone()?,
        name: spawn.name.clone()?,
        directory: spawn.directory.clone()?,
        umask: spawn.umask.clone()?,
        user: spawn.user.clone()?,
        words: spawn.words.clone()?,
        environment: spawn.environment.clone()?,
    })
}

fn copy_piece(alloc: Global, piece: &Piece) -> Result<Piece, AllocError>
    ensures { IfOk result (λ copy. copy ≡ piece.now) }
{
    let bytes = Vec::from_slice(alloc, piece.as_slice())?;
    Ok(Piece::new(bytes).unwrap())
}

fn copy_signal(signal: &DaemonSignal) -> DaemonSignal
    ensures { result ≡ signal.now }
{
    DaemonSignal::new(signal.get()).unwrap()
}
