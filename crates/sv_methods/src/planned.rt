//! What comes of a call: a value, a fault, a read, or requests.
ghost use Rattle.std.specs.Prelude.{◌≡◌, ◌∷◌, [], IfOk, None, Some};
ghost use Rattle.sv_methods.specs.Outcomes.{does, outcome, refuses};

use std::alloc::{AllocError, Global};
use sv_base::bytes::Bytes;
use sv_base::ids::ChildId;
use sv_base::items::Items;
use sv_base::signal::Signal;
use sv_base::text::Text;
use sv_info::fault::Fault;
use sv_logs::spans::Span;
use sv_xmlcall::value::Value;

/// What a method asks the daemon to do.
#[derive(Drop)]
pub enum Request {
    Start(ChildId),
    Stop(ChildId),
    /// This signal is to be sent to the process alone.
    Kill(ChildId, Signal),
    /// These bytes are to be written to its standard input.
    Stdin(ChildId, Bytes),
    /// An event of this type with this data is to be offered.
    Remote(Text, Bytes),
    /// These logs are to be cleared, one after the other.
    Clear(Items<Text>),
    Shutdown,
}

/// How the bytes of a read are given: as a text; or with the next offset, and whether bytes were missed.
#[derive(Clone, Copy, PartialEq, Eq)]
pub enum ReadShape {
    Plain,
    Tail(u64, bool),
}

/// What a child was asked for.
#[derive(Clone, Copy, PartialEq, Eq)]
pub enum Aim {
    Started,
    Stopped,
    Signalled,
    Cleared,
}

/// A child asked for, or the main log where there is none; the number of the fault of its request, where that had one.
#[derive(Clone, Copy, PartialEq, Eq)]
pub struct Asked {
    pub child: Option<ChildId>,
    pub aim: Aim,
    pub fault: Option<u32>,
}

/// What a call waits for, once its requests are carried out.
#[derive(Drop)]
pub struct Waiting {
    /// Whether to wait for the children, or to answer once the requests are carried out.
    pub wait: bool,
    /// Whether the answer is a status array.
    pub array: bool,
    /// The name parameter, where the call has one.
    pub name: Option<Text>,
    /// What was asked for; the rows of a status array in their order.
    pub rows: Items<Asked>,
}

/// What comes of a call.
#[derive(Drop)]
pub enum Planned {
    /// It is answered by this value.
    Now(Value),
    /// It is answered by the fault of this number and text.
    Fault(u32, Text),
    /// These requests are to be carried out in their order, and the answer is that of the wait.
    Do(Items<Request>, Waiting),
    /// It is answered by this part of a file.
    Read(Text, Span, ReadShape),
}

/// A fault of a call that names nothing.
pub(crate) fn refused(fault: Fault) -> Planned
    ensures { outcome result ≡ refuses fault None }
{
    Planned::Fault(fault.number(), Text::fixed(fault.name()))
}

/// A fault of a call that named this.
pub(crate) fn refused_for(alloc: Global, fault: Fault, subject: &str) -> Result<Planned, AllocError>
    ensures { IfOk result (λ planned. outcome planned ≡ refuses fault (Some subject.now)) }
{
    let text = fault.text(alloc, Some(subject))?;
    Ok(Planned::Fault(fault.number(), text))
}

/// Requests after which the answer is `true`.
pub(crate) fn does(
    alloc: Global,
    request: Request,
    name: Option<Text>,
) -> Result<Planned, AllocError>
    ensures { IfOk result (λ planned. outcome planned ≡ does (request ∷ []) name) }
{
    let requests = Items::from_vec(vec![in alloc; request]?);
    let rows = Items::new(alloc);
    Ok(Planned::Do(
        requests,
        Waiting {
            wait: false,
            array: false,
            name,
            rows,
        },
    ))
}
