//! One call over one connection of a dial.
ghost use Rattle.std.specs.Prelude.{◌≡◌, ◌≤◌};
ghost use Rattle.std.specs.Option.{ForSome};
ghost use Rattle.sv_xmlcall.specs.Trees.{call_view};
ghost use Rattle.sv_ctl.specs.Ask.Asking.{Calls, IsLost, RisesFor, request_of};

use crate::ask::asking::ask;
use crate::ask::fault::AskFault;
use std::alloc::Global;
use sv_base::{ClientSpec, Place};
use sv_out::{Dial, DialFault};
use sv_xmlcall::{Answered, Call};

/// Asks a server: connects to its place, asks over the link, and gives the link back. `Refused` and `LinkFailed` come
/// only where the dial's count of faults rose.
#[tactic(auto, using(crate::proofs::AskLemmas::Servers::untold))]
pub fn ask_server<D: Dial>(
    alloc: Global,
    dial: &mut D,
    place: &Place,
    client: &ClientSpec,
    call: &Call,
) -> Result<Answered, AskFault>
    ensures calls { ForSome (D.told dial.old) (λ before.
        Calls before (D.told dial.new) place.now (request_of client.now (call_view call.now)) result) }
    ensures cause { RisesFor (D.faults dial.old) (D.faults dial.new) (IsLost result) }
{
    let mut link = match dial.connect(alloc, place) {
        Ok(link) => link,
        Err(DialFault::Failed) => return Err(AskFault::Refused),
        Err(DialFault::OutOfMemory) => return Err(AskFault::OutOfMemory),
    };
    let answered = ask(alloc, &mut link, client, call);
    dial.close(alloc, link)?;
    answered
}
