//! One call over one link.
ghost use Rattle.std.specs.Prelude.{◌≡◌, ◌≤◌, IfOk};
ghost use Rattle.sv_out.specs.Faults.{RisesWhere};
ghost use Rattle.sv_xmlcall.specs.Trees.{call_view};
ghost use Rattle.sv_ctl.specs.Ask.Asking.{Asks, Listens, IsLinkFailure, request_of};

use crate::ask::fault::AskFault;
use crate::ask::hearing::{answer_of, hear};
use crate::ask::url::host_of;
use std::alloc::{AllocError, Global};
use sv_base::{Bytes, ClientSpec};
use sv_http::request;
use sv_out::{Link, send_all};
use sv_xmlcall::{Answered, Call, write_call};

/// Asks over a link: writes the request, and reads one reply. What was read is a whole reply with status 200 whose body
/// spells the answer, or the fault says what it is: `LinkFailed` only where the link's count of faults rose, `Ended`
/// exactly where it gave its end before a whole reply, `BadReply` where no bytes that follow can make a reply of it, or
/// where its body spells none, `Status` where the reply has another status.
pub fn ask<L: Link>(
    alloc: Global,
    link: &mut L,
    client: &ClientSpec,
    call: &Call,
) -> Result<Answered, AskFault>
    ensures asks { Asks (L.told link.old) (L.told link.new)
        (request_of client.now (call_view call.now)) result }
    ensures cause { RisesWhere (L.faults link.old) (L.faults link.new) (IsLinkFailure result) }
{
    let text = request_of(alloc, client, call)?;
    match send_all(link, text.as_slice()) {
        Ok(()) => listen(alloc, link),
        Err(_) => Err(AskFault::LinkFailed),
    }
}

/// Reads the answer.
fn listen<L: Link>(alloc: Global, link: &mut L) -> Result<Answered, AskFault>
    ensures listens { Listens (L.told link.old) (L.told link.new) result }
    ensures cause { RisesWhere (L.faults link.old) (L.faults link.new) (IsLinkFailure result) }
{
    let replied = hear(alloc, link)?;
    answer_of(alloc, &replied)
}

/// The text of a call to the client's server.
#[tactic(auto, unfolding(crate::specs::Ask::Asking::request_of))]
fn request_of(alloc: Global, client: &ClientSpec, call: &Call) -> Result<Bytes, AllocError>
    ensures { IfOk result (λ text. text ≡ request_of client.now (call_view call.now)) }
{
    let body = write_call(alloc, call)?;
    request(
        alloc,
        body.as_slice(),
        host_of(client.url.as_str()),
        client.username.as_str(),
        client.password.as_str(),
    )
}
