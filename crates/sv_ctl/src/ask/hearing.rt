//! The hearing of one reply over a link.
ghost use Rattle.std.specs.Prelude.{◌≡◌, ◌≤◌};
ghost use Rattle.sv_out.specs.Faults.{RisesWhere};
ghost use Rattle.sv_ctl.specs.Ask.Hearing.{Heard, IsBroken, AnswersWith};

use crate::ask::fault::AskFault;
use std::alloc::Global;
use sv_http::{Replied, ReplyFault, ReplyReader};
use sv_out::Link;
use sv_xmlcall::{Answered, CallFault};
use sv_xmlread::read_reply;

/// How many bytes are asked for at once.
const PIECE: usize = 16_384;

/// The most bytes of a reply: those of a head and of a body.
const MOST_BYTES: usize = 67_125_248;

/// Reads one reply.
pub(crate) fn hear<L: Link>(alloc: Global, link: &mut L) -> Result<Replied, AskFault>
    ensures heard { Heard (L.told link.old) (L.told link.new) result }
    ensures cause { RisesWhere (L.faults link.old) (L.faults link.new) (IsBroken result) }
{
    let mut reader = ReplyReader::new(alloc);
    let mut buffer = [0u8; PIECE];
    let mut room = MOST_BYTES;
    'pieces: loop {
        let most = PIECE.min(room);
        let count = match link.read(&mut buffer[..most]) {
            Ok(0) => return Err(AskFault::Ended),
            Ok(count) => count,
            Err(_) => return Err(AskFault::LinkFailed),
        };
        let (piece, _) = buffer.split_at(count);
        match reader.feed(alloc, piece) {
            Ok(None) => {}
            Ok(Some(replied)) => return Ok(replied),
            Err(ReplyFault::NotAReply) => return Err(AskFault::BadReply),
            Err(ReplyFault::OutOfMemory) => return Err(AskFault::OutOfMemory),
        }
        room -= count;
    }
}

/// What a whole reply answers.
pub(crate) fn answer_of(alloc: Global, replied: &Replied) -> Result<Answered, AskFault>
    ensures { AnswersWith replied.now.status replied.now.body result }
{
    if replied.status != 200 {
        return Err(AskFault::Status(replied.status));
    }
    match read_reply(alloc, replied.body.as_slice()) {
        Ok(answered) => Ok(answered),
        Err(CallFault::OutOfMemory) => Err(AskFault::OutOfMemory),
        Err(_) => Err(AskFault::BadReply),
    }
}
