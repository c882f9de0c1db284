//! The text of a reply.
ghost use Rattle.std.specs.Prelude.{◌≡◌, ◌++◌, IfOk, OnOk, decimal};
ghost use Rattle.sv_http.specs.ReplyText.{reply_text, status_line, length_line, challenge, closing};

use crate::status::{Refusal, Status};
use std::alloc::{AllocError, Global};
use sv_base::bytes::Bytes;

/// The text of a reply with this status and body. Where `close` is set it says that the link closes after it.
#[tactic(auto, using(crate::proofs::Replies::seven_parts))]
pub fn reply(alloc: Global, status: Status, body: &[u8], close: bool) -> Result<Bytes, AllocError>
    ensures { IfOk result (λ text. text ≡ reply_text status body.now close) }
{
    let mut text = Vec::new(alloc);
    put_status(&mut text, status)?;
    text.extend_from_slice(b"Content-Type: text/xml\r\n")?;
    put_length(&mut text, body.len() as u64)?;
    put_challenge(&mut text, status)?;
    put_closing(&mut text, close)?;
    text.extend_from_slice(b"\r\n")?;
    text.extend_from_slice(body)?;
    Ok(Bytes::from_vec(text))
}

#[tactic(auto, using(crate::proofs::Replies::five_parts))]
fn put_status(text: &mut Vec<u8>, status: Status) -> Result<(), AllocError>
    ensures { OnOk result (text.new.items ≡ text.old.items ++ status_line status) }
{
    text.extend_from_slice(b"HTTP/1.1 ")?;
    put_number(text, u64::from(status.number()))?;
    text.push(b' ')?;
    text.extend_from_slice(status.reason().as_bytes())?;
    text.extend_from_slice(b"\r\n")?;
    Ok(())
}

/// Adds the field line that gives the length of the body.
#[tactic(auto, using(crate::proofs::Replies::three_parts))]
pub(crate) fn put_length(text: &mut Vec<u8>, length: u64) -> Result<(), AllocError>
    ensures { OnOk result (text.new.items ≡ text.old.items ++ length_line length) }
{
    text.extend_from_slice(b"Content-Length: ")?;
    put_number(text, length)?;
    text.extend_from_slice(b"\r\n")?;
    Ok(())
}

fn put_challenge(text: &mut Vec<u8>, status: Status) -> Result<(), AllocError>
    ensures { OnOk result (text.new.items ≡ text.old.items ++ challenge status) }
{
    match status {
        Status::Bad(Refusal::Unauthorized) => {
            text.extend_from_slice(b"WWW-Authenticate: Basic realm=\"default\"\r\n")
        }
        _ => Ok(()),
    }
}

fn put_closing(text: &mut Vec<u8>, close: bool) -> Result<(), AllocError>
    ensures { OnOk result (text.new.items ≡ text.old.items ++ closing close) }
{
    if close {
        text.extend_from_slice(b"Connection: close\r\n")
    } else {
        Ok(())
    }
}

fn put_number(text: &mut Vec<u8>, number: u64) -> Result<(), AllocError>
    ensures { OnOk result (text.new.items ≡ text.old.items ++ decimal number) }
{
    let mut buffer = itoa::Buffer::new();
    text.extend_from_slice(buffer.format(number).as_bytes())
}
