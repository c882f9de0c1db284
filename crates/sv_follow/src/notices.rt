//! What is printed of a poll.
ghost use Rattle.std.specs.Prelude.{◌≡◌, ◌++◌, IfOk, OnOk};
ghost use Rattle.sv_follow.specs.Printed.{notice, printed};

use crate::follower::Shown;
use itoa::Buffer;
use std::alloc::{AllocError, Global};

/// What is printed of a poll: a line that the log was rotated, or of the bytes that are lost, and the text.
pub(crate) fn printed(alloc: Global, shown: &Shown) -> Result<Vec<u8>, AllocError>
    ensures { IfOk result (λ text. text.items ≡ printed shown.now) }
{
    let mut text = notice(alloc, shown)?;
    text.extend_from_slice(shown.text.as_str().as_bytes())?;
    Ok(text)
}

/// The line before the text, where there is one.
fn notice(alloc: Global, shown: &Shown) -> Result<Vec<u8>, AllocError>
    ensures { IfOk result (λ line. line.items ≡ notice shown.now) }
{
    if shown.rotated {
        return Ok(Vec::from_slice(alloc, b"*** log rotated\n")?);
    }
    if shown.lost == 0 {
        return Ok(Vec::new(alloc));
    }
    let mut buffer = Buffer::new();
    let mut line = Vec::from_slice(alloc, b"*** ")?;
    line.extend_from_slice(buffer.format(shown.lost).as_bytes())?;
    line.extend_from_slice(b" bytes lost\n")?;
    Ok(line)
}
