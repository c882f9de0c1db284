//! The group and the process that a name of a command means.
ghost use Rattle.std.specs.Prelude.{◌≡◌, IfOk};
ghost use Rattle.sv_base.specs.SplitName.{split_of, member_of};

use crate::text::Text;
use std::alloc::{AllocError, Global};

/// The group and the process that a name of a command means: `g:p` gives g and p; `g:*` and `g:` give g and no
/// process, which is the whole group; a text without a colon gives itself twice. The first colon cuts.
pub fn split_name(alloc: Global, text: &str) -> Result<(Text, Option<Text>), AllocError>
    ensures { IfOk result (λ parts. parts ≡ split_of text.now) }
{
    match text.split_once(':') {
        Some((group, member)) => Ok((Text::from_str(alloc, group)?, member_of(alloc, member)?)),
        None => Ok((
            Text::from_str(alloc, text)?,
            Some(Text::from_str(alloc, text)?),
        )),
    }
}

fn member_of(alloc: Global, text: &str) -> Result<Option<Text>, AllocError>
    ensures { IfOk result (λ member. member ≡ member_of text.now) }
{
    if text.is_empty() || text == "*" {
        Ok(None)
    } else {
        Ok(Some(Text::from_str(alloc, text)?))
    }
}
