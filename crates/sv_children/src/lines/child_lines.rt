//! The lines of a child's spawn, and of its KILL.
ghost use Rattle.std.specs.Prelude.{◌≡◌, IfOk, Some};
ghost use Rattle.sv_children.specs.Lines.EdgeLines.{killing_at, spawned_at};
ghost use Rattle.sv_children.specs.Lines.Rows.{killing_line, spawned_line};

use crate::lines::line::{Line, push_number};
use crate::{Children, News};
use std::alloc::{AllocError, Global};
use sv_base::state::Level;
use sv_base::text::Text;
use sv_child::step::ChildDeed;

/// The line that tells that the spawn of the child of a place was answered by this process number; `None` where no child is
/// there.
pub fn spawned_at(
    alloc: Global,
    children: &Children,
    place: usize,
    pid: u32,
) -> Result<Option<Line>, AllocError>
    ensures { IfOk result (λ line. line ≡ spawned_at children.now place pid) }
{
    match children.member(place) {
        None => Ok(None),
        Some(member) => {
            let line = spawned(alloc, &member.spec.name, pid)?;
            Ok(Some(line))
        }
    }
}

/// The line that goes before what is done for the child of a place at these news: a signal that time brings is the KILL by
/// deadline. `None` where there is none, or no child.
pub fn killing_at(
    alloc: Global,
    news: &News,
    deed: Option<ChildDeed>,
    children: &Children,
    place: usize,
) -> Result<Option<Line>, AllocError>
    ensures { IfOk result (λ line. line ≡ killing_at news.now deed children.now place) }
{
    match (news, deed, children.member(place)) {
        (News::Time, Some(ChildDeed::Kill(_, _)), Some(member)) => {
            let line = killing(alloc, &member.spec.name, member.child.pid)?;
            Ok(Some(line))
        }
        _ => Ok(None),
    }
}

fn spawned(alloc: Global, name: &Text, pid: u32) -> Result<Line, AllocError>
    ensures { IfOk result (λ line. line ≡ spawned_line name.now pid) }
{
    let name = name.as_str();
    let mut text = format!(in alloc; "spawned: '{name}' with pid ")?;
    push_number(&mut text, u64::from(pid))?;
    Ok(Line {
        level: Level::Info,
        text: Text::from_string(text),
    })
}

fn killing(alloc: Global, name: &Text, pid: u32) -> Result<Line, AllocError>
    ensures { IfOk result (λ line. line ≡ killing_line name.now pid) }
{
    let name = name.as_str();
    let mut text = format!(in alloc; "killing '{name}' (")?;
    push_number(&mut text, u64::from(pid))?;
    text.push_str(") with SIGKILL")?;
    Ok(Line {
        level: Level::Warn,
        text: Text::from_string(text),
    })
}
