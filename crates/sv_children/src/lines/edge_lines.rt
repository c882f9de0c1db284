//! The line that an edge of a child gives.
ghost use Rattle.std.specs.Prelude.{◌≡◌, ◌++◌, IfOk, OnOk, codes, string_bytes};
ghost use Rattle.sv_children.specs.Lines.EdgeLines.{entry_line, how_of, line_at};
ghost use Rattle.sv_children.specs.Lines.Ends.{how_text, signal_text};
ghost use Rattle.sv_children.specs.Lines.Rows.{exited_line, gave_up_line, refused_line, stopped_line};
ghost use Rattle.sv_children.specs.Lines.Rows.{success_line};

use crate::lines::line::{Line, push_number};
use crate::{Children, Member, News, is_expected};
use std::alloc::{AllocError, Global};
use sv_base::spec::Spec;
use sv_base::state::{How, Level, State};
use sv_base::text::Text;
use sv_child::step::Edge;

/// How the process ended, where the news are that it did.
pub fn how_of(news: &News) -> Option<How>
    ensures { result ≡ how_of news.now }
{
    match news {
        News::Exit(_, how) => Some(*how),
        _ => None,
    }
}

/// The line of an edge of the child of a place; `None` where the edge has none, or no child is there. The child is as it is
/// after its step, and `how` says how its process ended, if an exit made it take the step.
pub fn line_at(
    alloc: Global,
    children: &Children,
    place: usize,
    how: Option<How>,
    edge: Edge,
) -> Result<Option<Line>, AllocError>
    ensures { IfOk result (λ line. line ≡ line_at children.now place how edge) }
{
    match children.member(place) {
        None => Ok(None),
        Some(member) => line_of(alloc, &member, how, edge),
    }
}

fn line_of(
    alloc: Global,
    member: &Member<'_>,
    how: Option<How>,
    edge: Edge,
) -> Result<Option<Line>, AllocError>
    ensures { IfOk result (λ line. line ≡ entry_line edge.to edge.from how (record {
      group = member.now.group.now;
      spec = member.now.spec.now;
      child = member.now.child.now;
    })) }
{
    let name = member.spec.name.as_str();
    let line = match (edge.to, edge.from, how) {
        (State::Running, _, _) => success(alloc, member.spec)?,
        (State::Backoff, State::Starting, Some(how)) => exited(alloc, name, how, false)?,
        (State::Backoff, State::Starting, None) => refused(alloc, &member.child.fault)?,
        (State::Exited, _, Some(how)) => {
            exited(alloc, name, how, is_expected(member.spec, member.child))?
        }
        (State::Stopped, State::Stopping, Some(how)) => stopped(alloc, name, how)?,
        (State::Fatal, _, _) => gave_up(alloc, name)?,
        _ => return Ok(None),
    };
    Ok(Some(line))
}

fn success(alloc: Global, spec: &Spec) -> Result<Line, AllocError>
    ensures { IfOk result (λ line. line ≡ success_line spec.now) }
{
    let name = spec.name.as_str();
    let mut text = format!(in alloc;
        "success: {name} entered RUNNING state, process has stayed up for > than "
    )?;
    push_number(&mut text, u64::from(spec.startsecs.get()))?;
    text.push_str(" seconds (startsecs)")?;
    Ok(Line {
        level: Level::Info,
        text: Text::from_string(text),
    })
}

fn exited(alloc: Global, name: &str, how: How, expected: bool) -> Result<Line, AllocError>
    ensures { IfOk result (λ line. line ≡ exited_line name.now how expected) }
{
    let mut text = format!(in alloc; "exited: {name} (")?;
    push_how(&mut text, how)?;
    text.push_str(if expected {
        "; expected)"
    } else {
        "; not expected)"
    })?;
    Ok(Line {
        level: if expected { Level::Info } else { Level::Warn },
        text: Text::from_string(text),
    })
}

fn stopped(alloc: Global, name: &str, how: How) -> Result<Line, AllocError>
    ensures { IfOk result (λ line. line ≡ stopped_line name.now how) }
{
    let mut text = format!(in alloc; "stopped: {name} (")?;
    push_how(&mut text, how)?;
    text.push_str(")")?;
    Ok(Line {
        level: Level::Info,
        text: Text::from_string(text),
    })
}

fn refused(alloc: Global, fault: &Text) -> Result<Line, AllocError>
    ensures { IfOk result (λ line. line ≡ refused_line fault.now) }
{
    let fault = fault.as_str();
    let text = format!(in alloc; "spawnerr: {fault}")?;
    Ok(Line {
        level: Level::Info,
        text: Text::from_string(text),
    })
}

fn gave_up(alloc: Global, name: &str) -> Result<Line, AllocError>
    ensures { IfOk result (λ line. line ≡ gave_up_line name.now) }
{
    let text = format!(in alloc;
        "gave up: {name} entered FATAL state, too many start retries too quickly"
    )?;
    Ok(Line {
        level: Level::Info,
        text: Text::from_string(text),
    })
}

/// Adds how a process ended.
fn push_how(text: &mut String, how: How) -> Result<(), AllocError>
    ensures { OnOk result (string_bytes text.new ≡ string_bytes text.old ++ how_text how) }
{
    match how {
        How::Code(code) => {
            text.push_str("exit status ")?;
            push_number(text, u64::from(code))
        }
        How::Signal(signal) => {
            text.push_str("terminated by ")?;
            push_signal(text, signal.get())
        }
    }
}

/// Adds a signal, by its name where it is one of those that have one.
fn push_signal(text: &mut String, number: u32) -> Result<(), AllocError>
    ensures { OnOk result (string_bytes text.new ≡ string_bytes text.old ++ signal_text number) }
{
    match number {
        1 => text.push_str("SIGHUP"),
        2 => text.push_str("SIGINT"),
        3 => text.push_str("SIGQUIT"),
        9 => text.push_str("SIGKILL"),
        10 => text.push_str("SIGUSR1"),
        12 => text.push_str("SIGUSR2"),
        15 => text.push_str("SIGTERM"),
        _ => {
            text.push_str("signal ")?;
            push_number(text, u64::from(number))
        }
    }
}
