//! Values with the values inside them, read without recursion.
ghost use Rattle.std.specs.Prelude.{◌≡◌, ◌++◌, ◌∷◌, [], ◌<◌, ◌≤◌, IfOk, OnOk, IsTrue, length, List};
ghost use Rattle.std.specs.Prelude.{MatchOption};
ghost use Rattle.sv_letters.specs.Letters.{are_letters};
ghost use Rattle.sv_letters.specs.declared.letters.Letters.TheVariants.{OfXml};
ghost use Rattle.sv_letters.specs.declared.letters.Awaits.{Awaits};
ghost use Rattle.sv_xmlcall.specs.Trees.{view, trees_view, members_view};
ghost use Rattle.sv_xmlcall.specs.Outcome.{Gives};
ghost use Rattle.sv_xmlcall.specs.Atoms.{skip_white};
ghost use Rattle.sv_xmlcall.specs.Machine.{Frame, Go, the_limits, kept, kept_member, after_value};
ghost use Rattle.sv_xmlcall.specs.Machine.{counted};
ghost use Rattle.sv_xmlcall.specs.Turns.{Settles, opening_of, opened_of, turned, settled_state};
ghost use Rattle.sv_xmlcall.specs.Turns.{ReadsValue};
ghost use Rattle.sv_xmlcall.specs.Stages.{turn_view, stage_view, held_view, frames_on, before_at};
ghost use Rattle.sv_xmlcall.specs.Stages.{white_of, opened_at, behind_white, begins_tag, typed_at};
ghost use Rattle.sv_xmlcall.specs.Stages.{form_of, number_at, boolean_at, string_at, other_at};
ghost use Rattle.sv_xmlcall.specs.Stages.{only_white_at, bare_at, formed_at};
ghost use Rattle.sv_xmlcall.specs.Stages.{array_end_at, data_at, items_at, members_at, ended_at};
ghost use Rattle.sv_xmlcall.specs.Stages.{stage_at};

use crate::atoms::{close, closing, is_white, shut, skip_white, tag_behind};
use crate::content::{characters, content, text_of};
use crate::integer::{integer, truth};
use crate::stop::Stop;
use crate::tag::{Tag, next_tag};
use crate::value::Value;
use std::alloc::{AllocError, Global};
use sv_base::text::Text;

/// The most values that may stand one inside the other.
const NESTING: usize = 32;

/// The most values that a text may open.
pub const VALUES: u32 = 65_536;

/// What a value stands in, where it isn't the outermost: an array after other values, or a struct after other members,
/// with its name.
#[derive(Drop)]
pub enum Held {
    Item(Vec<Value>),
    Member(Vec<(Text, Value)>, Text),
}

/// Where a value is read: before it, after its `<value>`, after its form, before the data of an array, before a
/// further value of an array, before a further member of a struct, after the value of a member.
#[derive(Drop)]
pub enum Stage {
    Before,
    Opened,
    Formed(Value),
    Data,
    Items(Vec<Value>),
    Further(Vec<(Text, Value)>),
    Ended(Vec<(Text, Value)>),
}

/// What was read at a stage: what leads to a stage of the same value, the tag that opens a value (and whether it is the
/// empty one), also of a further value of an array, the name of a member, or the end of the value.
#[derive(Drop)]
pub enum Turn {
    On(Stage),
    Opening(bool),
    Item(Vec<Value>, bool),
    Named(Vec<(Text, Value)>, Text),
    Whole(Value),
}

/// Where a value stands after a turn: at a stage, or at its end.
#[derive(Drop)]
enum Settled {
    On(Stage),
    Done(Value),
}

/// Reads a value from its opening tag to its closing tag, with the values inside, and counts those that it opens, up to
/// one more than the most.
pub fn value<'a>(
    alloc: Global,
    opened: &mut u32,
    bytes: &'a [u8],
) -> Result<(Value, &'a [u8]), Stop>
    ensures reads { (frame : Frame) → ReadsValue frame opened.old bytes.now opened.new
        (λ x. view x.0) (λ x. x.1.now) result }
    ensures shorter { IfOk result (λ x. length x.1.now < length bytes.now) }
{
    let mut stack = Vec::new(alloc);
    let mut stage = Stage::Before;
    let mut rest = bytes;
    loop {
        let (turn, behind) = match read_stage(alloc, stage, rest) {
            Ok(read) => read,
            Err(stop) => return Err(stop),
        };
        rest = behind;
        match settle(turn, &mut stack, opened) {
            Ok(Settled::On(next)) => stage = next,
            Ok(Settled::Done(value)) => return Ok((value, rest)),
            Err(stop) => return Err(stop),
        }
    }
}

#[tactic(auto, using(crate::proofs::Frames::frames_more))]
fn push(stack: &mut Vec<Held>, held: Held) -> Result<(), AllocError>
    ensures { OnOk result ((below : List Frame)
        → frames_on below stack.new.items ≡ held_view held ∷ frames_on below stack.old.items) }
{
    stack.push(held)?;
    Ok(())
}

#[tactic(auto, using(crate::proofs::Frames::frames_more))]
fn pop(stack: &mut Vec<Held>) -> Option<Held>
    ensures { MatchOption result (stack.old.items ≡ [])
        (λ held. (below : List Frame)
        → frames_on below stack.old.items ≡ held_view held ∷ frames_on below stack.new.items) }
{
    stack.pop()
}

/// Opens a value, the empty one or another.
#[inline(always)]
#[tactic(auto, using(crate::proofs::Frames::begin_ok, crate::proofs::Frames::begin_deep))]
fn begin(empty: bool, stack: &mut Vec<Held>, opened: &mut u32) -> Result<Settled, Stop>
    ensures { Settles
        (λ frame. opening_of empty (frames_on (frame ∷ []) stack.old.items) opened.old)
        (λ frame s. settled_state frame s (frames_on (frame ∷ []) stack.new.items) opened.new)
        result }
{
    if stack.as_slice().len() >= NESTING {
        return Err(Stop::TooDeep);
    }
    *opened = counted(*opened);
    open(empty, stack, *opened)
}

/// One value more, up to one more than the most.
fn counted(opened: u32) -> u32
    ensures { result ≡ counted the_limits opened }
{
    if opened <= VALUES { opened + 1 } else { opened }
}

fn open(empty: bool, stack: &mut Vec<Held>, opened: u32) -> Result<Settled, Stop>
    ensures { Settles (λ frame. opened_of empty (frames_on (frame ∷ []) stack.old.items) opened)
        (λ frame s. settled_state frame s (frames_on (frame ∷ []) stack.new.items) opened) result }
{
    if empty {
        whole(Value::Text(Text::fixed("")), stack, opened)
    } else {
        Ok(Settled::On(Stage::Opened))
    }
}

/// Goes on after a whole value.
#[inline(always)]
fn whole(value: Value, stack: &mut Vec<Held>, opened: u32) -> Result<Settled, Stop>
    ensures { Settles
        (λ frame. Go
        (after_value the_limits (view value) (frames_on (frame ∷ []) stack.old.items) opened))
        (λ frame s. settled_state frame s (frames_on (frame ∷ []) stack.new.items) opened) result }
{
    match pop(stack) {
        None => Ok(Settled::Done(value)),
        Some(Held::Item(items)) => Ok(Settled::On(Stage::Items(kept(items, value, opened)?))),
        Some(Held::Member(members, name)) => Ok(Settled::On(Stage::Ended(kept_member(
            members, name, value, opened,
        )?))),
    }
}

/// Adds a value, unless too many were opened.
#[inline(always)]
#[tactic(auto, using(crate::proofs::Frames::trees_view_more))]
pub fn kept(items: Vec<Value>, value: Value, opened: u32) -> Result<Vec<Value>, AllocError>
    ensures { IfOk result (λ all. trees_view all.items
        ≡ kept the_limits opened (trees_view items.items) (view value)) }
{
    let mut all = items;
    if opened <= VALUES {
        all.push(value)?;
    }
    Ok(all)
}

/// Adds a member, unless too many values were opened.
#[tactic(auto, using(crate::proofs::Frames::members_view_more))]
fn kept_member(
    members: Vec<(Text, Value)>,
    name: Text,
    value: Value,
    opened: u32,
) -> Result<Vec<(Text, Value)>, AllocError>
    ensures { IfOk result (λ all. members_view all.items
        ≡ kept_member the_limits opened (members_view members.items) name (view value)) }
{
    let mut all = members;
    if opened <= VALUES {
        all.push((name, value))?;
    }
    Ok(all)
}

fn settle(turn: Turn, stack: &mut Vec<Held>, opened: &mut u32) -> Result<Settled, Stop>
    ensures { Settles
        (λ frame. turned (turn_view turn) (frames_on (frame ∷ []) stack.old.items) opened.old)
        (λ frame s. settled_state frame s (frames_on (frame ∷ []) stack.new.items) opened.new)
        result }
{
    match turn {
        Turn::On(stage) => Ok(Settled::On(stage)),
        Turn::Opening(empty) => begin(empty, stack, opened),
        Turn::Item(items, empty) => {
            push(stack, Held::Item(items))?;
            begin(empty, stack, opened)
        }
        Turn::Named(members, name) => {
            push(stack, Held::Member(members, name))?;
            Ok(Settled::On(Stage::Before))
        }
        Turn::Whole(value) => whole(value, stack, *opened),
    }
}

/// Reads what stands at this stage.
fn read_stage(alloc: Global, stage: Stage, bytes: &[u8]) -> Result<(Turn, &[u8]), Stop>
    ensures value { Gives (λ x. (turn_view x.0, x.1.now)) result
        (stage_at (stage_view stage) bytes.now) }
    ensures shorter { IfOk result (λ x. length x.1.now < length bytes.now) }
{
    match stage {
        Stage::Before => before(bytes),
        Stage::Opened => opened(alloc, bytes),
        Stage::Formed(value) => formed(value, bytes),
        Stage::Data => data(alloc, bytes),
        Stage::Items(items) => further_item(items, bytes),
        Stage::Further(members) => further_member(alloc, members, bytes),
        Stage::Ended(members) => ended(members, bytes),
    }
}

fn before(bytes: &[u8]) -> Result<(Turn, &[u8]), Stop>
    ensures value { Gives (λ x. (turn_view x.0, x.1.now)) result (before_at bytes.now) }
    ensures shorter { IfOk result (λ x. length x.1.now < length bytes.now) }
{
    let (tag, rest) = tag_behind(&[Tag::Value, Tag::NoValue], bytes)?;
    match tag {
        Tag::Value => Ok((Turn::Opening(false), rest)),
        _ => Ok((Turn::Opening(true), rest)),
    }
}

fn formed(value: Value, bytes: &[u8]) -> Result<(Turn, &[u8]), Stop>
    ensures value { Gives (λ x. (turn_view x.0, x.1.now)) result
        (formed_at (view value) bytes.now) }
    ensures shorter { IfOk result (λ x. length x.1.now < length bytes.now) }
{
    let rest = closing(Tag::EndValue, bytes)?;
    Ok((Turn::Whole(value), rest))
}

fn array_end(items: Vec<Value>, bytes: &[u8]) -> Result<(Turn, &[u8]), Stop>
    ensures value { Gives (λ x. (turn_view x.0, x.1.now)) result
        (array_end_at (trees_view items.items) bytes.now) }
    ensures shorter { IfOk result (λ x. length x.1.now < length bytes.now) }
{
    let rest = closing(Tag::EndArray, bytes)?;
    Ok((Turn::On(Stage::Formed(Value::Array(items))), rest))
}

fn data(alloc: Global, bytes: &[u8]) -> Result<(Turn, &[u8]), Stop>
    ensures value { Gives (λ x. (turn_view x.0, x.1.now)) result (data_at bytes.now) }
    ensures shorter { IfOk result (λ x. length x.1.now < length bytes.now) }
{
    let (tag, rest) = tag_behind(&[Tag::Data, Tag::NoData], bytes)?;
    match tag {
        Tag::Data => Ok((Turn::On(Stage::Items(Vec::new(alloc))), rest)),
        _ => array_end(Vec::new(alloc), rest),
    }
}

fn further_item(items: Vec<Value>, bytes: &[u8]) -> Result<(Turn, &[u8]), Stop>
    ensures value { Gives (λ x. (turn_view x.0, x.1.now)) result
        (items_at (trees_view items.items) bytes.now) }
    ensures shorter { IfOk result (λ x. length x.1.now < length bytes.now) }
{
    let (tag, rest) = tag_behind(&[Tag::Value, Tag::NoValue, Tag::EndData], bytes)?;
    match tag {
        Tag::Value => Ok((Turn::Item(items, false), rest)),
        Tag::NoValue => Ok((Turn::Item(items, true), rest)),
        _ => {
            let rest = close(rest)?;
            array_end(items, rest)
        }
    }
}

fn further_member(
    alloc: Global,
    members: Vec<(Text, Value)>,
    bytes: &[u8],
) -> Result<(Turn, &[u8]), Stop>
    ensures value { Gives (λ x. (turn_view x.0, x.1.now)) result
        (members_at (members_view members.items) bytes.now) }
    ensures shorter { IfOk result (λ x. length x.1.now < length bytes.now) }
{
    let (tag, rest) = tag_behind(&[Tag::Member, Tag::EndStruct], bytes)?;
    match tag {
        Tag::Member => {
            let (_, rest) = tag_behind(&[Tag::Name], rest)?;
            let (name, rest) = content(alloc, Tag::EndName, rest)?;
            Ok((Turn::Named(members, name), rest))
        }
        _ => {
            let rest = close(rest)?;
            Ok((Turn::On(Stage::Formed(Value::Struct(members))), rest))
        }
    }
}

fn ended(members: Vec<(Text, Value)>, bytes: &[u8]) -> Result<(Turn, &[u8]), Stop>
    ensures value { Gives (λ x. (turn_view x.0, x.1.now)) result
        (ended_at (members_view members.items) bytes.now) }
    ensures shorter { IfOk result (λ x. length x.1.now < length bytes.now) }
{
    let rest = closing(Tag::EndMember, bytes)?;
    Ok((Turn::On(Stage::Further(members)), rest))
}

/// The white space with which these bytes begin.
fn white_text(alloc: Global, bytes: &[u8]) -> Result<Vec<u8>, AllocError>
    ensures { IfOk result (λ white. white.items ≡ white_of bytes.now) }
{
    let mut white = Vec::new(alloc);
    let mut rest = bytes;
    while let [byte, after @ ..] = rest {
        if !is_white(*byte) {
            break;
        }
        white.push(*byte)?;
        rest = after;
    }
    Ok(white)
}

/// Reads what stands after `<value>`: a bare text, or a form.
#[tactic(auto, using(crate::proofs::Texts::white_letters, crate::proofs::StageLaws::opened_gives))]
fn opened(alloc: Global, bytes: &[u8]) -> Result<(Turn, &[u8]), Stop>
    ensures value { Gives (λ x. (turn_view x.0, x.1.now)) result (opened_at bytes.now) }
    ensures shorter { IfOk result (λ x. length x.1.now < length bytes.now) }
{
    let white = white_text(alloc, bytes)?;
    behind_white(alloc, white.as_slice(), skip_white(bytes))
}

fn behind_white<'a>(alloc: Global, white: &[u8], bytes: &'a [u8]) -> Result<(Turn, &'a [u8]), Stop>
    requires { IsTrue (are_letters OfXml Awaits.Character white.now) }
    ensures value { Gives (λ x. (turn_view x.0, x.1.now)) result
        (behind_white white.now bytes.now) }
    ensures shorter { IfOk result (λ x. length x.1.now < length bytes.now) }
{
    if begins_tag(bytes) {
        typed(alloc, white, bytes)
    } else {
        bare(alloc, white, bytes)
    }
}

#[tactic(auto, using(crate::proofs::StageLaws::stage_deep, crate::proofs::Frames::begin_ok))]
fn begins_tag(bytes: &[u8]) -> bool
    ensures { result ≡ begins_tag bytes.now }
{
    match bytes {
        [first, ..] => *first == b'<',
        [] => false,
    }
}

/// Reads a bare text after its white space.
fn bare<'a>(alloc: Global, white: &[u8], bytes: &'a [u8]) -> Result<(Turn, &'a [u8]), Stop>
    requires { IsTrue (are_letters OfXml Awaits.Character white.now) }
    ensures value { Gives (λ x. (turn_view x.0, x.1.now)) result (bare_at white.now bytes.now) }
    ensures shorter { IfOk result (λ x. length x.1.now < length bytes.now) }
{
    let (text, rest) = characters(alloc, white, bytes)?;
    let rest = shut(Tag::EndValue, rest)?;
    Ok((Turn::Whole(Value::Text(text)), rest))
}

#[inline(always)]
fn number(end: Tag, bytes: &[u8]) -> Result<(Turn, &[u8]), Stop>
    ensures value { Gives (λ x. (turn_view x.0, x.1.now)) result (number_at end bytes.now) }
    ensures shorter { IfOk result (λ x. length x.1.now < length bytes.now) }
{
    let (number, rest) = integer(end, bytes)?;
    Ok((Turn::On(Stage::Formed(Value::Int(number))), rest))
}

fn boolean(bytes: &[u8]) -> Result<(Turn, &[u8]), Stop>
    ensures value { Gives (λ x. (turn_view x.0, x.1.now)) result (boolean_at bytes.now) }
    ensures shorter { IfOk result (λ x. length x.1.now < length bytes.now) }
{
    let (truth, rest) = truth(bytes)?;
    Ok((Turn::On(Stage::Formed(Value::Truth(truth))), rest))
}

fn string(alloc: Global, bytes: &[u8]) -> Result<(Turn, &[u8]), Stop>
    ensures value { Gives (λ x. (turn_view x.0, x.1.now)) result (string_at bytes.now) }
    ensures shorter { IfOk result (λ x. length x.1.now < length bytes.now) }
{
    let (text, rest) = content(alloc, Tag::EndString, bytes)?;
    Ok((Turn::On(Stage::Formed(Value::Text(text))), rest))
}

/// Reads the end of the closing tag of a value whose text is this white space.
#[tactic(auto, using(crate::proofs::Texts::xml_utf8))]
fn only_white<'a>(alloc: Global, white: &[u8], bytes: &'a [u8]) -> Result<(Turn, &'a [u8]), Stop>
    requires { IsTrue (are_letters OfXml Awaits.Character white.now) }
    ensures value { Gives (λ x. (turn_view x.0, x.1.now)) result
        (only_white_at white.now bytes.now) }
    ensures shorter { IfOk result (λ x. length x.1.now < length bytes.now) }
{
    let rest = close(bytes)?;
    let text = text_of(Vec::from_slice(alloc, white)?);
    Ok((Turn::Whole(Value::Text(text)), rest))
}

/// Reads a form, or the closing tag of a value whose text is this white space.
fn typed<'a>(alloc: Global, white: &[u8], bytes: &'a [u8]) -> Result<(Turn, &'a [u8]), Stop>
    requires { IsTrue (are_letters OfXml Awaits.Character white.now) }
    ensures value { Gives (λ x. (turn_view x.0, x.1.now)) result (typed_at white.now bytes.now) }
    ensures shorter { IfOk result (λ x. length x.1.now < length bytes.now) }
{
    let (tag, rest) = next_tag(
        &[
            Tag::I4,
            Tag::Int,
            Tag::Boolean,
            Tag::String,
            Tag::NoString,
            Tag::Double,
            Tag::DateTime,
            Tag::Base64,
            Tag::Struct,
            Tag::NoMembers,
            Tag::Array,
            Tag::EndValue,
        ],
        bytes,
    )?;
    form(alloc, white, tag, rest)
}

/// Reads the form of this tag, or the end of a closing tag after this white space.
fn form<'a>(
    alloc: Global,
    white: &[u8],
    tag: Tag,
    bytes: &'a [u8],
) -> Result<(Turn, &'a [u8]), Stop>
    requires { IsTrue (are_letters OfXml Awaits.Character white.now) }
    ensures value { Gives (λ x. (turn_view x.0, x.1.now)) result
        (form_of white.now tag bytes.now) }
    ensures shorter { IfOk result (λ x. length x.1.now ≤ length bytes.now) }
{
    match tag {
        Tag::I4 => number(Tag::EndI4, bytes),
        Tag::Int => number(Tag::EndInt, bytes),
        Tag::Boolean => boolean(bytes),
        Tag::String => string(alloc, bytes),
        Tag::NoString => Ok((Turn::On(Stage::Formed(Value::Text(Text::fixed("")))), bytes)),
        Tag::Double => other(alloc, "double", Tag::EndDouble, bytes),
        Tag::DateTime => other(alloc, "dateTime.iso8601", Tag::EndDateTime, bytes),
        Tag::Base64 => other(alloc, "base64", Tag::EndBase64, bytes),
        Tag::Struct => Ok((Turn::On(Stage::Further(Vec::new(alloc))), bytes)),
        Tag::NoMembers => Ok((
            Turn::On(Stage::Formed(Value::Struct(Vec::new(alloc)))),
            bytes,
        )),
        Tag::Array => Ok((Turn::On(Stage::Data), bytes)),
        _ => only_white(alloc, white, bytes),
    }
}

/// Reads a form whose text is kept as it stands.
fn other<'a>(
    alloc: Global,
    form: &'static str,
    end: Tag,
    bytes: &'a [u8],
) -> Result<(Turn, &'a [u8]), Stop>
    ensures value { Gives (λ x. (turn_view x.0, x.1.now)) result (other_at form.now end bytes.now) }
    ensures shorter { IfOk result (λ x. length x.1.now < length bytes.now) }
{
    let (text, rest) = content(alloc, end, bytes)?;
    Ok((
        Turn::On(Stage::Formed(Value::Other(Text::fixed(form), text))),
        rest,
    ))
}
