//! The members of the structs that replies give.
ghost use Rattle.std.specs.Prelude.{◌≡◌};
ghost use Rattle.std.specs.Option.{option_copied, option_map};
ghost use Rattle.sv_xmlcall.specs.Trees.{view, members_view};
ghost use Rattle.sv_commands.specs.Members.{first_member, text_in, integer_in};

use sv_base::Text;
use sv_xmlcall::Value;

/// The value of the first member of this name.
fn first_member<'a>(members: &'a [(Text, Value)], name: &str) -> Option<&'a Value>
    ensures { option_map view (option_copied result)
        ≡ first_member name.now (members_view members.now) }
{
    let mut left = members;
    while let [(own, value), rest @ ..] = left {
        if own.as_str() == name {
            return Some(value);
        }
        left = rest;
    }
    None
}

/// The text of a member.
pub(crate) fn text_in<'a>(members: &'a [(Text, Value)], name: &str) -> Option<&'a Text>
    ensures { option_copied result ≡ text_in name.now (members_view members.now) }
{
    match first_member(members, name) {
        Some(Value::Text(text)) => Some(text),
        _ => None,
    }
}

/// The integer of a member.
pub(crate) fn integer_in(members: &[(Text, Value)], name: &str) -> Option<i64>
    ensures { result ≡ integer_in name.now (members_view members.now) }
{
    match first_member(members, name) {
        Some(Value::Int(number)) => Some(*number),
        _ => None,
    }
}
