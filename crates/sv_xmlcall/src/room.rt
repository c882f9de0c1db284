//! How much room a text takes at most, so that it is written into one piece of memory, which never grows.

use crate::call::Call;
use crate::value::Value;
use sv_base::text::Text;

/// The bytes of a text that stand outside its values and its method's name.
const AROUND: usize = 128;

/// The bytes of the tags of a value and of its form, with the digits of an integer. The tags of a kept form count as text.
const TAGS: usize = 64;

/// The bytes of the tags of a member or of a parameter, outside its value.
const PLACE: usize = 32;

/// The most bytes that one byte of a text is written as.
const ENTITY: usize = 5;

/// The most bytes of the text of this call.
pub(crate) fn room_of_call(call: &Call) -> usize {
    let mut room = AROUND.saturating_add(room_of_text(&call.method));
    for value in &call.params {
        room = room_behind(value, room.saturating_add(PLACE));
    }
    room
}

/// The most bytes of the text of a reply that gives this value.
pub(crate) fn room_of_reply(value: &Value) -> usize {
    room_behind(value, AROUND)
}

fn room_of_text(text: &Text) -> usize {
    text.as_str().len().saturating_mul(ENTITY)
}

/// The most bytes of a value, after so many of what stands before it.
fn room_behind(value: &Value, before: usize) -> usize {
    let mut room = before.saturating_add(TAGS);
    match value {
        Value::Int(_) | Value::Truth(_) => {}
        Value::Text(text) => room = room.saturating_add(room_of_text(text)),
        Value::Other(form, text) => {
            room = room.saturating_add(room_of_text(form));
            room = room.saturating_add(room_of_text(text));
        }
        Value::Struct(members) => {
            for (name, value) in members {
                room = room
                    .saturating_add(PLACE)
                    .saturating_add(room_of_text(name));
                room = room_behind(value, room);
            }
        }
        Value::Array(values) => {
            for value in values {
                room = room_behind(value, room);
            }
        }
    }
    room
}
