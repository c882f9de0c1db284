//! Writing a call, a reply or a fault.
ghost use Rattle.std.specs.Prelude.{◌≡◌, ◌≤◌, ◌++◌, IfOk, OnOk, codes, length};
ghost use Rattle.std.specs.Fmt.{signed_decimal};
ghost use Rattle.sv_xmlcall.specs.Trees.{view, trees_view, members_view, call_view, Returns};
ghost use Rattle.sv_xmlcall.specs.Trees.{Faults};
ghost use Rattle.sv_xmlcall.specs.Written.{escaped_byte, digit_of, escaped, opening, closing};
ghost use Rattle.sv_xmlcall.specs.Written.{element, fault_tree, declaration, written_form};
ghost use Rattle.sv_xmlcall.specs.Written.{written_value, written_values, written_members};
ghost use Rattle.sv_xmlcall.specs.Written.{written_params, written_call, written_reply};

use crate::call::Call;
use crate::room::{room_of_call, room_of_reply};
use crate::simple::push_run;
use crate::value::Value;
use itoa::Buffer;
use std::alloc::{AllocError, Global};
use sv_base::bytes::Bytes;
use sv_base::text::Text;

const DECLARATION: &[u8] = b"<?xml version='1.0'?>";

/// The text of this call.
pub fn write_call(alloc: Global, call: &Call) -> Result<Bytes, AllocError>
    ensures { IfOk result (λ bytes. bytes ≡ written_call (call_view call.now)) }
{
    let mut out = begin(alloc, room_of_call(call))?;
    open(&mut out, b"methodCall")?;
    put_method(&mut out, &call.method)?;
    put_params(&mut out, &call.params)?;
    close(&mut out, b"methodCall")?;
    Ok(Bytes::from_vec(out))
}

/// The text of a reply that gives this value.
pub fn write_reply(alloc: Global, value: &Value) -> Result<Bytes, AllocError>
    ensures { IfOk result (λ bytes. bytes ≡ written_reply (Returns (view value.now))) }
{
    let mut out = begin(alloc, room_of_reply(value))?;
    open(&mut out, b"methodResponse")?;
    open(&mut out, b"params")?;
    put_param(&mut out, value)?;
    close(&mut out, b"params")?;
    close(&mut out, b"methodResponse")?;
    Ok(Bytes::from_vec(out))
}

/// The text of a reply that gives the fault of this number and text.
pub fn write_fault(alloc: Global, number: i64, text: &str) -> Result<Bytes, AllocError>
    ensures { IfOk result (λ bytes. bytes ≡ written_reply (Faults number text.now)) }
{
    let fault = fault_value(alloc, number, text)?;
    let mut out = begin(alloc, room_of_reply(&fault))?;
    open(&mut out, b"methodResponse")?;
    open(&mut out, b"fault")?;
    put_value(&mut out, &fault)?;
    close(&mut out, b"fault")?;
    close(&mut out, b"methodResponse")?;
    Ok(Bytes::from_vec(out))
}

/// A text of which the declaration stands, with room for so many bytes.
fn begin(alloc: Global, room: usize) -> Result<Vec<u8>, AllocError>
    ensures { IfOk result (λ out. out.items ≡ declaration) }
{
    let mut out = Vec::with_capacity(alloc, room)?;
    out.extend_from_slice(DECLARATION)?;
    Ok(out)
}

/// The struct of a fault.
fn fault_value(alloc: Global, number: i64, text: &str) -> Result<Value, AllocError>
    ensures { IfOk result (λ value. view value ≡ fault_tree number text.now) }
{
    let text = Text::from_str(alloc, text)?;
    let members = vec![in alloc;
        (Text::fixed("faultCode"), Value::Int(number)),
        (Text::fixed("faultString"), Value::Text(text)),
    ]?;
    Ok(Value::Struct(members))
}

#[tactic(auto, unfolding(crate::specs::Written::opening))]
fn open(out: &mut Vec<u8>, name: &[u8]) -> Result<(), AllocError>
    ensures { OnOk result (out.new.items ≡ out.old.items ++ opening name.now) }
{
    out.extend_from_slice(b"<")?;
    out.extend_from_slice(name)?;
    out.extend_from_slice(b">")
}

#[tactic(auto, unfolding(crate::specs::Written::closing))]
fn close(out: &mut Vec<u8>, name: &[u8]) -> Result<(), AllocError>
    ensures { OnOk result (out.new.items ≡ out.old.items ++ closing name.now) }
{
    out.extend_from_slice(b"</")?;
    out.extend_from_slice(name)?;
    out.extend_from_slice(b">")
}

fn put_integer(out: &mut Vec<u8>, number: i64) -> Result<(), AllocError>
    ensures { OnOk result (out.new.items ≡ out.old.items ++ signed_decimal number) }
{
    let mut buffer = Buffer::new();
    out.extend_from_slice(buffer.format(number).as_bytes())
}

fn put_byte(out: &mut Vec<u8>, byte: u8) -> Result<(), AllocError>
    ensures { OnOk result (out.new.items ≡ out.old.items ++ escaped_byte byte) }
{
    match byte {
        b'&' => out.extend_from_slice(b"&amp;"),
        b'<' => out.extend_from_slice(b"&lt;"),
        b'>' => out.extend_from_slice(b"&gt;"),
        b'\r' => out.extend_from_slice(b"&#13;"),
        _ => Ok(out.push(byte)?),
    }
}

fn put_text(out: &mut Vec<u8>, text: &str) -> Result<(), AllocError>
    ensures { OnOk result (out.new.items ≡ out.old.items ++ escaped text.now) }
{
    let mut rest = put_run(out, text.as_bytes())?;
    while let [byte, after @ ..] = rest {
        put_byte(out, *byte)?;
        rest = put_run(out, after)?;
    }
    Ok(())
}

/// Writes the simple bytes with which these begin, and gives what is after them.
#[tactic(auto, using(crate::proofs::SimpleLaws::written_run))]
fn put_run<'a>(out: &mut Vec<u8>, bytes: &'a [u8]) -> Result<&'a [u8], AllocError>
    ensures written { IfOk result (λ rest. out.new.items ++ escaped rest.now
        ≡ out.old.items ++ escaped bytes.now) }
    ensures shorter { IfOk result (λ rest. length rest.now ≤ length bytes.now) }
{
    push_run(out, bytes)
}

/// An element that holds a text.
fn put_content(out: &mut Vec<u8>, name: &[u8], text: &Text) -> Result<(), AllocError>
    ensures { OnOk result (out.new.items ≡ out.old.items ++ element name.now (escaped text.now)) }
{
    open(out, name)?;
    put_text(out, text.as_str())?;
    close(out, name)
}

fn put_method(out: &mut Vec<u8>, method: &Text) -> Result<(), AllocError>
    ensures { OnOk result (out.new.items
        ≡ out.old.items ++ element (codes "methodName") (escaped method.now)) }
{
    put_content(out, b"methodName", method)
}

fn put_truth(out: &mut Vec<u8>, truth: bool) -> Result<(), AllocError>
    ensures { OnOk result (out.new.items ≡ out.old.items ++ digit_of truth) }
{
    match truth {
        true => out.extend_from_slice(b"1"),
        false => out.extend_from_slice(b"0"),
    }
}

#[tactic(auto, using(crate::proofs::WriteLaws::written_between), unfolding(crate::specs::Written::opening, crate::specs::Written::closing))]
fn put_int(out: &mut Vec<u8>, number: i64) -> Result<(), AllocError>
    ensures { OnOk result (out.new.items
        ≡ out.old.items ++ element (codes "int") (signed_decimal number)) }
{
    out.extend_from_slice(b"<int>")?;
    put_integer(out, number)?;
    out.extend_from_slice(b"</int>")
}

#[tactic(auto, using(crate::proofs::WriteLaws::written_between), unfolding(crate::specs::Written::opening, crate::specs::Written::closing))]
fn put_boolean(out: &mut Vec<u8>, truth: bool) -> Result<(), AllocError>
    ensures { OnOk result (out.new.items
        ≡ out.old.items ++ element (codes "boolean") (digit_of truth)) }
{
    out.extend_from_slice(b"<boolean>")?;
    put_truth(out, truth)?;
    out.extend_from_slice(b"</boolean>")
}

#[tactic(auto, using(crate::proofs::WriteLaws::written_between), unfolding(crate::specs::Written::opening, crate::specs::Written::closing))]
fn put_string(out: &mut Vec<u8>, text: &Text) -> Result<(), AllocError>
    ensures { OnOk result (out.new.items
        ≡ out.old.items ++ element (codes "string") (escaped text.now)) }
{
    out.extend_from_slice(b"<string>")?;
    put_text(out, text.as_str())?;
    out.extend_from_slice(b"</string>")
}

/// The form of a value: what stands within `<value>` and `</value>`.
#[cycle(put)]
fn put_form(out: &mut Vec<u8>, value: &Value) -> Result<(), AllocError>
    ensures { OnOk result (out.new.items ≡ out.old.items ++ written_form (view value.now)) }
{
    match value {
        Value::Int(number) => put_int(out, *number),
        Value::Truth(truth) => put_boolean(out, *truth),
        Value::Text(text) => put_string(out, text),
        Value::Other(form, content) => put_content(out, form.as_str().as_bytes(), content),
        Value::Struct(members) => {
            open(out, b"struct")?;
            put_members(out, members)?;
            close(out, b"struct")
        }
        Value::Array(values) => {
            open(out, b"array")?;
            put_data(out, values)?;
            close(out, b"array")
        }
    }
}

#[cycle(put)]
fn put_value(out: &mut Vec<u8>, value: &Value) -> Result<(), AllocError>
    ensures { OnOk result (out.new.items ≡ out.old.items ++ written_value (view value.now)) }
{
    out.extend_from_slice(b"<value>")?;
    put_form(out, value)?;
    out.extend_from_slice(b"</value>")?;
    Ok(())
}

#[cycle(put)]
fn put_data(out: &mut Vec<u8>, values: &Vec<Value>) -> Result<(), AllocError>
    ensures { OnOk result (out.new.items
        ≡ out.old.items ++ element (codes "data") (written_values (trees_view values.now.items))) }
{
    open(out, b"data")?;
    for value in values {
        put_value(out, value)?;
    }
    close(out, b"data")
}

#[cycle(put)]
fn put_member(out: &mut Vec<u8>, name: &Text, value: &Value) -> Result<(), AllocError>
    ensures { OnOk result (out.new.items ≡ out.old.items
        ++ element (codes "member") (element (codes "name") (escaped name.now) ++ written_value (view value.now))) }
{
    out.extend_from_slice(b"<member><name>")?;
    put_text(out, name.as_str())?;
    out.extend_from_slice(b"</name><value>")?;
    put_form(out, value)?;
    out.extend_from_slice(b"</value></member>")?;
    Ok(())
}

#[cycle(put)]
fn put_members(out: &mut Vec<u8>, members: &Vec<(Text, Value)>) -> Result<(), AllocError>
    ensures { OnOk result (out.new.items
        ≡ out.old.items ++ written_members (members_view members.now.items)) }
{
    for (name, value) in members {
        put_member(out, name, value)?;
    }
    Ok(())
}

fn put_param(out: &mut Vec<u8>, value: &Value) -> Result<(), AllocError>
    ensures { OnOk result (out.new.items
        ≡ out.old.items ++ element (codes "param") (written_value (view value.now))) }
{
    open(out, b"param")?;
    put_value(out, value)?;
    close(out, b"param")
}

fn put_params(out: &mut Vec<u8>, values: &Vec<Value>) -> Result<(), AllocError>
    ensures { OnOk result (out.new.items ≡ out.old.items
        ++ element (codes "params") (written_params (trees_view values.now.items))) }
{
    open(out, b"params")?;
    for value in values {
        put_param(out, value)?;
    }
    close(out, b"params")
}
