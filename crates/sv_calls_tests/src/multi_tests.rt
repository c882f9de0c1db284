//! Parts of values that were worked out by hand, and the one value that answers make.

use crate::checks::{check, check_of};
use std::alloc::Global;
use std::process::Abort;
use sv_base::text::Text;
use sv_multi::parts::parts;
use sv_multi::{Gather, MultiFault, Part};
use sv_xmlcall::call::{Answered, Call};
use sv_xmlcall::value::Value;
use sv_xmlcall::write::{write_call, write_reply};
use sv_xmlread::{read_call, read_reply};

// Each pair is the members of a struct, and the part that it is: the written call after its declaration, or the fault. In both
// `M` stands for `<member><name>methodName</name><value>`, `P` for `<member><name>params</name><value>`, `E` for
// `</value></member>`, `A` for `<array><data>`, `Z` for `</data></array>`.
static PARTS: [(&str, &str); 16] = [
    ("MgetE", "get|<params></params>"),
    ("MgetEPAZE", "get|<params></params>"),
    ("PAZEMgetE", "get|<params></params>"),
    (
        "MgetEPA<value>a</value><value><int>-1</int></value>ZE",
        "get|<params><param><value><string>a</string></value></param><param><value><int>-1</int></value></param></params>",
    ),
    (
        "MgetEPA<value>A<value><boolean>1</boolean></value>Z</value>ZE",
        "get|<params><param><value>A<value><boolean>1</boolean></value>Z</value></param></params>",
    ),
    (
        "MgetEPA<value><struct>MxE</struct></value><value><double>1.5</double></value>ZE",
        "get|<params><param><value><struct>M<string>x</string>E</struct></value></param><param><value><double>1.5</double></value></param></params>",
    ),
    ("ME", "|<params></params>"),
    ("MoneEMtwoE", "one|<params></params>"),
    ("MgetEPAZEP3E", "get|<params></params>"),
    ("Msystem.listE", "system.list|<params></params>"),
    ("Msystem.multicallE", "2 INCORRECT_PARAMETERS"),
    ("Msystem.multicallEPAZE", "2 INCORRECT_PARAMETERS"),
    ("", "2 INCORRECT_PARAMETERS"),
    ("M<int>3</int>E", "2 INCORRECT_PARAMETERS"),
    ("MgetEP3E", "2 INCORRECT_PARAMETERS"),
    ("MgetEP<struct></struct>E", "2 INCORRECT_PARAMETERS"),
];

// Values that aren't arrays of structs.
static NO_PARTS: [&str; 7] = [
    "<int>1</int>",
    "<boolean>1</boolean>",
    "text",
    "<double>1</double>",
    "<struct></struct>",
    "A<value>1</value>Z",
    "A<value><struct>MgetE</struct></value><value>1</value>Z",
];

/// What a letter stands for, where it doesn't stand for itself.
fn meaning(letter: char) -> &'static str {
    match letter {
        'M' => "<member><name>methodName</name><value>",
        'P' => "<member><name>params</name><value>",
        'E' => "</value></member>",
        'A' => "<array><data>",
        'Z' => "</data></array>",
        _ => "",
    }
}

/// Adds a text with its letters spelled out.
fn spell(rt: &impl Abort, out: &mut String, text: &str) {
    for letter in text.chars() {
        let written = meaning(letter);
        if written.is_empty() {
            out.push(letter).expect(rt, "memory");
        } else {
            out.push_str(written).expect(rt, "memory");
        }
    }
}

/// The pieces of a text with their letters spelled out.
fn spelled(rt: &impl Abort, alloc: Global, pieces: &[&str]) -> String {
    let mut out = String::new(alloc);
    for piece in pieces {
        spell(rt, &mut out, piece);
    }
    out
}

/// The value of the reply that these pieces are.
fn value_of_reply(rt: &impl Abort, alloc: Global, pieces: &[&str]) -> Value {
    let text = spelled(rt, alloc, pieces);
    match read_reply(alloc, text.as_str().as_bytes()).expect(rt, "a reply") {
        Answered::Value(value) => value,
        Answered::Fault(_, _) => Value::Truth(false),
    }
}

/// The value of this form.
fn value_of(rt: &impl Abort, alloc: Global, form: &str) -> Value {
    let head = "<methodResponse><params><param><value>";
    let end = "</value></param></params></methodResponse>";
    value_of_reply(rt, alloc, &[head, form, end])
}

/// A struct of these members, alone in an array.
fn one_struct(rt: &impl Abort, alloc: Global, members: &str) -> Value {
    let head = "<methodResponse><params><param><value><array><data><value><struct>";
    let end = "</struct></value></data></array></value></param></params></methodResponse>";
    value_of_reply(rt, alloc, &[head, members, end])
}

/// The text of a call with this name and these params.
fn call_text(rt: &impl Abort, alloc: Global, name: &str, params: &str) -> String {
    let head = "<?xml version='1.0'?><methodCall><methodName>";
    spelled(
        rt,
        alloc,
        &[head, name, "</methodName>", params, "</methodCall>"],
    )
}

fn is_call(rt: &impl Abort, alloc: Global, call: &Call, name: &str, params: &str) -> bool {
    let text = call_text(rt, alloc, name, params);
    let written = write_call(alloc, call).expect(rt, "memory");
    written.as_slice() == text.as_str().as_bytes()
}

fn is_part(rt: &impl Abort, alloc: Global, part: &Part, wanted: &str) -> bool {
    match (part, wanted.split_once('|')) {
        (Part::Call(call), Some((name, params))) => is_call(rt, alloc, call, name, params),
        (Part::Fault(2, text), None) => text.as_str() == "INCORRECT_PARAMETERS"
            && wanted == "2 INCORRECT_PARAMETERS",
        _ => false,
    }
}

/// The parts of a value.
fn parts_of(rt: &impl Abort, alloc: Global, value: &Value) -> Vec<Part> {
    parts(alloc, value).ok().expect(rt, "parts")
}

/// The parts of an array of one struct of these members.
fn parts_of_struct(rt: &impl Abort, alloc: Global, members: &str) -> Vec<Part> {
    let value = one_struct(rt, alloc, members);
    parts_of(rt, alloc, &value)
}

fn has_part(rt: &impl Abort, alloc: Global, members: &str, wanted: &str) {
    let found = parts_of_struct(rt, alloc, members);
    let fits = match found.as_slice() {
        [part] => is_part(rt, alloc, part, wanted),
        _ => false,
    };
    check_of(rt, fits, members);
}

fn has_no_parts(rt: &impl Abort, alloc: Global, form: &str) {
    let value = value_of(rt, alloc, form);
    let refused = match parts(alloc, &value) {
        Ok(_) => false,
        Err(fault) => fault == MultiFault::NotParts,
    };
    check_of(rt, refused, form);
}

fn adds(rt: &impl Abort, alloc: Global, gather: &mut Gather, answered: Answered) {
    gather.add(alloc, answered).expect(rt, "memory");
}

/// The text of a reply with an array of this data.
fn reply_text(rt: &impl Abort, alloc: Global, data: &str) -> String {
    let text = format!(in alloc;
        "<?xml version='1.0'?><methodResponse><params><param><value><array><data>{data}</data></array></value></param></params></methodResponse>"
    );
    text.expect(rt, "memory")
}

fn gives(rt: &impl Abort, alloc: Global, gather: Gather, data: &str) {
    let value = gather.value().expect(rt, "memory");
    is_written(rt, alloc, &value, data);
}

/// The reply with this value has an array of this data.
fn is_written(rt: &impl Abort, alloc: Global, value: &Value, data: &str) {
    let text = reply_text(rt, alloc, data);
    let written = write_reply(alloc, value).expect(rt, "memory");
    check(rt, written.as_slice() == text.as_str().as_bytes());
}

#[test]
fn parts_of_structs(rt: HostRuntime) {
    for &(members, wanted) in &PARTS {
        has_part(&rt, rt.alloc(), members, wanted);
    }
}

#[test]
fn an_empty_array_has_no_part(rt: HostRuntime) {
    let value = value_of(&rt, rt.alloc(), "<array><data></data></array>");
    check(&rt, count_of(&rt, rt.alloc(), &value) == 0);
}

/// How many parts a value has.
fn count_of(rt: &impl Abort, alloc: Global, value: &Value) -> usize {
    parts_of(rt, alloc, value).len()
}

#[test]
fn values_without_parts(rt: HostRuntime) {
    for &form in &NO_PARTS {
        has_no_parts(&rt, rt.alloc(), form);
    }
}

#[test]
fn a_call_names_its_parts(rt: HostRuntime) {
    let text =
        b"<methodCall><methodName>system.multicall</methodName><params><param><value><array><data><value><struct><member><name>methodName</name><value>foo</value></member></struct></value></data></array></value></param></params></methodCall>";
    let call = read_call(rt.alloc(), text).expect(&rt, "a call");
    let count = match call.params.as_slice() {
        [value] => count_of(&rt, rt.alloc(), value),
        _ => 0,
    };
    check(&rt, count == 1);
}

#[test]
fn gathers_in_order(rt: HostRuntime) {
    let alloc = rt.alloc();
    let mut gather = Gather::new(alloc);
    adds(&rt, alloc, &mut gather, Answered::Value(Value::Truth(true)));
    adds(
        &rt,
        alloc,
        &mut gather,
        Answered::Fault(2, Text::fixed("INCORRECT_PARAMETERS")),
    );
    adds(
        &rt,
        alloc,
        &mut gather,
        Answered::Fault(1, Text::fixed("UNKNOWN_METHOD")),
    );
    gives(
        &rt,
        alloc,
        gather,
        "<value><array><data><value><boolean>1</boolean></value></data></array></value><value><struct><member><name>faultCode</name><value><int>2</int></value></member><member><name>faultString</name><value><string>INCORRECT_PARAMETERS</string></value></member></struct></value><value><struct><member><name>faultCode</name><value><int>1</int></value></member><member><name>faultString</name><value><string>UNKNOWN_METHOD</string></value></member></struct></value>",
    );
}

#[test]
fn gathers_nothing(rt: HostRuntime) {
    gives(&rt, rt.alloc(), Gather::new(rt.alloc()), "");
}
