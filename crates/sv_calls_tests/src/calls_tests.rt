//! Calls that were gone through by hand.

use crate::checks::check_of;
use std::alloc::Global;
use std::process::Abort;
use sv_base::ids::{ChildId, LinkId};
use sv_base::items::Items;
use sv_base::text::Text;
use sv_calls::{Answer, Calls, Setback};
use sv_methods::{Aim, Asked, Request, Waiting};
use sv_multi::Part;
use sv_xmlcall::{Answered, Call, Value, write_reply};

const LINK: LinkId = LinkId(3);

fn row(child: Option<ChildId>, aim: Aim) -> Asked {
    Asked {
        child,
        aim,
        fault: None,
    }
}

fn waiting(rows: Items<Asked>) -> Waiting {
    Waiting {
        wait: false,
        array: true,
        name: None,
        rows,
    }
}

/// The text is part of the reply with this value.
fn is_written(rt: &impl Abort, alloc: Global, value: &Value, text: &str) {
    let written = write_reply(alloc, value).expect(rt, "memory");
    let written = std::str::from_utf8(written.as_slice()).unwrap_or("");
    check_of(rt, written.contains(text), text);
}

/// The text of the value of an answer.
fn is_text(rt: &impl Abort, alloc: Global, answer: Option<Answer>, close: bool, text: &str) {
    let answer = answer.expect(rt, "an answer");
    check_of(rt, answer.close == close, text);
    match &answer.answered {
        Answered::Value(value) => is_written(rt, alloc, value, text),
        Answered::Fault(_, _) => assert!(rt; false, "{text}"),
    }
}

fn number(value: i64) -> Answered {
    Answered::Value(Value::Int(value))
}

/// Where the call of a link is answered so, nothing is given yet, or no longer.
fn gives_nothing(
    rt: &impl Abort,
    alloc: Global,
    calls: &mut Calls,
    link: LinkId,
    answered: Answered,
    told: &str,
) {
    let given = calls.answer(alloc, link, answered).expect(rt, "memory");
    check_of(rt, given.is_none(), told);
}

fn is_not_at_its_end(rt: &impl Abort, calls: &mut Calls) {
    let end = calls.finish(LINK).expect(rt, "memory");
    check_of(rt, end.is_none(), "it isn't answered");
}

#[test]
fn one_call_is_answered_at_once(rt: HostRuntime) {
    let alloc = rt.alloc();
    let mut calls = Calls::new(alloc);
    calls.begin(LINK, true).expect(&rt, "memory");
    check_of(&rt, calls.parts_left(LINK) == 0, "it has no parts");
    gives_nothing(&rt, alloc, &mut calls, LinkId(4), number(1), "another link");
    is_not_at_its_end(&rt, &mut calls);
    let answer = calls.answer(alloc, LINK, number(1)).expect(&rt, "memory");
    is_text(&rt, alloc, answer, true, "<int>1</int>");
    gives_nothing(&rt, alloc, &mut calls, LINK, number(1), "it is done with");
}

/// The faults of the two rows of what the call waits for.
fn faults(rt: &impl Abort, calls: &Calls) -> (Option<u32>, Option<u32>) {
    let waiting = calls.waiting(LINK).expect(rt, "it waits");
    match waiting.rows.as_slice() {
        [first, second] => (first.fault, second.fault),
        _ => (Some(0), Some(0)),
    }
}

/// The start of a process, and the clear of no files.
fn two_requests(rt: &impl Abort, alloc: Global) -> Items<Request> {
    let first = ChildId(7);
    let requests = vec![in alloc; Request::Start(first), Request::Clear(Items::new(alloc))];
    Items::from_vec(requests.expect(rt, "memory"))
}

/// The rows of these requests.
fn two_rows(rt: &impl Abort, alloc: Global) -> Items<Asked> {
    let first = ChildId(7);
    let rows = vec![in alloc; row(Some(first), Aim::Started), row(None, Aim::Cleared)];
    Items::from_vec(rows.expect(rt, "memory"))
}

fn takes_the_start(rt: &impl Abort, calls: &mut Calls) {
    let request = calls.take_request(LINK);
    check_of(
        rt,
        matches!(request, Some(Request::Start(ChildId(7)))),
        "the start first",
    );
}

fn takes_the_clear(rt: &impl Abort, calls: &mut Calls) {
    let request = calls.take_request(LINK);
    check_of(
        rt,
        matches!(request, Some(Request::Clear(_))),
        "then the clear",
    );
}

/// A request goes wrong, and the rows then have these faults.
fn goes_wrong(
    rt: &impl Abort,
    alloc: Global,
    calls: &mut Calls,
    setback: Setback,
    wanted: (Option<u32>, Option<u32>),
    told: &str,
) {
    calls.set_back(alloc, LINK, setback);
    check_of(rt, faults(rt, calls) == wanted, told);
}

/// What may go wrong with the start.
fn the_start_goes_wrong(rt: &impl Abort, alloc: Global, calls: &mut Calls) {
    let none = (None, None);
    let no_log = "a process without a log";
    goes_wrong(rt, alloc, calls, Setback::NoLog, none, no_log);
    let one = (Some(21), None);
    goes_wrong(rt, alloc, calls, Setback::NotExecutable, one, "no program");
}

/// What may go wrong with the clear.
fn the_clear_goes_wrong(rt: &impl Abort, alloc: Global, calls: &mut Calls) {
    let missing = (Some(21), Some(20));
    goes_wrong(rt, alloc, calls, Setback::NoLog, missing, "no main log");
    let failed = (Some(21), Some(30));
    goes_wrong(rt, alloc, calls, Setback::NotCleared, failed, "it failed");
}

/// The call acts by these requests, and waits for their rows.
fn acts(rt: &impl Abort, alloc: Global, calls: &mut Calls) {
    let requests = two_requests(rt, alloc);
    calls.act(LINK, requests, waiting(two_rows(rt, alloc)));
}

#[test]
fn requests_have_their_rows(rt: HostRuntime) {
    let alloc = rt.alloc();
    let mut calls = Calls::new(alloc);
    calls.begin(LINK, false).expect(&rt, "memory");
    acts(&rt, alloc, &mut calls);
    takes_the_start(&rt, &mut calls);
    the_start_goes_wrong(&rt, alloc, &mut calls);
    takes_the_clear(&rt, &mut calls);
    the_clear_goes_wrong(&rt, alloc, &mut calls);
    check_of(&rt, calls.take_request(LINK).is_none(), "no other is left");
}

/// A call, and a fault.
fn two_parts(rt: &impl Abort, alloc: Global) -> Vec<Part> {
    let call = Call {
        method: Text::fixed("a"),
        params: Vec::new(alloc),
    };
    let parts = vec![in alloc; Part::Call(call), Part::Fault(2, Text::fixed("B"))];
    parts.expect(rt, "memory")
}

/// The call is taken; while it acts no other part is.
fn takes_the_call(rt: &impl Abort, alloc: Global, calls: &mut Calls) {
    check_of(
        rt,
        matches!(calls.take_part(LINK), Some(Part::Call(_))),
        "the call first",
    );
    let rows = Items::new(alloc);
    calls.act(LINK, Items::new(alloc), waiting(rows));
    check_of(rt, calls.parts_left(LINK) == 0, "it isn't answered");
    check_of(rt, calls.take_part(LINK).is_none(), "nor begun");
}

fn takes_the_fault(rt: &impl Abort, calls: &mut Calls) {
    check_of(
        rt,
        matches!(calls.take_part(LINK), Some(Part::Fault(2, _))),
        "then the fault",
    );
}

/// The call has two parts.
fn begins_two_parts(rt: &impl Abort, alloc: Global, calls: &mut Calls) {
    let parts = two_parts(rt, alloc);
    let begun = calls.begin_several(alloc, LINK, false, parts);
    begun.expect(rt, "memory");
    check_of(rt, calls.parts_left(LINK) == 2, "two parts");
}

/// The fault is gathered.
fn gathers_the_fault(rt: &impl Abort, alloc: Global, calls: &mut Calls) {
    let fault = Answered::Fault(2, Text::fixed("B"));
    gives_nothing(rt, alloc, calls, LINK, fault, "it is gathered");
}

/// All parts of the call are answered, by this text.
fn is_at_its_end(rt: &impl Abort, alloc: Global, calls: &mut Calls, text: &str) {
    let end = calls.finish(LINK).expect(rt, "memory");
    is_text(rt, alloc, end, false, text);
}

#[test]
fn parts_are_answered_in_order(rt: HostRuntime) {
    let alloc = rt.alloc();
    let mut calls = Calls::new(alloc);
    begins_two_parts(&rt, alloc, &mut calls);
    takes_the_call(&rt, alloc, &mut calls);
    gives_nothing(&rt, alloc, &mut calls, LINK, number(5), "it is gathered");
    takes_the_fault(&rt, &mut calls);
    gathers_the_fault(&rt, alloc, &mut calls);
    is_at_its_end(&rt, alloc, &mut calls, RESULTS);
}

const RESULTS: &str =
    "<array><data><value><array><data><value><int>5</int></value></data></array></value><value><struct><member><name>faultCode</name><value><int>2</int></value></member><member><name>faultString</name><value><string>B</string></value></member></struct></value></data></array>";
