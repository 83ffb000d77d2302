// The whole state of the endpoint and of the requester in words, and a check of each store's lent bytes. The words are functions and no `Display`:
// the types are of other crates, and these words are this program's alone.
use crate::line::{field, hex};
use controller::{Awaiting, Requester};
use machine::{Endpoint, Phase, Reply, Request, Response, Slot, Taking};
use std::fmt::Display;
use std::io;

// A word, and two numbers behind it.
fn pair(
    rt: &impl Print,
    word: &str,
    a: impl Display + Drop,
    b: impl Display + Drop,
) -> io::Result<()> {
    field(rt, word, a)?;
    field(rt, ":", b)
}

// The EID, and the largest payload.
fn wire_words(rt: &impl Print, eid: u8, unit: impl Display + Drop) -> io::Result<()> {
    field(rt, "eid=", eid)?;
    field(rt, " unit=", unit)
}

// The check of a store's lent bytes.
fn check_words(rt: &impl Print, name: &str, store: &[u8]) -> io::Result<()> {
    print!(rt; "{name}")?;
    print!(rt; "{:08x}", crc32c::crc32c(store))
}

fn taking_words(rt: &impl Print, taking: Taking) -> io::Result<()> {
    match taking {
        Taking::Untaken => print!(rt; ":untaken"),
        Taking::Taken(true) => print!(rt; ":can"),
        Taking::Taken(false) => print!(rt; ":taken"),
    }
}

// A command: from whom, under which tag, its kind and length, whether it was taken, and then whether it can still be stopped.
fn request_words(rt: &impl Print, r: Request) -> io::Result<()> {
    pair(rt, "process:", r.source, r.tag)?;
    pair(rt, ":", r.kind, r.length)?;
    taking_words(rt, r.taking)
}

// A response under the name of its slot's state.
fn response_words(rt: &impl Print, name: &str, r: Response) -> io::Result<()> {
    pair(rt, name, r.requester, r.tag)?;
    field(rt, ":", r.length)
}

fn phase_words(rt: &impl Print, phase: Phase) -> io::Result<()> {
    match phase {
        Phase::Idle(None) => print!(rt; "idle"),
        Phase::Idle(Some(response)) => response_words(rt, "idle:", response),
        Phase::Receive(a) => {
            pair(rt, "receive:", a.source, a.tag)?;
            pair(rt, ":", a.sequence, a.length)
        }
        Phase::Process(request) => request_words(rt, request),
        Phase::Answered(response) => response_words(rt, "answered:", response),
        Phase::Transmit(outgoing) => {
            response_words(rt, "transmit:", outgoing.response)?;
            field(rt, ":", outgoing.sent)
        }
    }
}

fn slot_words(rt: &impl Print, name: &str, slot: Slot) -> io::Result<()> {
    field(rt, name, slot.ticket.0)?;
    field(rt, ",", u8::from(slot.paused))?;
    field(rt, ",", u8::from(slot.busy))?;
    print!(rt; ",")?;
    phase_words(rt, slot.phase)
}

// The control reply that waits: for whom, under which message tag, its bytes.
fn reply_words(rt: &impl Print, reply: Option<Reply>) -> io::Result<()> {
    let Some(reply) = reply else {
        return print!(rt; " reply=-");
    };
    pair(rt, " reply=", reply.to, reply.tag)?;
    print!(rt; ":")?;
    hex(rt, &reply.message)
}

// The numbers of the endpoint's state, and whether the last packet was control.
fn number_words(rt: &impl Print, endpoint: &Endpoint) -> io::Result<()> {
    wire_words(rt, endpoint.eid, endpoint.unit)?;
    print!(rt; " flags=")?;
    print!(rt; "{:04x}", endpoint.flags)?;
    field(rt, " turn=", endpoint.turn)?;
    field(rt, " last=", u8::from(endpoint.last_control))
}

// The endpoint's state, and what is lent beside it.
pub(crate) fn look(
    rt: &impl Print,
    endpoint: &Endpoint,
    store0: &[u8],
    store1: &[u8],
) -> io::Result<()> {
    number_words(rt, endpoint)?;
    reply_words(rt, endpoint.reply)?;
    slot_words(rt, " slot0=", endpoint.slots[0])?;
    slot_words(rt, " slot1=", endpoint.slots[1])?;
    check_words(rt, " check0=", store0)?;
    check_words(rt, " check1=", store1)
}

// What is awaited, from whom and under which tag, and what was gathered of it.
fn awaiting_words(rt: &impl Print, awaiting: Awaiting) -> io::Result<()> {
    match awaiting {
        Awaiting::Nothing => print!(rt; " awaits=- assembly=-"),
        Awaiting::Awaited(key) => {
            pair(rt, " awaits=", key.source, key.tag)?;
            print!(rt; " assembly=-")
        }
        Awaiting::Gathering(a) => {
            pair(rt, " awaits=", a.source, a.tag)?;
            pair(rt, " assembly=", a.sequence, a.length)
        }
    }
}

// The requester's state, and what is lent beside it.
pub(crate) fn requester_look(
    rt: &impl Print,
    requester: &Requester,
    store: &[u8],
) -> io::Result<()> {
    wire_words(rt, requester.eid, requester.unit)?;
    awaiting_words(rt, requester.awaiting)?;
    check_words(rt, " check=", store)
}
