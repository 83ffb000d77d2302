// What a record of the endpoint does: the call that it names, and the words of its line.
ghost use Rattle.std.specs.Prelude.{◌≤◌, length, IfOk, IfSome};
ghost use Rattle.mi_calls.specs.Sizes.{least_of_endpoint};

use crate::buffer::{blank_buffer, unwritten_words, written_words};
use crate::line::{field, hex, number};
use crate::look::look;
use crate::tags::{EndpointCall, mark};
use crate::words::{half, unit_of, word};
use machine::answers::DONE;
use machine::{Ticket, ValidEndpoint, polled_number, receive_number, taken_number};
use refusals::{Refusal, answer_number};
use std::io;

// The slot, with which a record begins.
fn slot_of(body: &[u8]) -> usize
    requires { 4 ≤ length body.now }
{
    word(body, 0) as usize
}

// The answer of a setup, whose endpoint takes the place of the one before. Each end has its own,
// since the two calls answer two types.
fn setup_step(rt: &impl Print, endpoint: &mut ValidEndpoint, body: &[u8]) -> io::Result<()>
    requires { 1 ≤ length body.now }
{
    let done = endpoint::setup(body[0], unit_of(body));
    *endpoint = done.endpoint;
    number(rt, answer_number(done.answer))
}

// `0 TICKET`, or the refusal's number.
fn take_words(rt: &impl Print, answer: Result<Ticket, Refusal>) -> io::Result<()> {
    number(rt, taken_number(answer))?;
    match answer {
        Ok(ticket) => field(rt, " ", ticket.0),
        Err(_) => Ok(()),
    }
}

// Looks at the slot's request: `LENGTH PART`.
fn read_step(
    rt: &impl Print,
    endpoint: &ValidEndpoint,
    store0: &[u8],
    store1: &[u8],
    slot: usize,
) -> io::Result<()> {
    let part = endpoint::request(endpoint, store0, store1, slot);
    print!(rt; "{}", part.len())?;
    print!(rt; " ")?;
    hex(rt, part)
}

fn poll_words(
    rt: &impl Print,
    buffer: &[u8],
    answer: Result<Option<usize>, Refusal>,
) -> io::Result<()>
    requires { IfOk answer (λ sent. IfSome sent (λ n. n ≤ length buffer.now)) }
{
    match answer {
        Ok(Some(n)) => written_words(rt, polled_number(answer), buffer, n),
        Ok(None) | Err(_) => unwritten_words(rt, polled_number(answer), buffer),
    }
}

// A poll with a buffer of n bytes.
fn poll_step(
    rt: &impl Print,
    endpoint: &mut ValidEndpoint,
    store0: &[u8],
    store1: &[u8],
    n: u16,
) -> io::Result<()> {
    let mut space = blank_buffer();
    let buffer = &mut space[..usize::from(n)];
    let answer = endpoint::poll(endpoint, store0, store1, buffer);
    poll_words(rt, buffer, answer)
}

fn complete(
    endpoint: &mut ValidEndpoint,
    store0: &mut [u8],
    store1: &mut [u8],
    body: &[u8],
) -> Result<(), Refusal>
    requires { 8 ≤ length body.now }
{
    let ticket = Ticket(word(body, 4));
    endpoint::complete(endpoint, store0, store1, slot_of(body), ticket, &body[8..])
}

fn declare(endpoint: &mut ValidEndpoint, body: &[u8]) -> Result<(), Refusal>
    requires { 9 ≤ length body.now }
{
    let ticket = Ticket(word(body, 4));
    endpoint::declare(endpoint, slot_of(body), ticket, mark(body) == Some(true))
}

// A call on the lent parts of the stores, and its words.
pub(crate) fn called(
    rt: &impl Print,
    endpoint: &mut ValidEndpoint,
    store0: &mut [u8],
    store1: &mut [u8],
    call: EndpointCall,
    body: &[u8],
) -> io::Result<()>
    requires { least_of_endpoint call ≤ length body.now }
{
    match call {
        EndpointCall::Setup => setup_step(rt, endpoint, body),
        EndpointCall::Receive => {
            let answer = endpoint::receive(endpoint, store0, store1, body);
            number(rt, receive_number(answer))
        }
        EndpointCall::Take => {
            let answer = endpoint::take(endpoint, slot_of(body));
            take_words(rt, answer)
        }
        EndpointCall::Read => read_step(rt, endpoint, store0, store1, slot_of(body)),
        EndpointCall::Complete => {
            let answer = complete(endpoint, store0, store1, body);
            number(rt, answer_number(answer))
        }
        EndpointCall::Poll => poll_step(rt, endpoint, store0, store1, half(body, 0)),
        EndpointCall::Timeout => {
            let answer = endpoint::timeout(endpoint, slot_of(body));
            number(rt, answer_number(answer))
        }
        EndpointCall::Reset => {
            endpoint::reset(endpoint);
            number(rt, DONE)
        }
        EndpointCall::Look => look(rt, &endpoint.state, store0, store1),
        EndpointCall::Declare => {
            let answer = declare(endpoint, body);
            number(rt, answer_number(answer))
        }
    }
}
