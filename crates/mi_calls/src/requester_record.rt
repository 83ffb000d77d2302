// What a record of the requester does: the call that it names, and the words of its line.
ghost use Rattle.std.specs.Prelude.{◌≤◌, length, IfOk};
ghost use Rattle.mi_calls.specs.Sizes.{least_of_requester};

use crate::buffer::{blank_buffer, unwritten_words, written_words};
use crate::line::{field, number};
use crate::look::requester_look;
use crate::tags::RequesterCall;
use crate::words::{half, unit_of, word};
use controller::{Gathered, Primitive, ValidRequester, gathered_number, sent_number};
use refusals::{Refusal, answer_number};
use std::io;

// The answer of a setup, whose requester takes the place of the one before. Each end has its own,
// since the two calls answer two types.
fn setup_step(rt: &impl Print, requester: &mut ValidRequester, body: &[u8]) -> io::Result<()>
    requires { 1 ≤ length body.now }
{
    let done = requester::setup(body[0], unit_of(body));
    *requester = done.requester;
    number(rt, answer_number(done.answer))
}

// `0 LENGTH BYTES` and what became of the bytes behind them, or the refusal's number.
fn send_words(rt: &impl Print, buffer: &[u8], answer: Result<usize, Refusal>) -> io::Result<()>
    requires { IfOk answer (λ n. n ≤ length buffer.now) }
{
    match answer {
        Ok(n) => written_words(rt, sent_number(answer), buffer, n),
        Err(_) => unwritten_words(rt, sent_number(answer), buffer),
    }
}

// Cuts a command: destination, tag, the buffer's length, the message.
fn cut_step(rt: &impl Print, requester: &ValidRequester, body: &[u8]) -> io::Result<()>
    requires { 4 ≤ length body.now }
{
    let mut space = blank_buffer();
    let buffer = &mut space[..usize::from(half(body, 2))];
    let answer = requester::cut(requester, body[0], body[1], &body[4..], buffer);
    send_words(rt, buffer, answer)
}

// A control primitive behind its destination and message tag.
fn primitive_of(body: &[u8]) -> Primitive
    requires { 12 ≤ length body.now }
{
    Primitive {
        slot: word(body, 2) as usize,
        opcode: body[6],
        tag: body[7],
        cpsp: half(body, 8),
    }
}

// Builds a control primitive: destination, message tag, the primitive, the buffer's length.
fn primitive_step(rt: &impl Print, requester: &ValidRequester, body: &[u8]) -> io::Result<()>
    requires { 12 ≤ length body.now }
{
    let mut space = blank_buffer();
    let buffer = &mut space[..usize::from(half(body, 10))];
    let answer = requester::primitive(requester, body[0], body[1], primitive_of(body), buffer);
    send_words(rt, buffer, answer)
}

// `1 LENGTH`, `2 LENGTH`, or another answer's number.
fn receive_words(rt: &impl Print, answer: Result<Gathered, Refusal>) -> io::Result<()> {
    number(rt, gathered_number(answer))?;
    match answer {
        Ok(Gathered::Response(n) | Gathered::Control(n)) => field(rt, " ", n),
        Ok(Gathered::More) | Err(_) => Ok(()),
    }
}

// A call on the lent part of the store, and its words.
pub(crate) fn requester_called(
    rt: &impl Print,
    requester: &mut ValidRequester,
    store: &mut [u8],
    call: RequesterCall,
    body: &[u8],
) -> io::Result<()>
    requires { least_of_requester call ≤ length body.now }
{
    match call {
        RequesterCall::Setup => setup_step(rt, requester, body),
        RequesterCall::Await => {
            let answer = requester::await_response(requester, body[0], body[1]);
            number(rt, answer_number(answer))
        }
        RequesterCall::Cut => cut_step(rt, requester, body),
        RequesterCall::Primitive => primitive_step(rt, requester, body),
        RequesterCall::Receive => {
            let answer = requester::receive(requester, store, body);
            receive_words(rt, answer)
        }
        RequesterCall::Look => requester_look(rt, &requester.state, store),
    }
}
