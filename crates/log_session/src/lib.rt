// What the log program does with one record: calling the endpoint, and the line that it prints.
#![tactic(auto)]

ghost use Rattle.std.specs.Prelude.{◌≡◌, true, List, ℕ, ◌≤◌, length, IfOk, IfSome};
ghost use Rattle.refusals.specs.Refusals.{numbered};
ghost use Rattle.log_records.specs.Records.{packet_room, line_room, is_record};
ghost use Rattle.log_session.specs.Log.{poll_line, at_start, recorded_to, recorded, packet_recorded, poll_recorded, timeout_recorded, take_recorded, complete_recorded, reset_recorded, Told};

use log_records::{Line, PACKET_ROOM, Tag, UNIT, number_line, packet_line, put_line};
use machine::answers::DONE;
use machine::{Ticket, ValidEndpoint, polled_number, receive_number, taken_number};
use refusals::{Refusal, answer_number};

// The log program's endpoint.
const EID: u8 = 8;

// The endpoint, and for each slot the ticket last taken there. The stores are lent beside it.
#[derive(Clone, Copy)]
pub struct Session {
    pub endpoint: ValidEndpoint,
    pub tickets: [Ticket; 2],
}

// Writes the line of a poll.
fn poll_line(line: &mut Line, buffer: &[u8], answer: Result<Option<usize>, Refusal>)
    requires room { length buffer.now ≤ packet_room }
    requires packet_fits { IfOk answer (λ sent. IfSome sent (λ n. n ≤ length buffer.now)) }
    ensures { line.new.items ≡ poll_line buffer.now (numbered answer) }
{
    if let Ok(Some(n)) = answer {
        packet_line(line, &buffer[..n]);
    } else {
        number_line(line, polled_number(answer));
    }
}

fn packet_record(
    session: &mut Session,
    store0: &mut [u8],
    store1: &mut [u8],
    packet: &[u8],
    line: &mut Line,
)
    ensures { recorded_to line.new.items session.new store0.new store1.new ≡ packet_recorded session.old store0.old store1.old packet.now }
{
    let answer = endpoint::receive(&mut session.endpoint, store0, store1, packet);
    number_line(line, receive_number(answer));
}

fn poll_record(session: &mut Session, store0: &[u8], store1: &[u8], line: &mut Line)
    ensures { recorded_to line.new.items session.new store0.now store1.now ≡ poll_recorded session.old store0.now store1.now }
{
    let mut buffer = [0u8; PACKET_ROOM];
    let answer = endpoint::poll(&mut session.endpoint, store0, store1, &mut buffer);
    poll_line(line, &buffer, answer);
}

fn timeout_record(session: &mut Session, slot: usize, line: &mut Line)
    ensures { (a b : List ℕ) → recorded_to line.new.items session.new a b ≡ timeout_recorded session.old a b slot }
{
    let answer = endpoint::timeout(&mut session.endpoint, slot);
    number_line(line, answer_number(answer));
}

// A ticket that is given is kept for its slot.
fn take_record(session: &mut Session, slot: usize, line: &mut Line)
    ensures { (a b : List ℕ) → recorded_to line.new.items session.new a b ≡ take_recorded session.old a b slot }
{
    let answer = endpoint::take(&mut session.endpoint, slot);
    if let Ok(ticket) = answer {
        session.tickets[slot.min(1)] = ticket;
    }
    number_line(line, taken_number(answer));
}

// Completes with the ticket last taken from the slot.
fn complete_record(
    session: &mut Session,
    store0: &mut [u8],
    store1: &mut [u8],
    slot: usize,
    body: &[u8],
    line: &mut Line,
)
    ensures { recorded_to line.new.items session.new store0.new store1.new ≡ complete_recorded session.old store0.old store1.old slot body.now }
{
    let ticket = session.tickets[slot.min(1)];
    let answer = endpoint::complete(&mut session.endpoint, store0, store1, slot, ticket, body);
    number_line(line, answer_number(answer));
}

fn reset_record(session: &mut Session, line: &mut Line)
    ensures { (a b : List ℕ) → recorded_to line.new.items session.new a b ≡ reset_recorded session.old a b }
{
    endpoint::reset(&mut session.endpoint);
    number_line(line, DONE);
}

// The session at the start.
pub fn begin() -> Session
    ensures { result ≡ at_start }
{
    let done = endpoint::setup(EID, UNIT);
    Session {
        endpoint: done.endpoint,
        tickets: [Ticket(0); 2],
    }
}

// Does what a record says, and writes the line that it prints over what the line held.
#[tactic(auto, unfolding(crate::specs::Log::recorded))]
pub fn record(
    session: &mut Session,
    store0: &mut [u8],
    store1: &mut [u8],
    tag: Tag,
    body: &[u8],
    line: &mut Line,
)
    requires { is_record tag (length body.now) ≡ true }
    ensures { recorded_to line.new.items session.new store0.new store1.new ≡ recorded session.old store0.old store1.old tag body.now }
{
    match tag {
        Tag::Packet => packet_record(session, store0, store1, body, line),
        Tag::Poll => poll_record(session, store0, store1, line),
        Tag::Timeout => timeout_record(session, usize::from(body[0]), line),
        Tag::Take => take_record(session, usize::from(body[0]), line),
        Tag::Complete => complete_record(
            session,
            store0,
            store1,
            usize::from(body[0]),
            &body[1..],
            line,
        ),
        Tag::Reset => reset_record(session, line),
    }
}

// Does what a record says, writes the line that it prints to the front of a lent buffer, and returns the line's length. The bytes behind it stay.
pub fn record_to_slice(
    session: &mut Session,
    store0: &mut [u8],
    store1: &mut [u8],
    tag: Tag,
    body: &[u8],
    line: &mut [u8],
) -> usize
    requires { (is_record tag (length body.now) ≡ true) × (line_room ≤ length line.old) }
    ensures { Told (recorded session.old store0.old store1.old tag body.now) line.old line.new result session.new store0.new store1.new }
{
    let mut text = Line::new();
    record(session, store0, store1, tag, body, &mut text);
    // The endpoint's field is named here so that its invariant is known of the state that is left.
    let _ = &session.endpoint.state;
    put_line(line, &text)
}
