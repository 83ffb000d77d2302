// "Polling" of document 01: what goes next.
#![tactic(auto)]

ghost use Rattle.std.specs.Prelude.{◌≡◌, ◌≤◌, length, IfOk, IfSome};
ghost use Rattle.refusals.specs.Refusals.{numbered};
ghost use Rattle.machine.specs.State.{world};
ghost use Rattle.machine.specs.Wire.{packet_room};
ghost use Rattle.machine.specs.Poll;
ghost use Rattle.machine.specs.Poll.{polled_to, poll_says, sending_or, begun_or, polled_by, polled};
ghost use Rattle.machine.specs.Numbers.{poll_number};
ghost use Rattle.machine.specs.Valid.{Valid};
ghost use Rattle.slots.specs.Numbers.{at_number};

use machine::sizes::{HEADER_SIZE, Store};
use machine::{Endpoint, Outgoing, Phase, ValidEndpoint};
use poll_send::{send_command, send_control};
use refusals::Refusal;
use slots::{SlotNumber, both_stores};

// A slot in this phase, with its response where it is in Transmit.
fn sending_in(phase: Phase, slot: SlotNumber) -> Option<(SlotNumber, Outgoing)>
    ensures { at_number result ≡ sending_or slot.number phase None }
{
    match phase {
        Phase::Transmit(outgoing) => Some((slot, outgoing)),
        _ => None,
    }
}

// A slot in this phase, with its response where a packet of it went.
fn begun_in(phase: Phase, slot: SlotNumber) -> Option<(SlotNumber, Outgoing)>
    ensures { at_number result ≡ begun_or slot.number phase None }
{
    sending_in(phase, slot).filter(|found| found.1.sent > 0)
}

// The slot that goes next: the one that has begun, else the one whose turn it is, else the other. `turn` is a number in the state's definition, so that
// its bound is a clause here.
#[tactic(auto, unfolding(machine::specs::Poll::chosen))]
fn chosen(endpoint: &Endpoint) -> Option<(SlotNumber, Outgoing)>
    requires { endpoint.now.turn ≤ 1 }
    ensures { at_number result ≡ Poll.chosen endpoint.now }
{
    let slots = &endpoint.slots;
    let turn = SlotNumber {
        number: endpoint.turn,
    };
    let other = turn.other();
    begun_in(slots[0].phase, SlotNumber { number: 0 })
        .or(begun_in(slots[1].phase, SlotNumber { number: 1 }))
        .or(sending_in(slots[turn.number].phase, turn))
        .or(sending_in(slots[other.number].phase, other))
}

// A command packet is ready only while neither slot is paused.
#[tactic(auto, unfolding(machine::specs::Poll::ready))]
fn ready(endpoint: &Endpoint) -> Option<(SlotNumber, Outgoing)>
    requires { endpoint.now.turn ≤ 1 }
    ensures { at_number result ≡ Poll.ready endpoint.now }
{
    if endpoint.slots[0].paused || endpoint.slots[1].paused {
        return None;
    }
    chosen(endpoint)
}

// A control reply goes if the last packet was not control or no command packet is ready; else a command packet that is ready. Gives the packet's
// length. Inside a call the state is open, so that the invariant is a clause.
fn hand_out(
    endpoint: &mut Endpoint,
    store0: &Store,
    store1: &Store,
    buffer: &mut [u8],
) -> Option<usize>
    requires { Valid endpoint.old × (packet_room endpoint.old ≤ length buffer.old) }
    ensures leaves { polled_to (Ok result) endpoint.new buffer.new ≡ polled_by (world endpoint.old store0.now store1.now) buffer.old endpoint.old.reply (Poll.ready endpoint.old) }
    ensures fits { IfSome result (λ n. n ≤ length buffer.old) }
{
    let ready = ready(endpoint);
    if let Some(reply) = endpoint.reply {
        if ready.is_none() || !endpoint.last_control {
            return Some(send_control(endpoint, reply, buffer));
        }
    }
    let (slot, outgoing) = ready?;
    Some(send_command(endpoint, store0, store1, slot, outgoing, buffer))
}

// Hands out the next packet, if there is one. 40: a store of another length; 36: the buffer is below the unit and four bytes.
#[tactic(auto, unfolding(machine::specs::Poll::polled))]
pub fn poll(
    endpoint: &mut ValidEndpoint,
    store0: &[u8],
    store1: &[u8],
    buffer: &mut [u8],
) -> Result<Option<usize>, Refusal>
    ensures leaves { polled_to (numbered result) endpoint.new buffer.new ≡ polled (world endpoint.old store0.now store1.now) buffer.old }
    ensures answer_value { (poll_says (numbered result)).0 ≡ poll_number (world endpoint.old store0.now store1.now) buffer.old }
    ensures fits { IfOk result (λ sent. IfSome sent (λ n. n ≤ length buffer.old)) }
{
    let (store0, store1) = both_stores(store0, store1)?;
    if buffer.len() < usize::from(endpoint.state.unit) + HEADER_SIZE {
        return Err(Refusal::ShortBuffer);
    }
    Ok(hand_out(&mut endpoint.state, store0, store1, buffer))
}
