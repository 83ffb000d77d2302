// Handing out one packet: the control reply, or the next of a response.
#![tactic(auto)]

ghost use Rattle.std.specs.Prelude.{◌≡◌, ◌*◌, ◌≤◌, ◌<◌, length};
ghost use Rattle.machine.specs.State.{world};
ghost use Rattle.mctp.specs.Setup.{least_unit, most_unit};
ghost use Rattle.machine.specs.Wire.{store_size, packet_room, route_to};
ghost use Rattle.machine.specs.Poll.{polled_to, after_packet, sent_control, sent_command};

use machine::sizes::Store;
use machine::{Endpoint, Outgoing, Phase, Reply, Slot};
use mctp::Route;
use slots::{SlotNumber, hold};

// The way of a packet from this endpoint: TO 0, under the request's tag. The requester's, with TO 1, is a function of its own: one for both would take
// all four fields of a `Route`.
fn route_to(endpoint: &Endpoint, requester: u8, tag: u8) -> Route
    ensures { result ≡ route_to endpoint.now requester tag }
{
    Route {
        destination: requester,
        source: endpoint.eid,
        to: false,
        tag,
    }
}

// A slot after another packet of its response: Idle if that was the last, and it holds the response.
fn advance(unit: usize, slot: &mut Slot, outgoing: Outgoing)
    requires unit_bounds { (0 < unit) × (unit ≤ most_unit) }
    requires sent_bound { (unit * outgoing.sent < outgoing.response.length) × (outgoing.response.length ≤ store_size) }
    ensures { slot.new ≡ after_packet unit slot.old outgoing }
{
    if outgoing.response.length <= unit * outgoing.sent + unit {
        hold(slot, outgoing.response);
    } else {
        slot.phase = Phase::Transmit(Outgoing {
            sent: outgoing.sent + 1,
            ..outgoing
        });
    }
}

// Hands out the control reply that waits, and gives the packet's length.
#[tactic(auto, unfolding(machine::specs::Poll::sent_control))]
pub fn send_control(endpoint: &mut Endpoint, reply: Reply, buffer: &mut [u8]) -> usize
    requires unit_bounds { (least_unit ≤ endpoint.old.unit) × (endpoint.old.unit ≤ most_unit) }
    requires room { packet_room endpoint.old ≤ length buffer.old }
    ensures leaves { polled_to (Ok (Some result)) endpoint.new buffer.new ≡ sent_control endpoint.old reply buffer.old }
    ensures fits { result ≤ length buffer.old }
{
    let route = route_to(endpoint, reply.to, reply.tag);
    let n = mctp::write_packet(usize::from(endpoint.unit), route, &reply.message, 0, buffer);
    endpoint.reply = None;
    endpoint.last_control = true;
    n
}

// Hands out the next packet of the response at the front of the slot's store, and gives the packet's length.
#[tactic(auto, unfolding(machine::specs::Poll::sent_command))]
pub fn send_command(
    endpoint: &mut Endpoint,
    store0: &Store,
    store1: &Store,
    slot: SlotNumber,
    outgoing: Outgoing,
    buffer: &mut [u8],
) -> usize
    requires unit_bounds { (0 < endpoint.old.unit) × (endpoint.old.unit ≤ most_unit) }
    requires sent_bound { (endpoint.old.unit * outgoing.sent < outgoing.response.length) × (outgoing.response.length ≤ store_size) }
    requires room { packet_room endpoint.old ≤ length buffer.old }
    ensures leaves { polled_to (Ok (Some result)) endpoint.new buffer.new ≡ sent_command (world endpoint.old store0.now store1.now) slot.number outgoing buffer.old }
    ensures fits { result ≤ length buffer.old }
{
    let unit = usize::from(endpoint.unit);
    let response = outgoing.response;
    let route = route_to(endpoint, response.requester, response.tag);
    let message = &slot.store_of(store0, store1)[..response.length];
    let n = mctp::write_packet(unit, route, message, outgoing.sent, buffer);
    advance(unit, &mut endpoint.slots[slot.number], outgoing);
    endpoint.turn = slot.other().number;
    endpoint.last_control = false;
    n
}
