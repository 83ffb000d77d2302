// The controller's packets: a command cut into them, and a control primitive in one.
#![tactic(auto)]

ghost use Rattle.std.specs.Prelude.{◌≡◌, ◌++◌, ◌≤◌, ◌<◌, length, drop};
ghost use Rattle.refusals.specs.Refusals.{numbered};
ghost use Rattle.mctp.specs.Cut;
ghost use Rattle.mctp.specs.Cut.{end_to_end};
ghost use Rattle.controller.specs.Send.{sent_to, send_says, route_from, cut_to, control_request, primitive_to};
ghost use Rattle.controller.specs.Grounds.{cut_numbers, primitive_numbers};

use controller::{LAST_TAG, Primitive, Requester, ValidRequester};
use machine::sizes::{CONTROL_SIZE, SMALLEST, STORE_SIZE};
use mctp::{HEADER_SIZE, Route};
use refusals::Refusal;

// The check of a control request stands behind its first eight bytes.
const CHECK_PLACE: usize = 8;

// The way of a packet from this requester: TO 1, under the caller's tag. The endpoint's is a function of its own: one for both would take all four
// fields of a `Route`.
fn route_from(requester: &Requester, destination: u8, tag: u8) -> Route
    ensures { result ≡ route_from requester.now destination tag }
{
    Route {
        destination,
        source: requester.eid,
        to: true,
        tag,
    }
}

// Writes all packets of a message end to end to the front of `out`, and returns how many bytes they have. Bytes behind them stay.
#[tactic(auto, using(mctp::proofs::Ends::ends_length, mctp::proofs::Ends::cut_length, mctp::proofs::Laws::packets_bounds), unfolding(mctp::specs::Cut::cut))]
fn write_cut(unit: usize, route: Route, message: &[u8], out: &mut [u8]) -> usize
    requires { (0 < unit) × (length (end_to_end (Cut.cut unit route message.now)) ≤ length out.old) }
    ensures value { result ≡ length (end_to_end (Cut.cut unit route message.now)) }
    ensures out_after { out.new ≡ end_to_end (Cut.cut unit route message.now) ++ drop result out.old }
{
    let mut at = 0;
    for k in 0..mctp::packet_count(unit, message.len()) {
        at += mctp::write_packet(unit, route, message, k, &mut out[at..]);
    }
    at
}

// Cuts a command of 8 to 4,224 bytes into packets that lie end to end at the front of `buffer`, and returns how many bytes they have. 41 another size,
// or a tag above 7; 36 a buffer that is too short for the packets.
#[tactic(auto, using(mctp::proofs::Ends::cut_length), unfolding(controller::specs::Send::cut_to, controller::specs::Send::written))]
pub fn cut(
    requester: &ValidRequester,
    destination: u8,
    tag: u8,
    message: &[u8],
    buffer: &mut [u8],
) -> Result<usize, Refusal>
    ensures leaves { sent_to (numbered result) buffer.new ≡ cut_to requester.now destination tag message.now buffer.old }
    ensures result_value { send_says (numbered result) ≡ cut_numbers requester.now.unit tag message.now buffer.old }
{
    let state = &requester.state;
    let n = message.len();
    if n < SMALLEST || n > STORE_SIZE || tag > LAST_TAG {
        return Err(Refusal::OutOfRange);
    }
    if buffer.len() < n + HEADER_SIZE * mctp::packet_count(state.unit, n) {
        return Err(Refusal::ShortBuffer);
    }
    let route = route_from(state, destination, tag);
    Ok(write_cut(state.unit, route, message, buffer))
}

// A control primitive's message.
#[tactic(auto, unfolding(controller::specs::Send::control_request))]
fn control_request(primitive: Primitive) -> [u8; CONTROL_SIZE]
    ensures { result ≡ control_request primitive }
{
    let csi = (primitive.slot % 2) as u8;
    let [low, high] = primitive.cpsp.to_le_bytes();
    let mut message = [
        nvme_mi::MESSAGE_TYPE,
        csi,
        0,
        0,
        primitive.opcode,
        primitive.tag,
        low,
        high,
        0,
        0,
        0,
        0,
    ];
    nvme_mi::write_check(&mut message, CHECK_PLACE);
    message
}

// Builds a control primitive as one packet at the front of `buffer`, and returns the packet's length. 41 a tag above 7; 30 a slot above 1; 36 a buffer
// that is too short for the packet.
#[tactic(auto, unfolding(controller::specs::Send::primitive_to))]
pub fn primitive(
    requester: &ValidRequester,
    destination: u8,
    tag: u8,
    asked: Primitive,
    buffer: &mut [u8],
) -> Result<usize, Refusal>
    ensures leaves { sent_to (numbered result) buffer.new ≡ primitive_to requester.now destination tag asked buffer.old }
    ensures result_value { send_says (numbered result) ≡ primitive_numbers tag asked buffer.old }
{
    let state = &requester.state;
    if tag > LAST_TAG {
        return Err(Refusal::OutOfRange);
    }
    if asked.slot > 1 {
        return Err(Refusal::NoSuchSlot);
    }
    if buffer.len() < HEADER_SIZE + CONTROL_SIZE {
        return Err(Refusal::ShortBuffer);
    }
    let message = control_request(asked);
    let route = route_from(state, destination, tag);
    Ok(mctp::write_packet(state.unit, route, &message, 0, buffer))
}
