// Entering Process, and the response that a slot then gets. `store` is the slot's; what is promised holds whatever the other one holds.
#![tactic(auto)]

ghost use Rattle.std.specs.Prelude.{◌≡◌, ℕ, ◌+◌, ◌≤◌, List, length};
ghost use Rattle.machine.specs.Wire.{store_size};
ghost use Rattle.machine.specs.Process;
ghost use Rattle.machine.specs.Process.{response_to};
ghost use Rattle.slots.specs.Placed.{placed};

use machine::sizes::{SMALLEST, Store};
use machine::{Assembly, Endpoint, Phase, Request, Response, Slot, Taking, Ticket};
use nvme_mi::MessageHeader;
use slots::{SlotNumber, pause, settled};

// The command that an assembly became.
fn request_of(assembly: Assembly, message_header: MessageHeader) -> Request
    ensures { result ≡ Process.request assembly message_header }
{
    Request {
        source: assembly.source,
        tag: assembly.tag,
        kind: message_header.nmimt,
        length: assembly.length,
        taking: Taking::Untaken,
    }
}

// The slot's ticket count rises by one, and goes from 4,294,967,295 to 0.
fn process(slot: &mut Slot, request: Request)
    ensures { slot.new ≡ Process.processing slot.old request }
{
    slot.ticket = Ticket(slot.ticket.0.wrapping_add(1));
    slot.phase = Phase::Process(request);
}

// A response with this body between header and check, to the requester and under the request's tag.
fn response_to(request: Request, body: &[u8]) -> Response
    requires { length body.now + 8 ≤ store_size }
    ensures { result ≡ response_to request body.now }
{
    Response {
        requester: request.source,
        tag: request.tag,
        length: body.len() + SMALLEST,
    }
}

// The response overwrites the front of the slot's store. The CSI that chose the slot is its number.
#[tactic(auto, unfolding(machine::specs::Process::responded))]
pub fn respond(
    endpoint: &mut Endpoint,
    store: &mut Store,
    slot: SlotNumber,
    request: Request,
    body: &[u8],
)
    requires { length body.now + 8 ≤ store_size }
    ensures { (other : List ℕ) → placed slot.number endpoint.new store.new other ≡ Process.responded (placed slot.number endpoint.old store.old other) slot.number request body.now }
{
    nvme_mi::write_response(store, request.kind, slot.number as u8, body);
    let s = &mut endpoint.slots[slot.number];
    s.phase = settled(s.paused, response_to(request, body));
}

// The slot enters Process with a whole command. With CIAP 1, Pause then acts, without a reply. A command with a fault is answered at once.
#[tactic(auto, unfolding(machine::specs::Process::entered))]
pub fn enter(
    endpoint: &mut Endpoint,
    store: &mut Store,
    slot: SlotNumber,
    assembly: Assembly,
    message_header: MessageHeader,
)
    ensures { (other : List ℕ) → placed slot.number endpoint.new store.new other ≡ Process.entered (placed slot.number endpoint.old store.old other) slot.number assembly message_header }
{
    let request = request_of(assembly, message_header);
    process(&mut endpoint.slots[slot.number], request);
    if message_header.ciap {
        pause(endpoint);
    }
    let tested = nvme_mi::check_command(message_header, assembly.length);
    if tested.is_err() {
        respond(endpoint, store, slot, request, &nvme_mi::fault_body(tested));
    }
}
