// Receiving one packet, in document 01's order: the header, then the first packet of a message or a later one, then its slot.
// The requester has steps of the same names: each is proved equal to its own end's definition, over two slots here and over one assembly there.
#![tactic(auto)]

ghost use Rattle.std.specs.Prelude.{◌≡◌, ◌≤◌, length};
ghost use Rattle.machine.specs.Answers.{receive_says};
ghost use Rattle.machine.specs.State.{world, outcome};
ghost use Rattle.machine.specs.Wire.{store_size};
ghost use Rattle.machine.specs.Valid.{Valid};
ghost use Rattle.machine.specs.Receive;
ghost use Rattle.machine.specs.Receive.{received};

use machine::sizes::{STORE_SIZE, Store};
use machine::{Endpoint, Received, ValidEndpoint};
use mctp::Header;
use opening::First;
use receive_assembly::end_assembly;
use receive_command::{first_command, later};
use receive_control::control;
use receive_refused::flagged;
use refusals::Refusal;
use slots::SlotNumber;

// SOM 1. An assembly with this source and tag has ended.
#[tactic(auto, unfolding(machine::specs::Receive::first))]
fn first(
    endpoint: &mut Endpoint,
    store0: &mut Store,
    store1: &mut Store,
    header: Header,
    message: &[u8],
) -> Result<Received, Refusal>
    requires { (1 ≤ length message.now) × (length message.now ≤ store_size) × (8 ≤ endpoint.old.unit) }
    ensures { outcome (receive_says result) (world endpoint.new store0.new store1.new) ≡ Receive.first (world endpoint.old store0.old store1.old) header message.now }
{
    let opened = match opening::opened(usize::from(endpoint.unit), false, header, message) {
        Ok(opened) => opened,
        Err(refusal) => return Err(flagged(endpoint, refusal)),
    };
    let message_header = nvme_mi::read_message_header(message);
    match opened {
        First::Control => {
            control(endpoint, header, message_header, message);
            Ok(Received::ControlDone)
        }
        First::Command => {
            let slot = SlotNumber {
                number: usize::from(message_header.csi),
            };
            first_command(endpoint, store0, store1, header, slot, message)
        }
    }
}

// A packet, where both stores have their length. Inside a call the state is open, so that the invariant is a clause here and in the steps below; the
// two stores are two parameters, since they are lent apart. Document 01 asks for the header reader to be opened by let else, whose other arm returns
// the refusal.
#[tactic(auto, unfolding(machine::specs::Receive::received))]
fn take_in(
    endpoint: &mut Endpoint,
    store0: &mut Store,
    store1: &mut Store,
    packet: &[u8],
) -> Result<Received, Refusal>
    requires { Valid endpoint.old }
    ensures { outcome (receive_says result) (world endpoint.new store0.new store1.new) ≡ received (world endpoint.old store0.old store1.old) packet.now }
{
    let read = mctp::read_header(endpoint.eid, usize::from(endpoint.unit), true, packet);
    let Ok(header) = read else {
        return Err(flagged(endpoint, read.unwrap_err()));
    };
    let payload = &packet[mctp::HEADER_SIZE..];
    if header.som {
        end_assembly(endpoint, header.source, header.tag);
        return first(endpoint, store0, store1, header, payload);
    }
    later(endpoint, store0, store1, header, payload)
}

// Receives one packet. 40 a store of another length; 10 to 23 a refusal; 0 more to come; 1 command complete; 2 control done.
#[tactic(auto, unfolding(machine::specs::Receive::received))]
pub fn receive(
    endpoint: &mut ValidEndpoint,
    store0: &mut [u8],
    store1: &mut [u8],
    packet: &[u8],
) -> Result<Received, Refusal>
    ensures { outcome (receive_says result) (world endpoint.new store0.new store1.new) ≡ received (world endpoint.old store0.old store1.old) packet.now }
{
    let store0 = store0
        .as_mut_array::<STORE_SIZE>()
        .ok_or(Refusal::WrongStores)?;
    let store1 = store1
        .as_mut_array::<STORE_SIZE>()
        .ok_or(Refusal::WrongStores)?;
    take_in(&mut endpoint.state, store0, store1, packet)
}
