// A command's packets, each for its slot: the first, and a later one.
#![tactic(auto)]

ghost use Rattle.std.specs.Prelude.{◌≡◌, ◌≤◌, length};
ghost use Rattle.machine.specs.Answers.{receive_says};
ghost use Rattle.machine.specs.State.{world, outcome};
ghost use Rattle.machine.specs.Wire.{store_size};
ghost use Rattle.machine.specs.Valid.{Valid};
ghost use Rattle.machine.specs.Receive;
ghost use Rattle.machine.specs.Receive.{first_command};

use machine::sizes::{STORE_SIZE, Store};
use machine::{Endpoint, Phase, Received};
use mctp::Header;
use receive_assembly::holder;
use receive_gather::gather_in;
use receive_refused::{flagged, refused_busy};
use refusals::Refusal;
use slots::{SlotNumber, drop_slot};

// A command's first packet.
#[tactic(auto, unfolding(machine::specs::Receive::first_command))]
pub fn first_command(
    endpoint: &mut Endpoint,
    store0: &mut Store,
    store1: &mut Store,
    header: Header,
    slot: SlotNumber,
    message: &[u8],
) -> Result<Received, Refusal>
    requires { length message.now ≤ store_size }
    ensures { outcome (receive_says result) (world endpoint.new store0.new store1.new) ≡ first_command (world endpoint.old store0.old store1.old) header slot.number message.now }
{
    if !matches!(endpoint.slots[slot.number].phase, Phase::Idle(_)) {
        return Err(refused_busy(endpoint, slot));
    }
    gather_in(endpoint, store0, store1, slot, 0, header, message)
}

// SOM 0. 22, 16 and 23 send the slot that gathers under this source and tag to Idle. Inside a call the state is
// open, so that the invariant is a clause.
#[tactic(auto, using(mctp::proofs::Laws::joins), unfolding(machine::specs::Receive::later, machine::specs::Receive::later_at))]
pub fn later(
    endpoint: &mut Endpoint,
    store0: &mut Store,
    store1: &mut Store,
    header: Header,
    payload: &[u8],
) -> Result<Received, Refusal>
    requires { Valid endpoint.old }
    ensures { outcome (receive_says result) (world endpoint.new store0.new store1.new) ≡ Receive.later (world endpoint.old store0.old store1.old) header payload.now }
{
    let Some((slot, assembly)) = holder(endpoint, header.source, header.tag) else {
        return Err(flagged(endpoint, Refusal::NoAssembly));
    };
    if let Err(refusal) = mctp::check_join(
        usize::from(endpoint.unit),
        STORE_SIZE,
        assembly.sequence,
        assembly.length,
        header,
        payload.len(),
    ) {
        drop_slot(endpoint, slot);
        return Err(flagged(endpoint, refusal));
    }
    gather_in(
        endpoint,
        store0,
        store1,
        slot,
        assembly.length,
        header,
        payload,
    )
}
