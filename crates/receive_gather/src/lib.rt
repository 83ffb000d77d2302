// Gathering a command in its slot: a packet's payload behind the bytes so far, and the command once it is whole. `store` is the slot's; what is
// promised holds whatever the other one holds.
#![tactic(auto)]

ghost use Rattle.std.specs.Prelude.{◌≡◌, List, ℕ, ◌+◌, ◌≤◌, length, take};
ghost use Rattle.machine.specs.Answers.{receive_says};
ghost use Rattle.machine.specs.State.{world, outcome};
ghost use Rattle.machine.specs.Wire.{store_size};
ghost use Rattle.opening.specs.Opening.{joined_in};
ghost use Rattle.machine.specs.Receive;
ghost use Rattle.slots.specs.Placed.{placed};

use machine::sizes::Store;
use machine::{Assembly, Endpoint, Received};
use mctp::Header;
use opening::Joined;
use receive_assembly::gathering_on;
use receive_refused::flagged;
use refusals::Refusal;
use slots::{SlotNumber, drop_slot};
use slots_process::enter;

// The assembly with this packet, whose bytes are in the slot's store: more to come, refused for its check with its slot to Idle, or
// into Process.
fn land(
    endpoint: &mut Endpoint,
    store: &mut Store,
    slot: SlotNumber,
    assembly: Assembly,
    eom: bool,
) -> Result<Received, Refusal>
    requires { assembly.length ≤ store_size }
    ensures { (other : List ℕ) → outcome (receive_says result) (placed slot.number endpoint.new store.new other) ≡ Receive.landed (placed slot.number endpoint.old store.old other) slot.number assembly (joined_in (take assembly.length store.old) eom) }
{
    let message = &store[..assembly.length];
    match opening::joined_in(message, eom) {
        Joined::More => {
            gathering_on(endpoint, slot, assembly);
            Ok(Received::MoreToCome)
        }
        Joined::Wrong => {
            drop_slot(endpoint, slot);
            Err(flagged(endpoint, Refusal::CheckWrong))
        }
        Joined::Whole => {
            let message_header = nvme_mi::read_message_header(message);
            enter(endpoint, store, slot, assembly, message_header);
            Ok(Received::CommandComplete)
        }
    }
}

// A command's packet that is not refused: its payload goes behind the bytes so far in the slot's store. That there is room is a clause, here and
// wherever a length has to lie within a store: lengths are numbers in the definitions of specs/, and have no type of their own.
#[tactic(auto, unfolding(machine::specs::Receive::gathered))]
fn gather(
    endpoint: &mut Endpoint,
    store: &mut Store,
    slot: SlotNumber,
    at: usize,
    header: Header,
    payload: &[u8],
) -> Result<Received, Refusal>
    requires { at + length payload.now ≤ store_size }
    ensures { (other : List ℕ) → outcome (receive_says result) (placed slot.number endpoint.new store.new other) ≡ Receive.gathered (placed slot.number endpoint.old store.old other) slot.number at header payload.now }
{
    lent::put(store, at, payload);
    let assembly = Assembly::with(header, at + payload.len());
    land(endpoint, store, slot, assembly, header.eom)
}

// `gather` in the slot's store, which is chosen here for the whole call. There are two calls, since of one `&mut` that is chosen before a single call the
// proof of what both stores hold afterwards didn't close.
#[tactic(auto, unfolding(machine::specs::Receive::gathered))]
pub fn gather_in(
    endpoint: &mut Endpoint,
    store0: &mut Store,
    store1: &mut Store,
    slot: SlotNumber,
    at: usize,
    header: Header,
    payload: &[u8],
) -> Result<Received, Refusal>
    requires { at + length payload.now ≤ store_size }
    ensures { outcome (receive_says result) (world endpoint.new store0.new store1.new) ≡ Receive.gathered (world endpoint.old store0.old store1.old) slot.number at header payload.now }
{
    if slot.number == 0 {
        gather(endpoint, store0, slot, at, header, payload)
    } else {
        gather(endpoint, store1, slot, at, header, payload)
    }
}
