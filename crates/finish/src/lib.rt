// Completing a command that was taken, and the timeout of one that is being gathered.
#![tactic(auto)]

ghost use Rattle.std.specs.Prelude.{◌≡◌};
ghost use Rattle.refusals.specs.Refusals.{answer_number};
ghost use Rattle.machine.specs.State.{world, outcome, ended};
ghost use Rattle.machine.specs.Finish.{completed_by, completed, timed_out};

use machine::flags::TIMEOUT_SEEN;
use machine::sizes::{LONGEST_BODY, SHORTEST_BODY, STORE_SIZE, Store};
use machine::{Endpoint, Phase, Request, Ticket, ValidEndpoint};
use refusals::Refusal;
use slots::{SlotNumber, drop_slot, presented};
use slots_process::respond;

// The response with this body, from its status on, to the front of the slot's store. 35 body not 4 to 4,216 bytes. There are two calls of `respond`,
// since of one `&mut` that is chosen before a single call the proof of what both stores hold afterwards didn't close.
fn answer(
    endpoint: &mut Endpoint,
    store0: &mut Store,
    store1: &mut Store,
    slot: SlotNumber,
    request: Request,
    body: &[u8],
) -> Result<(), Refusal>
    ensures { outcome (answer_number result) (world endpoint.new store0.new store1.new) ≡ completed_by (world endpoint.old store0.old store1.old) slot.number body.now (Ok request) }
{
    if body.len() < SHORTEST_BODY || body.len() > LONGEST_BODY {
        return Err(Refusal::WrongBodySize);
    }
    if slot.number == 0 {
        respond(endpoint, store0, slot, request, body);
    } else {
        respond(endpoint, store1, slot, request, body);
    }
    Ok(())
}

// Completes the taken command of a slot. 40 a store of another length; 30 slot above 1; 31 not in Process, or its response is there; 32 ticket
// not the slot's present one; 34 not taken; 35 body not 4 to 4,216 bytes. Each store is made an array by itself, here and in receiving: no clause says
// what two lenders hold after one function has handed back both.
#[tactic(auto, unfolding(machine::specs::Finish::completed))]
pub fn complete(
    endpoint: &mut ValidEndpoint,
    store0: &mut [u8],
    store1: &mut [u8],
    slot: usize,
    ticket: Ticket,
    body: &[u8],
) -> Result<(), Refusal>
    ensures { outcome (answer_number result) (world endpoint.new store0.new store1.new) ≡ completed (world endpoint.old store0.old store1.old) slot ticket body.now }
{
    let store0 = store0
        .as_mut_array::<STORE_SIZE>()
        .ok_or(Refusal::WrongStores)?;
    let store1 = store1
        .as_mut_array::<STORE_SIZE>()
        .ok_or(Refusal::WrongStores)?;
    let (slot, request) = presented(&endpoint.state, slot, ticket)?;
    answer(&mut endpoint.state, store0, store1, slot, request, body)
}

// Ends what a slot gathers, for the caller's clock. 30: no such slot; 37: the slot is not in Receive, or paused.
#[tactic(auto, unfolding(machine::specs::Finish::timed_out))]
pub fn timeout(endpoint: &mut ValidEndpoint, slot: usize) -> Result<(), Refusal>
    ensures { ended (answer_number result) endpoint.new ≡ timed_out endpoint.old slot }
{
    let slot = SlotNumber::try_from(slot)?;
    let s = &endpoint.state.slots[slot.number];
    if !matches!(s.phase, Phase::Receive(_)) || s.paused {
        return Err(Refusal::NotGathering);
    }
    let e = &mut endpoint.state;
    drop_slot(e, slot);
    e.flags |= TIMEOUT_SEEN;
    Ok(())
}
