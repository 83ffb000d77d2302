// Small steps on a slot, on the endpoint and on the lent stores that several calls share.
#![tactic(auto)]

mod slot_number;

ghost use Rattle.std.specs.Prelude.{◌≡◌, not, ◌||◌, eqb, IfOk};
ghost use Rattle.refusals.specs.Refusals.{numbered};
ghost use Rattle.machine.specs.State;
ghost use Rattle.machine.specs.State.{slot_at, with_slot};
ghost use Rattle.machine.specs.Wire.{store_size};
ghost use Rattle.machine.specs.Finish;
ghost use Rattle.machine.specs.Control;
ghost use Rattle.slots.specs.Numbers.{AreStores, found_in};
ghost use Rattle.machine.specs.Control.{paused_slot};

use machine::sizes::{STORE_SIZE, Store};
use machine::{Endpoint, Outgoing, Phase, Request, Response, Slot, Taking, Ticket};
use refusals::Refusal;
pub use slot_number::{SlotNumber, other_slot, store_of};

// Both lent stores. 40: one has another length.
pub fn both_stores<'a>(
    store0: &'a [u8],
    store1: &'a [u8],
) -> Result<(&'a Store, &'a Store), Refusal>
    ensures { AreStores store0.now store1.now result }
{
    let store0 = store0.as_array::<STORE_SIZE>().ok_or(Refusal::WrongStores)?;
    let store1 = store1.as_array::<STORE_SIZE>().ok_or(Refusal::WrongStores)?;
    Ok((store0, store1))
}

// One of the lent stores, of n0 and n1 bytes, has another length. `both_stores` is for who has the stores.
pub fn wrong_stores(n0: usize, n1: usize) -> bool
    ensures { result ≡ (not (eqb n0 store_size) || not (eqb n1 store_size)) }
{
    n0 != STORE_SIZE || n1 != STORE_SIZE
}

// A slot that enters Idle loses its pause flag, and holds no response.
pub fn idle(slot: &mut Slot)
    ensures { slot.new ≡ State.idled slot.old }
{
    slot.paused = false;
    slot.phase = Phase::Idle(None);
}

// A slot whose last packet went is Idle, and holds its response.
pub fn hold(slot: &mut Slot, response: Response)
    ensures { slot.new ≡ State.holding slot.old response }
{
    idle(slot);
    slot.phase = Phase::Idle(Some(response));
}

// A slot of the endpoint goes to Idle.
pub fn drop_slot(endpoint: &mut Endpoint, slot: SlotNumber)
    ensures { endpoint.new ≡ with_slot endpoint.old slot.number (State.idled (slot_at endpoint.old slot.number)) }
{
    idle(&mut endpoint.slots[slot.number]);
}

// A response that is there goes to Transmit at once, unless the slot's own flag is set.
pub fn settled(paused: bool, response: Response) -> Phase
    ensures { result ≡ State.settled paused response }
{
    if paused {
        Phase::Answered(response)
    } else {
        Phase::Transmit(Outgoing { response, sent: 0 })
    }
}

// A ticket that is presented for a slot: the slot, and the taken command that the ticket belongs to. 30 slot above 1; 31 not in Process, or its
// response is there; 32 ticket not the slot's present one; 34 not taken.
#[tactic(auto, unfolding(machine::specs::Finish::presented))]
pub fn presented(
    endpoint: &Endpoint,
    slot: usize,
    ticket: Ticket,
) -> Result<(SlotNumber, Request), Refusal>
    ensures value { numbered (found_in result) ≡ Finish.presented endpoint.now slot ticket }
    ensures same_slot { IfOk result (λ found. found.0.number ≡ slot) }
{
    let slot = SlotNumber::try_from(slot)?;
    let asked = &endpoint.slots[slot.number];
    let Phase::Process(request) = asked.phase else {
        return Err(Refusal::NoCommand);
    };
    if ticket != asked.ticket {
        return Err(Refusal::OtherTicket);
    }
    match request.taking {
        Taking::Untaken => Err(Refusal::NotTaken),
        Taking::Taken(_) => Ok((slot, request)),
    }
}

// Sets the flag of a slot that is not Idle.
fn pause_slot(slot: &mut Slot)
    ensures { slot.new ≡ paused_slot slot.old }
{
    if !matches!(slot.phase, Phase::Idle(_)) {
        slot.paused = true;
    }
}

// Pause: sets the flag of each slot that is not Idle. There are two calls, since over `for slot in &mut endpoint.slots` the proof didn't close.
#[tactic(auto, unfolding(machine::specs::Control::pause))]
pub fn pause(endpoint: &mut Endpoint)
    ensures { endpoint.new ≡ Control.pause endpoint.old }
{
    pause_slot(&mut endpoint.slots[0]);
    pause_slot(&mut endpoint.slots[1]);
}
