// Taking a command, reading it, and declaring whether it can still be stopped.
#![tactic(auto)]

ghost use Rattle.std.specs.Prelude.{◌≡◌, true};
ghost use Rattle.refusals.specs.Refusals.{numbered, answer_number};
ghost use Rattle.machine.specs.State.{world, ended};
ghost use Rattle.machine.specs.Finish.{with_mark, taken, take_ended, take_says, part_of, part, was_declared};
ghost use Rattle.machine.specs.Numbers.{take_numbers, ticket_number};
ghost use Rattle.machine.specs.Valid.{message_fits};

use machine::sizes::Store;
use machine::{Endpoint, Phase, Request, Taking, Ticket, ValidEndpoint};
use refusals::Refusal;
use slots::{SlotNumber, both_stores, presented};

// The slot's command is taken, with the mark whether it can still be stopped.
fn mark(endpoint: &mut Endpoint, slot: SlotNumber, request: Request, can: bool)
    ensures { endpoint.new ≡ with_mark endpoint.old slot.number request can }
{
    endpoint.slots[slot.number].phase = Phase::Process(Request {
        taking: Taking::Taken(can),
        ..request
    });
}

// Takes the command of a slot, and answers its ticket. 30: no such slot; 31: no command there awaits its response; 33: taken already. A taken
// command counts as one that can't be stopped until something else is declared.
#[tactic(auto, unfolding(machine::specs::Finish::taken))]
pub fn take(endpoint: &mut ValidEndpoint, slot: usize) -> Result<Ticket, Refusal>
    ensures value { take_ended (numbered result) endpoint.new ≡ taken endpoint.old slot }
    ensures answer_value { take_says (numbered result) ≡ take_numbers endpoint.old slot }
{
    let slot = SlotNumber::try_from(slot)?;
    let before = endpoint.state.slots[slot.number];
    let Phase::Process(request) = before.phase else {
        return Err(Refusal::NoCommand);
    };
    let Taking::Untaken = request.taking else {
        return Err(Refusal::TakenAlready);
    };
    mark(&mut endpoint.state, slot, request, false);
    Ok(before.ticket)
}

// What a slot in this phase has at the front of its store for the drive's software: its taken command, else nothing.
fn part_of<'a>(store: &'a Store, phase: Phase) -> &'a [u8]
    requires { message_fits phase ≡ true }
    ensures { result.now ≡ part_of store.now phase }
{
    match phase {
        Phase::Process(
            Request {
                taking: Taking::Taken(_),
                length,
                ..
            },
        ) => &store[..length],
        _ => &[],
    }
}

// The request that was taken from a slot and awaits completion, check included, as a part of the slot's store. It is empty if there is
// none, no such slot, or a store of another length.
#[tactic(auto, unfolding(machine::specs::Finish::part))]
pub fn request<'a>(
    endpoint: &ValidEndpoint,
    store0: &'a [u8],
    store1: &'a [u8],
    slot: usize,
) -> &'a [u8]
    ensures { result.now ≡ part (world endpoint.now store0.now store1.now) slot }
{
    let Ok((store0, store1)) = both_stores(store0, store1) else {
        return &[];
    };
    let Ok(slot) = SlotNumber::try_from(slot) else {
        return &[];
    };
    part_of(
        slot.store_of(store0, store1),
        endpoint.state.slots[slot.number].phase,
    )
}

// Declares whether the taken command of a slot can still be stopped with no effect, which is what an Abort of it reports; the last declaration
// counts. 30 slot above 1; 31 not in Process, or its response is there; 32 ticket not the slot's present one; 34 not taken.
#[tactic(auto, unfolding(machine::specs::Finish::was_declared))]
pub fn declare(
    endpoint: &mut ValidEndpoint,
    slot: usize,
    ticket: Ticket,
    can: bool,
) -> Result<(), Refusal>
    ensures value { ended (answer_number result) endpoint.new ≡ was_declared endpoint.old slot ticket can }
    ensures answer_value { answer_number result ≡ ticket_number endpoint.old slot ticket }
{
    let (slot, request) = presented(&endpoint.state, slot, ticket)?;
    mark(&mut endpoint.state, slot, request, can);
    Ok(())
}
