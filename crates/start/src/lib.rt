// Setup and reset.
#![tactic(auto)]

ghost use Rattle.std.specs.Prelude.{◌≡◌};
ghost use Rattle.refusals.specs.Refusals.{answer_number};
ghost use Rattle.machine.specs.State;
ghost use Rattle.machine.specs.State.{ended};
ghost use Rattle.machine.specs.Finish;
ghost use Rattle.machine.specs.Finish.{was_reset, was_set_up};
ghost use Rattle.machine.specs.Valid.{ValidNumbers};

use machine::flags::RESET_SEEN;
use machine::sizes::LEAST_UNIT;
use machine::{Endpoint, FIRST_EID, Phase, SetUp, Slot, Ticket, ValidEndpoint};

// An Idle slot with nothing but its ticket count.
fn fresh(ticket: Ticket) -> Slot
    ensures { result ≡ State.fresh ticket }
{
    Slot {
        ticket,
        paused: false,
        busy: false,
        phase: Phase::Idle(None),
    }
}

// All zero but the EID, the unit, the flags and the ticket counts.
fn started(eid: u8, unit: u8, flags: u16, first: Ticket, second: Ticket) -> Endpoint
    ensures { result ≡ Finish.started eid unit flags first second }
{
    let slots = [fresh(first), fresh(second)];
    Endpoint {
        eid,
        unit,
        slots,
        flags,
        reply: None,
        turn: 0,
        last_control: false,
    }
}

// A new endpoint with this EID and this unit.
fn initial(eid: u8, unit: u8) -> ValidEndpoint
    requires { ValidNumbers eid unit 0 }
    ensures { result ≡ Finish.initial eid unit }
{
    ValidEndpoint {
        state: started(eid, unit, 0, Ticket(0), Ticket(0)),
    }
}

// A new endpoint with this EID, from 8 to 254, else 38, and this unit, from 64 to 250, else 39. Beside either the endpoint has EID 8 and the unit 64.
#[tactic(auto, using(machine::proofs::Keeps::within_bounds), unfolding(machine::specs::Finish::was_set_up))]
pub fn setup(eid: u8, unit: usize) -> SetUp
    ensures { ended (answer_number result.answer) result.endpoint ≡ was_set_up eid unit }
{
    let answer = mctp::check_setup(eid, unit);
    let endpoint = match answer {
        Ok(()) => initial(eid, unit as u8),
        Err(_) => initial(FIRST_EID, LEAST_UNIT as u8),
    };
    SetUp { answer, endpoint }
}

// Both slots Idle, all flags but "reset seen" cleared, the control reply gone. The EID, the unit and the ticket counts stay. It is never refused.
#[tactic(auto, using(machine::proofs::Keeps::reset_valid), unfolding(machine::specs::Finish::was_reset))]
pub fn reset(endpoint: &mut ValidEndpoint)
    ensures { ended 0 endpoint.new ≡ was_reset endpoint.old }
{
    let e = &mut endpoint.state;
    *e = started(
        e.eid,
        e.unit,
        RESET_SEEN,
        e.slots[0].ticket,
        e.slots[1].ticket,
    );
}
