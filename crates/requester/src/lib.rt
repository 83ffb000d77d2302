// The requester's five calls. Each is proved equal to its definition in `controller`. They have no premise: the invariant of the state is in its type,
// which setup gives. A call is lent the state, and the store or the buffer beside it.
#![tactic(auto)]

ghost use Rattle.std.specs.Prelude.{◌≡◌};
ghost use Rattle.refusals.specs.Refusals.{answer_number};
ghost use Rattle.controller.specs.State.{ended};
ghost use Rattle.controller.specs.Await.{was_set_up, now_awaits};

use controller::{Awaiting, Key, LAST_TAG, Requester, SetUp, ValidRequester};
use machine::FIRST_EID;
use machine::sizes::LEAST_UNIT;
use refusals::Refusal;
pub use requester_receive::receive;
pub use requester_send::{cut, primitive};

// A new requester with this EID, from 8 to 254, else 38, and this unit, from 64 to 250, else 39. It awaits nothing. Beside 38 and 39 it has EID 8 and
// the unit 64.
#[tactic(auto, unfolding(controller::specs::Await::was_set_up))]
pub fn setup(eid: u8, unit: usize) -> SetUp
    ensures { ended (answer_number result.answer) result.requester ≡ was_set_up eid unit }
{
    let answer = mctp::check_setup(eid, unit);
    let (eid, unit) = match answer {
        Ok(()) => (eid, unit),
        Err(_) => (FIRST_EID, LEAST_UNIT),
    };
    let state = Requester {
        eid,
        unit,
        awaiting: Awaiting::Nothing,
    };
    SetUp {
        answer,
        requester: ValidRequester { state },
    }
}

// Awaits a response from this source under this tag. An assembly ends. 41 a tag above 7.
#[tactic(auto, unfolding(controller::specs::Await::now_awaits))]
pub fn await_response(requester: &mut ValidRequester, source: u8, tag: u8) -> Result<(), Refusal>
    ensures { ended (answer_number result) requester.new ≡ now_awaits requester.old source tag }
{
    if tag > LAST_TAG {
        return Err(Refusal::OutOfRange);
    }
    requester.state.awaiting = Awaiting::Awaited(Key { source, tag });
    Ok(())
}
