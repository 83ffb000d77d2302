// The controller's end: a requester's state, and what its calls answer. What every call answers and leaves is defined in specs/.
#![tactic(auto)]

ghost use Rattle.std.specs.Prelude.{◌≡◌};
ghost use Rattle.refusals.specs.Refusals.{numbered};
ghost use Rattle.controller.specs.Send.{send_says};
ghost use Rattle.controller.specs.Receive.{receive_says};

pub mod answers;
mod valid;

use machine::Assembly;
use refusals::Refusal;
pub use valid::ValidRequester;

// The greatest message tag.
pub const LAST_TAG: u8 = 7;

// Where a response comes from, and under which message tag.
#[derive(Clone, Copy)]
pub struct Key {
    pub source: u8,
    pub tag: u8,
}

// What is awaited: nothing, a response of which no packet is gathered, or the rest of one. With three ways it is an enum of its own and no `Option`.
#[derive(Clone, Copy)]
pub enum Awaiting {
    Nothing,
    Awaited(Key),
    Gathering(Assembly),
}

// `unit` is the largest payload of a packet.
#[derive(Clone, Copy)]
pub struct Requester {
    pub eid: u8,
    pub unit: usize,
    pub awaiting: Awaiting,
}

// What setup answers, and the state beside it: a refusal has one too, that for EID 8 and the unit 64 (`was_set_up`).
#[derive(Clone, Copy)]
pub struct SetUp {
    pub answer: Result<(), Refusal>,
    pub requester: ValidRequester,
}

// A control primitive: its slot, opcode, TAG and CPSP. The opcode is a number and no enum, since a primitive of any opcode is built (`primitive_to`).
#[derive(Clone, Copy)]
pub struct Primitive {
    pub slot: usize,
    pub opcode: u8,
    pub tag: u8,
    pub cpsp: u16,
}

// What a packet that is not refused did: more are to come, or a message of this length is at the store's front, a response or a control reply.
#[derive(Clone, Copy)]
pub enum Gathered {
    More,
    Response(usize),
    Control(usize),
}

// Document 02's number for what receiving a packet answers.
pub fn gathered_number(answer: Result<Gathered, Refusal>) -> u8
    ensures { result ≡ (receive_says (numbered answer)).0 }
{
    match answer {
        Ok(Gathered::More) => answers::MORE_TO_COME,
        Ok(Gathered::Response(_)) => answers::COMMAND_COMPLETE,
        Ok(Gathered::Control(_)) => answers::CONTROL_DONE,
        Err(refusal) => refusal.number(),
    }
}

// The same of cutting a command and of building a control primitive.
pub fn sent_number(answer: Result<usize, Refusal>) -> u8
    ensures { result ≡ (send_says (numbered answer)).0 }
{
    match answer {
        Ok(_) => answers::DONE,
        Err(refusal) => refusal.number(),
    }
}
