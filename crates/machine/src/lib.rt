// The endpoint's state, and what its calls answer. The machine itself, what every call answers and leaves, is defined in specs/.
#![tactic(auto)]

ghost use Rattle.std.specs.Prelude.{◌≡◌};
ghost use Rattle.refusals.specs.Refusals.{numbered};
ghost use Rattle.machine.specs.Answers.{received_number, receive_says};
ghost use Rattle.machine.specs.Finish.{take_says};
ghost use Rattle.machine.specs.Poll.{poll_says};
ghost use Rattle.machine.specs.Receive.{assembly};

pub mod answers;
pub mod flags;
pub mod sizes;
mod valid;

pub use mctp::FIRST_EID;
use mctp::Header;
use refusals::Refusal;
use sizes::CONTROL_SIZE;
pub use valid::ValidEndpoint;

// Document 01's ticket: the number of a command of its slot, modulo 2^32. It is a kind of number of its own, never mixed with a
// slot number.
#[derive(Clone, Copy, Debug, PartialEq, Eq)]
pub struct Ticket(pub u32);

// A command that is being gathered: who sends it under which message tag, the last packet's sequence number, the bytes so far.
#[derive(Clone, Copy)]
pub struct Assembly {
    pub source: u8,
    pub tag: u8,
    pub sequence: u8,
    pub length: usize,
}

impl Assembly {
    // The assembly of which this packet is the last so far, with so many bytes.
    pub fn with(header: Header, length: usize) -> Assembly
        ensures { result ≡ assembly header length }
    {
        Assembly {
            source: header.source,
            tag: header.tag,
            sequence: header.sequence,
            length,
        }
    }
}

// Whether the drive's software has taken a command. A taken one has the mark whether it can still be stopped, as declared last; no other command
// has a mark. `Option<bool>` is no plainer: `Some(false)` would not say that the command is taken.
#[derive(Clone, Copy)]
pub enum Taking {
    Untaken,
    Taken(bool),
}

// A command that awaits its response: its NMIMT (`kind`), and its length with the check. The kind is a number and no enum, since a command of an
// unknown one is answered under that same number (`responded`).
#[derive(Clone, Copy)]
pub struct Request {
    pub source: u8,
    pub tag: u8,
    pub kind: u8,
    pub length: usize,
    pub taking: Taking,
}

// A response at the front of the slot's store: to whom, under which message tag, and its length.
#[derive(Clone, Copy)]
pub struct Response {
    pub requester: u8,
    pub tag: u8,
    pub length: usize,
}

// A response that is being sent, and how many of its packets went.
#[derive(Clone, Copy)]
pub struct Outgoing {
    pub response: Response,
    pub sent: usize,
}

// Each state of a slot holds what only that state has. An Idle slot may still hold, for a Replay, its last response, whose last packet went.
// `Answered` is Process with its response there.
#[derive(Clone, Copy)]
pub enum Phase {
    Idle(Option<Response>),
    Receive(Assembly),
    Process(Request),
    Answered(Response),
    Transmit(Outgoing),
}

// A command slot. `busy` is bit 3 of Get State: a command was refused because the slot was not Idle.
#[derive(Clone, Copy)]
pub struct Slot {
    pub ticket: Ticket,
    pub paused: bool,
    pub busy: bool,
    pub phase: Phase,
}

// A control reply that waits: for whom, under which message tag, and the message.
#[derive(Clone, Copy)]
pub struct Reply {
    pub to: u8,
    pub tag: u8,
    pub message: [u8; CONTROL_SIZE],
}

// The endpoint. `unit` is the largest payload of a packet. `flags` has bits 4 to 12 and 14 of Get State at their places. `reply` is the control reply
// that waits. `turn` is the slot that goes first where no response is begun. `last_control` says that the last packet handed out was control.
#[derive(Clone, Copy)]
pub struct Endpoint {
    pub eid: u8,
    pub unit: u8,
    pub slots: [Slot; 2],
    pub flags: u16,
    pub reply: Option<Reply>,
    pub turn: usize,
    pub last_control: bool,
}

// What setup answers, and the state beside it: a refusal has one too, that for EID 8 and the unit 64 (`was_set_up`). So it is no `Result` of the state.
// The requester's setup has a struct like it with its own state; a type parameter for the state would say less.
#[derive(Clone, Copy)]
pub struct SetUp {
    pub answer: Result<(), Refusal>,
    pub endpoint: ValidEndpoint,
}

// What a packet that is not refused did: a command's packet was taken in and more are to come; a command is complete; a control primitive was
// answered, also with an error reply. Each is document 01's number for it; `number` says it.
#[derive(Clone, Copy, Debug, PartialEq, Eq)]
pub enum Received {
    MoreToCome = 0,
    CommandComplete = 1,
    ControlDone = 2,
}

impl Received {
    // Document 01's number. It is a method with a name and no `From`: a byte has other readings.
    pub fn number(self) -> u8
        ensures { result ≡ received_number self }
    {
        self as u8
    }
}

// Document 01's number for what receiving a packet answers. `answer_number` of `refusals` is for calls that give nothing: one function for both would have
// to be told the numbers of what is given.
pub fn receive_number(answer: Result<Received, Refusal>) -> u8
    ensures { result ≡ receive_says answer }
{
    match answer {
        Ok(received) => received.number(),
        Err(refusal) => refusal.number(),
    }
}

// The same of taking.
pub fn taken_number(answer: Result<Ticket, Refusal>) -> u8
    ensures { result ≡ (take_says (numbered answer)).0 }
{
    match answer {
        Ok(_) => answers::DONE,
        Err(refused) => refused.number(),
    }
}

// The same of polling.
pub fn polled_number(answer: Result<Option<usize>, Refusal>) -> u8
    ensures { result ≡ (poll_says (numbered answer)).0 }
{
    match answer {
        Ok(None) => answers::NOTHING_TO_SEND,
        Ok(Some(_)) => answers::PACKET_SENT,
        Err(refused) => refused.number(),
    }
}
