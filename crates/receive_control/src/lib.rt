// "Control primitives" of document 01. A primitive acts on the whole at once, and its reply waits in the state.
#![tactic(auto)]

ghost use Rattle.std.specs.Prelude.{◌≡◌, ◌≤◌, ◌<◌, length};
ghost use Rattle.nvme_mi.specs.Message.{opcode_number};
ghost use Rattle.machine.specs.State.{held_in};
ghost use Rattle.machine.specs.Control;
ghost use Rattle.machine.specs.Control.{acted, pause_word, resumed_slot, taken_word, abort_word, state_number, state_word, clear_flags};

use machine::{Endpoint, Outgoing, Phase, Reply, Response, Slot, Taking, flags};
use mctp::Header;
use nvme_mi::{MessageHeader, Opcode};
use slots::{SlotNumber, drop_slot, pause};

// The value where the test holds, else 0. A product with `u16::from` was tried, and the proof of the state's word didn't close.
fn bit(set: bool, value: u16) -> u16
    ensures { result ≡ Control.bit set value }
{
    if set { value } else { 0 }
}

// CPSR of Pause: the flags of slots 0 and 1.
fn pause_word(endpoint: &Endpoint) -> u16
    ensures { result ≡ pause_word endpoint.now }
{
    bit(endpoint.slots[0].paused, 1) | bit(endpoint.slots[1].paused, 2)
}

// A response that waited for its flag goes to Transmit.
fn released(phase: Phase) -> Phase
    ensures { result ≡ Control.released phase }
{
    match phase {
        Phase::Answered(response) => Phase::Transmit(Outgoing { response, sent: 0 }),
        _ => phase,
    }
}

fn resume_slot(slot: &mut Slot)
    ensures { slot.new ≡ resumed_slot slot.old }
{
    slot.paused = false;
    slot.phase = released(slot.phase);
}

// Resume: clears both flags. There are two calls, as in `slots::pause`.
#[tactic(auto, unfolding(machine::specs::Control::resume))]
fn resume(endpoint: &mut Endpoint)
    ensures { endpoint.new ≡ Control.resume endpoint.old }
{
    resume_slot(&mut endpoint.slots[0]);
    resume_slot(&mut endpoint.slots[1]);
}

// Of a command in Process: 1 says that it was stopped with no effect.
fn taken_word(taking: Taking) -> u16
    ensures { result ≡ taken_word taking }
{
    match taking {
        Taking::Untaken | Taking::Taken(true) => 1,
        Taking::Taken(false) => 2,
    }
}

// CPSR of Abort: what was ended.
fn abort_word(phase: Phase) -> u16
    ensures { result ≡ abort_word phase }
{
    match phase {
        Phase::Receive(_) => 1,
        Phase::Process(request) => taken_word(request.taking),
        Phase::Idle(_) | Phase::Answered(_) | Phase::Transmit(_) => 0,
    }
}

fn state_number(phase: Phase) -> u16
    ensures { result ≡ state_number phase }
{
    match phase {
        Phase::Idle(_) => 0,
        Phase::Receive(_) => 1,
        Phase::Process(_) | Phase::Answered(_) => 2,
        Phase::Transmit(_) => 3,
    }
}

// CPSR of Get State: the slot's state and its own flags, and the endpoint's flags.
#[tactic(auto, unfolding(machine::specs::Control::state_word))]
fn state_word(endpoint: &Endpoint, slot: SlotNumber) -> u16
    ensures { result ≡ state_word endpoint.now slot.number }
{
    let s = &endpoint.slots[slot.number];
    state_number(s.phase)
        | bit(s.busy, flags::SLOT_NOT_IDLE)
        | endpoint.flags
        | bit(s.paused, flags::PAUSED)
}

// Clears the endpoint's flags and the slot's bit 3.
#[tactic(auto, unfolding(machine::specs::Control::clear_flags))]
fn clear_flags(endpoint: &mut Endpoint, slot: SlotNumber)
    ensures { endpoint.new ≡ clear_flags endpoint.old slot.number }
{
    endpoint.slots[slot.number].busy = false;
    endpoint.flags = 0;
}

// What a slot in this phase holds: only an Idle one has it.
fn held_in(phase: Phase) -> Option<Response>
    ensures { result ≡ held_in phase }
{
    match phase {
        Phase::Idle(held) => held,
        _ => None,
    }
}

// Replay: a response that the slot still holds goes to Transmit, and CPSR is 1. Else nothing happens.
#[tactic(auto, unfolding(machine::specs::Control::replay))]
fn replay(endpoint: &mut Endpoint, slot: SlotNumber) -> u16
    ensures { acted endpoint.new result ≡ Control.replay endpoint.old slot.number }
{
    let Some(response) = held_in(endpoint.slots[slot.number].phase) else {
        return 0;
    };
    endpoint.slots[slot.number].phase = Phase::Transmit(Outgoing { response, sent: 0 });
    1
}

// A primitive acts, and gives its CPSR.
#[tactic(auto, unfolding(machine::specs::Control::primitive))]
fn act(endpoint: &mut Endpoint, opcode: Opcode, slot: SlotNumber, clear: bool) -> u16
    ensures { acted endpoint.new result ≡ Control.primitive endpoint.old (opcode_number opcode) slot.number clear }
{
    match opcode {
        Opcode::Pause => {
            pause(endpoint);
            pause_word(endpoint)
        }
        Opcode::Resume => {
            resume(endpoint);
            0
        }
        Opcode::Abort => {
            let cpsr = abort_word(endpoint.slots[slot.number].phase);
            drop_slot(endpoint, slot);
            cpsr
        }
        Opcode::GetState => {
            let cpsr = state_word(endpoint, slot);
            if clear {
                clear_flags(endpoint, slot);
            }
            cpsr
        }
        Opcode::Replay => replay(endpoint, slot),
    }
}

// A reply with this body waits for the sender of the packet. A newer one replaces it whole.
fn reply(endpoint: &mut Endpoint, header: Header, csi: u8, body: [u8; 4])
    ensures { endpoint.new ≡ Control.replied endpoint.old header csi body }
{
    endpoint.reply = Some(Reply {
        to: header.source,
        tag: header.tag,
        message: nvme_mi::control_reply(csi, body),
    });
}

// A control primitive that came whole, with a right check: it acts, or is refused by an error reply. CSI is a byte of the header, which the definitions
// of specs/ make of any byte, so that its bound is a clause here.
#[tactic(auto, unfolding(machine::specs::Control::controlled))]
pub fn control(
    endpoint: &mut Endpoint,
    header: Header,
    message_header: MessageHeader,
    message: &[u8],
)
    requires { (message_header.csi < 2) × (8 ≤ length message.now) }
    ensures { endpoint.new ≡ Control.controlled endpoint.old header message_header message.now }
{
    let csi = message_header.csi;
    let slot = SlotNumber {
        number: usize::from(csi),
    };
    let no_parameter = message[6] == 0 && message[7] == 0;
    let body = match nvme_mi::check_control(message_header, message[4], no_parameter) {
        Ok(opcode) => {
            let cpsr = act(endpoint, opcode, slot, message[6] % 2 == 1);
            nvme_mi::success_body(message[5], cpsr)
        }
        Err(fault) => nvme_mi::fault_body(Err(fault)),
    };
    reply(endpoint, header, csi, body);
}
