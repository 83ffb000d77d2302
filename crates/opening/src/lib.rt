// What a packet's bytes say, at either end: a message's first packet, and a message whose bytes are in a store.
#![tactic(auto)]

ghost use Rattle.std.specs.Prelude.{◌≡◌, ◌≤◌, length};
ghost use Rattle.refusals.specs.Refusals.{numbered};
ghost use Rattle.opening.specs.Opening;
ghost use Rattle.opening.specs.Opening.{joined_in};

use mctp::Header;
use nvme_mi::{CONTROL, CONTROL_SIZE, MESSAGE_TYPE, SMALLEST};
use refusals::Refusal;

// What a message's first packet opens: a control message, or another, which is a command or its response.
#[derive(Clone, Copy, Debug, PartialEq, Eq)]
pub enum First {
    Control,
    Command,
}

// A message's bytes so far: more to come, a wrong check, or whole. A wrong check is one of three ways and no `Err`: at each end it first ends the
// assembly, and then is a refusal.
#[derive(Clone, Copy, Debug, PartialEq, Eq)]
pub enum Joined {
    More,
    Wrong,
    Whole,
}

// The second table of "Receiving", for messages with this ROR: 15, 16, 17, 15, 18, 19.
#[tactic(auto, unfolding(crate::specs::Opening::opened))]
pub fn opened(unit: usize, ror: bool, header: Header, message: &[u8]) -> Result<First, Refusal>
    requires { (1 ≤ length message.now) × (8 ≤ unit) }
    ensures { numbered result ≡ Opening.opened unit ror header message.now }
{
    if message[0] != MESSAGE_TYPE {
        return Err(Refusal::WrongMessage);
    }
    if mctp::is_cut(unit, header, message.len()) {
        return Err(Refusal::NotFull);
    }
    if header.eom && message.len() < SMALLEST {
        return Err(Refusal::MessageTooShort);
    }
    let message_header = nvme_mi::read_message_header(message);
    if message_header.ror != ror {
        return Err(Refusal::WrongMessage);
    }
    if message_header.nmimt != CONTROL {
        return Ok(First::Command);
    }
    if !header.eom || message.len() != CONTROL_SIZE {
        return Err(Refusal::NotTwelve);
    }
    if !nvme_mi::check_right(message) {
        return Err(Refusal::CheckWrong);
    }
    Ok(First::Control)
}

// With EOM a message is checked whole.
#[tactic(auto, unfolding(crate::specs::Opening::joined_in))]
pub fn joined_in(message: &[u8], eom: bool) -> Joined
    ensures { result ≡ joined_in message.now eom }
{
    if !eom {
        return Joined::More;
    }
    if !nvme_mi::check_right(message) {
        return Joined::Wrong;
    }
    Joined::Whole
}
