// The numbers of answers that refuse nothing, each under the name of its definition. They are consts beside the enums, since code that prints an answer or
// tests it wants a name; a refusal has its own number (`Refusal::number`).
use crate::Received;

// ---- Taking, completing, declaring, timeout, reset, setup.
pub use refusals::DONE;

// ---- Receiving.
pub const MORE_TO_COME: u8 = Received::MoreToCome as u8;

pub const COMMAND_COMPLETE: u8 = Received::CommandComplete as u8;

// Also with an error reply.
pub const CONTROL_DONE: u8 = Received::ControlDone as u8;

// ---- Polling.
pub const NOTHING_TO_SEND: u8 = 0;

pub const PACKET_SENT: u8 = 1;
