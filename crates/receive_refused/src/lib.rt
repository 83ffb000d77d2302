// What a refusal of Receiving leaves: its flag.
#![tactic(auto)]

ghost use Rattle.std.specs.Prelude.{◌≡◌, List, ℕ};
ghost use Rattle.refusals.specs.Refusals.{number};
ghost use Rattle.machine.specs.State.{world, outcome};
ghost use Rattle.machine.specs.Receive;
ghost use Rattle.machine.specs.Receive.{flag_of, refused_busy};

use machine::{Endpoint, flags};
use refusals::Refusal;
use slots::SlotNumber;

// The flag that a refusal sets, at its place in the Get State word. That of a slot which is not Idle is the slot's own.
#[tactic(auto, unfolding(machine::specs::Receive::flag_of))]
fn flag_of(refusal: Refusal) -> u16
    ensures { result ≡ flag_of (number refusal) }
{
    match refusal {
        Refusal::TooLong => flags::TOO_LONG,
        Refusal::WrongVersion => flags::WRONG_VERSION,
        Refusal::NotOurs => flags::NOT_OURS,
        Refusal::WrongDirection => flags::WRONG_DIRECTION,
        Refusal::NotFull => flags::NOT_FULL,
        Refusal::CheckWrong => flags::CHECK_WRONG,
        Refusal::NoAssembly => flags::NO_ASSEMBLY,
        Refusal::OutOfSequence => flags::OUT_OF_SEQUENCE,
        _ => 0,
    }
}

// A refusal changes nothing but its flag.
#[tactic(auto, unfolding(machine::specs::Receive::refused))]
pub fn flagged(endpoint: &mut Endpoint, refusal: Refusal) -> Refusal
    ensures { (a b : List ℕ) → outcome (number result) (world endpoint.new a b) ≡ Receive.refused (world endpoint.old a b) (number refusal) }
{
    endpoint.flags |= flag_of(refusal);
    refusal
}

// The refusals with a flag, by number.
const TOO_LONG: u8 = Refusal::TooLong as u8;

const WRONG_VERSION: u8 = Refusal::WrongVersion as u8;

const NOT_OURS: u8 = Refusal::NotOurs as u8;

const WRONG_DIRECTION: u8 = Refusal::WrongDirection as u8;

const NOT_FULL: u8 = Refusal::NotFull as u8;

const CHECK_WRONG: u8 = Refusal::CheckWrong as u8;

const NO_ASSEMBLY: u8 = Refusal::NoAssembly as u8;

const OUT_OF_SEQUENCE: u8 = Refusal::OutOfSequence as u8;

// The flag of `flag_of` by a number, any number: one that is not of such a refusal has none.
#[tactic(auto, unfolding(machine::specs::Receive::flag_of))]
fn flag_by(n: u8) -> u16
    ensures { result ≡ flag_of n }
{
    match n {
        TOO_LONG => flag_of(Refusal::TooLong),
        WRONG_VERSION => flag_of(Refusal::WrongVersion),
        NOT_OURS => flag_of(Refusal::NotOurs),
        WRONG_DIRECTION => flag_of(Refusal::WrongDirection),
        NOT_FULL => flag_of(Refusal::NotFull),
        CHECK_WRONG => flag_of(Refusal::CheckWrong),
        NO_ASSEMBLY => flag_of(Refusal::NoAssembly),
        OUT_OF_SEQUENCE => flag_of(Refusal::OutOfSequence),
        _ => 0,
    }
}

// What a refusal leaves, by its number, which may be any: `flagged` is given a refusal, and a number has more values.
#[tactic(auto, unfolding(machine::specs::Receive::refused))]
pub fn refused(endpoint: &mut Endpoint, n: u8) -> u8
    ensures { (a b : List ℕ) → outcome result (world endpoint.new a b) ≡ Receive.refused (world endpoint.old a b) n }
{
    endpoint.flags |= flag_by(n);
    n
}

// 20: the flag is the slot's own.
#[tactic(auto, unfolding(machine::specs::Receive::refused_busy))]
pub fn refused_busy(endpoint: &mut Endpoint, slot: SlotNumber) -> Refusal
    ensures { (a b : List ℕ) → outcome (number result) (world endpoint.new a b) ≡ refused_busy (world endpoint.old a b) slot.number }
{
    endpoint.slots[slot.number].busy = true;
    Refusal::NotExpected
}
