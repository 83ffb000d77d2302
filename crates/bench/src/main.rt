// Prints what no script of calls can show: the published CRC-32C values, and a ticket count that goes back to 0.
#![tactic(auto)]

use machine::sizes::{LEAST_UNIT, STORE_SIZE};
use machine::{Phase, Slot, Ticket, ValidEndpoint};
use refusals::Refusal;

// The last ticket before the count goes back to 0.
const LAST_TICKET: u32 = u32::MAX;

// An MI command of 20 bytes for slot 0, from EID 9 to EID 8 under tag 1.
const COMMAND: [u8; 24] = *b"\x01\x08\x09\xc9\x84\x08\0\0\0\0\0\0\0\0\0\0\0\0\0\0\xe2\x00\x06\x07";

// A vector's name and check, each by a write of its own; one that fails is let go.
fn vector(rt: &impl Print, name: &str, bytes: &[u8]) {
    let check = crc32c::crc32c(bytes);
    let _ = print!(rt; "crc32c ");
    let _ = print!(rt; "{name}");
    let _ = println!(rt; " {check:08x}");
}

// The last is the SCSI Read(10) command of RFC 3720, B.4.
fn vectors(rt: &impl Print) {
    let zeros = [0u8; 32];
    let ones = [255u8; 32];
    vector(rt, "digits", b"123456789");
    vector(rt, "zeros", &zeros);
    vector(rt, "ones", &ones);
    vector(
        rt,
        "rising",
        b"\x00\x01\x02\x03\x04\x05\x06\x07\x08\x09\x0a\x0b\x0c\x0d\x0e\x0f\x10\x11\x12\x13\x14\x15\x16\x17\x18\x19\x1a\x1b\x1c\x1d\x1e\x1f",
    );
    vector(
        rt,
        "falling",
        b"\x1f\x1e\x1d\x1c\x1b\x1a\x19\x18\x17\x16\x15\x14\x13\x12\x11\x10\x0f\x0e\x0d\x0c\x0b\x0a\x09\x08\x07\x06\x05\x04\x03\x02\x01\x00",
    );
    vector(
        rt,
        "iscsi",
        b"\x01\xc0\0\0\0\0\0\0\0\0\0\0\0\0\0\0\x14\0\0\0\0\0\x04\0\0\0\0\x14\0\0\0\x18\x28\0\0\0\0\0\0\0\x02\0\0\0\0\0\0\0",
    );
}

// A new endpoint, but for slot 0's ticket count.
fn before_wrap() -> ValidEndpoint {
    let done = endpoint::setup(8, LEAST_UNIT);
    let mut endpoint = done.endpoint;
    endpoint.state.slots[0] = Slot {
        ticket: Ticket(LAST_TICKET),
        paused: false,
        busy: false,
        phase: Phase::Idle(None),
    };
    endpoint
}

// The ticket of the command behind that count.
fn wrapped(store0: &mut [u8], store1: &mut [u8]) -> Result<Ticket, Refusal> {
    let mut endpoint = before_wrap();
    endpoint::receive(&mut endpoint, store0, store1, &COMMAND)?;
    endpoint::take(&mut endpoint, 0)
}

fn main(rt: HostRuntime) {
    let mut store0 = [0u8; STORE_SIZE];
    let mut store1 = [0u8; STORE_SIZE];
    vectors(&rt);
    let _ = match wrapped(&mut store0, &mut store1) {
        Ok(ticket) => println!(rt; "ticket after {LAST_TICKET}: {}", ticket.0),
        Err(refusal) => println!(rt; "refused: {}", refusal.number()),
    };
}
