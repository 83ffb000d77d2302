// The requester receives one packet, as the endpoint does with TO and ROR turned round: the header, then the first packet of a message or a later one.
// Its steps have the names of the endpoint's and are functions of their own: each is proved equal to this end's definition, over a state without slots.
// Inside a call the state is open, so that the invariant is a clause of them.
#![tactic(auto)]

ghost use Rattle.std.specs.Prelude.{◌≡◌, List, ℕ, ◌+◌, ◌≤◌, length, take, Ok};
ghost use Rattle.refusals.specs.Refusals.{numbered};
ghost use Rattle.mctp.specs.Header.{payload_of};
ghost use Rattle.opening.specs.Opening.{joined_in};
ghost use Rattle.machine.specs.Wire.{store_size};
ghost use Rattle.controller.specs.State;
ghost use Rattle.controller.specs.State.{side, outcome, Valid};
ghost use Rattle.controller.specs.Receive;
ghost use Rattle.controller.specs.Receive.{receive_says, received};
ghost use Rattle.controller.specs.Grounds.{receive_numbers};

use controller::{Awaiting, Gathered, Key, Requester, ValidRequester};
use machine::Assembly;
use machine::sizes::{STORE_SIZE, Store};
use mctp::Header;
use opening::{First, Joined};
use refusals::Refusal;

// Whether this source and tag are awaited.
fn awaits(source: u8, tag: u8, awaiting: Awaiting) -> bool
    ensures { result ≡ State.awaits source tag awaiting }
{
    let (from, under) = match awaiting {
        Awaiting::Nothing => return false,
        Awaiting::Awaited(key) => (key.source, key.tag),
        Awaiting::Gathering(assembly) => (assembly.source, assembly.tag),
    };
    from == source && under == tag
}

// The assembly ends, and the awaiting stays.
fn drop_assembly(requester: &mut Requester)
    ensures { requester.new ≡ State.requester requester.old.eid requester.old.unit (State.unassembled requester.old.awaiting) }
{
    if let Awaiting::Gathering(assembly) = requester.awaiting {
        requester.awaiting = Awaiting::Awaited(Key {
            source: assembly.source,
            tag: assembly.tag,
        });
    }
}

// A packet with SOM ends an assembly of its source and tag.
fn restart(requester: &mut Requester, source: u8, tag: u8)
    ensures leaves { (store : List ℕ) → side requester.new store ≡ Receive.restarted source tag (side requester.old store) }
    ensures unit_same { requester.new.unit ≡ requester.old.unit }
{
    if awaits(source, tag, requester.awaiting) {
        drop_assembly(requester);
    }
}

// The assembly with this packet, whose bytes are in the store: more to come, refused for its check, or whole.
// The requester and its store are two parameters, here and below: with both loans in one struct its caller's proof of what they point to afterwards
// didn't close.
fn land(
    requester: &mut Requester,
    store: &Store,
    assembly: Assembly,
    eom: bool,
) -> Result<Gathered, Refusal>
    requires { assembly.length ≤ store_size }
    ensures { outcome (numbered result) (side requester.new store.now) ≡ Receive.landed (side requester.old store.now) assembly (joined_in (take assembly.length store.now) eom) }
{
    match opening::joined_in(&store[..assembly.length], eom) {
        Joined::More => {
            requester.awaiting = Awaiting::Gathering(assembly);
            Ok(Gathered::More)
        }
        Joined::Wrong => {
            drop_assembly(requester);
            Err(Refusal::CheckWrong)
        }
        Joined::Whole => {
            requester.awaiting = Awaiting::Nothing;
            Ok(Gathered::Response(assembly.length))
        }
    }
}

// A response's packet that is not refused: its payload goes behind the bytes so far.
#[tactic(auto, unfolding(controller::specs::Receive::gathered))]
fn gather(
    requester: &mut Requester,
    store: &mut Store,
    at: usize,
    header: Header,
    payload: &[u8],
) -> Result<Gathered, Refusal>
    requires { at + length payload.now ≤ store_size }
    ensures { outcome (numbered result) (side requester.new store.new) ≡ Receive.gathered (side requester.old store.old) at header payload.now }
{
    lent::put(store, at, payload);
    let assembly = Assembly::with(header, at + payload.len());
    land(requester, store, assembly, header.eom)
}

// A control reply, which is stored at the front.
fn store_reply(
    requester: &mut Requester,
    store: &mut Store,
    message: &[u8],
) -> Result<Gathered, Refusal>
    requires { length message.now ≤ store_size }
    ensures { outcome (numbered result) (side requester.new store.new) ≡ Receive.replied (side requester.old store.old) message.now }
{
    lent::put(store, 0, message);
    requester.awaiting = Awaiting::Nothing;
    Ok(Gathered::Control(message.len()))
}

// SOM 1. An assembly with this source and tag has ended.
#[tactic(auto, unfolding(controller::specs::Receive::first))]
fn first(
    requester: &mut Requester,
    store: &mut Store,
    header: Header,
    message: &[u8],
) -> Result<Gathered, Refusal>
    requires { (1 ≤ length message.now) × (length message.now ≤ store_size) × (8 ≤ requester.old.unit) }
    ensures { outcome (numbered result) (side requester.new store.new) ≡ Receive.first (side requester.old store.old) header message.now }
{
    let opened = opening::opened(requester.unit, true, header, message)?;
    if !awaits(header.source, header.tag, requester.awaiting) {
        return Err(Refusal::NotExpected);
    }
    match opened {
        First::Control => store_reply(requester, store, message),
        First::Command => gather(requester, store, 0, header, message),
    }
}

// SOM 0.
#[tactic(auto, using(mctp::proofs::Laws::joins), unfolding(controller::specs::Receive::later, controller::specs::Receive::later_at))]
fn later(
    requester: &mut Requester,
    store: &mut Store,
    header: Header,
    payload: &[u8],
) -> Result<Gathered, Refusal>
    requires { Valid requester.old }
    ensures { outcome (numbered result) (side requester.new store.new) ≡ Receive.later (side requester.old store.old) header payload.now }
{
    let Awaiting::Gathering(assembly) = requester.awaiting else {
        return Err(Refusal::NoAssembly);
    };
    if assembly.source != header.source || assembly.tag != header.tag {
        return Err(Refusal::NoAssembly);
    }
    if let Err(refusal) = mctp::check_join(
        requester.unit,
        STORE_SIZE,
        assembly.sequence,
        assembly.length,
        header,
        payload.len(),
    ) {
        drop_assembly(requester);
        return Err(refusal);
    }
    gather(requester, store, assembly.length, header, payload)
}

// A packet whose header is read: the first of a message, or a later one.
#[tactic(auto, using(lent::proofs::Stores::rest))]
fn take_in(
    requester: &mut Requester,
    store: &mut Store,
    header: Header,
    packet: &[u8],
) -> Result<Gathered, Refusal>
    requires { Valid requester.old × (5 ≤ length packet.now) × (length packet.now ≤ requester.old.unit + 4) }
    ensures { outcome (numbered result) (side requester.new store.new) ≡ Receive.received_by (side requester.old store.old) (payload_of packet.now) (Ok header) }
{
    let payload = &packet[mctp::HEADER_SIZE..];
    if header.som {
        restart(requester, header.source, header.tag);
        first(requester, store, header, payload)
    } else {
        later(requester, store, header, payload)
    }
}

// Receives one packet. 40 a store of another length; 10 to 23 a refusal; more to come; or a response or a control reply, with its length.
#[tactic(auto, unfolding(controller::specs::Receive::received))]
pub fn receive(
    requester: &mut ValidRequester,
    store: &mut [u8],
    packet: &[u8],
) -> Result<Gathered, Refusal>
    ensures leaves { outcome (numbered result) (side requester.new store.new) ≡ received (side requester.old store.old) packet.now }
    ensures answer_value { receive_says (numbered result) ≡ receive_numbers (side requester.old store.old) packet.now }
{
    let Some(store) = store.as_mut_array::<STORE_SIZE>() else {
        return Err(Refusal::WrongStores);
    };
    // As at the endpoint, the header reader is opened by let else, whose other arm returns the refusal.
    let read = mctp::read_header(requester.state.eid, requester.state.unit, false, packet);
    let Ok(header) = read else {
        return Err(read.unwrap_err());
    };
    take_in(&mut requester.state, store, header, packet)
}
