// Which slot gathers under a source and a message tag, and how an assembly ends.
#![tactic(auto)]

ghost use Rattle.std.specs.Prelude.{◌≡◌};
ghost use Rattle.slots.specs.Numbers.{at_number};
ghost use Rattle.machine.specs.State.{slot_at, with_slot, with_phase};
ghost use Rattle.machine.specs.declared.Phase.{Phase};
ghost use Rattle.machine.specs.Receive;
ghost use Rattle.machine.specs.Receive.{is_from, ended_slot, end_assembly, holder_in};

use machine::{Assembly, Endpoint, Phase, Slot};
use slots::{SlotNumber, idle};

// Assemblies are told apart by source and tag. These are two arguments throughout, as in the definitions: the records that have them name them apart.
fn is_from(source: u8, tag: u8, assembly: Assembly) -> bool
    ensures { result ≡ is_from source tag assembly }
{
    assembly.source == source && assembly.tag == tag
}

// A slot that gathers under this source and tag goes to Idle.
fn end_in(slot: &mut Slot, source: u8, tag: u8)
    ensures { slot.new ≡ ended_slot source tag slot.old }
{
    if matches!(slot.phase, Phase::Receive(assembly) if is_from(source, tag, assembly)) {
        idle(slot);
    }
}

// An assembly with this source and tag, in either slot, ends. There are two calls, as in `slots::pause`.
#[tactic(auto, unfolding(machine::specs::Receive::end_assembly))]
pub fn end_assembly(endpoint: &mut Endpoint, source: u8, tag: u8)
    ensures { endpoint.new ≡ end_assembly endpoint.old source tag }
{
    end_in(&mut endpoint.slots[0], source, tag);
    end_in(&mut endpoint.slots[1], source, tag);
}

// A slot in this phase, with what it gathers under this source and tag.
fn found_in(phase: Phase, slot: SlotNumber, source: u8, tag: u8) -> Option<(SlotNumber, Assembly)>
    ensures { at_number result ≡ holder_in source tag slot.number phase None }
{
    match phase {
        Phase::Receive(assembly) if is_from(source, tag, assembly) => Some((slot, assembly)),
        _ => None,
    }
}

// The slot in Receive with this source and tag.
#[tactic(auto, unfolding(machine::specs::Receive::holder))]
pub fn holder(endpoint: &Endpoint, source: u8, tag: u8) -> Option<(SlotNumber, Assembly)>
    ensures { at_number result ≡ Receive.holder endpoint.now source tag }
{
    let first = SlotNumber { number: 0 };
    let second = SlotNumber { number: 1 };
    let in_first = found_in(endpoint.slots[0].phase, first, source, tag);
    in_first.or(found_in(endpoint.slots[1].phase, second, source, tag))
}

// The slot is in Receive with this assembly.
pub fn gathering_on(endpoint: &mut Endpoint, slot: SlotNumber, assembly: Assembly)
    ensures { endpoint.new ≡ with_slot endpoint.old slot.number (with_phase (slot_at endpoint.old slot.number) (Phase.Receive assembly)) }
{
    endpoint.slots[slot.number].phase = Phase::Receive(assembly);
}
