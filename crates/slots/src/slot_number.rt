// The number of a slot that there is. What callers give is any number: `try_from` tells one above 1.
ghost use Rattle.std.specs.Prelude.{◌≡◌, ◌<◌, ◌==◌, eqb, if◌then◌else◌};
ghost use Rattle.machine.specs.Poll.{other_slot};

use machine::sizes::Store;
use refusals::Refusal;

#[derive(Clone, Copy)]
pub struct SlotNumber {
    pub number: usize,
    ghost is_slot: { number < 2 },
}

impl TryFrom<usize> for SlotNumber {
    type Error = Refusal;

    ghost use Rattle.slots.specs.Numbers.{NamesSlot};

    ghost try_from_gives = { NamesSlot };

    fn try_from(number: usize) -> Result<SlotNumber, Refusal> {
        if number > 1 {
            return Err(Refusal::NoSuchSlot);
        }
        Ok(SlotNumber { number })
    }
}

impl SlotNumber {
    // The other slot.
    pub fn other(self) -> SlotNumber
        ensures { result.number ≡ other_slot self.number }
    {
        SlotNumber {
            number: 1 - self.number,
        }
    }

    // The slot's store.
    pub fn store_of<'a>(self, store0: &'a Store, store1: &'a Store) -> &'a Store
        ensures { result.now ≡ (if self.number == 0 then store0.now else store1.now) }
    {
        if self.number == 0 { store0 } else { store1 }
    }
}

// `SlotNumber::other` of any number, for who has no slot's number: 0 is slot 0, and every other number is taken for slot 1.
pub fn other_slot(i: usize) -> usize
    ensures { result ≡ other_slot i }
{
    if i == 0 { 1 } else { 0 }
}

// `SlotNumber::store_of` of any number and of stores of any length: of 0 the first, of every other number the second.
pub fn store_of<'a>(store0: &'a [u8], store1: &'a [u8], i: usize) -> &'a [u8]
    ensures { result.now ≡ (if eqb i 0 then store0.now else store1.now) }
{
    if i == 0 { store0 } else { store1 }
}
