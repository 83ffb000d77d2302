// Numbers of a record, low byte first. `half` and `word` stay two functions: their types are two, and a generic one would need a trait over
// `from_le_bytes` that says no more than these two lines.
ghost use Rattle.std.specs.Prelude.{◌+◌, ◌≤◌, length};

use machine::sizes::LEAST_UNIT;

// The number of two bytes.
pub(crate) fn half(bytes: &[u8], at: usize) -> u16
    requires { at + 2 ≤ length bytes.now }
{
    u16::from_le_bytes([bytes[at], bytes[at + 1]])
}

// The number of four bytes.
pub(crate) fn word(bytes: &[u8], at: usize) -> u32
    requires { at + 4 ≤ length bytes.now }
{
    u32::from_le_bytes([bytes[at], bytes[at + 1], bytes[at + 2], bytes[at + 3]])
}

// The unit of a setup, behind the EID; without one it is 64.
pub(crate) fn unit_of(setup: &[u8]) -> usize {
    match setup {
        [_, low, high, ..] => usize::from(u16::from_le_bytes([*low, *high])),
        _ => LEAST_UNIT,
    }
}
