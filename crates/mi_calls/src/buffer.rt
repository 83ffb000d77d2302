// A buffer that a record asks for, and the words of what a call has written there.
ghost use Rattle.std.specs.Prelude.{◌≡◌, ◌≤◌, length};

use crate::line::{field, hex, number};
use std::io;

// The longest buffer that a record can ask for, and what each of its bytes is before the call.
const LONGEST_BUFFER: usize = 65535;

const BLANK: u8 = 0xA5;

// A buffer for every call, blank. The contract gives only its length, which lending a part of it needs.
pub(crate) fn blank_buffer() -> [u8; LONGEST_BUFFER]
    ensures { 65535 ≡ length result }
{
    [BLANK; LONGEST_BUFFER]
}

// Whether these bytes are as they were before the call.
fn blank_words(rt: &impl Print, bytes: &[u8]) -> io::Result<()> {
    if bytes.iter().all(|byte| *byte == BLANK) {
        print!(rt; " stays")
    } else {
        print!(rt; " touched")
    }
}

// The answer beside which nothing was written, and whether the bytes are as they were.
pub(crate) fn unwritten_words(rt: &impl Print, answer: u8, buffer: &[u8]) -> io::Result<()> {
    number(rt, answer)?;
    blank_words(rt, buffer)
}

// The answer beside which n bytes were written: `ANSWER LENGTH BYTES`, and whether the bytes behind them stay.
pub(crate) fn written_words(rt: &impl Print, answer: u8, buffer: &[u8], n: usize) -> io::Result<()>
    requires { n ≤ length buffer.now }
{
    number(rt, answer)?;
    field(rt, " ", n)?;
    print!(rt; " ")?;
    hex(rt, &buffer[..n])?;
    blank_words(rt, &buffer[n..])
}
