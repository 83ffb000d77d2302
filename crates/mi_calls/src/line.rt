// Words that the lines of several calls have. Each word, number and byte is a write of its own: where one is refused, all before it is out.
use std::fmt::Display;
use std::io;

// The answer of a call, with which its line begins.
pub(crate) fn number(rt: &impl Print, n: u8) -> io::Result<()> {
    print!(rt; "{n}")
}

// A word, and a number behind it.
pub(crate) fn field(rt: &impl Print, word: &str, n: impl Display + Drop) -> io::Result<()> {
    print!(rt; "{word}")?;
    print!(rt; "{n}")
}

// Bytes in hex, `-` where there are none.
pub(crate) fn hex(rt: &impl Print, bytes: &[u8]) -> io::Result<()> {
    if bytes.is_empty() {
        return print!(rt; "-");
    }
    for byte in bytes {
        print!(rt; "{byte:02x}")?;
    }
    Ok(())
}
