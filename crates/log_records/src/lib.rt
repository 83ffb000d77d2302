// The bytes of a log: a record's head, and the line that answers a record.
#![tactic(auto)]

ghost use Rattle.std.specs.Prelude.{◌≡◌, [], ◌∷◌, ◌++◌, ◌+◌, ◌*◌, ◌≤◌, ◌<◌, length};
ghost use Rattle.lent.specs.Bytes;
ghost use Rattle.log_records.specs.Records;
ghost use Rattle.log_records.specs.Records.{packet_room, line_room, tag_of, is_record, headed, hex_digit, number_line, packet_line};

use arrayvec::ArrayVec;

// The longest record's bytes, without tag and length.
const LONGEST: usize = 4300;

// Tag and length.
pub const HEAD_SIZE: usize = 3;

// The log program's own unit. A packet has four bytes before its payload.
pub const UNIT: usize = 64;

pub const PACKET_ROOM: usize = UNIT + 4;

// Room for every line: that of the longest packet.
pub const LINE_ROOM: usize = 2 * PACKET_ROOM + 3;

// A line that is printed.
pub type Line = ArrayVec<u8, LINE_ROOM>;

// Bytes that are no record.
#[derive(Clone, Copy, Debug, PartialEq, Eq)]
pub struct BadRecord;

// What a record asks for.
#[derive(Clone, Copy, Debug, PartialEq, Eq)]
pub enum Tag {
    Packet = 1,
    Poll = 2,
    Timeout = 3,
    Take = 4,
    Complete = 5,
    Reset = 6,
}

// The head of a whole record: its tag, and how many bytes follow.
#[derive(Clone, Copy, Debug, PartialEq, Eq)]
pub struct Head {
    pub tag: Tag,
    pub size: usize,
}

impl TryFrom<u8> for Tag {
    type Error = BadRecord;

    ghost try_from_gives = { λ number answer. answer ≡ tag_of number };

    #[tactic(auto, unfolding(crate::specs::Records::tag_of))]
    fn try_from(number: u8) -> Result<Tag, BadRecord> {
        match number {
            1 => Ok(Tag::Packet),
            2 => Ok(Tag::Poll),
            3 => Ok(Tag::Timeout),
            4 => Ok(Tag::Take),
            5 => Ok(Tag::Complete),
            6 => Ok(Tag::Reset),
            _ => Err(BadRecord),
        }
    }
}

impl Tag {
    // A record with this tag may have so many bytes.
    fn is_record(self, size: usize) -> bool
        ensures { result ≡ is_record self size }
    {
        match self {
            Tag::Packet => size <= LONGEST,
            Tag::Poll | Tag::Reset => size == 0,
            Tag::Timeout | Tag::Take => size == 1,
            Tag::Complete => size >= 1 && size <= LONGEST,
        }
    }
}

// Reads the head of the record at the front of the unread bytes. None: bytes are missing.
#[tactic(auto, unfolding(crate::specs::Records::headed))]
pub fn read_head(bytes: &[u8]) -> Result<Option<Head>, BadRecord>
    ensures { result ≡ headed bytes.now }
{
    let &[tag, low, high, ..] = bytes else {
        return Ok(None);
    };
    let tag = Tag::try_from(tag)?;
    let size = usize::from(u16::from_le_bytes([low, high]));
    if !tag.is_record(size) {
        return Err(BadRecord);
    }
    if bytes.len() < HEAD_SIZE + size {
        return Ok(None);
    }
    Ok(Some(Head { tag, size }))
}

// Writes a number in decimal and a newline over what the line held. The digits are written here: the kit's `itoa` and `hex` need no heap either, but
// the texts that they promise are not the `decimal` and `hex` of specs/Records, so a lemma would have to stand beside each.
pub fn number_line(line: &mut Line, n: u8)
    ensures { line.new.items ≡ number_line n }
{
    line.clear();
    if n >= 100 {
        line.push(b'0' + n / 100);
    }
    if n >= 10 {
        line.push(b'0' + n / 10 % 10);
    }
    line.push(b'0' + n % 10);
    line.push(b'\n');
}

fn hex_digit(d: u8) -> u8
    requires { d < 16 }
    ensures { result ≡ hex_digit d }
{
    if d < 10 { b'0' + d } else { b'a' + (d - 10) }
}

// Appends all bytes in hex.
fn hex(line: &mut Line, bytes: &[u8])
    requires { length line.old.items + 2 * length bytes.now ≤ Records.line_room }
    ensures items { line.new.items ≡ line.old.items ++ Records.hex bytes.now }
    ensures len { length line.new.items ≡ length line.old.items + 2 * length bytes.now }
{
    for &byte in bytes {
        let (high, low) = (byte / 16, byte % 16);
        line.push(hex_digit(high));
        line.push(hex_digit(low));
    }
}

// Writes the line of a poll that sends, 1 and the packet, over what the line held.
pub fn packet_line(line: &mut Line, packet: &[u8])
    requires { length packet.now ≤ packet_room }
    ensures { line.new.items ≡ packet_line 1 packet.now }
{
    line.clear();
    line.push(b'1');
    line.push(b' ');
    hex(line, packet);
    line.push(b'\n');
}

// Copies a line to the front of a lent buffer, which may be longer, and returns the line's length. The bytes behind it stay. It and the two below are
// for a buffer that is a caller's own: a `Line` has a fixed room and can't be a part of one.
pub fn put_line(buffer: &mut [u8], line: &Line) -> usize
    requires { line_room ≤ length buffer.old }
    ensures value { (result ≡ length line.now.items) × (result ≤ line_room) }
    ensures line_after { buffer.new ≡ Bytes.put buffer.old 0 line.now.items }
{
    lent::put(buffer, 0, line.as_slice());
    line.len()
}

// Writes the line of `number_line` to the front of a lent buffer, and returns its length. The bytes behind it stay.
pub fn number_line_to_slice(line: &mut [u8], n: u8) -> usize
    requires { line_room ≤ length line.old }
    ensures value { (result ≡ length (number_line n)) × (result ≤ line_room) }
    ensures line_after { line.new ≡ Bytes.put line.old 0 (number_line n) }
{
    let mut text = Line::new();
    number_line(&mut text, n);
    put_line(line, &text)
}

// Writes the line of `packet_line` to the front of a lent buffer, and returns its length. The bytes behind it stay.
pub fn packet_line_to_slice(line: &mut [u8], packet: &[u8]) -> usize
    requires { (line_room ≤ length line.old) × (length packet.now ≤ packet_room) }
    ensures value { (result ≡ length (packet_line 1 packet.now)) × (result ≤ line_room) }
    ensures line_after { line.new ≡ Bytes.put line.old 0 (packet_line 1 packet.now) }
{
    let mut text = Line::new();
    packet_line(&mut text, packet);
    put_line(line, &text)
}
