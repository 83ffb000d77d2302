// NVMe-MI messages: the header's fields, the integrity check, the tests of a whole message, responses.
#![tactic(auto)]

ghost use Rattle.std.specs.Prelude.{◌≡◌, ◌++◌, ◌+◌, ◌≤◌, length, take, drop, IfOk};
ghost use Rattle.nvme_mi.specs.Message.{message_header, kind_number, NamesKind, shortest, opcode_number, NamesOpcode, command_fault, control_fault, fault_in};
ghost use Rattle.nvme_mi.specs.Check.{check_right, word_at, with_check};
ghost use Rattle.nvme_mi.specs.Response.{response, failure_body, fault_body, success_body};

// The fields of bytes 1 and 2 of a message. CSI is the command slot.
#[derive(Clone, Copy)]
pub struct MessageHeader {
    pub ror: bool,
    pub nmimt: u8,
    pub csi: u8,
    pub meb: bool,
    pub ciap: bool,
}

// What is wrong with a whole message: an opcode that is none, a parameter, by its byte and bit, or a size.
#[derive(Clone, Copy, Debug, PartialEq, Eq)]
pub enum Fault {
    InvalidOpcode,
    Parameter(u8, u8),
    InvalidSize,
}

// The kinds of command by NMIMT. Other numbers name none.
#[derive(Clone, Copy, Debug, PartialEq, Eq)]
pub enum Kind {
    Mi = 1,
    Admin = 2,
    Pcie = 4,
}

// Control primitives by opcode. There is none above Replay.
#[derive(Clone, Copy, Debug, PartialEq, Eq)]
pub enum Opcode {
    Pause = 0,
    Resume = 1,
    Abort = 2,
    GetState = 3,
    Replay = 4,
}

// Status codes of a response.
enum Status {
    Success = 0x00,
    InvalidOpcode = 0x03,
    InvalidParameter = 0x04,
    InvalidSize = 0x05,
}

// Byte 0 of a message: IC 1, message type 4.
pub const MESSAGE_TYPE: u8 = 0x84;

// The bytes in front of a message's body, and those of its check.
const HEADER_SIZE: usize = 4;

const CHECK_SIZE: usize = 4;

// The shortest message: header and check.
pub const SMALLEST: usize = HEADER_SIZE + CHECK_SIZE;

// A control request or reply, header to check.
pub const CONTROL_SIZE: usize = 12;

// NMIMT of control primitives and their replies. It is a number and no `Kind`: as the kind of a command it is unknown (`command_fault`).
pub const CONTROL: u8 = 0;

// The shortest command of each kind, with its check.
const SHORTEST_MI: usize = 20;

const SHORTEST_ADMIN: usize = 72;

const SHORTEST_PCIE: usize = 24;

// Reads the header of a message.
pub fn read_message_header(message: &[u8]) -> MessageHeader
    requires { 3 ≤ length message.now }
    ensures { result ≡ message_header message.now }
{
    let b1 = message[1];
    let b2 = message[2];
    MessageHeader {
        ror: b1 / 128 % 2 == 1,
        nmimt: b1 / 8 % 16,
        csi: b1 % 2,
        meb: b2 % 2 == 1,
        ciap: b2 / 2 % 2 == 1,
    }
}

impl TryFrom<u8> for Kind {
    type Error = Fault;

    ghost try_from_gives = { NamesKind };

    fn try_from(nmimt: u8) -> Result<Kind, Fault> {
        match nmimt {
            1 => Ok(Kind::Mi),
            2 => Ok(Kind::Admin),
            4 => Ok(Kind::Pcie),
            _ => Err(Fault::Parameter(1, 3)),
        }
    }
}

impl Kind {
    // The bytes of the shortest command of this kind, with its check.
    fn shortest(self) -> usize
        ensures { result ≡ shortest (kind_number self) }
    {
        match self {
            Kind::Mi => SHORTEST_MI,
            Kind::Admin => SHORTEST_ADMIN,
            Kind::Pcie => SHORTEST_PCIE,
        }
    }
}

impl TryFrom<u8> for Opcode {
    type Error = Fault;

    ghost try_from_gives = { NamesOpcode };

    fn try_from(opcode: u8) -> Result<Opcode, Fault> {
        match opcode {
            0 => Ok(Opcode::Pause),
            1 => Ok(Opcode::Resume),
            2 => Ok(Opcode::Abort),
            3 => Ok(Opcode::GetState),
            4 => Ok(Opcode::Replay),
            _ => Err(Fault::InvalidOpcode),
        }
    }
}

// The tests of a command of n bytes, at its entry into Process.
#[tactic(auto, unfolding(crate::specs::Message::command_fault))]
pub fn check_command(header: MessageHeader, n: usize) -> Result<(), Fault>
    ensures { result ≡ command_fault header n }
{
    let kind = Kind::try_from(header.nmimt)?;
    if header.meb {
        return Err(Fault::Parameter(2, 0));
    }
    if n < kind.shortest() {
        return Err(Fault::InvalidSize);
    }
    Ok(())
}

// The tests of a control primitive with this opcode, and whether its CPSP is 0: a Replay takes no other.
#[tactic(auto, unfolding(crate::specs::Message::control_fault))]
pub fn check_control(header: MessageHeader, opcode: u8, no_parameter: bool) -> Result<Opcode, Fault>
    ensures fault { fault_in result ≡ control_fault header opcode no_parameter }
    ensures opcode { IfOk result (λ o. opcode_number o ≡ opcode) }
{
    if header.meb {
        return Err(Fault::Parameter(2, 0));
    }
    if header.ciap {
        return Err(Fault::Parameter(2, 1));
    }
    let opcode = Opcode::try_from(opcode)?;
    if opcode == Opcode::Replay && !no_parameter {
        return Err(Fault::Parameter(6, 0));
    }
    Ok(opcode)
}

// The four bytes at n as a number, low byte first.
fn word_at(s: &[u8], n: usize) -> u32
    requires { n + 4 ≤ length s.now }
    ensures { result ≡ word_at s.now n }
{
    u32::from_le_bytes([s[n], s[n + 1], s[n + 2], s[n + 3]])
}

// The last four bytes of a message are the check of all before them.
#[tactic(auto, unfolding(crate::specs::Check::check_right))]
pub fn check_right(message: &[u8]) -> bool
    ensures { result ≡ check_right message.now }
{
    if message.len() < CHECK_SIZE {
        return false;
    }
    let n = message.len() - CHECK_SIZE;
    word_at(message, n) == crc32c::crc32c(&message[..n])
}

// Writes the check of the first n bytes of a store behind them, low byte first.
#[tactic(auto, unfolding(crate::specs::Check::with_check))]
pub fn write_check(store: &mut [u8], n: usize)
    requires { n + 4 ≤ length store.old }
    ensures { store.new ≡ with_check (take n store.old) ++ drop (n + 4) store.old }
{
    let check = crc32c::crc32c(&store[..n]);
    lent::put(store, n, &check.to_le_bytes());
}

// Writes a response with this body to the front of a store: header, body, check. Bytes behind it stay.
pub fn write_response(store: &mut [u8], nmimt: u8, csi: u8, body: &[u8])
    requires { length body.now + 8 ≤ length store.old }
    ensures { store.new ≡ response nmimt csi body.now ++ drop (length body.now + 8) store.old }
{
    store[0] = MESSAGE_TYPE;
    store[1] = 128 + nmimt % 16 * 8 + csi % 2;
    store[2] = 0;
    store[3] = 0;
    lent::put(store, HEADER_SIZE, body);
    write_check(store, body.len() + HEADER_SIZE);
}

// The four body bytes of an error that names no place, whatever its status.
pub fn failure_body(status: u8) -> [u8; 4]
    ensures { result ≡ failure_body status }
{
    [status, 0, 0, 0]
}

// The four body bytes of the response to what was tested: an error's, or success.
pub fn fault_body(tested: Result<(), Fault>) -> [u8; 4]
    ensures { result ≡ fault_body tested }
{
    match tested {
        Ok(()) => [Status::Success as u8, 0, 0, 0],
        Err(Fault::InvalidOpcode) => failure_body(Status::InvalidOpcode as u8),
        Err(Fault::Parameter(byte, bit)) => [Status::InvalidParameter as u8, bit, byte, 0],
        Err(Fault::InvalidSize) => failure_body(Status::InvalidSize as u8),
    }
}

// The four body bytes of a control primitive's success reply.
pub fn success_body(tag: u8, cpsr: u16) -> [u8; 4]
    ensures { result ≡ success_body tag cpsr }
{
    let [low, high] = cpsr.to_le_bytes();
    [Status::Success as u8, tag, low, high]
}

// A control reply of twelve bytes: NMIMT 0, the request's slot, a body of four bytes.
pub fn control_reply(csi: u8, body: [u8; 4]) -> [u8; CONTROL_SIZE]
    ensures { result ≡ response 0 csi body }
{
    let mut reply = [0u8; CONTROL_SIZE];
    write_response(&mut reply, CONTROL, csi, &body);
    reply
}
