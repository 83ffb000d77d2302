// MCTP packets (DSP0236): the header read and written, a message cut into packets, packets joined to a message.
// The unit, the largest payload of a packet, and the direction, bit TO, are arguments throughout; what an end is set up with is tested here. The unit
// is a number and no type of its own, since the states of both ends have it as a number in specs/.
#![tactic(auto)]

ghost use Rattle.std.specs.Prelude.{◌≡◌, ◌++◌, min, ◌+◌, ◌-◌, ◌*◌, ◌≤◌, ◌<◌, length, drop};
ghost use Rattle.refusals.specs.Refusals.{numbered, answer_number};
ghost use Rattle.mctp.specs.Setup.{setup_refusal};
ghost use Rattle.mctp.specs.Header.{read_header, read_says, header_numbers, header_bytes};
ghost use Rattle.mctp.specs.Cut.{packets, packet};
ghost use Rattle.mctp.specs.Gather.{is_cut, join_refusal};

use refusals::Refusal;

// The EIDs and the transmission units that an end may have: a unit is the largest payload of a packet.
pub const FIRST_EID: u8 = 8;

pub const LAST_EID: u8 = 254;

pub const LEAST_UNIT: usize = 64;

pub const MOST_UNIT: usize = 250;

// The bytes in front of a packet's payload.
pub const HEADER_SIZE: usize = 4;

// A header and one byte.
const SHORTEST_PACKET: usize = HEADER_SIZE + 1;

// The low four bits of byte 0.
const VERSION: u8 = 1;

// The fields of a packet's header that a receiver uses.
#[derive(Clone, Copy)]
pub struct Header {
    pub source: u8,
    pub som: bool,
    pub eom: bool,
    pub sequence: u8,
    pub tag: u8,
}

// What all packets of a message have in common: destination and source EID, bit TO, message tag.
#[derive(Clone, Copy)]
pub struct Route {
    pub destination: u8,
    pub source: u8,
    pub to: bool,
    pub tag: u8,
}

// What the setup of either end refuses: the EID, or the unit.
#[tactic(auto, unfolding(crate::specs::Setup::setup_refusal))]
pub fn check_setup(eid: u8, unit: usize) -> Result<(), Refusal>
    ensures { answer_number result ≡ setup_refusal eid unit }
{
    if eid < FIRST_EID || eid > LAST_EID {
        return Err(Refusal::WrongEid);
    }
    if unit < LEAST_UNIT || unit > MOST_UNIT {
        return Err(Refusal::WrongUnit);
    }
    Ok(())
}

// Reads the header of a packet for the endpoint `eid`, that carries at most `unit` bytes and whose bit TO is `to`.
#[tactic(auto, unfolding(crate::specs::Header::read_header))]
pub fn read_header(eid: u8, unit: usize, to: bool, packet: &[u8]) -> Result<Header, Refusal>
    ensures value { numbered result ≡ read_header eid unit to packet.now }
    ensures result_value { read_says (numbered result) ≡ header_numbers eid unit to packet.now }
{
    if packet.len() < SHORTEST_PACKET {
        return Err(Refusal::TooShort);
    }
    if packet.len() - HEADER_SIZE > unit {
        return Err(Refusal::TooLong);
    }
    if packet[0] % 16 != VERSION {
        return Err(Refusal::WrongVersion);
    }
    if packet[1] != eid {
        return Err(Refusal::NotOurs);
    }
    let bits = packet[3];
    if (bits / 8 % 2 == 1) != to {
        return Err(Refusal::WrongDirection);
    }
    Ok(Header {
        source: packet[2],
        som: bits / 128 % 2 == 1,
        eom: bits / 64 % 2 == 1,
        sequence: bits / 16 % 4,
        tag: bits % 8,
    })
}

// EOM 0, and the payload of n bytes is not a whole unit.
pub fn is_cut(unit: usize, header: Header, n: usize) -> bool
    ensures { result ≡ is_cut unit header n }
{
    !header.eom && n != unit
}

// Why a later packet with n payload bytes does not join an assembly, whose last packet had this sequence number and of which
// `gathered` bytes are there.
#[tactic(auto, unfolding(crate::specs::Gather::join_refusal))]
pub fn check_join(
    unit: usize,
    limit: usize,
    sequence: u8,
    gathered: usize,
    header: Header,
    n: usize,
) -> Result<(), Refusal>
    requires { gathered ≤ limit }
    ensures { answer_number result ≡ join_refusal unit limit sequence gathered header n }
{
    if header.sequence != (sequence % 4 + 1) % 4 {
        return Err(Refusal::OutOfSequence);
    }
    if is_cut(unit, header, n) {
        return Err(Refusal::NotFull);
    }
    if n > limit - gathered {
        return Err(Refusal::MessageTooLong);
    }
    Ok(())
}

// How many packets a message of n bytes is cut into.
pub fn packet_count(unit: usize, n: usize) -> usize
    requires { 0 < unit }
    ensures { result ≡ packets unit n }
{
    n.div_ceil(unit)
}

// Writes the four bytes of a header to the front of `out`. The bytes behind them stay.
fn write_header(route: Route, som: bool, eom: bool, sequence: usize, out: &mut [u8])
    requires { 4 ≤ length out.old }
    ensures { out.new ≡ header_bytes route.destination route.source som eom sequence route.to route.tag ++ drop 4 out.old }
{
    out[0] = VERSION;
    out[1] = route.destination;
    out[2] = route.source;
    out[3] = u8::from(som) * 128
        + u8::from(eom) * 64
        + (sequence % 4) as u8 * 16
        + u8::from(route.to) * 8
        + route.tag % 8;
}

// Writes packet k of a message to the front of `out`, and returns the packet's length. Bytes behind the packet stay.
pub fn write_packet(unit: usize, route: Route, message: &[u8], k: usize, out: &mut [u8]) -> usize
    requires { (0 < unit) × (unit * k < length message.now) × (4 + min unit (length message.now - unit * k) ≤ length out.old) }
    ensures value { result ≡ length (packet unit route message.now k) }
    ensures out_after { out.new ≡ packet unit route message.now k ++ drop result out.old }
    ensures fits { result ≤ length out.old }
{
    let at = unit * k;
    let left = message.len() - at;
    let n = left.min(unit);
    write_header(route, k == 0, left <= unit, k, out);
    let end = at + n;
    lent::put(out, HEADER_SIZE, &message[at..end]);
    HEADER_SIZE + n
}
