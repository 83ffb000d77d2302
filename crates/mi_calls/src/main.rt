// The calls program: reads records on standard input, each a call of the endpoint or of the requester with all its arguments, and prints a line for
// each. Each line is written before the next record is read, so that a pipe can be used live. The contracts keep the invariants of both ends; what is
// printed is compared with the second program.
#![tactic(auto)]

mod buffer;
mod line;
mod look;
mod record;
mod requester_record;
mod stop;
mod tags;
mod words;

ghost use Rattle.std.specs.Prelude.{◌≡◌, ◌≤◌, length, IfOk};
ghost use Rattle.mi_calls.specs.Sizes.{least_size};

use controller::ValidRequester;
use line::number;
use machine::ValidEndpoint;
use machine::answers::DONE;
use machine::sizes::{LEAST_UNIT, STORE_SIZE};
use record::called;
use requester_record::requester_called;
use std::io::Read;
use stop::{Stop, tell};
use tags::Tag;
use words::half;

// Tag and length.
const HEAD_SIZE: usize = 3;

// The memory of a store, whose front is lent.
const MEMORY: usize = 4300;

// The space of a record's bytes.
const SPACE: usize = 65536;

// The EID of the endpoint and of the requester at the start.
const EID: u8 = 8;

// Reads until the bytes are all there or the input ends, and gives how many there are. The place is counted by hand, since the program has to do what
// it did: std's `read_exact` doesn't say how many bytes there were before the end, and tries a read again that a signal interrupts.
fn filled(stdin: &mut impl Read, buf: &mut [u8]) -> Result<usize, Stop>
    ensures { IfOk result (λ n. n ≤ length buf.new) }
{
    let mut at = 0;
    while at < buf.len() {
        let n = stdin.read(&mut buf[at..]).map_err(|_| Stop::NotRead)?;
        if n == 0 {
            return Ok(at);
        }
        at += n;
    }
    Ok(at)
}

// Reads a record's tag and length.
fn next_head(stdin: &mut impl Read) -> Result<(Tag, usize), Stop>
    ensures { IfOk result (λ head. (least_size head.0 ≤ head.1) × (head.1 ≤ 65535)) }
{
    let mut head = [0u8; HEAD_SIZE];
    let n = filled(stdin, &mut head)?;
    if n == 0 {
        return Err(Stop::InputEnds);
    }
    if n < HEAD_SIZE {
        return Err(Stop::NoRecord);
    }
    let tag = Tag::try_from(head[0])?;
    let size = usize::from(half(&head, 1));
    if tag.is_record(size) {
        Ok((tag, size))
    } else {
        Err(Stop::NoRecord)
    }
}

// Reads a record: its tag, and its bytes.
fn next_record<'a>(
    stdin: &mut impl Read,
    space: &'a mut [u8; SPACE],
) -> Result<(Tag, &'a [u8]), Stop>
    ensures { IfOk result (λ got. least_size got.0 ≤ length got.1.now) }
{
    let (tag, size) = next_head(stdin)?;
    let body = &mut space[..size];
    let n = filled(stdin, body)?;
    if n < size || tag.is_no_mark(body) {
        return Err(Stop::NoRecord);
    }
    Ok((tag, body))
}

// How much of a store's memory is lent, from its front.
#[derive(Clone, Copy)]
struct Lent {
    length: usize,
    ghost in_memory: { length ≤ 4300 },
}

impl Lent {
    // So much of a store. A record that asks for more than there is memory is none.
    fn new(n: u16) -> Result<Self, Stop> {
        let length = usize::from(n);
        if length > MEMORY {
            return Err(Stop::NoRecord);
        }
        Ok(Self { length })
    }

    // A whole message's room.
    fn store() -> Self {
        Self { length: STORE_SIZE }
    }

    // The part of the memory that is lent.
    fn part(self, memory: &mut [u8; MEMORY]) -> &mut [u8] {
        &mut memory[..self.length]
    }
}

// Both ends and the memory of their stores, the endpoint's two and the requester's, and how much of each is lent. The lengths stand beside the
// memories: a struct of both would need the invariant of `Lent`, and no part of a field beside an invariant can be lent through a `&mut Session`.
#[derive(Drop)]
struct Session {
    endpoint: ValidEndpoint,
    requester: ValidRequester,
    store0: [u8; MEMORY],
    store1: [u8; MEMORY],
    store: [u8; MEMORY],
    lent0: Lent,
    lent1: Lent,
    lent: Lent,
}

impl Session {
    // Does what a record says, and writes the words of its line.
    fn record(&mut self, rt: &impl Print, tag: Tag, body: &[u8]) -> Result<(), Stop>
        requires { least_size tag ≤ length body.now }
    {
        let written = match tag {
            Tag::EndpointStores => {
                self.lent0 = Lent::new(half(body, 0))?;
                self.lent1 = Lent::new(half(body, 2))?;
                number(rt, DONE)
            }
            Tag::Endpoint(call) => {
                let (lent0, lent1) = (self.lent0, self.lent1);
                called(
                    rt,
                    &mut self.endpoint,
                    lent0.part(&mut self.store0),
                    lent1.part(&mut self.store1),
                    call,
                    body,
                )
            }
            Tag::RequesterStore => {
                self.lent = Lent::new(half(body, 0))?;
                number(rt, DONE)
            }
            Tag::Requester(call) => {
                let lent = self.lent;
                requester_called(
                    rt,
                    &mut self.requester,
                    lent.part(&mut self.store),
                    call,
                    body,
                )
            }
        };
        written.map_err(|_| Stop::NotWritten)
    }

    // Reads one record, does what it says, and writes its line.
    fn turn(
        &mut self,
        rt: &impl Print,
        stdin: &mut impl Read,
        space: &mut [u8; SPACE],
    ) -> Result<(), Stop> {
        let (tag, body) = next_record(stdin, space)?;
        self.record(rt, tag, body)?;
        println!(rt).map_err(|_| Stop::NotWritten)
    }
}

fn main(rt: HostRuntime) {
    let mut stdin = rt.stdin();
    let mut space = [0u8; SPACE];
    let started = endpoint::setup(EID, LEAST_UNIT);
    let begun = requester::setup(EID, LEAST_UNIT);
    let mut session = Session {
        endpoint: started.endpoint,
        requester: begun.requester,
        store0: [0u8; MEMORY],
        store1: [0u8; MEMORY],
        store: [0u8; MEMORY],
        lent0: Lent::store(),
        lent1: Lent::store(),
        lent: Lent::store(),
    };
    for _ in 0..u64::MAX {
        if let Err(stop) = session.turn(&rt, &mut stdin, &mut space) {
            return tell(&rt, stop);
        }
    }
}
