// The log program: reads records on standard input, and prints a line for each. `refill` reads and `make_room` writes; all between them is in
// `turn`. What a record does is in `log_session`. A read or a write that fails ends the run, and is told on standard error.
#![tactic(auto)]

ghost use Rattle.std.specs.Prelude.{◌≡◌, true, List, [], ℕ, ◌+◌, ◌≤◌, length, take, drop, replicate};
ghost use Rattle.log_records.specs.Records.{head_size, line_room, is_record};
ghost use Rattle.machine.specs.Wire.{store_size};
ghost use Rattle.log_session.specs.Log.{recorded};
ghost use Rattle.log_session.specs.Whole.{bad_line};
ghost use Rattle.mi_log.specs.Run.{output_size, is_on, wants_input, unread, held, after_record, over, missed, turned, flushed, Within, Refilled};
ghost use Rattle.mi_log.specs.Whole.{Ran};

use arrayvec::ArrayVec;
use log_records::{HEAD_SIZE, Head, LINE_ROOM, Line};
use log_session::Session;
use machine::sizes::STORE_SIZE;
use std::io::Read;

// How many bytes the input buffer and the output buffer have.
const BUFFER_SIZE: usize = 65536;

// Lines that are not yet written. A turn begins with room for one more, and may leave none, so the room is a clause and no invariant.
type Output = ArrayVec<u8, BUFFER_SIZE>;

// What comes next: a turn, more input and then a turn, or nothing, as the run is over.
#[derive(Clone, Copy, Debug, PartialEq, Eq)]
pub enum Next {
    Turn,
    Read,
    Stop,
}

impl Next {
    // The run goes on.
    fn is_on(self) -> bool
        ensures { result ≡ is_on self }
    {
        self != Next::Stop
    }

    // More input is wanted before the next turn.
    fn wants_input(self) -> bool
        ensures { result ≡ wants_input self }
    {
        self == Next::Read
    }
}

// Where the unread input stands in its buffer (a `BufReader` would need a heap), whether the input has ended, what comes next, and the session.
#[derive(Clone, Copy)]
pub struct Run {
    pub at: usize,
    pub end: usize,
    pub ended: bool,
    pub next: Next,
    pub session: Session,
}

// Where more input is wanted, moves what is unread to the front, and reads once behind it. A read that fails ends the run.
fn refill(rt: &impl Eprint, stdin: &mut impl Read, buf: &mut [u8], run: &mut Run)
    requires { (run.old.at ≤ run.old.end) × (run.old.end ≤ length buf.old) }
    ensures refilled { Refilled run.old run.new buf.old buf.new }
    ensures at_le_end { (run.new.at ≤ run.new.end) × (run.new.end ≤ length buf.new) }
{
    if !run.next.wants_input() {
        return;
    }
    let n = run.end - run.at;
    buf.copy_within(run.at..run.end, 0);
    run.at = 0;
    run.end = n;
    let Ok(k) = stdin.read(&mut buf[n..]) else {
        let _ = eprintln!(rt; "mi_log: standard input can not be read");
        run.next = Next::Stop;
        return;
    };
    run.end += k;
    run.ended = k == 0;
    run.next = Next::Turn;
}

// Writes the output, and tells it if that fails.
fn write_out(rt: &(impl Print + Eprint), out: &[u8]) -> bool {
    let whole = rt.write_all(out).is_ok();
    if !whole {
        let _ = eprintln!(rt; "mi_log: standard output can not be written; answers are missing");
    }
    whole
}

// Writes the output before more input is waited for, so that a pipe can be used live, and where a line would not fit behind it. A write that
// fails ends the run.
fn make_room(rt: &(impl Print + Eprint), out: &mut Output, run: &mut Run)
    ensures leaves { (input a b : List ℕ) → held run.new input out.new.items a b ≡ flushed output_size (is_on run.new.next) (held run.old input out.old.items a b) }
    ensures room_left { is_on run.new.next ≡ true → length out.new.items + line_room ≤ output_size }
{
    if run.next.is_on() && (run.next.wants_input() || out.remaining_capacity() < LINE_ROOM) {
        if !write_out(rt, out.as_slice()) {
            run.next = Next::Stop;
        }
        out.clear();
    }
}

// Prints `bad`, and ends the run.
fn end_as_bad(out: &mut Output, run: &mut Run)
    requires { length out.old.items + line_room ≤ output_size }
    ensures { (input a b : List ℕ) → held run.new input out.new.items a b ≡ over (held run.old input out.old.items a b) bad_line }
{
    out.try_extend_from_slice(b"bad\n").unwrap();
    run.next = Next::Stop;
}

// Bytes are missing: more are wanted, and at the end of the input the run ends, with `bad` if a record is cut.
fn ask_for_more(input: &[u8], out: &mut Output, run: &mut Run)
    requires { length out.old.items + line_room ≤ output_size }
    ensures { (a b : List ℕ) → held run.new input.now out.new.items a b ≡ missed (held run.old input.now out.old.items a b) }
{
    if !run.ended {
        run.next = Next::Read;
    } else if input.is_empty() {
        run.next = Next::Stop;
    } else {
        end_as_bad(out, run);
    }
}

// Does what a whole record says, and puts its line behind the output.
fn do_record(
    input: &[u8],
    out: &mut Output,
    store0: &mut [u8],
    store1: &mut [u8],
    run: &mut Run,
    head: Head,
)
    requires room { length out.old.items + line_room ≤ output_size }
    requires whole { (is_record head.tag head.size ≡ true) × (head_size + head.size ≤ length input.now) × (run.old.at + length input.now ≡ run.old.end) }
    ensures leaves { held run.new (drop (head_size + head.size) input.now) out.new.items store0.new store1.new ≡ after_record (held run.old input.now out.old.items store0.old store1.old) head.size (recorded run.old.session store0.old store1.old head.tag (take head.size (drop head_size input.now))) }
    ensures within { Within run.new run.old.end }
{
    let to = HEAD_SIZE + head.size;
    let mut line = Line::new();
    log_session::record(
        &mut run.session,
        store0,
        store1,
        head.tag,
        &input[HEAD_SIZE..to],
        &mut line,
    );
    out.try_extend_from_slice(line.as_slice()).unwrap();
    run.at += to;
}

// One turn: one record, `bad`, or asking for more input.
fn turn(buf: &[u8], out: &mut Output, store0: &mut [u8], store1: &mut [u8], run: &mut Run)
    requires room { length out.old.items + line_room ≤ output_size }
    requires within { Within run.old (length buf.now) }
    ensures leaves { held run.new (unread run.new buf.now) out.new.items store0.new store1.new ≡ turned (held run.old (unread run.old buf.now) out.old.items store0.old store1.old) }
    ensures within { Within run.new (length buf.now) }
{
    let input = &buf[run.at..run.end];
    match log_records::read_head(input) {
        Err(_) => end_as_bad(out, run),
        Ok(None) => ask_for_more(input, out, run),
        Ok(Some(head)) => do_record(input, out, store0, store1, run, head),
    }
}

// Runs the log: turns, each followed by the write and the read that it makes necessary. What the output then holds is not yet written.
fn run_all(
    rt: &(impl Print + Eprint),
    stdin: &mut impl Read,
    buf: &mut [u8],
    out: &mut Output,
    store0: &mut [u8],
    store1: &mut [u8],
) -> Run
    requires out_empty { out.old.items ≡ [] }
    requires stores_zero { (store0.old ≡ replicate store_size 0) × (store1.old ≡ replicate store_size 0) }
    ensures ran { Ran output_size (held result (unread result buf.new) out.new.items store0.new store1.new) }
{
    let mut run = Run {
        at: 0,
        end: 0,
        ended: false,
        next: Next::Turn,
        session: log_session::begin(),
    };
    for _ in 0..u64::MAX {
        if !run.next.is_on() {
            break;
        }
        turn(buf, out, store0, store1, &mut run);
        make_room(rt, out, &mut run);
        refill(rt, stdin, buf, &mut run);
    }
    run
}

fn main(rt: HostRuntime) {
    let mut stdin = rt.stdin();
    let mut buf = [0u8; BUFFER_SIZE];
    let mut out = Output::new();
    let mut store0 = [0u8; STORE_SIZE];
    let mut store1 = [0u8; STORE_SIZE];
    run_all(
        &rt,
        &mut stdin,
        &mut buf,
        &mut out,
        &mut store0,
        &mut store1,
    );
    write_out(&rt, out.as_slice());
}
