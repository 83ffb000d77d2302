// Both ends in use, with the endpoint's nine calls and the requester's five: a controller, EID 9, and a drive's loop around the endpoint, EID 8, as
// a board would have it, behind a bridge that carries 250 bytes. A command goes over in two packets, is taken, read and completed, with a declaration
// at each step that an Abort would have to know of, and its response comes back in two. A control primitive asks for a slot's state. Then a command
// whose sender falls silent is given up by a timeout, and a reset ends it. It prints each answer, and the lengths of messages and packets.
#![tactic(auto)]

use controller::{Gathered, Primitive, ValidRequester, gathered_number};
use machine::answers::DONE;
use machine::sizes::{HEADER_SIZE, STORE_SIZE};
use machine::{Ticket, ValidEndpoint, polled_number, receive_number};
use nvme_mi::Opcode;
use refusals::{Refusal, answer_number};
use std::fmt::Display;

const ENDPOINT_EID: u8 = 8;

const REQUESTER_EID: u8 = 9;

// The unit of both ends, as a bridge may carry it, and a buffer that takes every packet.
const UNIT: usize = 250;

const PACKET_ROOM: usize = UNIT + HEADER_SIZE;

// Byte 1 of a message's header: an MI command for slot 0.
const MI_FOR_SLOT_0: u8 = 0x08;

// A command's bytes up to its check, and with it; the bytes of its two packets.
const CHECK_PLACE: usize = 296;

const COMMAND_SIZE: usize = 300;

const CUT_SIZE: usize = 308;

// The message tags of the command and of the control primitive.
const COMMAND_TAG: u8 = 1;

const CONTROL_TAG: u8 = 2;

// The packets that one loop of polls hands out at most: both slots' longest responses, and a control reply behind each. It is
// rounded up by hand, since a constant's value can have no call.
const MOST_POLLS: usize = 4 * ((STORE_SIZE + UNIT - 1) / UNIT);

// What a call answered, its words and its number each by a write of its own. A write that fails is let go: the program shows both ends, and nothing
// hangs on what it prints.
fn say(rt: &impl Print, what: &str, n: impl Display + Drop) {
    let _ = print!(rt; "{what} ");
    let _ = println!(rt; "{n}");
}

// The endpoint and its slots' two stores.
#[derive(Drop)]
struct Board {
    endpoint: ValidEndpoint,
    store0: [u8; STORE_SIZE],
    store1: [u8; STORE_SIZE],
}

// The requester and its store.
#[derive(Drop)]
struct Controller {
    requester: ValidRequester,
    store: [u8; STORE_SIZE],
}

// The words of what the requester answers to a packet: 0 where more are to come, or a whole message.
fn gather_words(rt: &impl Print, answer: Result<Gathered, Refusal>) {
    match answer {
        Ok(Gathered::Response(n)) => say(rt, "requester response of", n),
        Ok(Gathered::Control(n)) => say(rt, "requester control reply of", n),
        Ok(Gathered::More) | Err(_) => say(rt, "requester receive", gathered_number(answer)),
    }
}

// The words of a poll's answer.
fn poll_words(rt: &impl Print, answer: Result<Option<usize>, Refusal>) {
    match answer {
        Ok(Some(n)) => say(rt, "packet of", n),
        Ok(None) | Err(_) => say(rt, "poll", polled_number(answer)),
    }
}

impl Board {
    // The endpoint receives a packet.
    fn receive(&mut self, rt: &impl Print, packet: &[u8]) {
        let answer = endpoint::receive(
            &mut self.endpoint,
            &mut self.store0,
            &mut self.store1,
            packet,
        );
        say(rt, "receive", receive_number(answer));
    }

    // Receives the packets of a message, which lie end to end: each but the last has a full payload. The controller puts each on its bus here; a
    // board takes it from its bus.
    fn receive_all(&mut self, rt: &impl Print, packets: &[u8]) {
        for packet in packets.chunks(PACKET_ROOM) {
            self.receive(rt, packet);
        }
    }

    // Tells what an Abort of the taken command would report from here on: that it had no effect yet, or that it may have had one. Gives the answer.
    fn declare(
        &mut self,
        rt: &impl Print,
        slot: usize,
        ticket: Ticket,
        can: bool,
    ) -> Result<(), Refusal> {
        let answer = endpoint::declare(&mut self.endpoint, slot, ticket, can);
        say(rt, "declare", answer_number(answer));
        answer
    }

    // Looks at the request of a taken command, and completes it with a status byte and 260 zeros. Until the work begins it can still be stopped; and
    // it does not begin if an Abort came in between.
    fn work(&mut self, rt: &impl Print, slot: usize, ticket: Ticket) -> Result<(), Refusal> {
        let _ = self.declare(rt, slot, ticket, true);
        let request = endpoint::request(&self.endpoint, &self.store0, &self.store1, slot);
        say(rt, "request of", request.len());
        self.declare(rt, slot, ticket, false)?;
        let body = [0u8; 261];
        let answer = endpoint::complete(
            &mut self.endpoint,
            &mut self.store0,
            &mut self.store1,
            slot,
            ticket,
            &body,
        );
        say(rt, "complete", answer_number(answer));
        answer
    }

    // Takes the slot's command, and works on it.
    fn answer(&mut self, rt: &impl Print, slot: usize) -> Result<(), Refusal> {
        let ticket = endpoint::take(&mut self.endpoint, slot)?;
        self.work(rt, slot, ticket)
    }

    // One poll, and whether it handed out a packet. A board puts the packet on its bus here; the controller takes it from its bus.
    fn poll_once(&mut self, rt: &impl Print, controller: &mut Controller) -> bool {
        let mut buffer = [0u8; PACKET_ROOM];
        let answer = endpoint::poll(&mut self.endpoint, &self.store0, &self.store1, &mut buffer);
        poll_words(rt, answer);
        let Ok(Some(n)) = answer else {
            return false;
        };
        controller.gather(rt, &buffer[..n]);
        true
    }

    // Polls until one hands out nothing. The count ends the loop, whatever the endpoint has to send.
    fn send_all(&mut self, rt: &impl Print, controller: &mut Controller) {
        for _ in 0..MOST_POLLS {
            if !self.poll_once(rt, controller) {
                return;
            }
        }
    }

    // Gives up a command whose first packet, with a full payload, came and no other: the clock's timeout ends it, and a reset finds nothing left.
    fn give_up(&mut self, rt: &impl Print) {
        let mut packet = [0u8; PACKET_ROOM];
        packet[0] = 1;
        packet[1] = ENDPOINT_EID;
        packet[2] = REQUESTER_EID;
        packet[3] = 0x89;
        packet[4] = nvme_mi::MESSAGE_TYPE;
        packet[5] = MI_FOR_SLOT_0;
        self.receive(rt, &packet);
        let answer = endpoint::timeout(&mut self.endpoint, 0);
        say(rt, "timeout", answer_number(answer));
        endpoint::reset(&mut self.endpoint);
        say(rt, "reset", DONE);
    }
}

impl Controller {
    // The requester awaits what the endpoint answers under this tag.
    fn await_response(&mut self, rt: &impl Print, tag: u8) {
        let answer = requester::await_response(&mut self.requester, ENDPOINT_EID, tag);
        say(rt, "requester await", answer_number(answer));
    }

    // The requester receives a packet.
    fn gather(&mut self, rt: &impl Print, packet: &[u8]) {
        let answer = requester::receive(&mut self.requester, &mut self.store, packet);
        gather_words(rt, answer);
    }

    // An MI command for slot 0, of its header, zeros and its check: the requester cuts it into packets, and the endpoint receives them.
    fn send_command(&self, rt: &impl Print, board: &mut Board) {
        let mut command = [0u8; COMMAND_SIZE];
        command[0] = nvme_mi::MESSAGE_TYPE;
        command[1] = MI_FOR_SLOT_0;
        nvme_mi::write_check(&mut command, CHECK_PLACE);
        let mut buffer = [0u8; CUT_SIZE];
        if let Ok(n) = requester::cut(
            &self.requester,
            ENDPOINT_EID,
            COMMAND_TAG,
            &command,
            &mut buffer,
        ) {
            say(rt, "requester cut of", n);
            board.receive_all(rt, &buffer[..n]);
        }
    }

    // The control primitive Get State for slot 0: the requester builds it as one packet, and the endpoint receives it.
    fn send_primitive(&self, rt: &impl Print, board: &mut Board) {
        let asked = Primitive {
            slot: 0,
            opcode: Opcode::GetState as u8,
            tag: 0,
            cpsp: 0,
        };
        let mut buffer = [0u8; PACKET_ROOM];
        if let Ok(n) = requester::primitive(
            &self.requester,
            ENDPOINT_EID,
            CONTROL_TAG,
            asked,
            &mut buffer,
        ) {
            say(rt, "requester primitive of", n);
            board.receive_all(rt, &buffer[..n]);
        }
    }
}

fn main(rt: HostRuntime) {
    let started = endpoint::setup(ENDPOINT_EID, UNIT);
    let mut board = Board {
        endpoint: started.endpoint,
        store0: [0u8; STORE_SIZE],
        store1: [0u8; STORE_SIZE],
    };
    say(&rt, "setup", answer_number(started.answer));
    let ready = requester::setup(REQUESTER_EID, UNIT);
    let mut controller = Controller {
        requester: ready.requester,
        store: [0u8; STORE_SIZE],
    };
    say(&rt, "requester setup", answer_number(ready.answer));
    controller.await_response(&rt, COMMAND_TAG);
    controller.send_command(&rt, &mut board);
    let _ = board.answer(&rt, 0);
    board.send_all(&rt, &mut controller);
    controller.await_response(&rt, CONTROL_TAG);
    controller.send_primitive(&rt, &mut board);
    board.send_all(&rt, &mut controller);
    board.give_up(&rt);
}
