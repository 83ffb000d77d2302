// The refusals of every call of both ends. Each is document 01's number for it; `number` says it.
#![tactic(auto)]

ghost use Rattle.std.specs.Prelude.{◌≡◌};
ghost use Rattle.refusals.specs.Refusals.{number, answer_number};

#[derive(Clone, Copy, Debug, PartialEq, Eq)]
pub enum Refusal {
    // The packet is shorter than 5 bytes.
    TooShort = 10,
    // The packet is longer than the unit and its header.
    TooLong = 11,
    // The header's version is not 1.
    WrongVersion = 12,
    // The destination is not our EID.
    NotOurs = 13,
    // TO is 0 at the endpoint, or 1 at the requester.
    WrongDirection = 14,
    // The first byte is not 84h, or ROR is the other end's.
    WrongMessage = 15,
    // Another packet than the last, and its payload is not of the unit.
    NotFull = 16,
    // A message of one packet has fewer than 8 bytes.
    MessageTooShort = 17,
    // A control primitive or its reply is not one packet of 12 payload bytes.
    NotTwelve = 18,
    // The integrity check is wrong.
    CheckWrong = 19,
    // At the endpoint the command's slot is not Idle; at the requester nothing is awaited from this source under this tag.
    NotExpected = 20,
    // A later packet, and nothing is gathered from this source under this tag.
    NoAssembly = 21,
    // The sequence number is not the last plus one modulo 4.
    OutOfSequence = 22,
    // The message would have more than 4,224 bytes.
    MessageTooLong = 23,
    // The slot number is above 1.
    NoSuchSlot = 30,
    // The slot is not in Process, or its response is there.
    NoCommand = 31,
    // The ticket is not the slot's present one.
    OtherTicket = 32,
    // The command is taken already.
    TakenAlready = 33,
    // The command is not taken.
    NotTaken = 34,
    // The response's body has not 4 to 4,216 bytes.
    WrongBodySize = 35,
    // The buffer is too short for what would be written.
    ShortBuffer = 36,
    // The slot is not in Receive, or paused.
    NotGathering = 37,
    // The EID is not 8 to 254.
    WrongEid = 38,
    // The unit is not 64 to 250.
    WrongUnit = 39,
    // A store that is lent has not 4,224 bytes.
    WrongStores = 40,
    // A message to be sent has not 8 to 4,224 bytes, or its message tag is above 7.
    OutOfRange = 41,
}

impl Refusal {
    // Document 01's number. It is a method with a name and no `From`: a byte has other readings.
    pub fn number(self) -> u8
        ensures { result ≡ number self }
    {
        self as u8
    }
}

// What a call answers that gives nothing and is not refused.
pub const DONE: u8 = 0;

// The number of what a call answers that gives nothing: 0, or the refusal's.
pub fn answer_number(answer: Result<(), Refusal>) -> u8
    ensures { result ≡ answer_number answer }
{
    match answer {
        Ok(()) => DONE,
        Err(refusal) => refusal.number(),
    }
}
