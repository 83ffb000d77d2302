// The flags of the Get State word, each at its bit. They are masks of one number and no type of flags, as `state_word` of specs/ has them. The flag of a refusal has the refusal's name; that of `NotExpected` is SLOT_NOT_IDLE.

// The slot's own.
pub const SLOT_NOT_IDLE: u16 = 1 << 3;

// The endpoint's.
pub const CHECK_WRONG: u16 = 1 << 4;

pub const TIMEOUT_SEEN: u16 = 1 << 5;

pub const TOO_LONG: u16 = 1 << 6;

pub const WRONG_VERSION: u16 = 1 << 7;

pub const NOT_OURS: u16 = 1 << 8;

pub const NOT_FULL: u16 = 1 << 9;

pub const NO_ASSEMBLY: u16 = 1 << 10;

pub const OUT_OF_SEQUENCE: u16 = 1 << 11;

pub const WRONG_DIRECTION: u16 = 1 << 12;

pub const RESET_SEEN: u16 = 1 << 14;

// The slot's own.
pub const PAUSED: u16 = 1 << 15;
