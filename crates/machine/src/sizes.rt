// Sizes in bytes. Those of a message's parts are in `nvme_mi`.
pub use mctp::{HEADER_SIZE, LEAST_UNIT};
pub use nvme_mi::{CONTROL_SIZE, SMALLEST};

// Each slot's store, and the longest message.
pub const STORE_SIZE: usize = 4224;

// A lent store of that length.
pub type Store = [u8; STORE_SIZE];

// A response's body runs from the status to before the check.
pub const SHORTEST_BODY: usize = 4;

pub const LONGEST_BODY: usize = 4216;
