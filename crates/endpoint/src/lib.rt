// The endpoint's nine calls. Each is proved equal to its definition in `machine`. They have no premise: the invariant of the state is in its type, which
// setup gives. A call is lent the state, the stores and the buffer.
#![tactic(auto)]

pub use finish::{complete, timeout};
pub use poll::poll;
pub use receive::receive;
pub use start::{reset, setup};
pub use take::{declare, request, take};
