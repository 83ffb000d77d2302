// The numbers of what the controller's end answers where it refuses nothing. Those that both ends give have one name.

// ---- Receiving.
pub use machine::answers::{COMMAND_COMPLETE, CONTROL_DONE, MORE_TO_COME};

// ---- Setup, awaiting, cutting, building a control primitive.
pub use machine::answers::DONE;
