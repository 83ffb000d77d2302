// Both ends together: what the requester cuts the endpoint gathers, and what the endpoint sends the requester gathers. These are theorems about the
// definitions of `controller` and `machine`, stated in specs/. There is no code here.
#![tactic(auto)]
