// A requester whose invariant holds: setup makes one, and every call keeps it one. Clauses see it as the requester. The endpoint's is a type of its own:
// one for both would need a trait that says which invariant, and each call would name its type.
ghost use Rattle.controller.specs.State.{Valid};
ghost use Rattle.controller.specs.declared.Requester.{Requester};

use crate::Requester;
use std::marker::Model;

#[derive(Clone, Copy)]
pub struct ValidRequester {
    pub state: Requester,
}

impl Model for ValidRequester {
    ghost Value = { Requester };

    ghost view = { λ v. v.state };

    ghost invariant = { λ v. Valid v.state };

    ghost inverse = { λ r. record { state = r } };
}
