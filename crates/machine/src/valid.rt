// An endpoint whose invariant holds: setup makes one, and every call keeps it one. Clauses see it as the endpoint. The requester's
// is a type of its own: one for both would need a trait that says which invariant, and each call would name its type.
ghost use Rattle.machine.specs.Valid.{Valid};
ghost use Rattle.machine.specs.declared.Endpoint.{Endpoint};

use crate::Endpoint;
use std::marker::Model;

#[derive(Clone, Copy)]
pub struct ValidEndpoint {
    pub state: Endpoint,
}

impl Model for ValidEndpoint {
    ghost Value = { Endpoint };

    ghost view = { λ v. v.state };

    ghost invariant = { λ v. Valid v.state };

    ghost inverse = { λ e. record { state = e } };
}
