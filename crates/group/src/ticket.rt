//! What an open snapshot is asked by.
use std::marker::Model;

/// The right to read an open snapshot. Only its opening makes a ticket, and only its close takes it: it cannot be
/// copied or let go.
#[derive(Debug)]
pub struct Ticket {
    pub(crate) seat: u8,
    pub(crate) serial: u32,
}

// In clauses a ticket is the model's.
impl Model for Ticket {
    ghost use Rattle.group.specs.Model.Events.{Ticket};

    ghost Value = { Ticket };

    ghost view = { λ t. record { seat = t.seat; serial = t.serial } };
}
