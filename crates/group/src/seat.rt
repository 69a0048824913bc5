//! An open snapshot: its session, its serial number, and the row of its cut.
use stamps::row::Row;
use std::marker::Model;

/// An open snapshot. `serial` tells it from the snapshots that had the seat before.
#[derive(Clone, Copy, Debug)]
pub(crate) struct Seat {
    pub(crate) session: u8,
    pub(crate) serial: u32,
    pub(crate) cut: Row,
}

// In clauses a seat is the model's.
impl Model for Seat {
    ghost use Rattle.group.specs.Model.Groups.{SeatState};

    ghost Value = { SeatState };

    ghost view = { λ y. record { session = y.session; serial = y.serial; cut = y.cut } };

    ghost inverse = { λ y. record { session = y.session; serial = y.serial; cut = y.cut } };
}
