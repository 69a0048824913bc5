//! The calls on snapshots.
ghost use Rattle.std.specs.Prelude.{◌≡◌, suc, ◌-◌, ◌^◌, ◌<◌, length, IfOk, OnErr};
ghost use Rattle.group.specs.Model.Groups.{seat_at, with_seat};
ghost use Rattle.group.specs.Model.Calls.{HasOpen, IsStep};
ghost use Rattle.group.specs.Model.Events as call;
ghost use Rattle.group.specs.Parts.{view};
ghost use Rattle.group.specs.Sessions.{open_at};

use super::GroupParts;
use crate::place::Place;
use crate::seat::Seat;
use crate::seats::SEAT_COUNT;
use crate::shown::Shown;
use crate::ticket::Ticket;
use stamps::clock_rule::ClockRule;
use stamps::mark_kind::MarkKind;
use stamps::refusal::Refusal;
use stamps::row::Row;

impl<C: ClockRule, K: MarkKind> GroupParts<C, K> {
    // A fixed view of the session's site, as far as one of its servers and the session know it to be stable.
    pub(crate) fn open_snapshot(&mut self, session: u8, partition: u8) -> Result<Ticket, Refusal>
        ensures step { IsStep C.answer K.kind (view self.old) (call.open_snapshot session partition) result
            (view self.new) }
        ensures keeps { OnErr result (view self.new ≡ view self.old) }
        ensures open { IfOk result (HasOpen (view self.new)) }
    {
        let partition = self.layout.partition(partition)?;
        if !self.has_session(session) {
            return Err(Refusal::NoSession);
        }
        let Some(number) = self.seats.lowest_free() else {
            return Err(Refusal::NoneFree);
        };
        if self.next_serial == u32::MAX {
            return Err(Refusal::End);
        }
        let place = self.learn(session, partition);
        let cut = self.server(place).stable();
        Ok(self.take_seat(number, session, cut))
    }

    // A seat that is free is taken, under the next serial number.
    fn take_seat(&mut self, number: u8, session: u8, cut: Row) -> Ticket
        requires seat { number < SEAT_COUNT }
        requires session { session < length (view self.old).sessions }
        requires serials { (view self.old).next_serial < 2 ^ 32 - 1 }
        ensures ticket { (result.seat ≡ number) × (result.serial ≡ (view self.old).next_serial) }
        ensures seated { let serial = (view self.old).next_serial in
            view self.new ≡ with_seat (view self.old) number
            (Some (record { session = session; serial = serial; cut = cut })) (suc serial) }
    {
        let serial = self.next_serial;
        let seat = Seat {
            session,
            serial,
            cut,
        };
        self.seats.set(number, Some(seat));
        self.next_serial = serial + 1;
        Ticket {
            seat: number,
            serial,
        }
    }

    // The snapshot of a ticket, if the ticket's seat is open under its serial number.
    fn open_seat(&self, ticket: &Ticket) -> Result<Seat, Refusal>
        ensures { result ≡ open_at ticket.now.serial (seat_at (view self.now) ticket.now.seat) }
    {
        self.seats
            .at(ticket.seat)
            .filter(|seat| seat.serial == ticket.serial)
            .ok_or(Refusal::NotOpen)
    }

    // The latest version of a key that the snapshot's cut covers, or none.
    pub(crate) fn read(&mut self, ticket: &Ticket, key: u16) -> Result<Option<Shown>, Refusal>
        ensures step { IsStep C.answer K.kind (view self.old) (call.read ticket.now key) result (view self.new) }
        ensures keeps { OnErr result (view self.new ≡ view self.old) }
    {
        let seat = self.open_seat(ticket)?;
        let place = Place {
            site: self.session_at(seat.session).site,
            partition: self.layout.partition_of(key),
        };
        let cut = K::floor(seat.cut);
        self.raise(place, cut);
        let Some(index) = self.server(place).latest_covered(key, cut) else {
            return Ok(None);
        };
        Ok(Some(self.show(seat.session, place, index)))
    }

    // The end of a snapshot. The ticket is taken in either case, done or refused.
    pub(crate) fn close(&mut self, ticket: Ticket) -> Result<(), Refusal>
        ensures step { IsStep C.answer K.kind (view self.old) (call.close ticket) result (view self.new) }
        ensures keeps { OnErr result (view self.new ≡ view self.old) }
    {
        // The ticket is taken apart before a refusal is answered, since it cannot be let go.
        let open = self.open_seat(&ticket);
        let Ticket { seat, serial: _ } = ticket;
        open?;
        self.seats.set(seat, None);
        Ok(())
    }
}
