//! A group: every server of every site, the sessions and the open snapshots.
ghost use Rattle.group.specs.Model.Calls.{HasOpen, IsStep};
ghost use Rattle.group.specs.Model.Events as call;
ghost use Rattle.group.specs.Model.Groups.{new_group};
ghost use Rattle.group.specs.Model.GroupStore.{group_store};
ghost use Rattle.group.specs.Model.Promises.{KeepsPromises};
ghost use Rattle.group.specs.Model.Reached.{StillKeeps};
ghost use Rattle.group.specs.Groups.{view};
ghost use Rattle.std.specs.Prelude.{◌≡◌, IfOk, OnErr};

use crate::group_parts::GroupParts;
pub use crate::group_parts::MOST_SESSIONS;
use crate::layout::Layout;
use crate::shown::Shown;
use crate::ticket::Ticket;
use stamps::clock_rule::ClockRule;
use stamps::mark_kind::MarkKind;
use stamps::refusal::Refusal;
use stamps::stamp::Stamp;
use std::marker::Model;

/// A group with the clock rule `C` and the kind of mark `K`.
///
/// Calls lead to every group that there is, from the making of one: nothing else makes or changes a group. Each call
/// says by `IsStep` what it answers and the state that it leaves, as the model has them, and a refused call changes
/// nothing.
#[derive(Drop)]
pub struct Group<C: ClockRule, K: MarkKind> {
    parts: GroupParts<C, K>,
}

// In clauses a group is a record of plain data; `view` of specs/Groups.antt is its state in the model.
impl<C: ClockRule, K: MarkKind> Model for Group<C, K> {
    ghost use Rattle.group.specs.Groups.{GroupRecord};

    ghost Value = { GroupRecord };

    ghost use Rattle.group.specs.Model.Reached.{IsReached};
    ghost use Rattle.group.specs.Parts.{group_record, view as parts_view};

    ghost view = { λ g. group_record g.parts };

    ghost invariant = { λ g. ∥ IsReached C.answer K.kind (parts_view g.parts) ∥₁ };
}

impl<C: ClockRule, K: MarkKind> Group<C, K> {
    /// A group with nothing in it. It takes a checked layout, so it cannot be refused. From here on it keeps the
    /// promises, whatever calls are made.
    pub fn new(layout: Layout) -> Self
        ensures state { view result ≡ new_group layout.sites layout.partitions }
        ensures promises { KeepsPromises (group_store C.answer K.kind layout.sites) (view result) }
    {
        Group {
            parts: GroupParts::new(layout),
        }
    }

    /// Does nothing. Its contract is the theorem: any group keeps the promises, from now on too.
    pub fn promises(&self)
        ensures { ∥ StillKeeps C.answer K.kind (view self.now) ∥₁ }
    {
        let _ = &self.parts;
    }

    /// A new session at a site. Its number is how many were opened before it.
    ///
    /// # Errors
    ///
    /// `NotInLayout` if the layout lacks the site, `NoneFree` if eight sessions were opened.
    pub fn open_session(&mut self, site: u8) -> Result<u8, Refusal>
        ensures step { IsStep C.answer K.kind (view self.old) (call.open_session site) result (view self.new) }
        ensures keeps { OnErr result (view self.new ≡ view self.old) }
    {
        self.parts.open_session(site)
    }

    /// The physical clock of a server shows a new time, in units of the clock, below 2^47.
    ///
    /// # Errors
    ///
    /// `NotInLayout` if the layout lacks the server, `Unlawful` if the time is 2^47 or more, `ReadingBehind` if it is
    /// before the last reading.
    pub fn tell(&mut self, site: u8, partition: u8, time: u64) -> Result<(), Refusal>
        ensures step { IsStep C.answer K.kind (view self.old) (call.tell site partition time) result (view self.new) }
        ensures keeps { OnErr result (view self.new ≡ view self.old) }
    {
        self.parts.tell(site, partition, time)
    }

    /// A new version of a key, made at the session's server. Its value comes as numbers, since they are judged after
    /// the session: the number of its kind, and an amount in the unit of that kind. Answers the version's stamp.
    ///
    /// # Errors
    ///
    /// `NoSession` if the session was not opened, `Unlawful` for a value of no kind or outside its range, `TableFull`
    /// and `OutboxFull` if the server has no room, and what the clock rule answers: `Early` or `End`.
    pub fn put(&mut self, session: u8, key: u16, kind: u8, amount: u32) -> Result<Stamp, Refusal>
        ensures step { IsStep C.answer K.kind (view self.old) (call.put session key kind amount) result
            (view self.new) }
        ensures keeps { OnErr result (view self.new ≡ view self.old) }
    {
        self.parts.put(session, key, kind, amount)
    }

    /// The latest version of a key that the session's server shows, or none.
    ///
    /// # Errors
    ///
    /// `NoSession` if the session was not opened.
    pub fn get(&mut self, session: u8, key: u16) -> Result<Option<Shown>, Refusal>
        ensures step { IsStep C.answer K.kind (view self.old) (call.get session key) result (view self.new) }
        ensures keeps { OnErr result (view self.new ≡ view self.old) }
    {
        self.parts.get(session, key)
    }

    /// A new stamp of a server for the other sites.
    ///
    /// # Errors
    ///
    /// `NotInLayout` if the layout lacks the server, `OutboxFull` if it has no room, and what the clock rule answers:
    /// `Early` or `End`.
    pub fn heartbeat(&mut self, site: u8, partition: u8) -> Result<Stamp, Refusal>
        ensures step { IsStep C.answer K.kind (view self.old) (call.heartbeat site partition) result (view self.new) }
        ensures keeps { OnErr result (view self.new ≡ view self.old) }
    {
        self.parts.heartbeat(site, partition)
    }

    /// A site takes the next entry that waits for it at another site's server.
    ///
    /// # Errors
    ///
    /// `NotInLayout` if the layout lacks one of the servers or they are the same, `NothingWaits` if there is no entry,
    /// `TableFull` if the taking server has no room for the version; the entry waits on then.
    pub fn deliver(&mut self, from: u8, to: u8, partition: u8) -> Result<(), Refusal>
        ensures step { IsStep C.answer K.kind (view self.old) (call.deliver from to partition) result (view self.new) }
        ensures keeps { OnErr result (view self.new ≡ view self.old) }
    {
        self.parts.deliver(from, to, partition)
    }

    /// A server tells its site how far it has received.
    ///
    /// # Errors
    ///
    /// `NotInLayout` if the layout lacks the server.
    pub fn report(&mut self, site: u8, partition: u8) -> Result<(), Refusal>
        ensures step { IsStep C.answer K.kind (view self.old) (call.report site partition) result (view self.new) }
        ensures keeps { OnErr result (view self.new ≡ view self.old) }
    {
        self.parts.report(site, partition)
    }

    /// What every server of a site has reported is joined into the stable mark of one of them.
    ///
    /// # Errors
    ///
    /// `NotInLayout` if the layout lacks the server.
    pub fn stabilise(&mut self, site: u8, partition: u8) -> Result<(), Refusal>
        ensures step { IsStep C.answer K.kind (view self.old) (call.stabilise site partition) result (view self.new) }
        ensures keeps { OnErr result (view self.new ≡ view self.old) }
    {
        self.parts.stabilise(site, partition)
    }

    /// A fixed view of the session's site, as far as one of its servers and the session know it to be stable. The
    /// ticket asks it, and has to be given back to `close`.
    ///
    /// # Errors
    ///
    /// `NotInLayout` if the layout lacks the partition, `NoSession` if the session was not opened, `NoneFree` if four
    /// snapshots are open, `End` once 2^32 - 1 snapshots were opened.
    pub fn open_snapshot(&mut self, session: u8, partition: u8) -> Result<Ticket, Refusal>
        ensures step { IsStep C.answer K.kind (view self.old) (call.open_snapshot session partition) result
            (view self.new) }
        ensures keeps { OnErr result (view self.new ≡ view self.old) }
        ensures open { IfOk result (HasOpen (view self.new)) }
    {
        self.parts.open_snapshot(session, partition)
    }

    /// The latest version of a key that the snapshot's cut covers, or none.
    ///
    /// # Errors
    ///
    /// `NotOpen` if this group has no snapshot open under the ticket.
    pub fn read(&mut self, ticket: &Ticket, key: u16) -> Result<Option<Shown>, Refusal>
        ensures step { IsStep C.answer K.kind (view self.old) (call.read ticket.now key) result (view self.new) }
        ensures keeps { OnErr result (view self.new ≡ view self.old) }
    {
        self.parts.read(ticket, key)
    }

    /// The end of a snapshot. The ticket is taken in either case, done or refused.
    ///
    /// # Errors
    ///
    /// `NotOpen` if this group has no snapshot open under the ticket.
    pub fn close(&mut self, ticket: Ticket) -> Result<(), Refusal>
        ensures step { IsStep C.answer K.kind (view self.old) (call.close ticket) result (view self.new) }
        ensures keeps { OnErr result (view self.new ≡ view self.old) }
    {
        self.parts.close(ticket)
    }

    /// A server drops the versions that no snapshot of the site, open or yet to be opened, can need. Answers how many.
    ///
    /// # Errors
    ///
    /// `NotInLayout` if the layout lacks the server.
    pub fn tidy(&mut self, site: u8, partition: u8) -> Result<usize, Refusal>
        ensures step { IsStep C.answer K.kind (view self.old) (call.tidy site partition) result (view self.new) }
        ensures keeps { OnErr result (view self.new ≡ view self.old) }
    {
        self.parts.tidy(site, partition)
    }

    /// How far a server's last stamp is ahead of its reading, in units of the clock; below 0 if it is behind.
    ///
    /// # Errors
    ///
    /// `NotInLayout` if the layout lacks the server.
    pub fn lead(&self, site: u8, partition: u8) -> Result<i64, Refusal>
        ensures { IsStep C.answer K.kind (view self.now) (call.lead site partition) result (view self.now) }
    {
        self.parts.lead(site, partition)
    }
}
