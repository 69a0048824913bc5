//! A server's part of the calls that tell its clock, write, and send and take entries.
ghost use Rattle.std.specs.Prelude.{◌≡◌, ◌==◌, true, OnErr};
ghost use Rattle.servers.specs.Laws.{IsAbove};
ghost use Rattle.servers.specs.Others.{is_other};
ghost use Rattle.servers.specs.Outboxes.{next_for};
ghost use Rattle.servers.specs.Versions.{stamp_answered};
ghost use Rattle.servers.specs.Servers.{view, last_of, server_tell, server_heartbeat, server_put, server_hand_over};
ghost use Rattle.servers.specs.Servers.{server_take, server_take_other, lead_of};

use super::Server;
use crate::entry::Entry;
use crate::value::Value;
use crate::version::Version;
use stamps::clock_rule::{ClockRule, next_stamp};
use stamps::issued_stamp::IssuedStamp;
use stamps::mark_kind::MarkKind;
use stamps::reading::Reading;
use stamps::refusal::Refusal;
use stamps::site::Site;
use stamps::stamp::Stamp;

impl<C: ClockRule, K: MarkKind> Server<C, K> {
    /// The physical clock shows a new time.
    ///
    /// # Errors
    ///
    /// `Unlawful` from 2^47 on, and then `ReadingBehind` below the present reading.
    pub fn tell(&mut self, time: u64) -> Result<(), Refusal>
        ensures step { (result, view self.new) ≡ server_tell (view self.old) time }
        ensures keeps { OnErr result (view self.new ≡ view self.old) }
    {
        let reading = Reading::try_from(time)?;
        if reading < self.reading {
            return Err(Refusal::ReadingBehind);
        }
        self.reading = reading;
        Ok(())
    }

    /// A new stamp for the other sites, with nothing written.
    ///
    /// # Errors
    ///
    /// `OutboxFull` while some other site has 16 entries still to take, and then as the clock rule refuses.
    pub fn heartbeat(&mut self) -> Result<Stamp, Refusal>
        ensures step { (result, view self.new) ≡ server_heartbeat C.answer (view self.old) }
        ensures rises { IsAbove (last_of (view self.old)) result }
        ensures keeps { OnErr result (view self.new ≡ view self.old) }
    {
        if self.outbox.is_full() {
            return Err(Refusal::OutboxFull);
        }
        let stamp = self.next_stamp(Stamp::zero())?;
        self.received = self.received.with_entry(self.outbox.own(), stamp.into());
        self.outbox.issue(Entry::Heartbeat(stamp));
        Ok(stamp.into())
    }

    /// A new version, stamped, kept and issued to the other sites. Its mark is what the session depends on; the stable
    /// mark is raised by what the session knows.
    ///
    /// # Errors
    ///
    /// `TableFull` while 32 versions are held, then `OutboxFull` while some other site has 16 entries still to take,
    /// and then as the clock rule refuses.
    pub fn put(
        &mut self,
        key: u16,
        value: Value,
        depends: K::Mark,
        knows: K::Mark,
    ) -> Result<Version, Refusal>
        ensures step { (result, view self.new)
            ≡ server_put C.answer K.kind (view self.old) key value
            (K.meaning depends) (K.meaning knows) }
        ensures rises { IsAbove (last_of (view self.old)) (stamp_answered result) }
        ensures keeps { OnErr result (view self.new ≡ view self.old) }
    {
        if self.table.is_full() {
            return Err(Refusal::TableFull);
        }
        if self.outbox.is_full() {
            return Err(Refusal::OutboxFull);
        }
        let source = self.outbox.own();
        let mark = K::row(depends);
        let stamp = self.next_stamp(mark.greatest())?;
        let version = Version {
            key,
            value,
            stamp,
            source,
            mark,
        };
        self.received = self.received.with_entry(source, stamp.into());
        self.table.keep(&version);
        self.outbox.issue(Entry::Update(version));
        self.raise(knows);
        Ok(version)
    }

    // The stamp that the rule gives after the last one and a dependency.
    fn next_stamp(&self, dependency: Stamp) -> Result<IssuedStamp, Refusal>
        ensures value { result ≡ C.answer (last_of (view self.now)) self.now.reading dependency }
        ensures rises { IsAbove (last_of (view self.now)) result }
    {
        next_stamp::<C>(
            self.received.at(self.outbox.own()),
            self.reading,
            dependency,
        )
    }

    /// The next entry that a site has still to take from this server.
    pub fn next_for(&self, site: Site) -> Option<Entry>
        ensures { result ≡ next_for (view self.now).waiting site }
    {
        self.outbox.next_for(site)
    }

    /// A site has taken its next entry.
    pub fn hand_over(&mut self, site: Site)
        ensures { view self.new ≡ server_hand_over (view self.old) site }
    {
        self.outbox.take(site);
    }

    /// Takes an entry of another site's server.
    ///
    /// # Errors
    ///
    /// `NotInLayout` if `from` is no other site of the layout, and then `TableFull` for a version while 32 are held.
    pub fn take(&mut self, from: Site, entry: Entry) -> Result<(), Refusal>
        ensures step { (result, view self.new) ≡ server_take (view self.old) from entry }
        ensures keeps { OnErr result (view self.new ≡ view self.old) }
    {
        if !self.outbox.has_other(from) {
            return Err(Refusal::NotInLayout);
        }
        self.take_other(from, entry)
    }

    // Takes an entry of a server that stands at another site of the layout.
    fn take_other(&mut self, from: Site, entry: Entry) -> Result<(), Refusal>
        requires { is_other (view self.old).site (view self.old).sites from ≡ true }
        ensures step { (result, view self.new) ≡ server_take_other (view self.old) from entry }
        ensures keeps { OnErr result (view self.new ≡ view self.old) }
    {
        if let Entry::Update(taken) = &entry {
            if self.table.is_full() {
                return Err(Refusal::TableFull);
            }
            self.table.keep(taken);
        }
        self.received = self.received.with_entry(from, entry.stamp().into());
        Ok(())
    }

    /// How far the time of the last stamp is ahead of the reading; below 0 where it is behind.
    pub fn lead(&self) -> i64
        ensures { result ≡ lead_of (view self.now) }
    {
        let last = self.received.at(self.outbox.own());
        last.time() as i64 - self.reading.time() as i64
    }
}
