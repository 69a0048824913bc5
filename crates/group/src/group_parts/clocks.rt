//! The calls on a server's clock.
ghost use Rattle.std.specs.Prelude.{◌≡◌, OnErr};
ghost use Rattle.group.specs.Model.Calls.{IsStep};
ghost use Rattle.group.specs.Model.Events as call;
ghost use Rattle.group.specs.Parts.{view};

use super::GroupParts;
use stamps::clock_rule::ClockRule;
use stamps::mark_kind::MarkKind;
use stamps::refusal::Refusal;
use stamps::stamp::Stamp;

impl<C: ClockRule, K: MarkKind> GroupParts<C, K> {
    // The physical clock of a server shows a new time.
    pub(crate) fn tell(&mut self, site: u8, partition: u8, time: u64) -> Result<(), Refusal>
        ensures step { IsStep C.answer K.kind (view self.old) (call.tell site partition time) result (view self.new) }
        ensures keeps { OnErr result (view self.new ≡ view self.old) }
    {
        let place = self.layout.place(site, partition)?;
        self.servers[place.index()].tell(time)
    }

    // A new stamp of a server for the other sites.
    pub(crate) fn heartbeat(&mut self, site: u8, partition: u8) -> Result<Stamp, Refusal>
        ensures step { IsStep C.answer K.kind (view self.old) (call.heartbeat site partition) result (view self.new) }
        ensures keeps { OnErr result (view self.new ≡ view self.old) }
    {
        let place = self.layout.place(site, partition)?;
        self.servers[place.index()].heartbeat()
    }

    // How far a server's last stamp is ahead of its reading.
    pub(crate) fn lead(&self, site: u8, partition: u8) -> Result<i64, Refusal>
        ensures { IsStep C.answer K.kind (view self.now) (call.lead site partition) result (view self.now) }
    {
        let place = self.layout.place(site, partition)?;
        Ok(self.server(place).lead())
    }
}
