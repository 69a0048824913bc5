//! The calls that raise the reported and the stable marks.
ghost use Rattle.std.specs.Prelude.{◌≡◌, OnErr};
ghost use Rattle.group.specs.Model.Calls.{IsStep};
ghost use Rattle.group.specs.Model.Events as call;
ghost use Rattle.group.specs.Parts.{view};

use super::GroupParts;
use stamps::clock_rule::ClockRule;
use stamps::common_floor::common_floor;
use stamps::mark_kind::MarkKind;
use stamps::refusal::Refusal;

impl<C: ClockRule, K: MarkKind> GroupParts<C, K> {
    // A server tells its site how far it has received.
    pub(crate) fn report(&mut self, site: u8, partition: u8) -> Result<(), Refusal>
        ensures step { IsStep C.answer K.kind (view self.old) (call.report site partition) result (view self.new) }
        ensures keeps { OnErr result (view self.new ≡ view self.old) }
    {
        let place = self.layout.place(site, partition)?;
        self.servers[place.index()].report();
        Ok(())
    }

    // What every server of a site has reported is joined into the stable mark of one of them.
    pub(crate) fn stabilise(&mut self, site: u8, partition: u8) -> Result<(), Refusal>
        ensures step { IsStep C.answer K.kind (view self.old) (call.stabilise site partition) result (view self.new) }
        ensures keeps { OnErr result (view self.new ≡ view self.old) }
    {
        let place = self.layout.place(site, partition)?;
        let rows = self.reported_rows(place.site);
        let floor = common_floor::<K>(rows.as_slice());
        self.raise(place, floor);
        Ok(())
    }
}
