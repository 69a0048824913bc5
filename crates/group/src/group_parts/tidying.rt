//! The dropping of versions.
ghost use Rattle.std.specs.Prelude.{◌≡◌, OnErr};
ghost use Rattle.group.specs.Model.Calls.{IsStep};
ghost use Rattle.group.specs.Model.Events as call;
ghost use Rattle.group.specs.Parts.{view};

use super::GroupParts;
use stamps::clock_rule::ClockRule;
use stamps::common_floor::common_floor;
use stamps::mark_kind::MarkKind;
use stamps::refusal::Refusal;

impl<C: ClockRule, K: MarkKind> GroupParts<C, K> {
    // A server drops the versions that no snapshot of the site, open or yet to be opened, can need. Answers how many.
    pub(crate) fn tidy(&mut self, site: u8, partition: u8) -> Result<usize, Refusal>
        ensures step { IsStep C.answer K.kind (view self.old) (call.tidy site partition) result (view self.new) }
        ensures keeps { OnErr result (view self.new ≡ view self.old) }
    {
        let place = self.layout.place(site, partition)?;
        let rows = self.safe_rows(place.site);
        let safe = common_floor::<K>(rows.as_slice());
        Ok(self.drop_outdated(place, safe))
    }
}
