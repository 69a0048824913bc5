//! The delivery of entries from site to site.
ghost use Rattle.std.specs.Prelude.{◌≡◌, OnErr};
ghost use Rattle.group.specs.Model.Calls.{IsStep};
ghost use Rattle.group.specs.Model.Events as call;
ghost use Rattle.group.specs.Parts.{view};

use super::GroupParts;
use stamps::clock_rule::ClockRule;
use stamps::mark_kind::MarkKind;
use stamps::refusal::Refusal;

impl<C: ClockRule, K: MarkKind> GroupParts<C, K> {
    // A site takes the next entry that waits for it at another site's server.
    pub(crate) fn deliver(&mut self, from: u8, to: u8, partition: u8) -> Result<(), Refusal>
        ensures step { IsStep C.answer K.kind (view self.old) (call.deliver from to partition) result (view self.new) }
        ensures keeps { OnErr result (view self.new ≡ view self.old) }
    {
        let (from, to) = self.layout.line(from, to, partition)?;
        let Some(entry) = self.server(from).next_for(to.site) else {
            return Err(Refusal::NothingWaits);
        };
        self.take(to, from.site, entry)?;
        self.hand_over(from, to.site);
        Ok(())
    }
}
