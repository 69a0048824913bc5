//! The entries that other sites have still to take, in order of issue.
ghost use Rattle.std.specs.Prelude.{◌≡◌, ◌+◌, ◌-◌, ◌≤◌, ⊤, false, length, drop};
ghost use Rattle.stamps.specs.Rows.{greatest};
ghost use Rattle.servers.specs.Others.{IsOthersOnly};
ghost use Rattle.servers.specs.Peers.{IsInLayout};

use crate::counts::Counts;
use crate::entry::Entry;
use crate::peers::Peers;
use arrayvec::ArrayVec;
use stamps::site::Site;
use std::alloc::AllocError;

/// No site has more than this many entries to take.
pub const MOST_ENTRIES: usize = 16;

// `left` says how many of the last entries each site has still to take. Only other sites of the layout take any, and
// an entry that all of them have taken is gone.
#[derive(Drop)]
pub(crate) struct Outbox {
    entries: ArrayVec<Entry, MOST_ENTRIES>,
    left: Counts,
    peers: Peers,
    ghost layout: { IsInLayout peers.own peers.sites },
    ghost others: { IsOthersOnly peers.own peers.sites left },
    ghost needed: { greatest left ≡ length entries.items },
}

// By hand: it has ghost fields.
impl Clone for Outbox {
    ghost is_clone = { λ s r. (r.entries.items ≡ s.entries.items) × (r.left ≡ s.left) × (r.peers ≡ s.peers) };

    ghost is_infallible = { λ _. ⊤ };

    fn clone(&self) -> Result<Self, AllocError> {
        let mut entries = ArrayVec::new();
        entries
            .try_extend_from_slice(self.entries.as_slice())
            .unwrap();
        Ok(Outbox {
            entries,
            left: self.left,
            peers: self.peers,
        })
    }
}

impl Outbox {
    ghost use Rattle.servers.specs.Laws.{StaysQueue};
    ghost use Rattle.servers.specs.Others.{is_other};
    ghost use Rattle.servers.specs.Outboxes.{queues_of, empty_queues, is_outbox_full, issue_entry, next_for};
    ghost use Rattle.servers.specs.Outboxes.{take_entry};

    pub(crate) fn new(peers: Peers) -> Outbox
        ensures empty { queues_of result ≡ empty_queues }
        ensures law { StaysQueue peers.own peers.sites }
        ensures peers { result.peers ≡ peers }
    {
        Outbox {
            entries: ArrayVec::new(),
            left: Counts::zero(),
            peers,
        }
    }

    // The site whose outbox it is.
    pub(crate) fn own(&self) -> Site
        ensures { result ≡ self.now.peers.own }
    {
        self.peers.own()
    }

    // Whether it is another site of the layout.
    pub(crate) fn has_other(&self, site: Site) -> bool
        ensures { result ≡ is_other self.now.peers.own self.now.peers.sites site }
    {
        self.peers.has_other(site.number())
    }

    // Whether some other site has as many entries still to take as are kept for it.
    pub(crate) fn is_full(&self) -> bool
        ensures { result ≡ is_outbox_full self.now.peers.own self.now.peers.sites (queues_of self.now) }
    {
        self.entries.is_full()
    }

    // One entry more for every other site.
    pub(crate) fn issue(&mut self, entry: Entry)
        requires { is_outbox_full self.old.peers.own self.old.peers.sites (queues_of self.old) ≡ false }
        ensures queues { queues_of self.new
            ≡ issue_entry self.old.peers.own self.old.peers.sites (queues_of self.old) entry }
        ensures peers { self.new.peers ≡ self.old.peers }
    {
        self.left = self.left.one_more(self.peers);
        self.entries.push(entry);
    }

    // The next entry that a site has still to take.
    pub(crate) fn next_for(&self, site: Site) -> Option<Entry>
        ensures { result ≡ next_for (queues_of self.now) site }
    {
        let entries = self.entries.as_slice();
        let left = self.left.at(site) as usize;
        if left == 0 {
            return None;
        }
        Some(entries[entries.len() - left])
    }

    // A site takes its next entry, if there is one. What no site has still to take any more is gone.
    pub(crate) fn take(&mut self, site: Site)
        ensures queues { queues_of self.new ≡ take_entry (queues_of self.old) site }
        ensures peers { self.new.peers ≡ self.old.peers }
    {
        let left = self.left.one_less(site);
        keep_last(&mut self.entries, left.greatest() as usize);
        self.left = left;
    }
}

// Keeps the last entries, so many of them; at most one more is there.
fn keep_last(entries: &mut ArrayVec<Entry, MOST_ENTRIES>, count: usize)
    requires { length entries.old.items ≤ count + 1 }
    ensures { entries.new.items ≡ drop (length entries.old.items - count) entries.old.items }
{
    if count < entries.len() {
        entries.remove(0);
    }
}
