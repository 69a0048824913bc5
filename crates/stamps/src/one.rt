//! The kind of mark that is one stamp, the same for every site.
ghost use Rattle.stamps.specs.Rows.{same};
ghost use Rattle.stamps.specs.BuiltKinds.{one_kind};
ghost use Rattle.std.proofs.Common.{rules};

use crate::mark_kind::MarkKind;
use crate::row::Row;
use crate::site::Site;
use crate::stamp::Stamp;

/// A mark is a stamp: its row has that stamp at each site.
#[derive(Clone, Copy, Debug)]
pub struct One;

impl MarkKind for One {
    type Mark = Stamp;

    const COLUMNS: usize = 1;

    ghost COLUMNS = { 1 };

    ghost kind = { one_kind };

    ghost meaning = { same };

    ghost lawful = { Prim.search rules };

    ghost counted = { Prim.search rules };

    fn row(mark: Stamp) -> Row {
        Row::same(mark)
    }

    fn covers(a: Stamp, b: Stamp) -> bool {
        a >= b
    }

    fn join(a: Stamp, b: Stamp) -> Stamp {
        a.max(b)
    }

    fn meet(a: Stamp, b: Stamp) -> Stamp {
        a.min(b)
    }

    fn floor(row: Row) -> Stamp {
        row.least()
    }

    fn lift(_site: Site, stamp: Stamp) -> Stamp {
        stamp
    }
}
