//! The kind of mark that is a stamp for each site.
ghost use Rattle.stamps.specs.BuiltKinds.{each_kind};
ghost use Rattle.std.proofs.Common.{rules};

use crate::mark_kind::MarkKind;
use crate::row::Row;
use crate::site::Site;
use crate::stamp::Stamp;

/// A mark is a row: any row is one.
#[derive(Clone, Copy, Debug)]
pub struct Each;

impl MarkKind for Each {
    type Mark = Row;

    const COLUMNS: usize = 4;

    ghost COLUMNS = { 4 };

    ghost kind = { each_kind };

    ghost meaning = { λ mark. mark };

    ghost lawful = { Prim.search rules };

    ghost counted = { Prim.search rules };

    fn row(mark: Row) -> Row {
        mark
    }

    fn covers(a: Row, b: Row) -> bool {
        a.covers(&b)
    }

    fn join(a: Row, b: Row) -> Row {
        a.join(&b)
    }

    fn meet(a: Row, b: Row) -> Row {
        a.meet(&b)
    }

    fn floor(row: Row) -> Row {
        row
    }

    fn lift(site: Site, stamp: Stamp) -> Row {
        Row::only(site, stamp)
    }
}
