//! The common floor of a run of rows, for every kind of mark.
ghost use Rattle.std.specs.Prelude.{◌≡◌};
ghost use Rattle.stamps.specs.Rows.{same};
ghost use Rattle.stamps.specs.Stamps.{top_stamp};
ghost use Rattle.stamps.specs.CommonFloors.{common_floor, IsGreatestCommon};

use crate::mark_kind::MarkKind;
use crate::row::Row;
use crate::stamp::Stamp;

/// The greatest mark that every row of the run covers; of no rows, the top stamp at each entry.
///
/// Each row is taken as a mark by the kind's floor.
pub fn common_floor<K: MarkKind>(rows: &[Row]) -> K::Mark
    ensures value { K.meaning result ≡ common_floor K.kind rows.now }
    ensures greatest { IsGreatestCommon K.kind rows.now (K.meaning result) }
{
    meet_all::<K>(top_mark::<K>(), rows)
}

// The greatest mark: the top stamp at each entry.
fn top_mark<K: MarkKind>() -> K::Mark
    ensures { K.meaning result ≡ same top_stamp }
{
    K::floor(Row::same(Stamp::top()))
}

// The meet of the greatest mark and of each row of the run.
fn meet_all<K: MarkKind>(top: K::Mark, rows: &[Row]) -> K::Mark
    requires { K.meaning top ≡ same top_stamp }
    ensures value { K.meaning result ≡ common_floor K.kind rows.now }
    ensures greatest { IsGreatestCommon K.kind rows.now (K.meaning result) }
{
    let mut mark = top;
    for row in rows {
        mark = K::meet(mark, K::floor(*row));
    }
    mark
}
