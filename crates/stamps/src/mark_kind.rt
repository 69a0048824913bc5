//! What a kind of mark is.
ghost use Rattle.std.specs.Prelude.{◌≡◌, ℕ};
ghost use Rattle.stamps.specs.Rows.{PerSite, HasStamps, covers, join, meet};
ghost use Rattle.stamps.specs.Kinds.{Kind, IsMark, IsLawfulKind};

use crate::row::Row;
use crate::site::Site;
use crate::stamp::Stamp;

/// A mark is what a kind keeps of a row: every mark means a row, and a kind may not be able to mean every row.
pub trait MarkKind {
    /// The form of a mark.
    type Mark: Copy;

    /// How many stamps a mark has.
    const COLUMNS: usize;

    ghost COLUMNS: { ℕ };

    // Which rows the kind can mean, and its floor and lift.
    ghost kind: { Kind };

    // The row of a mark.
    ghost meaning: { Self.Mark → PerSite };

    /// How many stamps a mark has.
    fn column_count() -> usize
        ensures { result ≡ kind.columns }
    {
        Self::COLUMNS
    }

    /// The row that a mark means.
    fn row(mark: Self::Mark) -> Row
        ensures value { result ≡ meaning mark }
        ensures means { IsMark kind result };

    /// Whether a's row is at least b's at each entry.
    fn covers(a: Self::Mark, b: Self::Mark) -> bool
        ensures { result ≡ covers (meaning a) (meaning b) };

    /// The greater at each entry.
    fn join(a: Self::Mark, b: Self::Mark) -> Self::Mark
        ensures { meaning result ≡ join (meaning a) (meaning b) };

    /// The lesser at each entry.
    fn meet(a: Self::Mark, b: Self::Mark) -> Self::Mark
        ensures { meaning result ≡ meet (meaning a) (meaning b) };

    /// The greatest mark that the row covers.
    fn floor(row: Row) -> Self::Mark
        ensures value { meaning result ≡ kind.floor row }
        ensures means { IsMark kind (meaning result) }
        ensures stamps { HasStamps row };

    /// The least mark with at least this stamp at this site.
    fn lift(site: Site, stamp: Stamp) -> Self::Mark
        ensures { meaning result ≡ kind.lift site stamp };

    // The whole meaning of a kind.
    ghost lawful: { IsLawfulKind kind };

    // The constant is the kind's number of columns.
    ghost counted: { COLUMNS ≡ kind.columns };
}
