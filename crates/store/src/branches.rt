// The branch counts: for each author the number of first messages, then for each row the number of rows that follow it.
ghost use Rattle.std.specs.Prelude.{◌-◌, ◌≤◌, ◌<◌, ◌≡◌, length, get_or};
ghost use Rattle.store.specs.Limits.{author_limit, branch_limit, row_limit};
ghost use Rattle.store.specs.Branches.{counted_at, number_with, branches_with, Countable};

use crate::{AUTHOR_LIMIT, Counts, ROW_LIMIT, Row};

// Where the numbers of the rows begin: after one for each author.
pub const ROW_BRANCHES: usize = 64;

// The most numbers of the part.
pub const BRANCH_LIMIT: usize = 1088;

// For how many rows the part has a number: none where it ends before theirs begin.
pub fn rows_held(branches: &[u16]) -> usize
    ensures { result ≡ length branches.now - author_limit }
{
    branches.len().saturating_sub(ROW_BRANCHES)
}

// The place of the number that a row adds to: its previous row's or, where it has none, its author's.
// A row that no store has counts after all places.
pub fn counted_at(row: Row) -> usize
    ensures { (result ≡ counted_at row) × (result ≤ branch_limit) }
{
    if row.prev == 0 {
        if row.author == 0 || AUTHOR_LIMIT < row.author {
            return BRANCH_LIMIT;
        }
        return row.author - 1;
    }
    if ROW_LIMIT < row.prev {
        return BRANCH_LIMIT;
    }
    ROW_BRANCHES + (row.prev - 1)
}

// The number at a row's place once the row is written: one more, and 1 for a new author, whatever stood there.
fn number_with(branches: &[u16], counts: Counts, row: Row) -> u16
    requires { (counted_at row < length branches.now) × (row.author ≤ counts.authors → get_or branches.now (counted_at row) 0 ≤ row_limit) }
    ensures { result ≡ number_with branches.now counts row }
{
    if counts.authors < row.author {
        return 1;
    }
    let at = counted_at(row);
    branches[at] + 1
}

// Counts a row that is written after those in use: one more at its place, and none that follows it.
pub fn count_row(branches: &mut [u16], counts: Counts, row: Row)
    requires { Countable branches.old counts row }
    ensures { branches.new ≡ branches_with branches.old counts row }
{
    let number = number_with(branches, counts, row);
    let at = counted_at(row);
    branches[at] = number;
    branches[ROW_BRANCHES + counts.rows] = 0;
}
