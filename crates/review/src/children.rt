// The branches behind a row: the child through which each tip runs.
ghost use Rattle.std.specs.Prelude.{◌≤◌, ◌<◌, ◌≡◌, length};
ghost use Rattle.store.specs.Limits.{row_limit};
ghost use Rattle.store.specs.Clauses.{AllChained};
ghost use Rattle.review.specs.Children.{ChildOf, TipChild, Children, Counted, MayLookAt, kids_in};

use basics::narrow;
use store::branches::ROW_BRANCHES;

// The row on a last row, or on none, from which previous links lead to another row; 0 where there is none.
fn child_of(rows: &[u16], count: usize, last: usize, row: usize) -> usize
    requires { (row ≤ count) × AllChained rows.now count }
    ensures { ChildOf rows.now last row result × (result ≤ row) }
{
    let mut at = row;
    while at != 0 {
        let this = store::row_at(rows, at);
        if this.prev == last {
            return at;
        }
        at = this.prev;
    }
    0
}

// The child through which a row runs as the tip of a branch of an author; 0 where it is no such tip.
fn tip_child(
    rows: &[u16],
    branches: &[u16],
    count: usize,
    author: usize,
    last: usize,
    row: usize,
) -> usize
    requires { MayLookAt rows.now branches.now count row }
    ensures { TipChild rows.now count author last row result × (result ≤ row) }
{
    let this = store::row_at(rows, row);
    if this.author != author {
        return 0;
    }
    if branches[ROW_BRANCHES + (row - 1)] != 0 {
        return 0;
    }
    child_of(rows, count, last, row)
}

// Fills the table of children: for each row up to count, the child through which it runs as a tip, or 0.
pub fn fill_children(
    rows: &[u16],
    branches: &[u16],
    count: usize,
    author: usize,
    last: usize,
    kids: &mut [u16],
)
    requires { Counted rows.now branches.now count × ((count ≤ row_limit) × (count < length kids.old)) }
    ensures { Children rows.now count author last kids.new count }
{
    for row in 1..=count {
        kids[row] = narrow(tip_child(rows, branches, count, author, last, row));
    }
}

// How many rows up to count have a child in the table.
pub fn count_kids(kids: &[u16], count: usize) -> usize
    requires { count < length kids.now }
    ensures { result ≡ kids_in kids.now count }
{
    kids[1..=count].iter().filter(|kid| **kid != 0).count()
}
