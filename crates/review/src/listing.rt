// Listing the branches by rising id of their tips.
ghost use Rattle.std.specs.Prelude.{◌+◌, ◌≤◌};
ghost use Rattle.store.specs.Limits.{row_limit};
ghost use Rattle.review.specs.Children.{BestSoFar, MayCompare, MayList, Listed};
ghost use Rattle.review.specs.Calls.{WritesKids};

use super::BRANCH_NUMBERS;
use answers::Refusal;
use basics::narrow;

// The better of the lowest tip so far and the next row: one that has a child, and the lower id.
fn better(ids: &[u8], kids: &[u16], best: usize, row: usize) -> usize
    requires { MayCompare ids.now kids.now (row + 1) × (BestSoFar ids.now kids.now row best × (best ≤ row)) }
    ensures { BestSoFar ids.now kids.now (row + 1) result × (result ≤ row + 1) }
{
    if kids[row + 1] == 0 {
        return best;
    }
    if best == 0 {
        return row + 1;
    }
    if chunks::before(chunks::piece_at(ids, row + 1), chunks::piece_at(ids, best)) {
        return row + 1;
    }
    best
}

// Of the rows up to count that have a child in the table, the one with the lowest id; 0 where none has one.
pub fn lowest_tip(ids: &[u8], kids: &[u16], count: usize) -> usize
    requires { MayCompare ids.now kids.now count }
    ensures { BestSoFar ids.now kids.now count result × (result ≤ count) }
{
    let mut best: usize = 0;
    for row in 0..count {
        best = better(ids, kids, best, row);
    }
    best
}

// Writes the branches of the table by rising id of their tips, and takes each out of the table.
pub fn write_branches(ids: &[u8], kids: &mut [u16], count: usize, found: usize, out: &mut [u16])
    requires { MayList ids.now kids.old count found out.old }
    ensures { Listed ids.now kids.old count found out.old out.new }
{
    for k in 0..found {
        let tip = lowest_tip(ids, kids, count);
        let at = BRANCH_NUMBERS * k;
        out[at] = narrow(tip);
        out[at + 1] = kids[tip];
        kids[tip] = 0;
    }
}

// Writes the branches of the table by rising id of their tips, unless out is shorter than they are.
pub fn write_table(
    ids: &[u8],
    kids: &mut [u16],
    count: usize,
    out: &mut [u16],
) -> Result<usize, Refusal>
    requires { MayCompare ids.now kids.old count × (count ≤ row_limit) }
    ensures { WritesKids ids.now kids.old count out.old out.new result }
{
    let found = super::children::count_kids(kids, count);
    let size = BRANCH_NUMBERS * found;
    if out.len() < size {
        return Err(Refusal::Room);
    }
    write_branches(ids, kids, count, found, out);
    Ok(size)
}
