// The branch counts: the rule of the part branches.
ghost use Rattle.std.specs.Prelude.{◌-◌, ◌≤◌, length};
ghost use Rattle.basics.specs.Decides.{Decides};
ghost use Rattle.store.specs.Limits.{row_limit, author_limit};
ghost use Rattle.store.specs.Clauses.{SamePlaces, BranchesFit};

use store::branches::{ROW_BRANCHES, counted_at};
use store::row_at;

// A place for each number, and one more, where rows count that no store has.
const PLACES: usize = 1089;

// Whether n numbers of the part, from a place on, are those that were counted.
fn same_numbers(branches: &[u16], counts: &[u16; PLACES], at: usize, n: usize) -> bool
    requires { (n ≤ length branches.now - at) × (n ≤ 1089 - at) }
    ensures { Decides (SamePlaces branches.now counts.now at n) result }
{
    (0..n).all(|k| branches[at + k] == counts[at + k])
}

// Whether the numbers of the first n rows and of so many authors are right: each row is counted once, then the numbers are compared.
pub fn branches_fit(rows: &[u16], branches: &[u16], n: usize, authors: usize) -> bool
    requires { ((n ≤ row_limit) × (authors ≤ author_limit)) × ((authors ≤ length branches.now) × (n ≤ length branches.now - author_limit)) }
    ensures { Decides (BranchesFit rows.now branches.now n authors) result }
{
    let mut counts = [0u16; PLACES];
    for i in 0..n {
        let at = counted_at(row_at(rows, i + 1));
        counts[at] += 1;
    }
    same_numbers(branches, &counts, 0, authors) && same_numbers(branches, &counts, ROW_BRANCHES, n)
}
