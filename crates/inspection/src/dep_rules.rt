// Dependencies: the rules of the part deps.
ghost use Rattle.std.specs.Prelude.{◌≤◌, ◌≡◌, length, eqb};
ghost use Rattle.basics.specs.Decides.{Decides};
ghost use Rattle.store.specs.Table.{dep_sum, every, reaches, depends};
ghost use Rattle.store.specs.Clauses.{AllDepend};

use basics::wide;
use store::dep_rules::one_per_author;
use store::row_at;

// Whether the numbers of dependencies of the first n rows add up to total.
pub fn deps_add_up(rows: &[u16], n: usize, total: usize) -> bool
    ensures { result ≡ eqb (dep_sum rows.now n) total }
{
    let mut sum = 0;
    for i in 0..n {
        let row = row_at(rows, i + 1);
        if total - sum < row.deps {
            return false;
        }
        sum += row.deps;
    }
    sum == total
}

// Whether d is an earlier row than r, of another author.
fn row_reaches(rows: &[u16], r: usize, d: usize) -> bool
    ensures { result ≡ reaches rows.now r d }
{
    d != 0 && d < r && row_at(rows, d).author != row_at(rows, r).author
}

// Whether all of ds are.
fn all_reach(rows: &[u16], r: usize, ds: &[u16]) -> bool
    ensures { result ≡ every (reaches rows.now r) ds.now }
{
    ds.iter().all(|d| row_reaches(rows, r, wide(*d)))
}

// Whether ds are earlier rows than r, of other authors, at most one per author.
fn row_depends(rows: &[u16], r: usize, ds: &[u16]) -> bool
    ensures { result ≡ depends rows.now r ds.now }
{
    all_reach(rows, r, ds) && one_per_author(rows, ds)
}

// Whether the dependencies of the first n rows are.
pub fn rows_depend(rows: &[u16], deps: &[u16], n: usize) -> bool
    requires { dep_sum rows.now n ≤ length deps.now }
    ensures { Decides (AllDepend rows.now deps.now n) result }
{
    let mut start = 0;
    for i in 0..n {
        let row = row_at(rows, i + 1);
        let end = start + row.deps;
        if !row_depends(rows, i + 1, &deps[start..end]) {
            return false;
        }
        start = end;
    }
    true
}
