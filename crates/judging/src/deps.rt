// The rules 14 and 15: what an item's dependencies name.
ghost use Rattle.std.specs.Prelude.{◌≡◌, ◌≤◌};
ghost use Rattle.store.specs.Limits.{row_limit, row_dep_limit};
ghost use Rattle.judging.specs.Named.{Names};
ghost use Rattle.judging.specs.Verdict.{crossed, dep_tests};

use crate::Verdict;
use answers::Refusal;
use basics::narrow;
use item::{COUNT_LIMIT, Fields};
use store::{Row, dep_rules};

// The rows that an item's dependencies name among the first n ids, in its order: looked for one by one, the first that is missing ends it.
// The error has the rows of those before the one that is missing.
pub fn named_rows(
    item: &[u8],
    f: Fields,
    ids: &[u8],
    n: usize,
) -> Result<[u16; COUNT_LIMIT], [u16; COUNT_LIMIT]>
    requires { (f.count ≤ row_dep_limit) × (n ≤ row_limit) }
    ensures { Names ids.now n item.now f result }
{
    let mut rows = [0u16; COUNT_LIMIT];
    for k in 0..f.count {
        let Some(r) = store::find_id(ids, n, item::dependency_of(item, f, k)) else {
            return Err(rows);
        };
        rows[k] = narrow(r);
    }
    Ok(rows)
}

// 15: whether one of the rows in ds is of the author, or two are of one author.
fn is_crossed(rows: &[u16], author: usize, ds: &[u16]) -> bool
    ensures { result ≡ crossed rows.now author ds.now }
{
    dep_rules::has_author(rows, author, ds) || !dep_rules::one_per_author(rows, ds)
}

// 14 and 15, for a message that would take this row, in a store of n rows.
pub fn judge_deps(item: &[u8], f: Fields, row: Row, ids: &[u8], rows: &[u16], n: usize) -> Verdict
    requires { (f.count ≤ row_dep_limit) × (n ≤ row_limit) }
    ensures { result ≡ dep_tests ids.now rows.now n item.now f row }
{
    let Ok(named) = named_rows(item, f, ids, n) else {
        return Verdict::Breaks(Refusal::Dep);
    };
    if is_crossed(rows, row.author, &named[..f.count]) {
        return Verdict::Breaks(Refusal::DepOwner);
    }
    Verdict::Fits(row)
}
