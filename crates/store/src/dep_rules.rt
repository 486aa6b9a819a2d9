// Dependencies: of which authors the rows in a list are.
ghost use Rattle.std.specs.Prelude.{◌≡◌};
ghost use Rattle.store.specs.Table.{has_author, one_per_author};
ghost use Rattle.store.specs.Authors.{Marked};

use crate::row_at;
use basics::wide;

// How many marks of authors there are: authors that are alike modulo it share one.
const MARKS: usize = 64;

// Whether one of the rows in ds is of author a.
pub fn has_author(rows: &[u16], a: usize, ds: &[u16]) -> bool
    ensures { result ≡ has_author rows.now a ds.now }
{
    ds.iter().any(|d| row_at(rows, wide(*d)).author == a)
}

// Whether one of the rows in ds is of author a, where the marks of their authors are set.
fn has_marked(rows: &[u16], marks: &[u8; MARKS], a: usize, ds: &[u16]) -> bool
    requires { Marked rows.now marks.now ds.now }
    ensures { result ≡ has_author rows.now a ds.now }
{
    let mark = a % MARKS;
    marks[mark] != 0 && has_author(rows, a, ds)
}

// Whether the rows in ds are of one author each: from the last to the first, each marks its author.
pub fn one_per_author(rows: &[u16], ds: &[u16]) -> bool
    ensures { result ≡ one_per_author rows.now ds.now }
{
    let mut marks = [0u8; MARKS];
    for i in (0..ds.len()).rev() {
        let row = row_at(rows, wide(ds[i]));
        if has_marked(rows, &marks, row.author, &ds[i + 1..]) {
            return false;
        }
        let mark = row.author % MARKS;
        marks[mark] = 1;
    }
    true
}
