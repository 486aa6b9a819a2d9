// Authors, previous rows and indexes: the rules of the part rows.
ghost use Rattle.std.specs.Prelude.{◌≡◌};
ghost use Rattle.basics.specs.Decides.{Decides};
ghost use Rattle.store.specs.Table.{chained};
ghost use Rattle.store.specs.Clauses.{AuthorsFit, AllChained};

use store::row_at;

// Whether the authors of the first n rows are numbered by first appearance, and so many have appeared.
pub fn authors_appear(rows: &[u16], n: usize, authors: usize) -> bool
    ensures { Decides (AuthorsFit rows.now n authors) result }
{
    let mut most = 0;
    for i in 0..n {
        let row = row_at(rows, i + 1);
        if row.author == 0 {
            return false;
        }
        if most + 1 < row.author {
            return false;
        }
        most = most.max(row.author);
    }
    most == authors
}

// Whether row r has no previous row and index 1, or an earlier row of the same author whose index is one less.
fn row_chained(rows: &[u16], r: usize) -> bool
    ensures { result ≡ chained rows.now r }
{
    let row = row_at(rows, r);
    if row.prev == 0 {
        return row.index == 1;
    }
    if r <= row.prev {
        return false;
    }
    let prev = row_at(rows, row.prev);
    prev.author == row.author && prev.index + 1 == row.index
}

// Whether all of the first n rows do.
pub fn rows_chained(rows: &[u16], n: usize) -> bool
    ensures { Decides (AllChained rows.now n) result }
{
    (0..n).all(|i| row_chained(rows, i + 1))
}
