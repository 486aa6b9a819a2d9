// The store: the lent tables and what stands in them.
// The rule that makes them well formed is in specs; the crate inspection decides it.
#![tactic(auto)]

ghost use Rattle.std.specs.Prelude.{◌+◌, ◌*◌, ◌≤◌, ◌≡◌, length};
ghost use Rattle.chunks.specs.Piece.{piece_at};
ghost use Rattle.chunks.specs.Lookup.{place_of, found_of};
ghost use Rattle.store.specs.Limits.{row_width};
ghost use Rattle.store.specs.Table.{row_at, Small, row_put};

use basics::{narrow, wide};
pub use lent::{Counts, Store, StoreMut};

pub mod branches;
pub mod dep_rules;
mod lent;

// The most rows, authors and dependencies of a store.
pub const ROW_LIMIT: usize = 1024;

pub const AUTHOR_LIMIT: usize = 64;

pub const DEP_LIMIT: usize = 4096;

// How many numbers a row has; row_at and put_row alone know which is which.
pub const ROW_NUMBERS: usize = 4;

// One row: its author, previous row, index and number of dependencies. Row 0, none, has four zeros.
#[derive(Clone, Copy)]
pub struct Row {
    pub author: usize,
    pub prev: usize,
    pub index: usize,
    pub deps: usize,
}

// What stands in the place of no row.
const NO_ROW: Row = Row {
    author: 0,
    prev: 0,
    index: 0,
    deps: 0,
};

// The row r, with four zeros for row 0 and for a row that the part does not hold whole.
pub fn row_at(rows: &[u16], r: usize) -> Row
    ensures { result ≡ row_at rows.now r }
{
    if r == 0 || rows.len() / ROW_NUMBERS < r {
        return NO_ROW;
    }
    let at = (r - 1) * ROW_NUMBERS;
    Row {
        author: wide(rows[at]),
        prev: wide(rows[at + 1]),
        index: wide(rows[at + 2]),
        deps: wide(rows[at + 3]),
    }
}

// Writes the four numbers of a row after the n rows in use.
pub fn put_row(rows: &mut [u16], n: usize, row: Row)
    requires { ((n + 1) * row_width ≤ length rows.old) × Small row }
    ensures { rows.new ≡ row_put rows.old n row }
{
    let at = n * ROW_NUMBERS;
    rows[at] = narrow(row.author);
    rows[at + 1] = narrow(row.prev);
    rows[at + 2] = narrow(row.index);
    rows[at + 3] = narrow(row.deps);
}

// The id of row r: a part of ids, empty where there is none.
pub fn id_at(ids: &[u8], r: usize) -> &[u8]
    ensures { result.now ≡ piece_at ids.now r }
{
    chunks::piece_at(ids, r)
}

// The row among the first n whose id is id.
// find_key is the same search of another part: both stay, since docs/PROMISES.md promises each by its name.
pub fn find_id(ids: &[u8], n: usize, id: &[u8]) -> Option<usize>
    ensures { result ≡ found_of (place_of ids.now n id.now) }
{
    chunks::find(ids, n, id)
}

// The author among the first n whose key is key.
pub fn find_key(keys: &[u8], n: usize, key: &[u8]) -> Option<usize>
    ensures { result ≡ found_of (place_of keys.now n key.now) }
{
    chunks::find(keys, n, key)
}
