// Writing an admitted message: one row, its id, its dependencies, its branch counts and, for a new key, that key.
ghost use Rattle.std.specs.Prelude.{◌≡◌, ◌+◌, ◌*◌, ◌≤◌, ◌<◌, length, take, ltb};
ghost use Rattle.item.specs.Offsets.{count_limit};
ghost use Rattle.basics.specs.Pick.{pick};
ghost use Rattle.basics.specs.Chunk.{chunk_size};
ghost use Rattle.store.specs.Limits.{row_limit, dep_limit, row_dep_limit};
ghost use Rattle.chunks.specs.Lookup.{place_of};
ghost use Rattle.chunks.specs.Piece.{put_at};
ghost use Rattle.store.specs.Clauses.{table_in, table_held, SameParts};
ghost use Rattle.judging.specs.Message.{dep_rows};
ghost use Rattle.admission.specs.After.{Writable, counts_with, admitted};

use basics::narrow;
use item::{COUNT_LIMIT, Fields};
use store::branches::count_row;
use store::{Counts, Row, Store, StoreMut};

// Put the key of an author that is one more than those that have a key; a known author's stands already.
fn put_key(keys: &mut [u8], authors: usize, author: usize, key: &[u8])
    requires { (author ≤ authors + 1) × ((authors < author → author * chunk_size ≤ length keys.old) × (chunk_size ≤ length key.now)) }
    ensures { keys.new ≡ pick (ltb authors author) (put_at keys.old author key.now) keys.old }
{
    if authors < author {
        chunks::put(keys, author, key);
    }
}

// The row of an id among the first n, or none.
fn row_of(ids: &[u8], n: usize, id: &[u8]) -> u16
    requires { n ≤ row_limit }
    ensures { result ≡ place_of ids.now n id.now }
{
    narrow(store::find_id(ids, n, id).unwrap_or(0))
}

// Puts the rows that the item's dependencies name, in its order, to the start of `rows`; 0 for one that the store lacks.
// Not by judging's named_rows, which ends at one that is missing: Writable, which write_row requires, does not say that none is. The rows
// are lent: an array as the answer is copied, and takes the stack three times.
fn dependency_rows(item: &[u8], f: Fields, store: &Store, rows: &mut [u16; COUNT_LIMIT])
    requires { (store.now.counts.rows ≤ row_limit) × (f.count ≤ row_dep_limit) }
    ensures { (length rows.new ≡ count_limit) × (take f.count rows.new ≡ dep_rows (table_in store.now) item.now f) }
{
    let Store { ids, counts, .. } = *store;
    for k in 0..f.count {
        rows[k] = row_of(ids, counts.rows, item::dependency_of(item, f, k));
    }
}

// The counts after a row.
fn counts_with(counts: Counts, row: Row) -> Counts
    requires { (counts.rows ≤ row_limit) × ((counts.deps ≤ dep_limit) × (row.deps ≤ row_limit)) }
    ensures { result ≡ counts_with counts row }
{
    Counts {
        rows: counts.rows + 1,
        authors: counts.authors.max(row.author),
        deps: counts.deps + row.deps,
    }
}

// Write a message that has this id and takes this row. The store that is left is the old one with the row, and nothing else.
pub fn write_row(item: &[u8], f: Fields, id: &[u8], row: Row, store: &mut StoreMut)
    requires { Writable (table_held store.old) item.now f id.now row }
    ensures same { SameParts store.old store.new }
    ensures judged { (table_held store.new) ≡ admitted (table_held store.old) item.now f row }
{
    let counts = store.counts;
    let n = counts.rows;
    let mut named = [0u16; COUNT_LIMIT];
    dependency_rows(item, f, &store.read(), &mut named);
    put_key(store.keys, counts.authors, row.author, item::key_of(item));
    store::put_row(store.rows, n, row);
    basics::copy_at(store.deps, counts.deps, &named[..f.count]);
    chunks::put(store.ids, n + 1, id);
    count_row(store.branches, counts, row);
    store.counts = counts_with(counts, row);
}
