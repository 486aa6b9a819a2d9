// One row appended to its author's entry: the merge with a frontier of that row alone.
ghost use Rattle.std.specs.Prelude.{◌≤◌, ◌≡◌, length, take};
ghost use Rattle.store.specs.Limits.{author_limit};
ghost use Rattle.store.specs.Table.{row_at};
ghost use Rattle.frontiers.specs.Appending.{Appendable, AppendsTo};

use crate::counting::merged_length;
use crate::merging::write_merged;
use answers::Refusal;
use store::Store;

// A copy of a frontier, which has at most one entry for each of 64 authors.
fn copied(f: &[u16]) -> [u16; 320]
    requires { length f.now ≤ 320 }
    ensures { take (length f.now) result ≡ f.now }
{
    let mut copy = [0u16; 320];
    basics::copy_at(&mut copy, 0, f);
    copy
}

// The author of a row.
fn author_of(rows: &[u16], row: u16) -> u16
    requires { (row_at rows.now row).author ≤ author_limit }
    ensures { result ≡ (row_at rows.now row).author }
{
    let held = store::row_at(rows, basics::wide(row));
    held.author as u16
}

// Appends a row to its author's entry in a valid frontier, the first used numbers of a lent list.
pub fn append_row(
    store: &Store,
    frontier: &mut [u16],
    used: usize,
    row: u16,
) -> Result<usize, Refusal>
    requires { Appendable store.now.ids.now store.now.rows.now store.now.counts frontier.old used row }
    ensures { AppendsTo store.now.ids.now store.now.rows.now store.now.counts frontier.old used row frontier.new result }
{
    let Store { rows, counts, .. } = *store;
    let old = copied(&frontier[..used]);
    let single = [author_of(rows, row), 0, row, 0, 0];
    if frontier.len() < merged_length(&old[..used], &single, counts.authors) {
        return Err(Refusal::Room);
    }
    Ok(write_merged(store, &old[..used], &single, frontier))
}
