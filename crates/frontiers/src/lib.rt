// Frontiers: merge, at or below, and the entry that an append changes, over lent tables.
#![tactic(auto)]

ghost use Rattle.store.specs.Clauses.{table_in};
ghost use Rattle.frontiers.specs.Calls.{MergesInto, ComparesFrontiers, ChecksFrontier};
ghost use Rattle.frontiers.specs.Appending.{AppendsEntry};

pub mod appending;
pub mod checking;
mod comparing;
mod counting;
mod merging;
pub mod reading;
pub mod writing;

use answers::Refusal;
use appending::append_row;
use basics::wide;
use checking::{check_two, frontier_valid};
use comparing::frontier_below;
use counting::merged_length;
use logs::LogState;
use merging::write_merged;
use store::Store;

// How many numbers an entry has.
pub const ENTRY_NUMBERS: usize = 5;

// Whether a lent list is a valid frontier of the store.
pub fn valid_frontier(store: &Store, f: &[u16]) -> Result<bool, Refusal>
    ensures { ChecksFrontier (table_in store.now) f.now result }
{
    if !inspection::well_formed(store) {
        return Err(Refusal::Store);
    }
    Ok(frontier_valid(store, f))
}

// Whether the frontier f is at or below the frontier g.
pub fn frontier_at_or_below(store: &Store, f: &[u16], g: &[u16]) -> Result<bool, Refusal>
    ensures { ComparesFrontiers (table_in store.now) f.now g.now result }
{
    check_two(store, f, g)?;
    Ok(frontier_below(store, f, g))
}

// Writes the merged frontier of f and g to the start of out, and answers how many numbers it has.
pub fn merge_frontiers(
    store: &Store,
    f: &[u16],
    g: &[u16],
    out: &mut [u16],
) -> Result<usize, Refusal>
    ensures { MergesInto (table_in store.now) f.now g.now out.old out.new result }
{
    check_two(store, f, g)?;
    if out.len() < merged_length(f, g, store.counts.authors) {
        return Err(Refusal::Room);
    }
    Ok(write_merged(store, f, g, out))
}

// Appends a row to its author's entry in the frontier of the first used numbers, making the entry where there is none, and answers
// how many numbers the frontier has then.
pub fn append_entry(
    store: &Store,
    frontier: &mut [u16],
    used: usize,
    row: u16,
) -> Result<usize, Refusal>
    ensures { AppendsEntry (table_in store.now) frontier.old used row frontier.new result }
{
    if !inspection::well_formed(store) {
        return Err(Refusal::Store);
    }
    if frontier.len() < used {
        return Err(Refusal::Frontier);
    }
    if !frontier_valid(store, &frontier[..used]) {
        return Err(Refusal::Frontier);
    }
    if row == 0 {
        return Err(Refusal::Row);
    }
    if store.counts.rows < wide(row) {
        return Err(Refusal::Row);
    }
    append_row(store, frontier, used, row)
}
