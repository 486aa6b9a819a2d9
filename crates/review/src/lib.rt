// Every branch for the author's review: document 02, section 13.
#![tactic(auto)]

ghost use Rattle.store.specs.Clauses.{table_in};
ghost use Rattle.review.specs.Children.{MayReview};
ghost use Rattle.review.specs.Calls.{WritesBranches, ListsBranches};

use answers::Refusal;
use basics::wide;
use children::fill_children;
use listing::write_table;
use logs::validity::valid_state;
use logs::{LogState, Phase};
use store::Store;

mod children;
mod listing;

// How many numbers of the list a branch takes: its tip, and the child of last through which it runs.
pub const BRANCH_NUMBERS: usize = 2;

// A place for none and for each row that a store may hold.
const PLACES: usize = 1025;

// Writes the branches of an author behind a row, or behind none, for callers that know the store to be well formed.
pub fn list_branches(
    store: &Store,
    author: usize,
    last: usize,
    out: &mut [u16],
) -> Result<usize, Refusal>
    requires { MayReview store.now.ids.now store.now.rows.now store.now.branches.now store.now.counts.rows }
    ensures { WritesBranches store.now.rows.now store.now.ids.now store.now.counts.rows author last out.old out.new result }
{
    let Store {
        ids,
        rows,
        branches,
        counts,
        ..
    } = *store;
    let count = counts.rows;
    let mut kids = [0u16; PLACES];
    fill_children(rows, branches, count, author, last, &mut kids);
    write_table(ids, &mut kids, count, out)
}

// Writes every branch of a forked state, by rising id of its tip: the tip, and the child of last through which it runs. Answers how
// many numbers it wrote.
pub fn branches_of(store: &Store, state: LogState, out: &mut [u16]) -> Result<usize, Refusal>
    ensures { ListsBranches (table_in store.now) state out.old out.new result }
{
    if !inspection::well_formed(store) {
        return Err(Refusal::Store);
    }
    if !valid_state(store, state) {
        return Err(Refusal::State);
    }
    if let Phase::Growing = state.phase {
        return Err(Refusal::Whole);
    }
    list_branches(store, wide(state.author), wide(state.last), out)
}
