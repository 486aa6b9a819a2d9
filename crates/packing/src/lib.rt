// Happened-before and packing lists.
#![tactic(auto)]

ghost use Rattle.store.specs.Clauses.{table_in};
ghost use Rattle.packing.specs.Packing.{Answers, MayPack, Writes};

use answers::Refusal;
use frontiers::checking::frontier_valid;
use store::Store;

pub mod marking;
mod output;
pub mod walk;

// A place for none and for each row that a store may hold.
const PLACES: usize = 1025;

// Writes the packing list of a frontier, for callers that know the store to be well formed and the frontier valid.
pub fn pack_frontier(
    rows: &[u16],
    deps: &[u16],
    count: usize,
    frontier: &[u16],
    out: &mut [u16],
) -> Result<usize, Refusal>
    requires { MayPack rows.now deps.now count frontier.now }
    ensures { Writes rows.now deps.now frontier.now out.old out.new result }
{
    let mut marks = [0u8; PLACES];
    marking::mark_frontier(rows, deps, count, frontier, &mut marks);
    output::write_list(&marks, count, out)
}

// Writes the packing list of a frontier: for each entry the last row, both evidence rows, and all that happened before any of them,
// rising.
pub fn packing_list(store: &Store, frontier: &[u16], out: &mut [u16]) -> Result<usize, Refusal>
    ensures { Answers (table_in store.now) frontier.now out.old out.new result }
{
    let Store {
        rows,
        deps,
        counts,
        ..
    } = *store;
    if !inspection::well_formed(store) {
        return Err(Refusal::Store);
    }
    if !frontier_valid(store, frontier) {
        return Err(Refusal::Frontier);
    }
    pack_frontier(rows, deps, counts.rows, frontier, out)
}
