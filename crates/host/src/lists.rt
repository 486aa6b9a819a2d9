// The calls on frontiers, and packing lists.
ghost use Rattle.store.specs.Clauses.{table_in};
ghost use Rattle.host.specs.Calls.{ChecksPlainly, FrontiersComparePlainly, MergesIntoPlainly, AppendsEntryPlainly, PacksPlainly};

use plain::{CountAnswer, YesAnswer};
use store::Store;

// Whether a lent list is a valid frontier of the store.
pub fn snowknoll_valid_frontier(store: &Store, f: &[u16]) -> YesAnswer
    ensures { ChecksPlainly (table_in store.now) f.now result }
{
    frontiers::valid_frontier(store, f).into()
}

// Whether the frontier f is at or below the frontier g.
pub fn snowknoll_frontier_at_or_below(store: &Store, f: &[u16], g: &[u16]) -> YesAnswer
    ensures { FrontiersComparePlainly (table_in store.now) f.now g.now result }
{
    frontiers::frontier_at_or_below(store, f, g).into()
}

// Writes the merged frontier of f and g to the start of out, and answers how many numbers it has.
pub fn snowknoll_merge_frontiers(
    store: &Store,
    f: &[u16],
    g: &[u16],
    out: &mut [u16],
) -> CountAnswer
    ensures { MergesIntoPlainly (table_in store.now) f.now g.now out.old out.new result }
{
    frontiers::merge_frontiers(store, f, g, out).into()
}

// Appends a row to its author's entry in the frontier of the first used numbers, making the entry where there is none, and answers
// how many numbers the frontier has then.
pub fn snowknoll_append_entry(
    store: &Store,
    frontier: &mut [u16],
    used: usize,
    row: u16,
) -> CountAnswer
    ensures { AppendsEntryPlainly (table_in store.now) frontier.old used row frontier.new result }
{
    frontiers::append_entry(store, frontier, used, row).into()
}

// Writes the packing list of a frontier to the start of out, and answers how many rows it has.
pub fn snowknoll_packing_list(store: &Store, frontier: &[u16], out: &mut [u16]) -> CountAnswer
    ensures { PacksPlainly (table_in store.now) frontier.now out.old out.new result }
{
    packing::packing_list(store, frontier, out).into()
}
