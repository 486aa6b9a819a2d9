// The calls on frontiers, and packing lists.
ghost use Rattle.store.specs.Clauses.{table_of};
ghost use Rattle.host.specs.Calls.{ChecksPlainly, FrontiersComparePlainly, MergesIntoPlainly, AppendsEntryPlainly, PacksPlainly};

use plain::{CountAnswer, YesAnswer};
use store::{Counts, Store};

// Whether a lent list is a valid frontier of the store.
#[unsafe(no_mangle)]
pub extern "C" fn snowknoll_valid_frontier(
    keys: &[u8],
    ids: &[u8],
    rows: &[u16],
    deps: &[u16],
    branches: &[u16],
    counts: Counts,
    f: &[u16],
) -> YesAnswer
    ensures { ChecksPlainly (table_of keys.now ids.now rows.now deps.now branches.now counts) f.now result }
{
    let store = Store {
        keys,
        ids,
        rows,
        deps,
        branches,
        counts,
    };
    host::lists::snowknoll_valid_frontier(&store, f)
}

// Whether the frontier f is at or below the frontier g.
#[unsafe(no_mangle)]
pub extern "C" fn snowknoll_frontier_at_or_below(
    keys: &[u8],
    ids: &[u8],
    rows: &[u16],
    deps: &[u16],
    branches: &[u16],
    counts: Counts,
    f: &[u16],
    g: &[u16],
) -> YesAnswer
    ensures { FrontiersComparePlainly (table_of keys.now ids.now rows.now deps.now branches.now counts) f.now g.now result }
{
    let store = Store {
        keys,
        ids,
        rows,
        deps,
        branches,
        counts,
    };
    host::lists::snowknoll_frontier_at_or_below(&store, f, g)
}

// Writes the merged frontier of f and g to the start of out, and answers how many numbers it has.
#[unsafe(no_mangle)]
pub extern "C" fn snowknoll_merge_frontiers(
    keys: &[u8],
    ids: &[u8],
    rows: &[u16],
    deps: &[u16],
    branches: &[u16],
    counts: Counts,
    f: &[u16],
    g: &[u16],
    out: &mut [u16],
) -> CountAnswer
    ensures { MergesIntoPlainly (table_of keys.now ids.now rows.now deps.now branches.now counts) f.now g.now out.old out.new result }
{
    let store = Store {
        keys,
        ids,
        rows,
        deps,
        branches,
        counts,
    };
    host::lists::snowknoll_merge_frontiers(&store, f, g, out)
}

// Appends a row to its author's entry in the frontier of the first used numbers, making the entry where there is none, and answers
// how many numbers the frontier has then.
#[unsafe(no_mangle)]
pub extern "C" fn snowknoll_append_entry(
    keys: &[u8],
    ids: &[u8],
    rows: &[u16],
    deps: &[u16],
    branches: &[u16],
    counts: Counts,
    frontier: &mut [u16],
    used: usize,
    row: u16,
) -> CountAnswer
    ensures { AppendsEntryPlainly (table_of keys.now ids.now rows.now deps.now branches.now counts) frontier.old used row frontier.new result }
{
    let store = Store {
        keys,
        ids,
        rows,
        deps,
        branches,
        counts,
    };
    host::lists::snowknoll_append_entry(&store, frontier, used, row)
}

// Writes the packing list of a frontier to the start of out, and answers how many rows it has.
#[unsafe(no_mangle)]
pub extern "C" fn snowknoll_packing_list(
    keys: &[u8],
    ids: &[u8],
    rows: &[u16],
    deps: &[u16],
    branches: &[u16],
    counts: Counts,
    frontier: &[u16],
    out: &mut [u16],
) -> CountAnswer
    ensures { PacksPlainly (table_of keys.now ids.now rows.now deps.now branches.now counts) frontier.now out.old out.new result }
{
    let store = Store {
        keys,
        ids,
        rows,
        deps,
        branches,
        counts,
    };
    host::lists::snowknoll_packing_list(&store, frontier, out)
}
