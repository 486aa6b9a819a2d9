// A standing by keys and ids: written from a frontier, and read into another store's row numbers.
ghost use Rattle.store.specs.Clauses.{table_of};
ghost use Rattle.host.specs.Standing.{SendsPlainly, ReceivesPlainly};

use plain::CountAnswer;
use store::{Counts, Store};

// Writes what a frontier says by keys and ids to the start of out, an item of kind 3, and answers how many bytes it has.
#[unsafe(no_mangle)]
pub extern "C" fn snowknoll_write_standing(
    keys: &[u8],
    ids: &[u8],
    rows: &[u16],
    deps: &[u16],
    branches: &[u16],
    counts: Counts,
    f: &[u16],
    out: &mut [u8],
) -> CountAnswer
    ensures { SendsPlainly (table_of keys.now ids.now rows.now deps.now branches.now counts) f.now out.old out.new result }
{
    let store = Store {
        keys,
        ids,
        rows,
        deps,
        branches,
        counts,
    };
    host::standings::snowknoll_write_standing(&store, f, out)
}

// Reads an item of kind 3 into the store's own row numbers: writes the frontier to the start of out, and answers how many
// numbers it has.
#[unsafe(no_mangle)]
pub extern "C" fn snowknoll_read_standing(
    keys: &[u8],
    ids: &[u8],
    rows: &[u16],
    deps: &[u16],
    branches: &[u16],
    counts: Counts,
    item: &[u8],
    out: &mut [u16],
) -> CountAnswer
    ensures { ReceivesPlainly (table_of keys.now ids.now rows.now deps.now branches.now counts) item.now out.old out.new result }
{
    let store = Store {
        keys,
        ids,
        rows,
        deps,
        branches,
        counts,
    };
    host::standings::snowknoll_read_standing(&store, item, out)
}
