// The branches of a forked state.
ghost use Rattle.store.specs.Clauses.{table_of};
ghost use Rattle.host.specs.Calls.{ListsPlainly};

use plain::CountAnswer;
use plain::states::State;
use store::{Counts, Store};

// Writes every branch of a forked state to the start of out, two numbers each, and answers how many numbers it wrote.
#[unsafe(no_mangle)]
pub extern "C" fn snowknoll_branches(
    keys: &[u8],
    ids: &[u8],
    rows: &[u16],
    deps: &[u16],
    branches: &[u16],
    counts: Counts,
    state: State,
    out: &mut [u16],
) -> CountAnswer
    ensures { ListsPlainly (table_of keys.now ids.now rows.now deps.now branches.now counts) state out.old out.new result }
{
    let store = Store {
        keys,
        ids,
        rows,
        deps,
        branches,
        counts,
    };
    host::reviewing::snowknoll_branches(&store, state, out)
}
