// The calls on log states.
ghost use Rattle.store.specs.Clauses.{table_of};
ghost use Rattle.host.specs.Calls.{PrefixesPlainly, AppendsPlainly, MergesPlainly, ComparesPlainly};

use plain::states::State;
use plain::{PrefixAnswer, StateAnswer, YesAnswer};
use store::{Counts, Store};

// The prefix of rows a and b of one author, with its child toward each; 0 stands for none.
#[unsafe(no_mangle)]
pub extern "C" fn snowknoll_prefix(
    keys: &[u8],
    ids: &[u8],
    rows: &[u16],
    deps: &[u16],
    branches: &[u16],
    counts: Counts,
    a: u16,
    b: u16,
) -> PrefixAnswer
    ensures { PrefixesPlainly (table_of keys.now ids.now rows.now deps.now branches.now counts) a b result }
{
    let store = Store {
        keys,
        ids,
        rows,
        deps,
        branches,
        counts,
    };
    host::states::snowknoll_prefix(&store, a, b)
}

// The state with one more message, row, of its author.
#[unsafe(no_mangle)]
pub extern "C" fn snowknoll_append(
    keys: &[u8],
    ids: &[u8],
    rows: &[u16],
    deps: &[u16],
    branches: &[u16],
    counts: Counts,
    state: State,
    row: u16,
) -> StateAnswer
    ensures { AppendsPlainly (table_of keys.now ids.now rows.now deps.now branches.now counts) state row result }
{
    let store = Store {
        keys,
        ids,
        rows,
        deps,
        branches,
        counts,
    };
    host::states::snowknoll_append(&store, state, row)
}

// The merge of two states of one author.
#[unsafe(no_mangle)]
pub extern "C" fn snowknoll_merge(
    keys: &[u8],
    ids: &[u8],
    rows: &[u16],
    deps: &[u16],
    branches: &[u16],
    counts: Counts,
    first: State,
    second: State,
) -> StateAnswer
    ensures { MergesPlainly (table_of keys.now ids.now rows.now deps.now branches.now counts) first second result }
{
    let store = Store {
        keys,
        ids,
        rows,
        deps,
        branches,
        counts,
    };
    host::states::snowknoll_merge(&store, first, second)
}

// Whether the first of two states of one author is at or below the second.
#[unsafe(no_mangle)]
pub extern "C" fn snowknoll_at_or_below(
    keys: &[u8],
    ids: &[u8],
    rows: &[u16],
    deps: &[u16],
    branches: &[u16],
    counts: Counts,
    first: State,
    second: State,
) -> YesAnswer
    ensures { ComparesPlainly (table_of keys.now ids.now rows.now deps.now branches.now counts) first second result }
{
    let store = Store {
        keys,
        ids,
        rows,
        deps,
        branches,
        counts,
    };
    host::states::snowknoll_at_or_below(&store, first, second)
}
