// The merge of two states.
ghost use Rattle.logs.specs.States.{Pair, Joined};

use super::adding::add_row;
use super::{LogState, Phase};
use store::Store;

// The state of the union of what both stand on: the second with the rows that the first stands on.
pub fn merge_states(store: &Store, first: LogState, second: LogState) -> LogState
    requires { Pair store.now.ids.now store.now.rows.now store.now.counts.rows first second }
    ensures { Joined store.now.ids.now store.now.rows.now store.now.counts.rows first second result }
{
    let phase = first.phase;
    match phase {
        Phase::Growing => add_row(store, second, first.last),
        Phase::Forked(low, high) => {
            let with_low = add_row(store, second, low);
            add_row(store, with_low, high)
        }
    }
}
