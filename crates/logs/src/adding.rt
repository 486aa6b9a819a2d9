// One row more: the work of append and merge.
ghost use Rattle.logs.specs.States.{Addable, Added};

use super::climbing::climb;
use super::evidence::{sorted, with_child};
use super::{LogState, Phase};
use store::Store;

// The state with one more row and all before it. The counts say which rows are in use: only the contract speaks of them.
pub fn add_row(store: &Store, state: LogState, row: u16) -> LogState
    requires { Addable store.now.ids.now store.now.rows.now store.now.counts.rows state row }
    ensures { Added store.now.ids.now store.now.rows.now store.now.counts.rows state row result }
{
    let Store { ids, rows, .. } = *store;
    let author = state.author;
    let last = state.last;
    let prefix = climb(rows, last, row);
    if prefix.row == row {
        return state;
    }
    if prefix.row != last {
        let phase = sorted(ids, prefix.first, prefix.second);
        return LogState {
            author,
            last: prefix.row,
            phase,
        };
    }
    let phase = state.phase;
    match phase {
        Phase::Growing => LogState {
            author,
            last: row,
            phase,
        },
        Phase::Forked(low, high) => {
            let phase = with_child(ids, low, high, prefix.second);
            LogState {
                author,
                last,
                phase,
            }
        }
    }
}
