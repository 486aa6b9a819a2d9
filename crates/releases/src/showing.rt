// What is shown of an owner's entry: the walk along previous links from its last row to the first that carries the component.
ghost use Rattle.std.specs.Prelude.{ℕ, ◌≤◌, List, ◌≡◌, length};
ghost use Rattle.store.specs.Clauses.{AllChained};
ghost use Rattle.logs.specs.Held.{chain};
ghost use Rattle.logs.specs.States.{state_of};
ghost use Rattle.releases.specs.Current.{is_frozen, WalksTo};
ghost use Rattle.releases.specs.Calls.{MayShow, ShowsEntry};

use crate::Shown;
use answers::Refusal;
use basics::{narrow, wide};
use logs::{LogState, Phase};

// Whether a log is frozen.
fn is_frozen(state: LogState) -> bool
    ensures { result ≡ is_frozen (state_of state) }
{
    let phase = state.phase;
    match phase {
        Phase::Growing => false,
        Phase::Forked(_, _) => true,
    }
}

// The first row that carries the component, from a last row or none back; 0 where there is none.
fn walk_back(rows: &[u16], count: usize, components: &[u16], last: usize, component: u16) -> usize
    requires { AllChained rows.now count × ((last ≤ count) × (count ≤ length components.now)) }
    ensures { (result ≤ last) × ((ids : List ℕ) (n : ℕ) → WalksTo (chain ids rows.now n) components.now last component result) }
{
    let mut at = last;
    while at != 0 {
        if components[at - 1] == component {
            return at;
        }
        let row = store::row_at(rows, at);
        at = row.prev;
    }
    0
}

// What is shown of an entry, for callers that know the store to be well formed and the columns to have a place for each row.
pub fn show_entry(
    rows: &[u16],
    count: usize,
    components: &[u16],
    expanded: &[u8],
    state: LogState,
    component: u16,
) -> Result<Option<Shown>, Refusal>
    requires { MayShow rows.now components.now expanded.now count state.last }
    ensures { ShowsEntry rows.now components.now expanded.now state component result }
{
    let at = walk_back(rows, count, components, wide(state.last), component);
    if at == 0 {
        return Ok(None);
    }
    let row = store::row_at(rows, at);
    Ok(Some(Shown {
        row: narrow(at),
        index: narrow(row.index),
        expanded: expanded[at - 1] == 1,
        frozen: is_frozen(state),
    }))
}
